// Rows of candidate strings, each of one list and one string or set, written into a lent array. Inner: not a public call.
// Each answers how many strings the row has.
ghost use Rattle.std.specs.Prelude.{◌≡◌, map, ℕ, ◌≤◌, length};
ghost use Rattle.model.specs.Groups.{Bits, cut as cut_string};
ghost use Rattle.model.specs.Strings.{Trits, or_strings, ones};
ghost use Rattle.model.specs.Growth.{Entries};
ghost use Rattle.model.specs.Tables.{meets_with, kept};
ghost use Rattle.words.specs.Words.{word, set_word};
ghost use Rattle.lists.specs.WorkingLists.{Holds, OfString};
ghost use Rattle.candidates.specs.Pairs.{row_of};

use crate::Pairing;

// "a or b" for each b of the list.
fn or_row(list: &[u64; 256], n: usize, a: u64, row: &mut [u64; 256])
    requires { n ≤ 256 }
    ensures { (l : ℕ) → OfString l list.now n a (λ τ s. Holds l row.new n (map (or_strings s) τ)) }
{
    for i in 0..n {
        row[i] = words::or(a, list[i]);
    }
}

// The meets of a with the strings of the list that it matches.
fn meet_row(list: &[u64; 256], n: usize, a: u64, row: &mut [u64; 256]) -> usize
    requires { n ≤ 256 }
    ensures few { result ≤ 256 }
    ensures made { (l : ℕ) → OfString l list.now n a (λ τ s. Holds l row.new result (meets_with s τ)) }
{
    let mut k = 0;
    for &e in &list[..n] {
        row[k] = words::meet(a, e);
        if words::matches(a, e) {
            k += 1;
        }
    }
    k
}

// The candidates of a with each string of the list.
pub fn pair_row(op: Pairing, list: &[u64; 256], n: usize, a: u64, row: &mut [u64; 256]) -> usize
    requires { n ≤ 256 }
    ensures few { result ≤ 256 }
    ensures made { (l : ℕ) → OfString l list.now n a (λ τ s. Holds l row.new result (row_of op s τ)) }
{
    match op {
        Pairing::Or => {
            or_row(list, n, a, row);
            n
        }
        Pairing::Meet => meet_row(list, n, a, row),
    }
}

// Each string of the list cut to the positions of keep.
pub fn cut_row(list: &[u64; 256], n: usize, keep: u32, row: &mut [u64; 256])
    requires { n ≤ 256 }
    ensures { (k : Bits) (τ : Entries) → Holds (length k) list.now n τ → keep ≡ set_word k
        → Holds (kept k) row.new n (map (cut_string k) τ) }
{
    for i in 0..n {
        row[i] = words::cut(keep, list[i]);
    }
}

// For each of the l variables that the set m has, rising, the string with 1 there and `*` elsewhere.
pub fn ones_row(m: u32, l: u32, row: &mut [u64; 256]) -> usize
    requires { l ≤ 32 }
    ensures few { result ≤ 256 }
    ensures made { (k : Bits) → length k ≡ l → m ≡ set_word k → Holds l row.new result (ones k) }
{
    let mut k = 0;
    for i in 0..l {
        if (m >> i) % 2 == 1 {
            row[k] = 1u64 << i;
            k += 1;
        }
    }
    k
}

// The meets of e with the strings that have 1 at a variable of the set m and `*` elsewhere, rising, where they match: that is
// where e has no 0. A turn takes the lowest variable that is left.
pub fn relevant_row(e: u64, m: u32, row: &mut [u64; 256]) -> usize
    ensures few { result ≤ 256 }
    ensures made { (s : Trits) (k : Bits) → length s ≤ 32 → length k ≡ length s → e ≡ word s → m ≡ set_word k
        → Holds (length s) row.new result (meets_with s (ones k)) }
{
    let named = m as u64;
    let mut left = named ^ (named & (e >> 32));
    let mut k = 0;
    // A `while`: it goes by the bits that are left.
    while left != 0 {
        row[k] = words::meet(e, 1u64 << u64::trailing_zeros(left));
        k += 1;
        left &= left - 1;
    }
    k
}
