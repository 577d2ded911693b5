// Cross and meets: the candidates of each pair of strings of two lists, grown. Inner: not a public call.
ghost use Rattle.std.specs.Prelude.{◌≡◌, [], ◌≤◌, length};
ghost use Rattle.model.specs.Groups.{Bits};
ghost use Rattle.model.specs.Growth.{Entries, grow_all};
ghost use Rattle.model.specs.Tables.{relevant as relevant_list, irrelevant as irrelevant_list};
ghost use Rattle.words.specs.Words.{set_word};
ghost use Rattle.lists.specs.WorkingLists.{Holds, Within, Makes};
ghost use Rattle.candidates.specs.Pairs.{pairs_of};

use crate::Pairing;
use lists::row_growth::{Filter, Growing, Plain};

// Grows an empty list by the candidates of each string of a with each of b, the first's outermost, in either way of
// growing by rows. `row` is room.
fn pairs_by<G: Growing>(
    op: Pairing,
    a: &[u64; 256],
    an: usize,
    b: &[u64; 256],
    bn: usize,
    l: u32,
    list: &mut [u64; 256],
    row: &mut [u64; 256],
) -> Option<usize>
    requires { (an ≤ 256) × (bn ≤ 256) × (l ≤ 32) }
    ensures within { Within result }
    ensures made { (α β : Entries) → Holds l a.now an α → Holds l b.now bn β
        → Makes l list.new result (grow_all [] (pairs_of op α β)) }
{
    let mut growing = G::start(l);
    let mut n = 0;
    for &x in &a[..an] {
        let m = crate::rows::pair_row(op, b, bn, x, row);
        n = growing.grow_row(list, n, l, row, m)?;
    }
    Some(n)
}

// The same; from 128 candidates on a filter is worth its making.
pub fn pairs(
    op: Pairing,
    a: &[u64; 256],
    an: usize,
    b: &[u64; 256],
    bn: usize,
    l: u32,
    list: &mut [u64; 256],
    row: &mut [u64; 256],
) -> Option<usize>
    requires { (an ≤ 256) × (bn ≤ 256) × (l ≤ 32) }
    ensures within { Within result }
    ensures made { (α β : Entries) → Holds l a.now an α → Holds l b.now bn β
        → Makes l list.new result (grow_all [] (pairs_of op α β)) }
{
    if an * bn < 128 {
        return pairs_by::<Plain>(op, a, an, b, bn, l, list, row);
    }
    pairs_by::<Filter>(op, a, an, b, bn, l, list, row)
}

// The same as `relevant`, the list grown by the meets of one entry at a time, which needs no list of the strings met. `row` is
// room.
pub fn relevant_by_entry(
    t: &[u64; 256],
    tn: usize,
    l: u32,
    m: u32,
    list: &mut [u64; 256],
    row: &mut [u64; 256],
) -> Option<usize>
    requires { (tn ≤ 256) × (l ≤ 32) }
    ensures within { Within result }
    ensures made { (τ : Entries) (k : Bits) → Holds l t.now tn τ → length k ≡ l → m ≡ set_word k
        → Makes l list.new result (relevant_list k τ) }
{
    let mut n = 0;
    for &e in &t[..tn] {
        let k = crate::rows::relevant_row(e, m, row);
        n = lists::growth::grow_each(list, n, l, row, k)?;
    }
    Some(n)
}

// The same as `irrelevant`, all meets in one row. `row` is room.
pub fn irrelevant_in_row(
    t: &[u64; 256],
    tn: usize,
    l: u32,
    m: u32,
    list: &mut [u64; 256],
    row: &mut [u64; 256],
) -> Option<usize>
    requires { (tn ≤ 256) × (l ≤ 32) }
    ensures within { Within result }
    ensures made { (τ : Entries) (k : Bits) → Holds l t.now tn τ → length k ≡ l → m ≡ set_word k
        → Makes l list.new result (irrelevant_list k τ) }
{
    let k = crate::rows::pair_row(Pairing::Meet, t, tn, (m as u64) << 32, row);
    lists::growth::grow_each(list, 0, l, row, k)
}

// The relevant entries: each entry's meets with the strings that have 1 at a variable of the set m. `other` and `row` are
// room. It stays beside `relevant_by_entry` for its promise.
pub fn relevant(
    t: &[u64; 256],
    tn: usize,
    l: u32,
    m: u32,
    list: &mut [u64; 256],
    other: &mut [u64; 256],
    row: &mut [u64; 256],
) -> Option<usize>
    requires { (tn ≤ 256) × (l ≤ 32) }
    ensures within { Within result }
    ensures made { (τ : Entries) (k : Bits) → Holds l t.now tn τ → length k ≡ l → m ≡ set_word k
        → Makes l list.new result (relevant_list k τ) }
{
    let k = crate::rows::ones_row(m, l, other);
    pairs(Pairing::Meet, t, tn, other, k, l, list, row)
}

// The irrelevant entries: each entry's meet with the string that has 0 at all variables of the set m. `other` and `row` are
// room. It stays beside `irrelevant_in_row` for its promise.
pub fn irrelevant(
    t: &[u64; 256],
    tn: usize,
    l: u32,
    m: u32,
    list: &mut [u64; 256],
    other: &mut [u64; 256],
    row: &mut [u64; 256],
) -> Option<usize>
    requires { (tn ≤ 256) × (l ≤ 32) }
    ensures within { Within result }
    ensures made { (τ : Entries) (k : Bits) → Holds l t.now tn τ → length k ≡ l → m ≡ set_word k
        → Makes l list.new result (irrelevant_list k τ) }
{
    other[0] = (m as u64) << 32;
    pairs(Pairing::Meet, t, tn, other, 1, l, list, row)
}
