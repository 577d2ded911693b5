// Growing a working list by rows whose strings come again and again. Inner: not a public call.
// A filter holds strings by which growing the list changed nothing, each with the positions that its widening left fixed and
// with the version that the list had then. The version rises with each string appended, so the strings appended since then
// are the last ones of the list; while none of them stirs the string, the list does not change by it now. One filter serves
// a whole cross or close.
ghost use Rattle.std.specs.Prelude.{◌≡◌, true, false, [], ◌∷◌, ◌++◌, ℕ, ◌≤◌, ◌<◌, T, length};
ghost use Rattle.std.proofs.Math.Option.{some};
ghost use Rattle.model.specs.Strings.{Trits, subsumes, all_zero};
ghost use Rattle.model.specs.Growth.{Entries, remove, absorbed, grow as grow_list, grow_all};
ghost use Rattle.words.specs.Words.{word, care_of};
ghost use Rattle.lists.specs.WorkingLists.{Holds, OfString, Within, Makes};
ghost use Rattle.lists.specs.Filters.{Idle, QuietFrom, slots, Filters, Seen};

use crate::widening::Standing;

// A filter has so many slots.
const SLOTS: usize = 512;

// The place of the list's version, after the strings of the slots and what is noted of them.
const VERSION: usize = 1024;

// A filter has so many words. One filled with the word of the all-zero string is good for any list.
pub const SIZE: usize = 1025;

// 2^32 divided by the golden ratio: the upper bits of a product with it are spread well (Fibonacci hashing).
const FACTOR: u64 = 2654435769;

// The slot of a string. Which one it is, is a matter of speed alone.
fn slot(y: u64) -> usize
    ensures { result < slots }
{
    ((((y ^ (y >> 17)) % words::HALF) * FACTOR) >> 22) as usize % SLOTS
}

// An index from j up to m with only strings before it that stand in a slot of the list's version.
fn unseen(row: &[u64; 256], j: usize, m: usize, seen: &[u64; SIZE]) -> usize
    requires { (j ≤ m) × (m ≤ 256) }
    ensures { (j ≤ result) × (result ≤ m) × Seen row.now seen.now j result }
{
    let version = seen[VERSION] % words::HALF;
    for i in j..m {
        let y = row[i];
        let s = slot(y);
        if (seen[s] != y) | (seen[SLOTS + s] % words::HALF != version) {
            return i;
        }
    }
    m
}

// Notes y, by which growing the list changes nothing, and the positions that its widening leaves fixed.
fn note(seen: &mut [u64; SIZE], y: u64, kept: u64)
    ensures { (l : ℕ) (τ : Entries) (s z : Trits) → l ≤ 32 → Filters l seen.old τ → length s ≡ l → y ≡ word s
        → kept ≡ care_of z → T (subsumes z s) → Idle τ s z → Filters l seen.new τ }
{
    let s = slot(y);
    let version = seen[VERSION] % words::HALF;
    seen[s] = y;
    seen[SLOTS + s] = (kept << 32) | version;
}

// The next version, for the list with a string appended in place of those that it subsumes.
fn next_version(l: u32, seen: &mut [u64; SIZE])
    requires { l ≤ 32 }
    ensures { (τ : Entries) (e : Trits) → Filters l seen.old τ
        → Filters l seen.new (remove e τ ++ (e ∷ [])) }
{
    let version = seen[VERSION] % words::HALF;
    if version < words::LOW {
        seen[VERSION] = version + 1;
        return;
    }
    // no version is left: the filter starts anew
    *seen = [words::zero(l); SIZE];
}

// Does none of the entries from j on stir y, whose widening left the positions of `kept` fixed?
fn quiet(list: &[u64; 256], j: usize, n: usize, y: u64, kept: u64) -> bool
    requires { n ≤ 256 }
    ensures { (l : ℕ) → OfString l list.now n y (λ τ s.
        (z : Trits) → kept ≡ care_of z → T (subsumes z s) → result ≡ true → QuietFrom τ s z j n) }
{
    for i in j..n {
        if words::stirs(list[i], y, kept) {
            return false;
        }
    }
    true
}

// Is it known that growing the list by y changes nothing? Then its slot gets the list's version.
fn renewed(list: &[u64; 256], n: usize, y: u64, seen: &mut [u64; SIZE]) -> bool
    requires { n ≤ 256 }
    ensures { (l : ℕ) → OfString l list.now n y (λ τ s.
        Filters l seen.old τ → Filters l seen.new τ × (result ≡ true → T (absorbed τ s))) }
{
    let s = slot(y);
    if seen[s] != y {
        return false;
    }
    let noted = seen[SLOTS + s];
    let version = seen[VERSION] % words::HALF;
    let reach = (n as u64) + noted % words::HALF;
    if reach < version {
        return false;
    }
    // what was appended since then stands from here on
    let from = (reach - version) as usize;
    let kept = noted >> 32;
    if !quiet(list, from, n, y, kept) {
        return false;
    }
    note(seen, y, kept);
    true
}

// Grows the list by y, which is not all zero, and notes it: once the list is grown by it, it changes nothing.
fn grow_widened(
    list: &mut [u64; 256],
    n: usize,
    l: u32,
    y: u64,
    seen: &mut [u64; SIZE],
) -> Option<usize>
    requires { (n ≤ 256) × (l ≤ 32) }
    ensures within { Within result }
    ensures made { OfString l list.old n y (λ τ s.
        all_zero s ≡ false → Makes l list.new result (grow_list τ s)) }
    ensures filter { OfString l list.old n y (λ τ s.
        (κ : Entries) → all_zero s ≡ false → Filters l seen.old τ → grow_list τ s ≡ some κ
        → Filters l seen.new κ) }
{
    let k = crate::widening::prepare(list, n, y);
    let z = crate::widening::widen(list, n, k, l, y);
    let kept = words::fixed(z);
    if crate::widening::covered(list, n, k, y, z) {
        note(seen, y, kept);
        return Some(n);
    }
    next_version(l, seen);
    note(seen, y, kept);
    crate::growth::insert(list, n, l, z)
}

// The same by a survey of the list, where that is enough.
fn grow_surveyed(
    list: &mut [u64; 256],
    n: usize,
    l: u32,
    y: u64,
    seen: &mut [u64; SIZE],
) -> Option<usize>
    requires { (n ≤ 256) × (l ≤ 32) }
    ensures within { Within result }
    ensures made { OfString l list.old n y (λ τ s.
        all_zero s ≡ false → Makes l list.new result (grow_list τ s)) }
    ensures filter { OfString l list.old n y (λ τ s.
        (κ : Entries) → all_zero s ≡ false → Filters l seen.old τ → grow_list τ s ≡ some κ
        → Filters l seen.new κ) }
{
    match crate::widening::survey(list, n, y) {
        Standing::Absorbed => Some(n),
        Standing::Stays => {
            next_version(l, seen);
            note(seen, y, words::fixed(y));
            crate::growth::insert(list, n, l, y)
        }
        Standing::Open => grow_widened(list, n, l, y, seen),
    }
}

// Grows the list by y, a string of l positions, and notes it. A string without `*` is widened at once: a survey says of few of
// these that it is enough. Not inlined: within the loop over a row the scan of the list took up to a third longer, by where
// the linker put it (measured).
#[inline(never)]
fn grow_noted(
    list: &mut [u64; 256],
    n: usize,
    l: u32,
    y: u64,
    seen: &mut [u64; SIZE],
) -> Option<usize>
    requires { (n ≤ 256) × (l ≤ 32) }
    ensures within { Within result }
    ensures made { OfString l list.old n y (λ τ s.
        Filters l seen.old τ → Makes l list.new result (grow_list τ s)) }
    ensures filter { OfString l list.old n y (λ τ s.
        (κ : Entries) → Filters l seen.old τ → grow_list τ s ≡ some κ → Filters l seen.new κ) }
{
    if words::is_zero(l, y) {
        return Some(n);
    }
    if renewed(list, n, y, seen) {
        return Some(n);
    }
    if words::starless(l, y) {
        return grow_widened(list, n, l, y, seen);
    }
    grow_surveyed(list, n, l, y, seen)
}

// Grows the list by each of the m strings of a row, in order, up to the first that is full. Those that stand in a slot of
// the list's version are skipped.
pub fn grow_unseen(
    list: &mut [u64; 256],
    n: usize,
    l: u32,
    row: &[u64; 256],
    m: usize,
    seen: &mut [u64; SIZE],
) -> Option<usize>
    requires { (n ≤ 256) × (l ≤ 32) × (m ≤ 256) }
    ensures within { Within result }
    ensures made { (τ ρ : Entries) → Holds l list.old n τ → Holds l row.now m ρ
        → Filters l seen.old τ → Makes l list.new result (grow_all τ ρ) }
    ensures filter { (τ ρ κ : Entries) → Holds l list.old n τ → Holds l row.now m ρ
        → Filters l seen.old τ → grow_all τ ρ ≡ some κ → Filters l seen.new κ }
{
    let mut k = n;
    let mut j = unseen(row, 0, m, seen);
    // A `while`: the index jumps to the next string that does not stand in its slot.
    while j < m {
        k = grow_noted(list, k, l, row[j], seen)?;
        j = unseen(row, j + 1, m, seen);
    }
    Some(k)
}
