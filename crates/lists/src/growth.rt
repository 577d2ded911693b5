// Growing a working list (01, "The growth rule"). Inner: not a public call.
// What grows a list returns its new count, or `None` where the list is full: it needs entry 257.
ghost use Rattle.std.specs.Prelude.{◌≡◌, false, not, ℕ, ◌-◌, ◌≤◌, ◌<◌, length, get_or};
ghost use Rattle.model.specs.Growth.{Entries, subsumed as subsumed_list, remove, append as append_to};
ghost use Rattle.model.specs.Growth.{grow as grow_list, grow_all};
ghost use Rattle.words.specs.Words.{subsumes_word};
ghost use Rattle.tables.specs.Lists.{some_from};
ghost use Rattle.tables.specs.Values.{all_from};
ghost use Rattle.lists.specs.WorkingLists.{Holds, OfString, OfWords, Within, Makes, Free};

use tables::Table;

// Does one of the strings from j up to end subsume y?
pub fn some_subsumes(list: &[u64], j: usize, end: usize, y: u64) -> bool
    requires { (j ≤ end) × (end ≤ length list.now) }
    ensures { result ≡ some_from j (end - j) (λ i. subsumes_word (get_or list.now i 0) y) }
{
    let mut found = false;
    for &e in &list[j..end] {
        found |= words::subsumes(e, y);
    }
    found
}

// Does an entry subsume y? By blocks of 8, up to the first that has one; the last block may overlap the one before.
pub fn subsumed(list: &[u64], y: u64) -> bool
    ensures words { result ≡ some_from 0 (length list.now) (λ i. subsumes_word (get_or list.now i 0) y) }
    ensures strings { (l : ℕ) → OfWords l list.now y (λ τ s. result ≡ subsumed_list τ s) }
{
    let n = list.len();
    if n < 8 {
        return some_subsumes(list, 0, n, y);
    }
    // the blocks that begin before the last one
    for b in 0..(n - 1) / 8 {
        if some_subsumes(list, 8 * b, 8 * b + 8, y) {
            return true;
        }
    }
    some_subsumes(list, n - 8, n, y)
}

// Does y subsume none of the 8 entries from j on?
fn eight_free(list: &[u64; 256], j: usize, y: u64) -> bool
    requires { j ≤ 248 }
    ensures { result ≡ all_from j 8 (λ i. not (subsumes_word y (get_or list.now i 0))) }
{
    let mut free = true;
    for &e in &list[j..j + 8] {
        free &= !words::subsumes(y, e);
    }
    free
}

// An index with no entry before it that y subsumes. How far it goes, here by whole blocks of 8, is a matter of speed alone.
fn free_up_to(list: &[u64; 256], n: usize, y: u64) -> usize
    requires { n ≤ 256 }
    ensures { (result ≤ n) × Free list.now y result }
{
    let blocks = n / 8;
    for b in 0..blocks {
        if !eight_free(list, 8 * b, y) {
            return 8 * b;
        }
    }
    8 * blocks
}

// Keeps, in order, the entries that y does not subsume, given that those before j are such. The number kept.
fn pack(list: &mut [u64; 256], j: usize, n: usize, y: u64) -> usize
    requires { (j ≤ n) × (n ≤ 256) }
    ensures within { result ≤ n }
    ensures made { (l : ℕ) → OfString l list.old n y (λ τ s.
        Free list.old y j → Holds l list.new result (remove s τ)) }
{
    let mut k = j;
    for i in j..n {
        let e = list[i];
        list[k] = e;
        if !words::subsumes(y, e) {
            k += 1;
        }
    }
    k
}

// Appends y.
pub fn append(list: &mut [u64; 256], n: usize, y: u64) -> Option<usize>
    requires { n ≤ 256 }
    ensures within { Within result }
    ensures made { (l : ℕ) → OfString l list.old n y (λ τ s. Makes l list.new result (append_to τ s)) }
{
    if n < Table::ENTRIES {
        list[n] = y;
        Some(n + 1)
    } else {
        None
    }
}

// Appends y, a string of l positions that no entry subsumes, in place of the entries that it subsumes. A string without `*`
// subsumes none of them.
pub fn insert(list: &mut [u64; 256], n: usize, l: u32, y: u64) -> Option<usize>
    requires { (n ≤ 256) × (l ≤ 32) }
    ensures within { Within result }
    ensures made { OfString l list.old n y (λ τ s.
        subsumed_list τ s ≡ false → Makes l list.new result (append_to (remove s τ) s)) }
{
    if words::starless(l, y) {
        return append(list, n, y);
    }
    let j = free_up_to(list, n, y);
    let kept = pack(list, j, n, y);
    append(list, kept, y)
}

// Grows the list by y, a string of l positions.
pub fn grow(list: &mut [u64; 256], n: usize, l: u32, y: u64) -> Option<usize>
    requires { (n ≤ 256) × (l ≤ 32) }
    ensures within { Within result }
    ensures made { OfString l list.old n y (λ τ s. Makes l list.new result (grow_list τ s)) }
{
    let z = crate::widening::fresh(list, n, l, y);
    if words::is_zero(l, z) {
        return Some(n);
    }
    insert(list, n, l, z)
}

// Grows the list by each of the m strings of a row, in order, up to the first that is full.
pub fn grow_each(
    list: &mut [u64; 256],
    n: usize,
    l: u32,
    row: &[u64; 256],
    m: usize,
) -> Option<usize>
    requires { (n ≤ 256) × (l ≤ 32) × (m ≤ 256) }
    ensures within { Within result }
    ensures made { (τ ρ : Entries) → Holds l list.old n τ → Holds l row.now m ρ
        → Makes l list.new result (grow_all τ ρ) }
{
    let mut k = n;
    for &y in &row[..m] {
        k = grow(list, k, l, y)?;
    }
    Some(k)
}
