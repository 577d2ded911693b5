// Widening against a working list (01, "Widen"; in the field: expansion of a cube against a cover). Inner: not a public call.
// Only an entry that lacks at most one position of y can open a position of y or subsume what comes out. Of a list of at most
// 128 entries what widening needs of these, their shades, is gathered in the upper half of the array, which is room.
ghost use Rattle.std.specs.Prelude.{◌≡◌, false, ℕ, ◌≤◌};
ghost use Rattle.model.specs.Strings.{Trits, all_zero};
ghost use Rattle.model.specs.Growth.{Entries, subsumed as subsumed_list, widen as widen_list};
ghost use Rattle.words.specs.Words.{word, set_word};
ghost use Rattle.lists.specs.WorkingLists.{Holds, OfString};
ghost use Rattle.lists.specs.Widening.{half, near_list, open_set as open_set_of, Gathered, Shaded, Ready, OfWidened};
ghost use Rattle.lists.specs.Widening.{Scanned, Surveyed, fresh_word};

// A list of no more entries leaves the upper half of its array as room.
const UPPER: usize = 128;

// Gathers the entries near y in the upper half, in order. Their number.
fn gather(list: &mut [u64; 256], n: usize, y: u64) -> usize
    requires { n ≤ half }
    ensures few { result ≤ n }
    ensures made { (l : ℕ) → OfString l list.old n y (λ τ s.
        Holds l list.new n τ × Gathered word list.new result (near_list τ s)) }
{
    let mut k = 0;
    for i in 0..n {
        let e = list[i];
        list[UPPER + k] = e;
        if words::near(e, y) {
            k += 1;
        }
    }
    k
}

// Puts the shades of k gathered entries in their places.
fn shade_each(list: &mut [u64; 256], k: usize, y: u64)
    requires { k ≤ half }
    ensures { (l n : ℕ) (τ ν : Entries) (s : Trits) → n ≤ half → Holds l list.old n τ
        → Gathered word list.old k ν → y ≡ word s
        → Holds l list.new n τ × Shaded s list.new k ν }
{
    for shade in &mut list[UPPER..UPPER + k] {
        *shade = words::shade(*shade, y);
    }
}

// Makes a list ready for widening y. The number of shades, 0 for a long list.
pub fn prepare(list: &mut [u64; 256], n: usize, y: u64) -> usize
    requires { n ≤ 256 }
    ensures few { result ≤ half }
    ensures made { (l : ℕ) → OfString l list.old n y (λ τ s. Ready l list.new n result τ s) }
{
    if UPPER < n {
        return 0;
    }
    let k = gather(list, n, y);
    shade_each(list, k, y);
    k
}

// What k shades say of the positions of z that open. It puts bits together, where `shades_subsume` puts flags.
fn shade_set(list: &[u64; 256], k: usize, y: u64, z: u64) -> u64
    requires { k ≤ half }
    ensures { (τ : Entries) (s t : Trits) → Shaded s list.now k (near_list τ s)
        → OfWidened y z τ s t (result ≡ set_word (open_set_of (near_list τ s) t)) }
{
    let mut found = 0u64;
    for &shade in &list[UPPER..UPPER + k] {
        found |= words::shade_openings(shade, y, z);
    }
    found
}

// The fixed positions of z at which z with that value flipped is subsumed by one of n entries.
fn entry_set(list: &[u64; 256], n: usize, z: u64) -> u64
    requires { n ≤ 256 }
    ensures { (l : ℕ) → OfString l list.now n z (λ τ t. result ≡ set_word (open_set_of τ t)) }
{
    let mut found = 0u64;
    for &e in &list[..n] {
        found |= words::openings(e, z);
    }
    found
}

// The same of a list that is ready for widening y, where z is y with some positions made `*`.
fn open_set(list: &[u64; 256], n: usize, k: usize, y: u64, z: u64) -> u64
    requires { (n ≤ 256) × (k ≤ half) }
    ensures { (l : ℕ) (τ : Entries) (s t : Trits) → Ready l list.now n k τ s
        → OfWidened y z τ s t (result ≡ set_word (open_set_of τ t)) }
{
    if UPPER < n {
        return entry_set(list, n, z);
    }
    shade_set(list, k, y, z)
}

// Widens y, a string of l positions, against a list that is ready for it. A pass finds the first position from i on that
// becomes `*`; the next pass starts behind it, with the string as it then is. What may open only shrinks, so the pass that
// finds one position alone is the last.
pub fn widen(list: &[u64; 256], n: usize, k: usize, l: u32, y: u64) -> u64
    requires { (n ≤ 256) × (k ≤ half) × (l ≤ 32) }
    ensures { (τ : Entries) (s : Trits) → Ready l list.now n k τ s → y ≡ word s → result ≡ word (widen_list τ s) }
{
    let mut z = y;
    let mut i = 0u32;
    // A `while`: the index jumps behind the position that was found.
    while i < l {
        if words::fixed_count(z) <= 1 {
            return z;
        }
        let open = open_set(list, n, k, y, z) >> i;
        if open == 0 {
            return z;
        }
        let skip = u64::trailing_zeros(open);
        if l - i <= skip {
            return z;
        }
        z = words::starred(z, i + skip);
        if (open >> skip) == 1 {
            return z;
        }
        i += skip + 1;
    }
    z
}

// Does one of the entries that k shades are of subsume z? It puts flags together, where `shade_set` puts bits.
fn shades_subsume(list: &[u64; 256], k: usize, y: u64, z: u64) -> bool
    requires { k ≤ half }
    ensures { (τ : Entries) (s t : Trits) → Shaded s list.now k (near_list τ s)
        → OfWidened y z τ s t (result ≡ subsumed_list (near_list τ s) t) }
{
    let mut found = false;
    for &shade in &list[UPPER..UPPER + k] {
        found |= words::shade_subsumes(shade, y, z);
    }
    found
}

// Does an entry subsume z, which y was widened to?
pub fn covered(list: &[u64; 256], n: usize, k: usize, y: u64, z: u64) -> bool
    requires { (n ≤ 256) × (k ≤ half) }
    ensures { (l : ℕ) (τ : Entries) (s t : Trits) → Ready l list.now n k τ s
        → OfWidened y z τ s t (result ≡ subsumed_list τ t) }
{
    if UPPER < n {
        return crate::growth::subsumed(&list[..n], z);
    }
    shades_subsume(list, k, y, z)
}

// y, a string of l positions that is not all zero, widened against a list that is ready for it; the all-zero string where an
// entry subsumes that.
fn widened(list: &[u64; 256], n: usize, k: usize, l: u32, y: u64) -> u64
    requires { (n ≤ 256) × (k ≤ half) × (l ≤ 32) }
    ensures { (τ : Entries) (s : Trits) → Ready l list.now n k τ s → y ≡ word s → all_zero s ≡ false
        → result ≡ fresh_word l τ s }
{
    let z = widen(list, n, k, l, y);
    if covered(list, n, k, y, z) {
        return words::zero(l);
    }
    z
}

// What a scan of the entries finds of a string: the bits that it lacks alone of an entry, the words of the entries that subsume
// it, each put together by "or", and whether there is one. No Option: the scan has no branch.
#[derive(Clone, Copy, Debug, PartialEq, Eq)]
struct Sums {
    lacks: u64,
    over: u64,
    found: bool,
}

// Scans n entries for y. Two sums and a flag for all of them, with no exit: vector code.
fn scan(list: &[u64; 256], n: usize, y: u64) -> Sums
    requires { n ≤ 256 }
    ensures { Scanned list.now n y result.lacks result.over result.found }
{
    let mut lacks = 0u64;
    let mut over = 0u64;
    let mut found = false;
    for &e in &list[..n] {
        lacks |= words::lone_lack(e, y);
        over |= words::if_over(e, y);
        found |= words::subsumes(e, y);
    }
    Sums {
        lacks: lacks,
        over: over,
        found: found,
    }
}

// What one scan of a list says of growing it by a string.
#[derive(Clone, Copy, Debug, PartialEq, Eq)]
pub enum Standing {
    // It changes nothing.
    Absorbed,
    // The string comes in as it is: no entry subsumes it or opens a position of it.
    Stays,
    // It is to be widened.
    Open,
}

// Surveys a list for y. Where the entries that subsume y fix none of the positions that others open, one of them subsumes
// whatever y would be widened to.
pub fn survey(list: &[u64; 256], n: usize, y: u64) -> Standing
    requires { n ≤ 256 }
    ensures { (l : ℕ) → OfString l list.now n y (λ τ s. Surveyed τ s result) }
{
    let s = scan(list, n, y);
    let edges = words::fixed(s.lacks) & words::fixed(y);
    if s.found {
        if (edges & words::fixed(s.over)) == 0 {
            return Standing::Absorbed;
        }
        return Standing::Open;
    }
    if edges == 0 {
        return Standing::Stays;
    }
    Standing::Open
}

// y, a string of l positions, widened against the list; the all-zero string where growing the list by y changes nothing.
pub fn fresh(list: &mut [u64; 256], n: usize, l: u32, y: u64) -> u64
    requires { (n ≤ 256) × (l ≤ 32) }
    ensures { OfString l list.old n y (λ τ s. Holds l list.new n τ × (result ≡ fresh_word l τ s)) }
{
    if words::is_zero(l, y) {
        return y;
    }
    match survey(list, n, y) {
        Standing::Absorbed => words::zero(l),
        Standing::Stays => y,
        Standing::Open => {
            let k = prepare(list, n, y);
            widened(list, n, k, l, y)
        }
    }
}
