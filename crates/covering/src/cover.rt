// Is every group that a string covers covered by a list? Inner: not a public call.
// `covered` calls itself no deeper than the string has stars: each call has one position more fixed, or several.
ghost use Rattle.std.specs.Prelude.{◌≡◌, true, false, not, ◌&&◌, ℕ, ◌^◌, ◌≤◌, ◌<◌, length, IfSome, MatchOption};
ghost use Rattle.model.specs.Strings.{Trits, covers, matches, fixed};
ghost use Rattle.model.specs.Growth.{covered as covered_list};
ghost use Rattle.words.specs.Words.{word, opposed_word};
ghost use Rattle.lists.specs.WorkingLists.{OfWords};
ghost use Rattle.covering.specs.Covering.{Narrows, Nearest, agreed as agreed_string, all_covered};

// y with what each group has that y covers and v does not: where y lacks just one position of v, the opposite of v there,
// which y has already where the two do not match. Else y as it is. (In the field: unit propagation; it fixes a position that
// is forced.)
fn narrowed_by(v: u64, y: u64) -> u64
    ensures more { y ≤ result }
    ensures strings { (s t : Trits) → length s ≡ length t → length s ≤ 32 → v ≡ word s → y ≡ word t
        → Narrows (covers s) t result }
{
    let w = (v & y) ^ v;
    if w == 0 {
        return y;
    }
    if (w & (w - 1)) != 0 {
        return y;
    }
    words::opposite(w) | y
}

// y with what each group has that y covers and no entry does, by one entry after another: one round of unit propagation.
fn narrowed(list: &[u64], y: u64) -> u64
    ensures more { y ≤ result }
    ensures strings { (l : ℕ) → OfWords l list.now y (λ τ s. Narrows (covered_list τ) s result) }
{
    let mut x = y;
    for &v in list {
        x = narrowed_by(v, x);
    }
    x
}

// How many pieces v leaves of y, where they match: one for each position that is fixed in v and `*` in y.
fn rank(v: u64, y: u64) -> Option<u32>
    ensures bound { IfSome result (λ k. k ≤ 64) }
    ensures strings { (s t : Trits) → length s ≡ length t → length s ≤ 32 → v ≡ word s → y ≡ word t
        → MatchOption result (matches s t ≡ false) (λ k. matches s t ≡ true) }
{
    if !words::matches(v, y) {
        return None;
    }
    Some(u64::count_ones((v & y) ^ v))
}

// The index of a matching entry, if one matches. It is the one that leaves the fewest pieces of y, which is a matter of speed
// alone.
fn nearest(list: &[u64], y: u64) -> Option<usize>
    ensures bound { IfSome result (λ r. r < length list.now) }
    ensures strings { (l : ℕ) → OfWords l list.now y (λ τ s. Nearest τ s result) }
{
    // The best so far, and how many pieces it leaves.
    let mut best = None;
    let mut few = u32::MAX;
    for (i, &v) in list.iter().enumerate() {
        if let Some(k) = rank(v, y) {
            if k < few {
                best = Some(i);
                few = k;
            }
        }
    }
    best
}

// Is position i `*` in y and fixed in v?
fn splits(y: u64, v: u64, i: u32) -> bool
    requires { i < 32 }
    ensures more { result ≡ true → y < opposed_word i v y }
    ensures strings { (s t : Trits) → length s ≤ 32 → length t ≤ 32 → y ≡ word s → v ≡ word t
        → result ≡ (fixed i t && not (fixed i s)) }
{
    ((words::fixed(v) >> i) % 2 == 1) & ((words::fixed(y) >> i) % 2 == 0)
}

// y with v's value at position i, which is `*` in y and fixed in v.
fn agreed(y: u64, v: u64, i: u32) -> u64
    requires { i < 32 }
    ensures more { y ≤ result }
    ensures strings { (s t : Trits) → length s ≡ length t → length s ≤ 32 → y ≡ word s → v ≡ word t
        → fixed i s ≡ false → fixed i t ≡ true → result ≡ word (agreed_string i t s) }
{
    let bit = 1u64 << i;
    y | (v & ((bit << 32) | bit))
}

// Is every group that y covers covered by an entry? What y covers outside a matching entry v falls into disjoint pieces (in
// the field: y sharp v, disjoint), one for each position that is fixed in v and `*` in y: the opposite of v there, and v's
// values before it. First comes what spares that: one entry that subsumes y; and unit propagation, which fixes the positions
// that are forced without a split.
pub fn covered(list: &[u64], l: u32, y: u64) -> bool
    requires { l ≤ 32 }
    ensures { OfWords l list.now y (λ τ s. result ≡ all_covered l τ s) }
{
    if lists::growth::subsumed(list, y) {
        return true;
    }
    let x = narrowed(list, y);
    if y < x {
        return covered(list, l, x);
    }
    let Some(at) = nearest(list, y) else {
        return words::is_zero(l, y);
    };
    let v = list[at];
    let mut z = y;
    for i in 0..l {
        if splits(z, v, i) {
            let piece = words::opposed(z, v, i);
            if !covered(list, l, piece) {
                return false;
            }
            z = agreed(z, v, i);
        }
    }
    true
}
