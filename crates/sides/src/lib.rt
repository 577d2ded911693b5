// Change of side (01; in the field: the complement of a cover) on working lists. Inner: not a public call.
// Where a result is full, nothing is said of the array lent for it. Arrays lent as room may hold anything before and after.
#![tactic(auto)]

ghost use Rattle.std.specs.Prelude.{◌≡◌, [], ◌∷◌, ℕ, ◌-◌, ◌≤◌, length};
ghost use Rattle.model.specs.Strings.{Trits};
ghost use Rattle.model.specs.Growth.{fold, Entries};
ghost use Rattle.model.specs.Tables.{unmatched, take_away, change_side};
ghost use Rattle.model.specs.Widest.{edges as edges_of, fresh, append_all, Complement};
ghost use Rattle.words.specs.Words.{word};
ghost use Rattle.lists.specs.WorkingLists.{Holds, OfString, Within, Makes};
ghost use Rattle.sides.specs.Parts.{matched, append_pieces};

// Moves the entries that match v into `taken`, in order; the others stay, in order. The number moved.
fn take(list: &mut [u64; 256], n: usize, v: u64, taken: &mut [u64; 256]) -> usize
    requires { n ≤ 256 }
    ensures few { result ≤ n }
    ensures taken { (l : ℕ) → OfString l list.old n v (λ τ t. Holds l taken.new result (matched t τ)) }
    ensures left { (l : ℕ) → OfString l list.old n v (λ τ t. Holds l list.new (n - result) (unmatched t τ)) }
{
    let mut k = 0;
    for i in 0..n {
        let e = list[i];
        taken[k] = e;
        list[i - k] = e;
        if words::matches(e, v) {
            k += 1;
        }
    }
    k
}

// The entries opposed to v, one 0 and the other 1, at one position at most, in order. Their number. A piece is opposed to v at
// one position, so only such an entry can subsume it.
fn edge_row(list: &[u64; 256], n: usize, v: u64, row: &mut [u64; 256]) -> usize
    requires { n ≤ 256 }
    ensures few { result ≤ n }
    ensures made { (l : ℕ) → OfString l list.now n v (λ τ t. Holds l row.new result (edges_of t τ)) }
{
    let mut k = 0;
    for &e in &list[..n] {
        row[k] = e;
        if words::opposed_once(e, v) {
            k += 1;
        }
    }
    k
}

// Appends z, a string of l positions, unless it is all zero or one of the m edges subsumes it.
fn append_fresh(
    list: &mut [u64; 256],
    n: usize,
    l: u32,
    z: u64,
    edges: &[u64; 256],
    m: usize,
) -> Option<usize>
    requires { (n ≤ 256) × (l ≤ 32) × (m ≤ 256) }
    ensures within { Within result }
    ensures made { (τ κ : Entries) (s : Trits) → Holds l list.old n τ → Holds l edges.now m κ → length s ≡ l
        → z ≡ word s → Makes l list.new result (append_all τ (fresh κ (s ∷ []))) }
{
    if words::is_zero(l, z) {
        return Some(n);
    }
    if lists::growth::subsumed(&edges[..m], z) {
        return Some(n);
    }
    lists::growth::append(list, n, z)
}

// Appends the pieces that v leaves of y (in the field: y sharp v), rising, but for the all-zero one and those that one of
// the m edges subsumes. A turn takes the lowest position left.
fn pieces(
    list: &mut [u64; 256],
    n: usize,
    l: u32,
    y: u64,
    v: u64,
    edges: &[u64; 256],
    m: usize,
) -> Option<usize>
    requires { (n ≤ 256) × (l ≤ 32) × (m ≤ 256) }
    ensures within { Within result }
    ensures made { (τ κ : Entries) (s t : Trits) → Holds l list.old n τ → Holds l edges.now m κ → length s ≡ l
        → length t ≡ l → y ≡ word s → v ≡ word t → Makes l list.new result (append_pieces κ t τ s) }
{
    let mut left = words::fixed(v) & (words::fixed(y) ^ words::LOW);
    let mut k = n;
    // A `while`: each turn clears the lowest bit left.
    while left != 0 {
        let z = words::opposed(y, v, u64::trailing_zeros(left));
        k = append_fresh(list, k, l, z, edges, m)?;
        left &= left - 1;
    }
    Some(k)
}

// The same with each of the m strings taken, in turn.
fn pieces_each(
    list: &mut [u64; 256],
    n: usize,
    l: u32,
    taken: &[u64; 256],
    m: usize,
    v: u64,
    edges: &[u64; 256],
    en: usize,
) -> Option<usize>
    requires { (n ≤ 256) × (l ≤ 32) × (m ≤ 256) × (en ≤ 256) }
    ensures within { Within result }
    ensures made { (τ ρ κ : Entries) (t : Trits) → Holds l list.old n τ → Holds l taken.now m ρ
        → Holds l edges.now en κ → length t ≡ l → v ≡ word t
        → Makes l list.new result (fold (append_pieces κ t) τ ρ) }
{
    let mut k = n;
    for &y in &taken[..m] {
        k = pieces(list, k, l, y, v, edges, en)?;
    }
    Some(k)
}

// One entry v of Change of side, on a list that is the complement of the entries taken away before. On such a list a piece
// needs no widening: it comes in as it is, unless an edge of what is left subsumes it. `taken` and `edges` are room.
fn take_away(
    list: &mut [u64; 256],
    n: usize,
    l: u32,
    v: u64,
    taken: &mut [u64; 256],
    edges: &mut [u64; 256],
) -> Option<usize>
    requires { (n ≤ 256) × (l ≤ 32) }
    ensures within { Within result }
    ensures made { OfString l list.old n v (λ τ t.
        (σ : Entries) → Complement l σ τ → Makes l list.new result (take_away τ t)) }
{
    let m = take(list, n, v, taken);
    if m == 0 {
        return Some(n);
    }
    let kept = n - m;
    let k = edge_row(list, kept, v, edges);
    pieces_each(list, kept, l, taken, m, v, edges, k)
}

// Change of side: from one all-star entry, whose word is 0, each entry of the given list is taken away. `taken` and `edges`
// are room.
pub fn change_side_lent(
    t: &[u64; 256],
    tn: usize,
    l: u32,
    list: &mut [u64; 256],
    taken: &mut [u64; 256],
    edges: &mut [u64; 256],
) -> Option<usize>
    requires { (tn ≤ 256) × (l ≤ 32) }
    ensures within { Within result }
    ensures made { (τ : Entries) → Holds l t.now tn τ → Makes l list.new result (change_side l τ) }
{
    list[0] = 0;
    let mut n = 1;
    for &v in &t[..tn] {
        n = take_away(list, n, l, v, taken, edges)?;
    }
    Some(n)
}

// The same where no room is lent. It stays beside the other for its promise, which asks for less.
pub fn change_side(t: &[u64; 256], tn: usize, l: u32, list: &mut [u64; 256]) -> Option<usize>
    requires { (tn ≤ 256) × (l ≤ 32) }
    ensures within { Within result }
    ensures made { (τ : Entries) → Holds l t.now tn τ → Makes l list.new result (change_side l τ) }
{
    let mut taken = [0u64; 256];
    let mut edges = [0u64; 256];
    change_side_lent(t, tn, l, list, &mut taken, &mut edges)
}
