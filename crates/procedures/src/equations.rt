// Abstract unification, of either side. Inner: not a public call.
ghost use Rattle.std.specs.Prelude.{◌≡◌, ◌≤◌, length};
ghost use Rattle.model.specs.Groups.{Bits};
ghost use Rattle.model.specs.Strings.{ones};
ghost use Rattle.model.specs.Growth.{Entries, grow_all};
ghost use Rattle.model.specs.Tables.{positive_equation, negative_equation};
ghost use Rattle.words.specs.Words.{set_word};
ghost use Rattle.lists.specs.WorkingLists.{Holds, Within, Makes};
ghost use Rattle.procedures.specs.Parts.{OfSets, closed_cross, positive_closed_cross, having_set};
ghost use Rattle.procedures.specs.Parts.{negative_closed_cross};

use candidates::Pairing;

// The closed cross of the lists a and b, made in a. `c` and `row` are room.
fn closed_cross(
    a: &mut [u64; 256],
    an: usize,
    b: &[u64; 256],
    bn: usize,
    l: u32,
    c: &mut [u64; 256],
    row: &mut [u64; 256],
) -> Option<usize>
    requires { (an ≤ 256) × (bn ≤ 256) × (l ≤ 32) }
    ensures within { Within result }
    ensures made { (α β : Entries) → Holds l a.old an α → Holds l b.now bn β
        → Makes l a.new result (closed_cross α β) }
{
    let k = candidates::pairs::pairs(Pairing::Or, a, an, b, bn, l, c, row)?;
    candidates::closing::close(c, k, l, a, row)
}

// The closed cross of the relevant entries of a positive table, which is room once they are made. `row` is room.
fn positive_closed_cross(
    t: &mut [u64; 256],
    tn: usize,
    l: u32,
    mx: u32,
    mt: u32,
    list: &mut [u64; 256],
    row: &mut [u64; 256],
) -> Option<usize>
    requires { (tn ≤ 256) × (l ≤ 32) }
    ensures within { Within result }
    ensures made { OfSets l t.entry.now tn mx mt (λ τ x t. Makes l list.new result (positive_closed_cross x t τ)) }
{
    let mut b = [0u64; 256];
    let an = candidates::pairs::relevant_by_entry(t, tn, l, mx, list, row)?;
    let bn = candidates::pairs::relevant_by_entry(t, tn, l, mt, &mut b, row)?;
    closed_cross(list, an, &b, bn, l, t, row)
}

// Equation, positive, for x alone in mx and t's variables in mt. Of the table's array nothing is said afterwards.
pub fn positive_in_place(
    t: &mut [u64; 256],
    tn: usize,
    l: u32,
    mx: u32,
    mt: u32,
    list: &mut [u64; 256],
) -> Option<usize>
    requires { (tn ≤ 256) × (l ≤ 32) }
    ensures within { Within result }
    ensures made { OfSets l t.entry.now tn mx mt (λ τ x t. Makes l list.new result (positive_equation x t τ)) }
{
    let mut crossed = [0u64; 256];
    let mut row = [0u64; 256];
    let n = candidates::pairs::irrelevant_in_row(t, tn, l, mx | mt, list, &mut row)?;
    let k = positive_closed_cross(t, tn, l, mx, mt, &mut crossed, &mut row)?;
    lists::growth::grow_each(list, n, l, &crossed, k)
}

// The groups of a negative table that have a variable of the set m, as a positive list. `other`, `taken` and `edges` are
// room.
fn having(
    t: &[u64; 256],
    tn: usize,
    l: u32,
    m: u32,
    list: &mut [u64; 256],
    other: &mut [u64; 256],
    taken: &mut [u64; 256],
    edges: &mut [u64; 256],
) -> Option<usize>
    requires { (tn ≤ 256) × (l ≤ 32) }
    ensures within { Within result }
    ensures made { (τ : Entries) (k : Bits) → Holds l t.now tn τ → length k ≡ l → m ≡ set_word k
        → Makes l list.new result (having_set l k τ) }
{
    *other = *t;
    let n = lists::growth::grow(other, tn, l, (m as u64) << 32)?;
    sides::change_side_lent(other, n, l, list, taken, edges)
}

// The closed cross of the groups of a negative table that have x and of those that have a variable of t, as a negative list.
// `other` and `row` are room.
fn negative_closed_cross(
    t: &[u64; 256],
    tn: usize,
    l: u32,
    mx: u32,
    mt: u32,
    list: &mut [u64; 256],
    other: &mut [u64; 256],
    row: &mut [u64; 256],
) -> Option<usize>
    requires { (tn ≤ 256) × (l ≤ 32) }
    ensures within { Within result }
    ensures made { OfSets l t.entry.now tn mx mt (λ τ x t. Makes l list.new result (negative_closed_cross l x t τ)) }
{
    let mut a = [0u64; 256];
    let mut edges = [0u64; 256];
    let an = having(t, tn, l, mx, &mut a, other, row, &mut edges)?;
    let bn = having(t, tn, l, mt, list, other, row, &mut edges)?;
    let n = closed_cross(&mut a, an, list, bn, l, other, row)?;
    sides::change_side_lent(&a, n, l, list, other, row)
}

// The table grown, in place, by an entry for each variable of the set m: 1 there and `*` elsewhere. `row` is room.
fn lacking(t: &mut [u64; 256], tn: usize, l: u32, m: u32, row: &mut [u64; 256]) -> Option<usize>
    requires { (tn ≤ 256) × (l ≤ 32) }
    ensures within { Within result }
    ensures made { (τ : Entries) (k : Bits) → Holds l t.old tn τ → length k ≡ l → m ≡ set_word k
        → Makes l t.new result (grow_all τ (ones k)) }
{
    let k = candidates::rows::ones_row(m, l, row);
    lists::growth::grow_each(t, tn, l, row, k)
}

// Equation, negative, for x alone in mx and t's variables in mt. Of the table's array nothing is said afterwards.
pub fn negative_in_place(
    t: &mut [u64; 256],
    tn: usize,
    l: u32,
    mx: u32,
    mt: u32,
    list: &mut [u64; 256],
) -> Option<usize>
    requires { (tn ≤ 256) × (l ≤ 32) }
    ensures within { Within result }
    ensures made { OfSets l t.entry.now tn mx mt (λ τ x t. Makes l list.new result (negative_equation l x t τ)) }
{
    let mut crossed = [0u64; 256];
    let mut row = [0u64; 256];
    let k = negative_closed_cross(t, tn, l, mx, mt, &mut crossed, list, &mut row)?;
    let c = lacking(t, tn, l, mx | mt, &mut row)?;
    candidates::pairs::pairs(Pairing::Meet, t, c, &crossed, k, l, list, &mut row)
}

// Equation, positive, for x alone in mx and t's variables in mt. It stays beside `positive_in_place` for its promise: the table
// is lent for reading.
pub fn positive(
    t: &[u64; 256],
    tn: usize,
    l: u32,
    mx: u32,
    mt: u32,
    list: &mut [u64; 256],
) -> Option<usize>
    requires { (tn ≤ 256) × (l ≤ 32) }
    ensures within { Within result }
    ensures made { OfSets l t.entry.now tn mx mt (λ τ x t. Makes l list.new result (positive_equation x t τ)) }
{
    let mut own = *t;
    positive_in_place(&mut own, tn, l, mx, mt, list)
}

// Equation, negative, likewise.
pub fn negative(
    t: &[u64; 256],
    tn: usize,
    l: u32,
    mx: u32,
    mt: u32,
    list: &mut [u64; 256],
) -> Option<usize>
    requires { (tn ≤ 256) × (l ≤ 32) }
    ensures within { Within result }
    ensures made { OfSets l t.entry.now tn mx mt (λ τ x t. Makes l list.new result (negative_equation l x t τ)) }
{
    let mut own = *t;
    negative_in_place(&mut own, tn, l, mx, mt, list)
}
