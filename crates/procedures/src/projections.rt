// Join and projection, of either side. Inner: not a public call.
ghost use Rattle.std.specs.Prelude.{◌≡◌, ◌≤◌, length};
ghost use Rattle.model.specs.Groups.{Bits};
ghost use Rattle.model.specs.Growth.{Entries};
ghost use Rattle.model.specs.Tables.{positive as positive_side, negative as negative_side, join, kept, projection};
ghost use Rattle.words.specs.Words.{set_word};
ghost use Rattle.lists.specs.WorkingLists.{Holds, Within, Makes};

use candidates::Pairing;

// Join, positive: the first list grown by the strings of the second.
pub fn join_positive(
    a: &[u64; 256],
    an: usize,
    b: &[u64; 256],
    bn: usize,
    l: u32,
    list: &mut [u64; 256],
) -> Option<usize>
    requires { (an ≤ 256) × (bn ≤ 256) × (l ≤ 32) }
    ensures within { Within result }
    ensures made { (α β : Entries) → Holds l a.now an α → Holds l b.now bn β
        → Makes l list.new result (join positive_side α β) }
{
    *list = *a;
    lists::growth::grow_each(list, an, l, b, bn)
}

// Join, negative: the meets of matching strings.
pub fn join_negative(
    a: &[u64; 256],
    an: usize,
    b: &[u64; 256],
    bn: usize,
    l: u32,
    list: &mut [u64; 256],
) -> Option<usize>
    requires { (an ≤ 256) × (bn ≤ 256) × (l ≤ 32) }
    ensures within { Within result }
    ensures made { (α β : Entries) → Holds l a.now an α → Holds l b.now bn β
        → Makes l list.new result (join negative_side α β) }
{
    let mut row = [0u64; 256];
    candidates::pairs::pairs(Pairing::Meet, a, an, b, bn, l, list, &mut row)
}

// Projection, positive, onto the set keep: each string is cut and grown.
pub fn positive(t: &[u64; 256], tn: usize, keep: u32, list: &mut [u64; 256]) -> Option<usize>
    requires { tn ≤ 256 }
    ensures within { Within result }
    ensures made { (k : Bits) (τ : Entries) → Holds (length k) t.now tn τ → keep ≡ set_word k
        → Makes (kept k) list.new result (projection positive_side (length k) k τ) }
{
    // As a slice its length is known.
    let whole: &[u64] = &*list;
    let mut row = [0u64; 256];
    candidates::rows::cut_row(t, tn, keep, &mut row);
    lists::growth::grow_each(list, 0, u32::count_ones(keep), &row, tn)
}

// Projection, negative, of strings of l positions: by way of positive.
pub fn negative(
    t: &[u64; 256],
    tn: usize,
    l: u32,
    keep: u32,
    list: &mut [u64; 256],
) -> Option<usize>
    requires { (tn ≤ 256) × (l ≤ 32) }
    ensures within { Within result }
    ensures made { (k : Bits) (τ : Entries) → Holds l t.now tn τ → length k ≡ l → keep ≡ set_word k
        → Makes (kept k) list.new result (projection negative_side l k τ) }
{
    let mut other = [0u64; 256];
    let mut taken = [0u64; 256];
    let mut edges = [0u64; 256];
    let n = sides::change_side_lent(t, tn, l, list, &mut taken, &mut edges)?;
    let k = positive(list, n, keep, &mut other)?;
    let w = u32::count_ones(keep);
    sides::change_side_lent(&other, k, w, list, &mut taken, &mut edges)
}
