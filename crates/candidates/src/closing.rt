// Close (01; in the field: star-union, the closure of a list under "or"). Inner: not a public call.
ghost use Rattle.std.specs.Prelude.{◌≡◌, ◌≤◌, drop};
ghost use Rattle.std.proofs.Math.Option.{some};
ghost use Rattle.model.specs.Growth.{Entries, fold};
ghost use Rattle.model.specs.Tables.{close_with, close as close_list};
ghost use Rattle.lists.specs.WorkingLists.{Holds, OfString, Within, Makes};

use crate::Pairing;
use lists::row_growth::{Filter, Growing, Plain};

// One c of Close, on the list R, in either way of growing by rows: R grows by "r or c" for each r that it has before, then by c.
// `row` is room.
fn close_one<G: Growing>(
    growing: &mut G,
    list: &mut [u64; 256],
    n: usize,
    l: u32,
    c: u64,
    row: &mut [u64; 256],
) -> Option<usize>
    requires { (n ≤ 256) × (l ≤ 32) }
    ensures within { Within result }
    ensures made { OfString l list.old n c (λ τ s.
        G.fits growing.old l τ → Makes l list.new result (close_with τ s)) }
    ensures kept { OfString l list.old n c (λ τ s.
        (κ : Entries) → G.fits growing.old l τ → close_with τ s ≡ some κ → G.fits growing.new l κ) }
{
    let k = crate::rows::pair_row(Pairing::Or, list, n, c, row);
    let m = growing.grow_row(list, n, l, row, k)?;
    row[0] = c;
    growing.grow_row(list, m, l, row, 1)
}

// The rest of `close`, which hands over to it at 16 entries: for each c of a list from an index on, with one filter.
fn close_rest(
    c: &[u64; 256],
    from: usize,
    cn: usize,
    l: u32,
    list: &mut [u64; 256],
    n: usize,
    row: &mut [u64; 256],
) -> Option<usize>
    requires { (from ≤ cn) × (cn ≤ 256) × (l ≤ 32) × (n ≤ 256) }
    ensures within { Within result }
    ensures made { (γ τ : Entries) → Holds l c.now cn γ → Holds l list.old n τ
        → Makes l list.new result (fold close_with τ (drop from γ)) }
{
    let mut filter = Filter::start(l);
    let mut k = n;
    for &s in &c[from..cn] {
        k = close_one(&mut filter, list, k, l, s, row)?;
    }
    Some(k)
}

// Close, for each c of a list in turn. From 16 entries on a filter is worth its making. `row` is room.
pub fn close(
    c: &[u64; 256],
    cn: usize,
    l: u32,
    list: &mut [u64; 256],
    row: &mut [u64; 256],
) -> Option<usize>
    requires { (cn ≤ 256) × (l ≤ 32) }
    ensures within { Within result }
    ensures made { (γ : Entries) → Holds l c.now cn γ → Makes l list.new result (close_list γ) }
{
    let mut n = 0;
    for i in 0..cn {
        if 16 <= n {
            return close_rest(c, i, cn, l, list, n, row);
        }
        n = close_one(&mut Plain, list, n, l, c[i], row)?;
    }
    Some(n)
}
