// The two ways to grow a working list by a row, as one trait: with no filter, or with one. Inner: not a public call.
ghost use Rattle.std.specs.Prelude.{◌≡◌, ℕ, ◌≤◌};
ghost use Rattle.std.proofs.Math.Option.{some};
ghost use Rattle.model.specs.Growth.{Entries, grow_all};
ghost use Rattle.lists.specs.WorkingLists.{Holds, Within, Makes};
ghost use Rattle.lists.specs.Filters.{Filters};

use crate::filter::SIZE;

// A way to grow a list by rows, with what it keeps from row to row.
pub trait Growing: Drop {
    // What is kept is good for a list of strings of so many positions.
    ghost fits: { Self → ℕ → Entries → Type 0 };

    // What is kept at first is good for any list.
    fn start(l: u32) -> Self
        requires { l ≤ 32 }
        ensures { (τ : Entries) → fits result l τ };

    // Grows the list by each of the m strings of a row, in order, up to the first that is full.
    fn grow_row(
        &mut self,
        list: &mut [u64; 256],
        n: usize,
        l: u32,
        row: &[u64; 256],
        m: usize,
    ) -> Option<usize>
        requires { (n ≤ 256) × (l ≤ 32) × (m ≤ 256) }
        ensures within { Within result }
        ensures made { (τ ρ : Entries) → Holds l list.old n τ → Holds l row.now m ρ
            → fits self.old l τ → Makes l list.new result (grow_all τ ρ) }
        ensures kept { (τ ρ κ : Entries) → Holds l list.old n τ → Holds l row.now m ρ
            → fits self.old l τ → grow_all τ ρ ≡ some κ → fits self.new l κ };
}

// With no filter: nothing is kept.
#[derive(Drop)]
pub struct Plain;

impl Growing for Plain {
    ghost fits = { λ s l τ. Unit {0} };

    fn start(_l: u32) -> Plain {
        Plain
    }

    fn grow_row(
        &mut self,
        list: &mut [u64; 256],
        n: usize,
        l: u32,
        row: &[u64; 256],
        m: usize,
    ) -> Option<usize> {
        crate::growth::grow_each(list, n, l, row, m)
    }
}

// With a filter, worth its making where many strings come again.
#[derive(Drop)]
pub struct Filter {
    pub seen: [u64; SIZE],
}

impl Growing for Filter {
    ghost fits = { λ s l τ. Filters l s.seen τ };

    fn start(l: u32) -> Filter {
        Filter {
            seen: [words::zero(l); SIZE],
        }
    }

    fn grow_row(
        &mut self,
        list: &mut [u64; 256],
        n: usize,
        l: u32,
        row: &[u64; 256],
        m: usize,
    ) -> Option<usize> {
        crate::filter::grow_unseen(list, n, l, row, m, &mut self.seen)
    }
}
