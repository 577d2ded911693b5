// A working list from a table value, and a table value from a working list. Inner: not a public call.
ghost use Rattle.std.specs.Prelude.{◌≡◌, List, ℕ, ◌≤◌};
ghost use Rattle.std.proofs.Math.Option.{Option};
ghost use Rattle.model.specs.Growth.{Entries};
ghost use Rattle.tables.specs.Lists.{Stores};
ghost use Rattle.tables.specs.Values.{table_of, made_or_full};
ghost use Rattle.tables.specs.declared.Table.{Table as TableValue};
ghost use Rattle.tables.specs.declared.Answered.{Answered as AnsweredTable};
ghost use Rattle.lists.specs.WorkingLists.{Holds, Within, Makes};
ghost use Rattle.lists.specs.Comings.{Bounded, Comes};

use tables::{Answered, Refusal, Table};
use words::Entry;

// What an accepted call that is lent the list to make comes to: the table as it was given, or so many entries of that list.
#[derive(Clone, Copy, Debug, PartialEq, Eq)]
pub enum Came {
    Same,
    Count(usize),
}

// The list of a table's entries.
pub fn load(t: &Table, list: &mut [u64; 256])
    requires { t.now.n ≤ 256 }
    ensures { (l : ℕ) (τ : Entries) → l ≤ 32 → Stores l t.now.care t.now.value t.now.n τ
        → Holds l list.new t.now.n τ }
{
    for i in 0..t.n {
        list[i] = u64::from(Entry {
            care: t.care[i],
            value: t.value[i],
        });
    }
}

// The table value of a list of strings of l positions.
pub fn table(l: u32, n: usize, list: &[u64; 256]) -> Table
    requires { n ≤ 256 }
    ensures { (τ : Entries) → Holds l list.now n τ → result ≡ table_of l τ }
{
    let mut care = [0u32; 256];
    let mut value = [0u32; 256];
    for i in 0..n {
        let e = Entry::from(list[i]);
        care[i] = e.care;
        value[i] = e.value;
    }
    Table {
        l: l,
        n: n,
        care: care,
        value: value,
    }
}

// What came of a call on the table t, or where none was given on the table all zero, as an answer with its table.
pub fn answered(l: u32, t: Table, came: Result<Came, Refusal>, list: &[u64; 256]) -> Answered
    requires { Bounded came }
    ensures { (a : AnsweredTable) → Comes l t list.now came a → result ≡ a }
{
    match came {
        Err(r) => Answered {
            answer: Err(r),
            table: t,
        },
        Ok(Came::Same) => Answered {
            answer: Ok(()),
            table: t,
        },
        Ok(Came::Count(n)) => Answered {
            answer: Ok(()),
            table: table(l, n, list),
        },
    }
}

// What came of a list that was to be made: its count, or 8.
pub fn came_of(g: Option<usize>) -> Result<Came, Refusal>
    requires { Within g }
    ensures bounded { Bounded result }
    ensures comes { (l : ℕ) (t : TableValue) (list : List ℕ) (o : Option Entries) → Makes l list g o
        → Comes l t list result (made_or_full l t o) }
{
    match g {
        Some(n) => Ok(Came::Count(n)),
        None => Err(Refusal::Full),
    }
}

// The table of a working list of strings of l positions; 8 where there is none, with the table that is then returned.
pub fn made_or_full(l: u32, t: Table, g: Option<usize>, list: &[u64; 256]) -> Answered
    requires { Within g }
    ensures { (o : Option Entries) → Makes l list.now g o → result ≡ made_or_full l t o }
{
    answered(l, t, came_of(g), list)
}
