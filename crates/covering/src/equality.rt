// Do two lists stand for the same groups? Inner: not a public call.
ghost use Rattle.std.specs.Prelude.{◌≡◌, ◌≤◌};
ghost use Rattle.model.specs.Growth.{Entries};
ghost use Rattle.model.specs.Tables.{Side};
ghost use Rattle.model.specs.Questions.{equal as equal_lists};
ghost use Rattle.lists.specs.WorkingLists.{WordsOf};
ghost use Rattle.covering.specs.Covering.{within};

// Is every group that the first list covers covered by the second?
fn included(a: &[u64], b: &[u64], l: u32) -> bool
    requires { l ≤ 32 }
    ensures { (α β : Entries) → WordsOf l a.now α → WordsOf l b.now β → result ≡ within l α β }
{
    for &e in a {
        if !crate::cover::covered(b, l, e) {
            return false;
        }
    }
    true
}

// Do two lists of one side, whichever it is, stand for the same groups?
pub fn equal(a: &[u64], b: &[u64], l: u32) -> bool
    requires { l ≤ 32 }
    ensures { (side : Side) (α β : Entries) → WordsOf l a.now α → WordsOf l b.now β
        → result ≡ equal_lists side l α β }
{
    if !included(a, b, l) {
        return false;
    }
    included(b, a, l)
}
