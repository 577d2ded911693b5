// The three questions on table values: equal, ground, independent. None grows a list, so none meets 8.
#![tactic(auto)]

ghost use Rattle.std.specs.Prelude.{◌≡◌, ◌≤◌, ◌<◌, ◌^◌};
ghost use Rattle.model.specs.Tables.{positive};
ghost use Rattle.model.specs.Questions.{equal as equal_lists, ground as ground_list, independent as independent_list};
ghost use Rattle.words.specs.Words.{set};
ghost use Rattle.tables.specs.Values.{GoodTable, entries_of};
ghost use Rattle.operations.specs.Operations.{side_of};
ghost use Rattle.questions.specs.Replies.{replies, reply_number, reply_word, equal_call, ground_call, independent_call};

use operations::Side;
use tables::{Refusal, Table};

// The number of a reply, for C: 0 for yes and for no, else that of the refusal.
pub fn reply_number(reply: Result<bool, Refusal>) -> u32
    ensures { result ≡ reply_number reply }
{
    match reply {
        Ok(_) => 0,
        Err(r) => u32::from(r),
    }
}

// The word of a reply, in place of the word w that C lent: 1 for yes, 0 for no, and w itself where the question is refused.
pub fn reply_word(reply: Result<bool, Refusal>, w: u32) -> u32
    ensures { result ≡ reply_word reply w }
{
    match reply {
        Ok(true) => 1,
        Ok(false) => 0,
        Err(_) => w,
    }
}

// Do two checked tables of one width and one side, whichever it is, stand for the same groups?
#[tactic(auto, using(tables::proofs::Checking::good_few))]
fn equal_checked(t: Table, u: Table) -> bool
    requires { GoodTable t × GoodTable u × (u.l ≡ t.l) }
    ensures { result ≡ equal_lists positive t.l (entries_of t) (entries_of u) }
{
    let l = t.l;
    let an = t.n;
    let bn = u.n;
    let mut a = [0u64; 256];
    lists::values::load(&t, &mut a);
    let mut b = [0u64; 256];
    lists::values::load(&u, &mut b);
    covering::equality::equal(&a[..an], &b[..bn], l)
}

// Are two tables of one side equal in groups? The answer is the same for both sides.
pub fn equal(t: Table, u: Table) -> Result<bool, Refusal>
    ensures { result ≡ equal_call t u }
{
    tables::check(t)?;
    tables::check(u)?;
    if t.l != u.l {
        return Err(Refusal::Unlike);
    }
    Ok(equal_checked(t, u))
}

// Has no group of a checked table the variable Xx?
#[tactic(auto, using(tables::proofs::Checking::good_few))]
fn ground_checked(side: Side, t: Table, x: u32) -> bool
    requires { GoodTable t × (1 ≤ x) × (x ≤ t.l) }
    ensures { result ≡ ground_list (side_of side) t.l (entries_of t) x }
{
    let l = t.l;
    let n = t.n;
    let mut list = [0u64; 256];
    lists::values::load(&t, &mut list);
    match side {
        Side::Positive => covering::independence::ground_positive(&list[..n], x),
        Side::Negative => covering::independence::ground_negative(&list[..n], l, x),
    }
}

// Is the variable Xx ground: has no group it?
pub fn ground(side: Side, t: Table, x: u32) -> Result<bool, Refusal>
    ensures { result ≡ ground_call (side_of side) t x }
{
    tables::check(t)?;
    if !((0 < x) & (x <= t.l)) {
        return Err(Refusal::Name);
    }
    Ok(ground_checked(side, t, x))
}

// Does no group of a checked table meet both sets?
#[tactic(auto, using(tables::proofs::Checking::good_few))]
fn independent_checked(side: Side, t: Table, a: u32, b: u32) -> bool
    requires { GoodTable t × (a < 2 ^ t.l) × (b < 2 ^ t.l) }
    ensures { result ≡ independent_list (side_of side) t.l (entries_of t) (set t.l a) (set t.l b) }
{
    let l = t.l;
    let n = t.n;
    let mut list = [0u64; 256];
    lists::values::load(&t, &mut list);
    match side {
        Side::Positive => covering::independence::independent_positive(&list[..n], a, b),
        Side::Negative => covering::independence::independent_negative(&list[..n], l, a, b),
    }
}

// Are two sets of variables, bit i - 1 for Xi, independent: does no group meet both?
pub fn independent(side: Side, t: Table, a: u32, b: u32) -> Result<bool, Refusal>
    ensures { result ≡ independent_call (side_of side) t a b }
{
    tables::check(t)?;
    let full = words::full(t.l);
    if !((a <= full) & (b <= full)) {
        return Err(Refusal::Name);
    }
    Ok(independent_checked(side, t, a, b))
}
