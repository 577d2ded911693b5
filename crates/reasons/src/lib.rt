// The reason behind each group (02, request 7), on table values: is the group s in a positive table after the equation
// x = t, and why or why not. No list is grown, so no call meets 8.
#![tactic(auto)]

pub mod entries; // the entries that cover groups inside s

ghost use Rattle.std.specs.Prelude.{◌≡◌, ℕ, ◌≤◌, length, Ok};
ghost use Rattle.model.specs.Groups.{Bits};
ghost use Rattle.model.specs.Growth.{Entries};
ghost use Rattle.model.specs.Equations as M;
ghost use Rattle.words.specs.Words.{set_word};
ghost use Rattle.tables.specs.Values.{GoodTable};
ghost use Rattle.lists.specs.WorkingLists.{WordsOf};
ghost use Rattle.terms.specs.EquationKinds.{Told};
ghost use Rattle.reasons.specs.Verdicts.{verdict_number, reason_word, verdict_word, x_word, t_word, untouched, touched};
ghost use Rattle.reasons.specs.Verdicts.{verdict, check_group, group_call, reason_call};

use tables::{Refusal, Table};
use terms::{Equation, Kind};
use words::Entry;

// Why a group is not there after the equation.
#[derive(Clone, Copy, Debug, PartialEq, Eq)]
pub enum Reason {
    // No entry covers a group inside s that has x.
    NoXEntry,
    // No entry covers a group inside s that has a variable of t.
    NoTEntry,
    // The groups inside s that have x or a variable of t do not make up s.
    NotMadeUp,
    // s has neither x nor a variable of t, or the equation is x = x; and the table does not have s.
    NotThere,
    // t holds x deeper.
    NoSolution,
}

// What is told of a group s: it is kept; it is joined, and the lowest entries, from 0, that cover a group inside s with x and
// one with a variable of t; or it is absent, and why.
#[derive(Clone, Copy, Debug, PartialEq, Eq)]
pub enum Verdict {
    Kept,
    Joined { x_entry: u32, t_entry: u32 },
    Absent(Reason),
}

// The number of a verdict, for C: 0, or that of the refusal.
pub fn verdict_number(v: Result<Verdict, Refusal>) -> u32
    ensures { result ≡ verdict_number v }
{
    match v {
        Ok(_) => 0,
        Err(r) => u32::from(r),
    }
}

// The word of a reason.
impl From<Reason> for u32 {
    ghost from_gives = { λ r word. word ≡ reason_word r };

    fn from(r: Reason) -> u32 {
        match r {
            Reason::NoXEntry => 2,
            Reason::NoTEntry => 3,
            Reason::NotMadeUp => 4,
            Reason::NotThere => 5,
            Reason::NoSolution => 6,
        }
    }
}

// The word of a verdict, in place of the word w that C lent: w itself where the call is refused.
pub fn verdict_word(v: Result<Verdict, Refusal>, w: u32) -> u32
    ensures { result ≡ verdict_word v w }
{
    match v {
        Ok(Verdict::Kept) => 0,
        Ok(Verdict::Joined { x_entry, t_entry }) => 1,
        Ok(Verdict::Absent(r)) => u32::from(r),
        Err(_) => w,
    }
}

// The word of the entry of x, in place of the word w that C lent: 0 unless s is joined.
pub fn x_word(v: Result<Verdict, Refusal>, w: u32) -> u32
    ensures { result ≡ x_word v w }
{
    match v {
        Ok(Verdict::Kept) => 0,
        Ok(Verdict::Joined { x_entry, t_entry }) => x_entry,
        Ok(Verdict::Absent(_)) => 0,
        Err(_) => w,
    }
}

// The word of the entry of t, in place of the word w that C lent: 0 unless s is joined.
pub fn t_word(v: Result<Verdict, Refusal>, w: u32) -> u32
    ensures { result ≡ t_word v w }
{
    match v {
        Ok(Verdict::Kept) => 0,
        Ok(Verdict::Joined { x_entry, t_entry }) => t_entry,
        Ok(Verdict::Absent(_)) => 0,
        Err(_) => w,
    }
}

// Of a group that the equation does not touch: is it in the table?
fn kept(list: &[u64], l: u32, s: u32) -> Verdict
    requires { l ≤ 32 }
    ensures { (τ : Entries) (k : Bits) → WordsOf l list.now τ → length k ≡ l → s ≡ set_word k → Ok result ≡ untouched τ k }
{
    let y = u64::from(Entry {
        care: words::full(l),
        value: s,
    });
    if lists::growth::subsumed(list, y) {
        return Verdict::Kept;
    }
    Verdict::Absent(Reason::NotThere)
}

// Of a group with x or a variable of t: do the groups inside it join to it?
fn joined(list: &[u64], mx: u32, mt: u32, s: u32) -> Verdict
    requires { length list.now ≤ 256 }
    ensures { (l : ℕ) (τ : Entries) (x t k : Bits) → WordsOf l list.now τ → length x ≡ l → length t ≡ l → length k ≡ l
        → mx ≡ set_word x → mt ≡ set_word t → s ≡ set_word k → Ok result ≡ touched l x t τ k }
{
    let Some(i) = crate::entries::lowest(list, s, mx) else {
        return Verdict::Absent(Reason::NoXEntry);
    };
    let Some(j) = crate::entries::lowest(list, s, mt) else {
        return Verdict::Absent(Reason::NoTEntry);
    };
    if crate::entries::together(list, s, mx | mt) != s {
        return Verdict::Absent(Reason::NotMadeUp);
    }
    Verdict::Joined {
        x_entry: i as u32,
        t_entry: j as u32,
    }
}

// The verdict on a group of l variables, by the kind of the equation.
fn told(list: &[u64], l: u32, e: Equation, s: u32) -> Verdict
    requires { (length list.now ≤ 256) × (l ≤ 32) }
    ensures { (τ : Entries) (q : M.Equation) (k : Bits) → WordsOf l list.now τ → Told l e q → length k ≡ l → s ≡ set_word k
        → Ok result ≡ verdict l q τ k }
{
    let kind = e.kind;
    match kind {
        Kind::Itself => kept(list, l, s),
        Kind::Deeper => Verdict::Absent(Reason::NoSolution),
        Kind::Plain => {
            if (e.left | e.right) & s == 0 {
                return kept(list, l, s);
            }
            joined(list, e.left, e.right, s)
        }
    }
}

// The checks of a group of l variables: 4 where s has a bit above l, 11 where it is 0.
fn check_group(l: u32, s: u32) -> Result<(), Refusal>
    requires { l ≤ 32 }
    ensures { result ≡ check_group l s }
{
    if words::full(l) < s {
        return Err(Refusal::Stray);
    }
    if s == 0 {
        return Err(Refusal::Keep);
    }
    Ok(())
}

// The verdict on s of a checked table and an equation that was read.
#[tactic(auto, using(tables::proofs::Checking::good_few))]
fn judge_read(t: Table, e: Equation, s: u32) -> Result<Verdict, Refusal>
    requires { GoodTable t }
    ensures { (q : M.Equation) → Told t.l e q → result ≡ group_call t q s }
{
    let l = t.l;
    check_group(l, s)?;
    let n = t.n;
    let mut list = [0u64; 256];
    lists::values::load(&t, &mut list);
    Ok(told(&list[..n], l, e, s))
}

// The verdict on s of a checked table and the equation Xx = the term of the tokens. Inner: not a public call.
pub fn judge_checked(t: Table, x: u32, ts: &[u16], s: u32) -> Result<Verdict, Refusal>
    requires { GoodTable t }
    ensures { result ≡ reason_call t x ts.now s }
{
    let e = operations::read_equation(t.l, x, ts)?;
    judge_read(t, e, s)
}

// Is the group s, bit i - 1 for Xi, in the positive table t after the equation Xx = the term of the tokens, and why?
pub fn judge(t: Table, x: u32, ts: &[u16], s: u32) -> Result<Verdict, Refusal>
    ensures { result ≡ reason_call t x ts.now s }
{
    tables::check(t)?;
    judge_checked(t, x, ts, s)
}
