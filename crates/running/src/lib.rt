// The running analysis and the run, on a state. Inner: not a public call.
#![tactic(auto)]

ghost use Rattle.std.specs.Prelude.{◌≡◌, ◌≤◌};
ghost use Rattle.tables.specs.declared.Answered.{Answered as AnsweredTable};
ghost use Rattle.tables.specs.Refusals.{answer_number};
ghost use Rattle.lists.specs.Comings.{Bounded, Comes};
ghost use Rattle.terms.specs.Checks.{one_term, two_terms};
ghost use Rattle.operations.specs.Operations.{side_of, written_call};
ghost use Rattle.equation_forms.specs.EquationForms.{most_equations, equations_in, GoodSizes, On, Here, this};
ghost use Rattle.running.specs.States.{state, one_more, started, step_number, after_answer, advanced, none_applied};
ghost use Rattle.running.specs.States.{run_from, run_state, state_number, state_bytes};

use equation_forms::{Cursor, Left};
use forms::{Extent, Layout, Sizes};
use lists::values::Came;
use operations::Side;
use tables::{Answered, Refusal, Table};

// A running analysis, as C has it: the number of the answer of the call that last wrote it (`code`), the side as it was given,
// how many equations were accepted, and the table. No more derives: nothing compares or prints its 2 KiB.
#[repr(C)]
#[derive(Clone, Copy)]
pub struct Running {
    pub code: u32,
    pub side: u32,
    pub applied: u32,
    pub table: Table,
}

// The state before any equation, on the table of the bytes.
pub fn start(side: u32, b: &[u8]) -> Running
    ensures { result ≡ started side b.now }
{
    let mut list = [0u64; 256];
    match forms::read_list(Layout::Plain, Extent::Whole, b, &mut list) {
        Err(r) => Running {
            code: u32::from(r),
            side: side,
            applied: 0,
            table: Table::zero(),
        },
        Ok(Sizes { l, n }) => Running {
            code: 0,
            side: side,
            applied: 0,
            table: lists::values::table(l, n, &list),
        },
    }
}

// The largest count of accepted equations (most_applied).
const APPLIED: u32 = 4294967295;

// One more accepted equation. The count stays at its largest number.
fn one_more(k: u32) -> u32
    ensures { result ≡ one_more k }
{
    if k < APPLIED {
        return k + 1;
    }
    k
}

// The state after what came of an equation, and its answer: a refusal leaves the whole state as it was.
fn answered(s: &mut Running, came: Result<Came, Refusal>, list: &[u64; 256]) -> Result<(), Refusal>
    requires { Bounded came }
    ensures { (a : AnsweredTable) → Comes s.old.table.l s.old.table list.now came a
        → (result ≡ a.answer) × (s.new ≡ after_answer s.old a) }
{
    match came? {
        Came::Same => {}
        Came::Count(n) => {
            s.table = lists::values::table(s.table.l, n, list);
        }
    }
    s.code = 0;
    s.applied = one_more(s.applied);
    Ok(())
}

// The equation Xx = the term of the bytes, on a state.
pub fn advance(s: &mut Running, x: u32, term: &[u8]) -> Result<(), Refusal>
    ensures { (answer_number result ≡ step_number s.old (one_term x term.now))
        × (s.new ≡ advanced s.old (one_term x term.now)) }
{
    let side = Side::from(s.side);
    let mut list = [0u64; 256];
    let came = byte_calls::equation_parts(side, &s.table, x, term, &mut list);
    answered(s, came, &list)
}

// The terms of two rows of bytes set equal, on a state.
pub fn unify(s: &mut Running, left: &[u8], right: &[u8]) -> Result<(), Refusal>
    ensures { (answer_number result ≡ step_number s.old (two_terms left.now right.now))
        × (s.new ≡ advanced s.old (two_terms left.now right.now)) }
{
    let side = Side::from(s.side);
    let mut list = [0u64; 256];
    let came = byte_calls::unify_parts(side, &s.table, left, right, &mut list);
    answered(s, came, &list)
}

// The state of a run that stopped after k equations; `code` is the number that C is handed.
pub fn stopped(code: u32, side: u32, k: usize, t: Table) -> Running
    requires { k ≤ most_equations }
    ensures { result ≡ state code side k t }
{
    Running {
        code: code,
        side: side,
        applied: k as u32,
        table: t,
    }
}

// A refused run has applied none; `code` is the number that C is handed.
pub fn refused(code: u32, side: u32) -> Running
    ensures { result ≡ none_applied code side }
{
    stopped(code, side, 0, Table::zero())
}

// The equation at a place of a form, on a table value.
pub fn step(f: Left, side: Side, t: Table, c: Cursor, q: &[u8]) -> Answered
    requires { On f c q.now × Here c }
    ensures { result ≡ written_call (side_of side) t (this f c q.now) }
{
    let x = equation_forms::left_number(c, q);
    let tokens = equation_forms::tokens(f, c, q);
    match f {
        Left::Variable => byte_calls::equation_term(side, t, x, tokens),
        Left::Term => {
            let k = 2 * (x as usize);
            let left_part = &tokens[..k];
            let right_part = &tokens[k..];
            byte_calls::unify_terms(side, t, left_part, right_part)
        }
    }
}

// Applies equations that were checked, in order, up to the first that is full.
fn apply(f: Left, side: u32, t: Table, q: &[u8]) -> Running
    requires { GoodSizes f q.now }
    ensures { result ≡ run_from side t 0 (equations_in f q.now) }
{
    let s = Side::from(side);
    let mut u = t;
    let mut c = equation_forms::first(q);
    // A `while`: the cursor moves on by the length of the equation that stands at it.
    while equation_forms::more(c) {
        let a = step(f, s, u, c, q);
        u = a.table;
        if let Err(r) = a.answer {
            return stopped(u32::from(r), side, c.k, u);
        }
        c = equation_forms::next(f, c, q);
    }
    stopped(0, side, c.k, u)
}

// A run of the equations of the bytes q on the table of the bytes b: the whole input is checked first.
pub fn run(f: Left, side: u32, b: &[u8], q: &[u8]) -> Running
    ensures { result ≡ run_state f side b.now q.now }
{
    let read = forms::read_table(Extent::Whole, b);
    let t = read.table;
    if let Err(r) = read.answer {
        return refused(u32::from(r), side);
    }
    match equation_forms::check(f, t.l, q) {
        Err(r) => refused(u32::from(r), side),
        Ok(()) => apply(f, side, t, q),
    }
}

// Writes the table of a state. The number of the answer, for C.
pub fn write(s: Running, out: &mut [u8]) -> u32
    ensures { (result ≡ state_number s out.old) × (out.new ≡ state_bytes s out.old) }
{
    let t = s.table;
    tables::answer_number(forms::write_table(t, out))
}
