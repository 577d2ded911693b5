// The two written forms of equations: a place among them, and their checks. Inner: not a public call.
#![tactic(auto)]

ghost use Rattle.std.specs.Prelude.{◌≡◌, true, false, ◌≤◌, length};
ghost use Rattle.terms.specs.Checks.{check_written, check_answer};
ghost use Rattle.equation_forms.specs.EquationForms.{GoodSizes, On, start, Here, Past, left_at, count_at, span_at, tokens_at};
ghost use Rattle.equation_forms.specs.EquationForms.{this, after, equations_in, tokens_counted, check_each, check_equations};
ghost use Rattle.equation_forms.specs.EquationForms.{equations_length, most_equations};

use tables::Refusal;

// What stands on the left of each equation of a form: a variable, or a term. Contracts name it, which a closure has not.
#[derive(Clone, Copy, Debug, PartialEq, Eq)]
pub enum Left {
    Variable,
    Term,
}

// A place among the e equations of a form: k equations and their `at` tokens stand before it.
#[derive(Clone, Copy, Debug, PartialEq, Eq)]
pub struct Cursor {
    pub e: usize,
    pub k: usize,
    pub at: usize,
}

// The most equations of a form (most_equations).
const EQUATIONS: usize = 64;

// ---- The walk

// The place before the first equation of a form whose sizes were checked.
pub fn first(b: &[u8]) -> Cursor
    requires { (f : Left) × GoodSizes f b.now }
    ensures { result ≡ start b.now }
{
    Cursor {
        e: codec::number_at(b, 0) as usize,
        k: 0,
        at: 0,
    }
}

// Is there an equation at that place?
pub fn more(c: Cursor) -> bool
    ensures { (result ≡ true → Here c) × (result ≡ false → Past c) }
{
    c.k < c.e
}

// The left variable of the equation at that place, or the number of its left tokens.
pub fn left_number(c: Cursor, b: &[u8]) -> u32
    requires { ((f : Left) × On f c b.now) × Here c }
    ensures { result ≡ left_at c b.now }
{
    codec::number_at(b, 4 + 2 * c.k) as u32
}

// How many tokens its right side has.
fn count(c: Cursor, b: &[u8]) -> usize
    requires { ((f : Left) × On f c b.now) × Here c }
    ensures { result ≡ count_at c b.now }
{
    codec::number_at(b, 4 + 2 * c.e + 2 * c.k) as usize
}

// How many tokens it has.
fn span(f: Left, c: Cursor, b: &[u8]) -> usize
    requires { On f c b.now × Here c }
    ensures { result ≡ span_at f c b.now }
{
    match f {
        Left::Variable => count(c, b),
        Left::Term => left_number(c, b) as usize + count(c, b),
    }
}

// Its tokens, as the part of the form that holds them.
pub fn tokens(f: Left, c: Cursor, b: &[u8]) -> &[u8]
    requires { On f c b.now × Here c }
    ensures { result.now ≡ tokens_at f c b.now }
{
    let from = 4 + 4 * c.e + 2 * c.at;
    let to = from + 2 * span(f, c, b);
    &b[from..to]
}

// The place after it.
pub fn next(f: Left, c: Cursor, b: &[u8]) -> Cursor
    requires { On f c b.now × Here c }
    ensures { result ≡ after f c b.now }
{
    Cursor {
        e: c.e,
        k: c.k + 1,
        at: c.at + span(f, c, b),
    }
}

// ---- The checks

// The equation at that place: what is on its left, then its right side.
fn check_this(f: Left, l: u32, c: Cursor, b: &[u8]) -> Result<(), Refusal>
    requires { (l ≤ 32) × On f c b.now × Here c }
    ensures { result ≡ check_answer (check_written l (this f c b.now)) }
{
    let x = left_number(c, b);
    let part = tokens(f, c, b);
    let n = part.len() / 2;
    let row = codec::tokens_at::<{ codec::TOKENS }>(part, 0, n);
    let ts: &[u16] = &row;
    match f {
        Left::Variable => {
            terms::check_equation(l, x, &ts[..n])?;
            Ok(())
        }
        Left::Term => {
            let k = x as usize;
            let ss = &ts[..k];
            let rs = &ts[k..n];
            terms::check_sides(l, ss, rs)
        }
    }
}

// Equation by equation, up to the first that is refused.
fn check_each(f: Left, l: u32, b: &[u8]) -> Result<(), Refusal>
    requires { (l ≤ 32) × GoodSizes f b.now }
    ensures { result ≡ check_each l (equations_in f b.now) }
{
    let mut c = first(b);
    // A `while`: the cursor moves on by the length of the equation that stands at it.
    while more(c) {
        check_this(f, l, c, b)?;
        c = next(f, c, b);
    }
    Ok(())
}

// How many tokens the e equations have by their counts, a true sum; the two arrays stand one after the other.
fn counted(f: Left, e: usize, b: &[u8]) -> usize
    requires { (e ≤ most_equations) × (equations_length e 0 ≤ length b.now) }
    ensures { result ≡ tokens_counted f e b.now }
{
    match f {
        Left::Variable => codec::sum_at(b, 4 + 2 * e, e),
        Left::Term => codec::sum_at(b, 4, 2 * e),
    }
}

// The checks of equations: sizes present (1), 7, length (1), sum (6), then equation by equation.
pub fn check(f: Left, l: u32, b: &[u8]) -> Result<(), Refusal>
    requires { l ≤ 32 }
    ensures { result ≡ check_equations f l b.now }
{
    if b.len() < 4 {
        return Err(Refusal::Torn);
    }
    let e = codec::number_at(b, 0) as usize;
    let m = codec::number_at(b, 2) as usize;
    if !((e <= EQUATIONS) & (m <= codec::TOKENS)) {
        return Err(Refusal::Long);
    }
    if b.len() != 4 + 4 * e + 2 * m {
        return Err(Refusal::Torn);
    }
    if counted(f, e, b) != m {
        return Err(Refusal::Term);
    }
    check_each(f, l, b)
}
