// Terms as rows of 16-bit tokens: the reader, and the checks of an equation. Inner: not a public call.
// Each nested head costs one frame of `read_term` and one of `read_row`, each further argument one of `read_row`: at most 2
// frames a token. The checks are made of at most 1024 tokens.
#![tactic(auto)]

ghost use Rattle.std.specs.Prelude.{◌≡◌, true, ℕ, ◌≤◌};
ghost use Rattle.model.specs.Equations as M;
ghost use Rattle.terms.specs.Checks.{parsed, parsed_row, all_named, word_of, check_term, check_equation, checked};
ghost use Rattle.terms.specs.Checks.{check_sides, check_answer};
ghost use Rattle.terms.specs.EquationKinds.{kind_named, Counted, Told};

use tables::Refusal;

// A token from here on, with the top bit 1, is a head; one below is the number of a variable.
pub const FIRST_HEAD: u16 = 32768;

// The arity of a head is in its lowest 4 bits: it is one of so many.
pub const ARITIES: u16 = 16;

// The most tokens of an equation.
const TOKENS: usize = 1024;

// How the left variable x of an equation x = t stands in t: t is exactly x, holds x deeper, or does not hold it. Contracts
// name it (`Told`), which a closure has not.
#[derive(Clone, Copy, Debug, PartialEq, Eq)]
pub enum Kind {
    Itself,
    Deeper,
    Plain,
}

// An equation x = t as the procedures need it: the set of x alone, the set of t's variables, bit i - 1 for Xi, and the kind.
#[derive(Clone, Copy, Debug, PartialEq, Eq)]
pub struct Equation {
    pub left: u32,
    pub right: u32,
    pub kind: Kind,
}

// Reads the term at the front of the tokens, a variable token alone, or a head and its row of arguments: how many tokens it
// uses; none where there is no term.
#[cycle(read_row_read_term)]
fn read_term(ts: &[u16], l: u32) -> Option<usize>
    ensures { result ≡ parsed l ts.now }
{
    if ts.len() == 0 {
        return None;
    }
    let t = ts[0];
    if t < FIRST_HEAD {
        let x = t as u32;
        if (0 < x) & (x <= l) {
            return Some(1);
        }
        return None;
    }
    let n = read_row(&ts[1..], (t % ARITIES) as usize, l)?;
    Some(n + 1)
}

// Reads a row of so many terms, one after another: how many tokens they use.
#[cycle(read_row_read_term)]
fn read_row(ts: &[u16], count: usize, l: u32) -> Option<usize>
    ensures { result ≡ parsed_row l count ts.now }
{
    if count == 0 {
        return Some(0);
    }
    let n = read_term(ts, l)?;
    let m = read_row(&ts[n..], count - 1, l)?;
    Some(n + m)
}

// Is every variable among the tokens one of X1 to Xl?
fn all_named(ts: &[u16], l: u32) -> bool
    ensures { result ≡ all_named l ts.now }
{
    let mut good = true;
    for &t in ts {
        let x = t as u32;
        good &= (FIRST_HEAD <= t) | ((0 < x) & (x <= l));
    }
    good
}

// The variables among the tokens, bit i - 1 for Xi.
fn variables(ts: &[u16], l: u32) -> u32
    requires { (l ≤ 32) × (all_named l ts.now ≡ true) }
    ensures { result ≡ word_of ts.now }
{
    let mut set = 0u32;
    for &t in ts {
        if t < FIRST_HEAD {
            let x = t as u32;
            set |= 1u32 << (x - 1);
        }
    }
    set
}

// One whole term: 5 for a variable not 1 to l anywhere among the tokens, then 6. The set of its variables, bit i - 1 for Xi.
pub fn check_term(l: u32, ts: &[u16]) -> Result<u32, Refusal>
    requires { l ≤ 32 }
    ensures { result ≡ checked l (check_term l ts.now) }
{
    if !all_named(ts, l) {
        return Err(Refusal::Name);
    }
    match read_term(ts, l) {
        Some(n) if n == ts.len() => Ok(variables(ts, l)),
        _ => Err(Refusal::Term),
    }
}

// An equation handed over by itself: more than 1024 tokens (7), the left variable (5), tokens in order (5), whole term (6).
pub fn check_equation(l: u32, x: u32, ts: &[u16]) -> Result<u32, Refusal>
    requires { l ≤ 32 }
    ensures { result ≡ checked l (check_equation l x ts.now) }
{
    if TOKENS < ts.len() {
        return Err(Refusal::Long);
    }
    if !((0 < x) & (x <= l)) {
        return Err(Refusal::Name);
    }
    check_term(l, ts)
}

// Two terms handed over by themselves: more than 1024 tokens together (7), then the left side (5, 6), then the right (5, 6).
pub fn check_sides(l: u32, left: &[u16], right: &[u16]) -> Result<(), Refusal>
    requires { l ≤ 32 }
    ensures { result ≡ check_answer (check_sides l left.now right.now) }
{
    if TOKENS < left.len() {
        return Err(Refusal::Long);
    }
    if TOKENS - left.len() < right.len() {
        return Err(Refusal::Long);
    }
    check_term(l, left)?;
    check_term(l, right)?;
    Ok(())
}

// The kind of the equation of the set of x alone and the set of t's variables, where t has so many tokens: a term of one token
// that holds x is x.
fn kind_of(left: u32, right: u32, tokens: usize) -> Kind
    ensures { (l : ℕ) (e : M.Equation) → Counted l left right tokens e → kind_named result ≡ M.kind e }
{
    if left & right == 0 {
        return Kind::Plain;
    }
    if tokens == 1 {
        return Kind::Itself;
    }
    Kind::Deeper
}

// The equation of these sets and so many tokens.
pub fn equation_of(left: u32, right: u32, tokens: usize) -> Equation
    ensures { (l : ℕ) (e : M.Equation) → Counted l left right tokens e → Told l result e }
{
    Equation {
        left: left,
        right: right,
        kind: kind_of(left, right, tokens),
    }
}
