// The operations on table values, of both sides: conversion, equation, two terms set equal, join, projection and change of
// side.
// A refusal returns the table as given; of two tables, the first.
#![tactic(auto)]

ghost use Rattle.std.specs.Prelude.{◌≡◌, List, ℕ, ◌≤◌, length};
ghost use Rattle.std.proofs.Math.Option.{some};
ghost use Rattle.model.specs.Groups.{Bits};
ghost use Rattle.model.specs.Growth.{Entries, limit};
ghost use Rattle.model.specs.Tables.{equation_of_sets, join as join_lists, kept, projection, no_groups};
ghost use Rattle.model.specs.Equations as M;
ghost use Rattle.model.specs.Walk.{Walked};
ghost use Rattle.model.specs.Unification.{walk_entries};
ghost use Rattle.words.specs.Words.{set_word};
ghost use Rattle.lists.specs.WorkingLists.{Holds, Within, Makes};
ghost use Rattle.lists.specs.Comings.{Bounded, Comes};
ghost use Rattle.tables.specs.Values.{refuses, made_or_full, GoodTable, entries_of, zero_table};
ghost use Rattle.procedures.specs.Parts.{OfSets};
ghost use Rattle.terms.specs.EquationKinds.{Told};
ghost use Rattle.walks.specs.Cursors.{Rest};
ghost use Rattle.operations.specs.Operations.{side_of, side_numbered, convert_call, equation_call, unify_call, join_call};
ghost use Rattle.operations.specs.Operations.{projection_call, change_side_call, GivenAs, CameOf, Starts};

use lists::values::Came;
use tables::{Answered, Refusal, Table};
use terms::{Equation, Kind};
use walks::Found;

// A table is positive or negative. Contracts name the side (`side_of`), which a closure has not.
#[derive(Clone, Copy, Debug, PartialEq, Eq)]
pub enum Side {
    Positive,
    Negative,
}

// The side that a number stands for: 0 is positive, any other number negative.
impl From<u32> for Side {
    ghost from_gives = { λ number side. side_of side ≡ side_numbered number };

    fn from(number: u32) -> Side {
        if number == 0 {
            return Side::Positive;
        }
        Side::Negative
    }
}

// A refusal, with the table that is returned. Inner: not a public call.
pub fn refused(r: Refusal, t: Table) -> Answered
    ensures { result ≡ refuses r t }
{
    Answered {
        answer: Err(r),
        table: t,
    }
}

// The list of strings that stands for no groups, and how many entries it has: none where it is positive, where it is negative
// one all-star string, whose word is 0.
fn no_groups_list(side: Side, list: &mut [u64; 256]) -> usize
    ensures few { result ≤ limit }
    ensures made { (l : ℕ) → l ≤ 32 → Holds l list.new result (no_groups (side_of side) l) }
{
    // As a slice its length is known.
    let whole: &[u64] = &*list;
    match side {
        Side::Positive => 0,
        Side::Negative => {
            list[0] = 0;
            1
        }
    }
}

// Converts groups, given as l and a row of words, bit i - 1 for Xi, to a list. Inner: not a public call.
pub fn convert_list(l: u32, words: &[u32], list: &mut [u64; 256]) -> Result<Came, Refusal>
    ensures bounded { Bounded result }
    ensures comes { Comes l zero_table list.new result (convert_call l words.now) }
{
    if !tables::good_width(l) {
        return Err(Refusal::Width);
    }
    if !conversion::all_below(l, words) {
        return Err(Refusal::Stray);
    }
    lists::values::came_of(conversion::convert(list, l, words))
}

// Converts groups to a table.
pub fn convert(l: u32, words: &[u32]) -> Answered
    ensures { result ≡ convert_call l words.now }
{
    let mut list = [0u64; 256];
    let came = convert_list(l, words, &mut list);
    lists::values::answered(l, Table::zero(), came, &list)
}

// The entries after an equation, for x alone in mx and t's variables in mt.
fn equation_list(
    side: Side,
    t: &mut [u64; 256],
    tn: usize,
    l: u32,
    mx: u32,
    mt: u32,
    list: &mut [u64; 256],
) -> Option<usize>
    requires { (tn ≤ limit) × (l ≤ 32) }
    ensures within { Within result }
    ensures made { OfSets l t.entry.now tn mx mt (λ τ x t.
        Makes l list.new result (equation_of_sets (side_of side) l x t τ)) }
{
    match side {
        Side::Positive => procedures::equations::positive_in_place(t, tn, l, mx, mt, list),
        Side::Negative => procedures::equations::negative_in_place(t, tn, l, mx, mt, list),
    }
}

// An equation that was read, on a checked table: x = x leaves the table as given, and where t holds x deeper, which has no
// finite solution, there are no groups. Neither grows a list.
fn equation_read(side: Side, t: &Table, e: Equation, list: &mut [u64; 256]) -> Result<Came, Refusal>
    requires { GoodTable t.now }
    ensures bounded { Bounded result }
    ensures comes { (q : M.Equation) → Told t.now.l e q
        → CameOf t.now list.new result (λ t. made_or_full t.l t (M.equation (side_of side) t.l q (entries_of t))) }
{
    let kind = e.kind;
    match kind {
        Kind::Itself => Ok(Came::Same),
        Kind::Deeper => Ok(Came::Count(no_groups_list(side, list))),
        Kind::Plain => {
            let mut given = [0u64; 256];
            lists::values::load(t, &mut given);
            lists::values::came_of(equation_list(side, &mut given, t.n, t.l, e.left, e.right, list))
        }
    }
}

// Reads the equation Xx = the term of the tokens: as the procedures need it, or the refusal of its checks. Inner: not a
// public call.
pub fn read_equation(l: u32, x: u32, ts: &[u16]) -> Result<Equation, Refusal>
    requires { l ≤ 32 }
    ensures { GivenAs l x ts.now result }
{
    let m = terms::check_equation(l, x, ts)?;
    Ok(terms::equation_of(1u32 << (x - 1), m, ts.len()))
}

// The equation Xx = the term of the tokens, on a checked table that is lent, with the list to make. Inner: not a public call.
pub fn equation_parts(
    side: Side,
    t: &Table,
    x: u32,
    ts: &[u16],
    list: &mut [u64; 256],
) -> Result<Came, Refusal>
    requires { GoodTable t.now }
    ensures bounded { Bounded result }
    ensures comes { CameOf t.now list.new result (λ t. equation_call (side_of side) t x ts.now) }
{
    let e = read_equation(t.l, x, ts)?;
    equation_read(side, t, e, list)
}

// The same, on a checked table by value.
pub fn equation_checked(side: Side, t: Table, x: u32, ts: &[u16]) -> Answered
    requires { GoodTable t }
    ensures { result ≡ equation_call (side_of side) t x ts.now }
{
    let mut list = [0u64; 256];
    let c = equation_parts(side, &t, x, ts, &mut list);
    lists::values::answered(t.l, t, c, &list)
}

// The equation Xx = the term of the tokens.
pub fn equation(side: Side, t: Table, x: u32, ts: &[u16]) -> Answered
    ensures { result ≡ equation_call (side_of side) t x ts.now }
{
    match tables::check(t) {
        Err(r) => refused(r, t),
        Ok(()) => equation_checked(side, t, x, ts),
    }
}

// A found equation on a working list, in place.
fn equate(side: Side, e: Equation, list: &mut [u64; 256], n: usize, l: u32) -> Option<usize>
    requires { (n ≤ limit) × (l ≤ 32) }
    ensures within { Within result }
    ensures made { (τ : Entries) (q : M.Equation) → Holds l list.old n τ → Told l e q
        → Makes l list.new result (M.equation (side_of side) l q τ) }
{
    let kind = e.kind;
    match kind {
        Kind::Itself => Some(n),
        Kind::Deeper => Some(no_groups_list(side, list)),
        Kind::Plain => {
            let mut given = *list;
            equation_list(side, &mut given, n, l, e.left, e.right, list)
        }
    }
}

// The equations that the walk of two terms finds, applied in order to a working list, in place; the walk does not clash.
fn apply_found(
    side: Side,
    list: &mut [u64; 256],
    n: usize,
    l: u32,
    left: &[u16],
    right: &[u16],
) -> Option<usize>
    requires { (n ≤ limit) × (l ≤ 32)
        × ((p : Entries × List M.Equation) × Starts l list.old n left.now right.now p) }
    ensures within { Within result }
    ensures made { (p : Entries × List M.Equation) → Starts l list.old n left.now right.now p
        → Makes l list.new result (walk_entries (side_of side) l (some p.1) p.0) }
{
    let mut count = n;
    let mut at_left = 0;
    let mut at_right = 0;
    // A `loop`: only the walk tells that it is at its end.
    loop {
        match walks::next(left, at_left, right, at_right) {
            Found::Equation { found: e, i, j } => {
                count = equate(side, e, list, count, l)?;
                at_left = i;
                at_right = j;
            }
            // It does not clash.
            Found::Clash => return None,
            Found::End => return Some(count),
        }
    }
}

// Two terms that were read, set equal, on a checked table: the walk is finished before any found equation is applied.
fn unify_read(
    side: Side,
    t: &Table,
    left: &[u16],
    right: &[u16],
    list: &mut [u64; 256],
) -> Result<Came, Refusal>
    requires { GoodTable t.now × ((o : Walked) × Rest t.now.l left.now right.now 0 0 o) }
    ensures bounded { Bounded result }
    ensures comes { (o : Walked) → Rest t.now.l left.now right.now 0 0 o
        → CameOf t.now list.new result (λ t. made_or_full t.l t (walk_entries (side_of side) t.l o (entries_of t))) }
{
    if walks::clashes(left, right) {
        return Ok(Came::Count(no_groups_list(side, list)));
    }
    lists::values::load(t, list);
    lists::values::came_of(apply_found(side, list, t.n, t.l, left, right))
}

// The terms of two rows of tokens set equal, on a checked table that is lent, with the list to make. Inner: not a public call.
pub fn unify_parts(
    side: Side,
    t: &Table,
    left: &[u16],
    right: &[u16],
    list: &mut [u64; 256],
) -> Result<Came, Refusal>
    requires { GoodTable t.now }
    ensures bounded { Bounded result }
    ensures comes { CameOf t.now list.new result (λ t. unify_call (side_of side) t left.now right.now) }
{
    terms::check_sides(t.l, left, right)?;
    unify_read(side, t, left, right, list)
}

// The same, on a checked table by value.
pub fn unify_checked(side: Side, t: Table, left: &[u16], right: &[u16]) -> Answered
    requires { GoodTable t }
    ensures { result ≡ unify_call (side_of side) t left.now right.now }
{
    let mut list = [0u64; 256];
    let c = unify_parts(side, &t, left, right, &mut list);
    lists::values::answered(t.l, t, c, &list)
}

// The terms of two rows of tokens set equal.
pub fn unify(side: Side, t: Table, left: &[u16], right: &[u16]) -> Answered
    ensures { result ≡ unify_call (side_of side) t left.now right.now }
{
    match tables::check(t) {
        Err(r) => refused(r, t),
        Ok(()) => unify_checked(side, t, left, right),
    }
}

// The entries of the join of two lists.
fn join_list(
    side: Side,
    a: &[u64; 256],
    an: usize,
    b: &[u64; 256],
    bn: usize,
    l: u32,
    list: &mut [u64; 256],
) -> Option<usize>
    requires { (an ≤ limit) × (bn ≤ limit) × (l ≤ 32) }
    ensures within { Within result }
    ensures made { (α β : Entries) → Holds l a.now an α → Holds l b.now bn β
        → Makes l list.new result (join_lists (side_of side) α β) }
{
    match side {
        Side::Positive => procedures::projections::join_positive(a, an, b, bn, l, list),
        Side::Negative => procedures::projections::join_negative(a, an, b, bn, l, list),
    }
}

// The join of two checked tables of one width.
fn join_checked(side: Side, t: Table, u: Table) -> Answered
    requires { GoodTable t × GoodTable u × (u.l ≡ t.l) }
    ensures { result ≡ made_or_full t.l t (join_lists (side_of side) (entries_of t) (entries_of u)) }
{
    let l = t.l;
    let an = t.n;
    let bn = u.n;
    let mut a = [0u64; 256];
    lists::values::load(&t, &mut a);
    let mut b = [0u64; 256];
    lists::values::load(&u, &mut b);
    let mut list = [0u64; 256];
    let g = join_list(side, &a, an, &b, bn, l, &mut list);
    lists::values::made_or_full(l, t, g, &list)
}

// The join of two tables of one side.
pub fn join(side: Side, t: Table, u: Table) -> Answered
    ensures { result ≡ join_call (side_of side) t u }
{
    match tables::check(t) {
        Err(r) => refused(r, t),
        Ok(()) => match tables::check(u) {
            Err(r) => refused(r, t),
            Ok(()) => {
                if t.l == u.l {
                    join_checked(side, t, u)
                } else {
                    refused(Refusal::Unlike, t)
                }
            }
        },
    }
}

// The entries of the projection of a list onto the set keep.
fn projection_list(
    side: Side,
    t: &[u64; 256],
    tn: usize,
    l: u32,
    keep: u32,
    list: &mut [u64; 256],
) -> Option<usize>
    requires { (tn ≤ limit) × (l ≤ 32) }
    ensures within { Within result }
    ensures made { (k : Bits) (τ : Entries) → Holds l t.now tn τ → length k ≡ l → keep ≡ set_word k
        → Makes (kept k) list.new result (projection (side_of side) l k τ) }
{
    match side {
        Side::Positive => procedures::projections::positive(t, tn, keep, list),
        Side::Negative => procedures::projections::negative(t, tn, l, keep, list),
    }
}

// The projection of a table onto the variables of the set keep, bit i - 1 for Xi.
pub fn project(side: Side, t: Table, keep: u32) -> Answered
    ensures { result ≡ projection_call (side_of side) t keep }
{
    match tables::check(t) {
        Err(r) => refused(r, t),
        Ok(()) => {
            let l = t.l;
            if !((0 < keep) & (keep <= words::full(l))) {
                return refused(Refusal::Keep, t);
            }
            let n = t.n;
            let mut given = [0u64; 256];
            lists::values::load(&t, &mut given);
            let mut list = [0u64; 256];
            let g = projection_list(side, &given, n, l, keep, &mut list);
            lists::values::made_or_full(u32::count_ones(keep), t, g, &list)
        }
    }
}

// The table of the other side with the same groups as t on this side: one procedure for both.
pub fn change_side(side: Side, t: Table) -> Answered
    ensures { result ≡ change_side_call (side_of side) t }
{
    match tables::check(t) {
        Err(r) => refused(r, t),
        Ok(()) => {
            let l = t.l;
            let n = t.n;
            let mut given = [0u64; 256];
            lists::values::load(&t, &mut given);
            let mut list = [0u64; 256];
            let mut taken = [0u64; 256];
            let mut edges = [0u64; 256];
            let g = sides::change_side_lent(&given, n, l, &mut list, &mut taken, &mut edges);
            lists::values::made_or_full(l, t, g, &list)
        }
    }
}
