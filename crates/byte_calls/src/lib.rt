// The calls on byte buffers, up to the table or the reply that they come to. Inner: not a public call.
#![tactic(auto)]

pub mod outputs; // what a call hands back: number, form, word, part

ghost use Rattle.std.specs.Prelude.{◌≡◌, Ok, Err};
ghost use Rattle.tables.specs.Refusals.{Accepted};
ghost use Rattle.tables.specs.Values.{GoodTable};
ghost use Rattle.lists.specs.Comings.{Bounded};
ghost use Rattle.operations.specs.Operations.{side_of, convert_call, equation_call, unify_call, CameOf};
ghost use Rattle.forms.specs.TableForms.{read_form};
ghost use Rattle.byte_calls.specs.Outputs.{output_number_as, output_bytes_as, output_number, output_bytes};
ghost use Rattle.byte_calls.specs.ByteCalls.{check_bytes, term_call, change_side_bytes, equation_bytes, join_bytes};
ghost use Rattle.byte_calls.specs.ByteCalls.{projection_bytes, equal_bytes, ground_bytes, independent_bytes};
ghost use Rattle.byte_calls.specs.ByteCalls.{check_both_bytes, tokens_of, terms_call, unify_bytes};
ghost use Rattle.byte_calls.specs.ByteCalls.{term_reason, reason_bytes, after_read};

use forms::{Extent, Layout};
use lists::values::Came;
use operations::Side;
use reasons::Verdict;
use tables::{Answered, Refusal, Table};

// The bytes of a term handed over by itself: 7 where half the length, rounded down, is above 1024; 1 where it is odd.
fn check_bytes(term: &[u8]) -> Result<(), Refusal>
    ensures { result ≡ check_bytes term.now }
{
    if codec::TOKENS < term.len() / 2 {
        return Err(Refusal::Long);
    }
    if term.len() % 2 != 0 {
        return Err(Refusal::Torn);
    }
    Ok(())
}

// The equation Xx = the term of the bytes, short enough and of even length, on a checked table. Most terms are short: a small
// array is enough for them.
fn equation_tokens(
    side: Side,
    t: &Table,
    x: u32,
    term: &[u8],
    list: &mut [u64; 256],
) -> Result<Came, Refusal>
    requires { GoodTable t.now × (check_bytes term.now ≡ Accepted) }
    ensures bounded { Bounded result }
    ensures comes { CameOf t.now list.new result (λ t. equation_call (side_of side) t x (tokens_of term.now)) }
{
    let k = term.len() / 2;
    if k <= codec::FEW {
        let few = codec::tokens_at::<{ codec::FEW }>(term, 0, k);
        let short: &[u16] = &few;
        return operations::equation_parts(side, t, x, &short[..k], list);
    }
    let row = codec::tokens_at::<{ codec::TOKENS }>(term, 0, k);
    let tokens: &[u16] = &row;
    operations::equation_parts(side, t, x, &tokens[..k], list)
}

// The equation Xx = the term of the bytes, on a table value that is lent, with the list to make.
pub fn equation_parts(
    side: Side,
    t: &Table,
    x: u32,
    term: &[u8],
    list: &mut [u64; 256],
) -> Result<Came, Refusal>
    ensures bounded { Bounded result }
    ensures comes { CameOf t.now list.new result (λ t. term_call (side_of side) t x term.now) }
{
    tables::check_parts(t)?;
    check_bytes(term)?;
    equation_tokens(side, t, x, term, list)
}

// The equation Xx = the term of the bytes, on a table value.
pub fn equation_term(side: Side, t: Table, x: u32, term: &[u8]) -> Answered
    ensures { result ≡ term_call (side_of side) t x term.now }
{
    let mut list = [0u64; 256];
    let came = equation_parts(side, &t, x, term, &mut list);
    lists::values::answered(t.l, t, came, &list)
}

// The bytes of two terms handed over by themselves: 7 where the halves of the lengths, each rounded down, are together above
// 1024; 1 where the left length is odd, then the right.
fn check_both_bytes(left: &[u8], right: &[u8]) -> Result<(), Refusal>
    ensures { result ≡ check_both_bytes left.now right.now }
{
    if codec::TOKENS < left.len() / 2 + right.len() / 2 {
        return Err(Refusal::Long);
    }
    if left.len() % 2 != 0 {
        return Err(Refusal::Torn);
    }
    if right.len() % 2 != 0 {
        return Err(Refusal::Torn);
    }
    Ok(())
}

// The terms of two rows of bytes, short enough and of even length, set equal on a checked table.
fn unify_tokens(
    side: Side,
    t: &Table,
    left: &[u8],
    right: &[u8],
    list: &mut [u64; 256],
) -> Result<Came, Refusal>
    requires { GoodTable t.now × (check_both_bytes left.now right.now ≡ Accepted) }
    ensures bounded { Bounded result }
    ensures comes { CameOf t.now list.new result (λ t. unify_call (side_of side) t (tokens_of left.now) (tokens_of right.now)) }
{
    let k = left.len() / 2;
    let m = right.len() / 2;
    if (k <= codec::FEW) & (m <= codec::FEW) {
        let few = codec::tokens_at::<{ codec::FEW }>(left, 0, k);
        let first: &[u16] = &few;
        let other = codec::tokens_at::<{ codec::FEW }>(right, 0, m);
        let second: &[u16] = &other;
        return operations::unify_parts(side, t, &first[..k], &second[..m], list);
    }
    let row = codec::tokens_at::<{ codec::TOKENS }>(left, 0, k);
    let lefts: &[u16] = &row;
    let others = codec::tokens_at::<{ codec::TOKENS }>(right, 0, m);
    let rights: &[u16] = &others;
    operations::unify_parts(side, t, &lefts[..k], &rights[..m], list)
}

// The terms of two rows of bytes set equal, on a table value that is lent, with the list to make.
pub fn unify_parts(
    side: Side,
    t: &Table,
    left: &[u8],
    right: &[u8],
    list: &mut [u64; 256],
) -> Result<Came, Refusal>
    ensures bounded { Bounded result }
    ensures comes { CameOf t.now list.new result (λ t. terms_call (side_of side) t left.now right.now) }
{
    tables::check_parts(t)?;
    check_both_bytes(left, right)?;
    unify_tokens(side, t, left, right, list)
}

// The terms of two rows of bytes set equal, on a table value.
pub fn unify_terms(side: Side, t: Table, left: &[u8], right: &[u8]) -> Answered
    ensures { result ≡ terms_call (side_of side) t left.now right.now }
{
    let mut list = [0u64; 256];
    let came = unify_parts(side, &t, left, right, &mut list);
    lists::values::answered(t.l, t, came, &list)
}

// Converts groups, bit i - 1 for Xi, and writes the plain form. The number of the answer, for C.
pub fn convert(l: u32, groups: &[u32], out: &mut [u8]) -> u32
    ensures number { result ≡ output_number (convert_call l groups.now) out.old }
    ensures bytes { out.new ≡ output_bytes (convert_call l groups.now) out.old }
{
    let mut list = [0u64; 256];
    let came = operations::convert_list(l, groups, &mut list);
    outputs::write_came(Layout::Plain, l, came, &list, out)
}

// Reads a form, which grows its entries, and writes it again, in the same layout or the other. The number of the answer, for
// C.
pub fn rewrite(from: Layout, extent: Extent, to: Layout, b: &[u8], out: &mut [u8]) -> u32
    ensures number { result ≡ output_number_as to (read_form from extent b.now) out.old }
    ensures bytes { out.new ≡ output_bytes_as to (read_form from extent b.now) out.old }
{
    let mut list = [0u64; 256];
    let read = forms::read_list(from, extent, b, &mut list);
    outputs::write_listed(to, read, &list, out)
}

// The table that the bytes are the form of.
fn read_whole(b: &[u8]) -> Result<Table, Refusal>
    ensures { result ≡ after_read b.now Err Ok }
{
    let read = forms::read_table(Extent::Whole, b);
    read.answer?;
    Ok(read.table)
}

// The change of side of the table of the bytes.
pub fn change_side(side: Side, b: &[u8]) -> Answered
    ensures { result ≡ change_side_bytes (side_of side) b.now }
{
    match read_whole(b) {
        Err(r) => tables::refused(r),
        Ok(t) => operations::change_side(side, t),
    }
}

// The equation Xx = the term of the bytes, on the table of the bytes.
pub fn equation(side: Side, b: &[u8], x: u32, term: &[u8]) -> Answered
    ensures { result ≡ equation_bytes (side_of side) b.now x term.now }
{
    match read_whole(b) {
        Err(r) => tables::refused(r),
        Ok(t) => equation_term(side, t, x, term),
    }
}

// The terms of two rows of bytes set equal, on the table of the bytes.
pub fn unify(side: Side, b: &[u8], left: &[u8], right: &[u8]) -> Answered
    ensures { result ≡ unify_bytes (side_of side) b.now left.now right.now }
{
    match read_whole(b) {
        Err(r) => tables::refused(r),
        Ok(t) => unify_terms(side, t, left, right),
    }
}

// The join of two tables of bytes.
pub fn join(side: Side, b: &[u8], c: &[u8]) -> Answered
    ensures { result ≡ join_bytes (side_of side) b.now c.now }
{
    match read_whole(b) {
        Err(r) => tables::refused(r),
        Ok(t) => match read_whole(c) {
            Err(r) => tables::refused(r),
            Ok(u) => operations::join(side, t, u),
        },
    }
}

// The projection of the table of the bytes onto the variables of the set keep.
pub fn project(side: Side, b: &[u8], keep: u32) -> Answered
    ensures { result ≡ projection_bytes (side_of side) b.now keep }
{
    match read_whole(b) {
        Err(r) => tables::refused(r),
        Ok(t) => operations::project(side, t, keep),
    }
}

// Are two tables of bytes, of one side, equal in groups?
pub fn equal(b: &[u8], c: &[u8]) -> Result<bool, Refusal>
    ensures { result ≡ equal_bytes b.now c.now }
{
    let t = read_whole(b)?;
    let u = read_whole(c)?;
    questions::equal(t, u)
}

// Is the variable Xx ground in the table of the bytes?
pub fn ground(side: Side, b: &[u8], x: u32) -> Result<bool, Refusal>
    ensures { result ≡ ground_bytes (side_of side) b.now x }
{
    let t = read_whole(b)?;
    questions::ground(side, t, x)
}

// Are two sets of variables independent in the table of the bytes?
pub fn independent(side: Side, b: &[u8], first: u32, second: u32) -> Result<bool, Refusal>
    ensures { result ≡ independent_bytes (side_of side) b.now first second }
{
    let t = read_whole(b)?;
    questions::independent(side, t, first, second)
}

// The verdict on the group s after the equation Xx = the term of the bytes, on a checked positive table.
fn reason_term(t: Table, x: u32, term: &[u8], s: u32) -> Result<Verdict, Refusal>
    requires { GoodTable t }
    ensures { result ≡ term_reason t x term.now s }
{
    check_bytes(term)?;
    let n = term.len() / 2;
    let row = codec::tokens_at::<{ codec::TOKENS }>(term, 0, n);
    let tokens: &[u16] = &row;
    reasons::judge_checked(t, x, &tokens[..n], s)
}

// Is the group s in the positive table of the bytes after the equation Xx = the term of the bytes, and why?
pub fn reason(b: &[u8], x: u32, term: &[u8], s: u32) -> Result<Verdict, Refusal>
    ensures { result ≡ reason_bytes b.now x term.now s }
{
    let t = read_whole(b)?;
    reason_term(t, x, term, s)
}
