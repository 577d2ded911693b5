// The analyser for C: every call of include/sharing.h. Each returns 0 where it is accepted, else the number of the refusal; after
// a refusal every byte that was lent holds what it held. A side is a number: 0 is positive, any other negative.
#![tactic(auto)]

ghost use Rattle.std.specs.Prelude.{◌≡◌};
ghost use Rattle.operations.specs.Operations.{side_numbered, convert_call};
ghost use Rattle.forms.specs.declared.Extent.TheVariants.{Whole};
ghost use Rattle.terms.specs.Checks.{one_term, two_terms};
ghost use Rattle.forms.specs.declared.Layout.TheVariants.{Packed};
ghost use Rattle.equation_forms.specs.declared.Left.TheVariants.{Variable, Term};
ghost use Rattle.forms.specs.TableForms.{read_table, read_packed};
ghost use Rattle.byte_calls.specs.ByteCalls.{change_side_bytes, equation_bytes, join_bytes, projection_bytes, equal_bytes};
ghost use Rattle.byte_calls.specs.ByteCalls.{unify_bytes, ground_bytes, independent_bytes, reason_bytes};
ghost use Rattle.questions.specs.Replies.{reply_number, reply_word};
ghost use Rattle.reasons.specs.Verdicts.{verdict_number, verdict_word, x_word, t_word};
ghost use Rattle.byte_calls.specs.Outputs.{output_number_as, output_bytes_as, output_number, output_bytes};
ghost use Rattle.byte_calls.specs.BufferParts.{lent, smaller_part};
ghost use Rattle.running.specs.States.{started, step_number, advanced, run_state, state_number, state_bytes};

use equation_forms::Left;
use forms::{Extent, Layout};
use operations::Side;
use running::Running;

// Reads a form, which grows its entries, and writes it again.
#[unsafe(no_mangle)]
pub extern "C" fn sharing_read(table: &[u8], out: &mut [u8]) -> u32
    ensures number { result ≡ output_number (read_table Whole table.now) out.old }
    ensures bytes { out.new ≡ output_bytes (read_table Whole table.now) out.old }
{
    byte_calls::rewrite(Layout::Plain, Extent::Whole, Layout::Plain, table, out)
}

// Reads a plain form and writes the packed one.
#[unsafe(no_mangle)]
pub extern "C" fn sharing_pack(table: &[u8], out: &mut [u8]) -> u32
    ensures number { result ≡ output_number_as Packed (read_table Whole table.now) out.old }
    ensures bytes { out.new ≡ output_bytes_as Packed (read_table Whole table.now) out.old }
{
    byte_calls::rewrite(Layout::Plain, Extent::Whole, Layout::Packed, table, out)
}

// Reads a packed form and writes the plain one.
#[unsafe(no_mangle)]
pub extern "C" fn sharing_unpack(packed: &[u8], out: &mut [u8]) -> u32
    ensures number { result ≡ output_number (read_packed packed.now) out.old }
    ensures bytes { out.new ≡ output_bytes (read_packed packed.now) out.old }
{
    byte_calls::rewrite(Layout::Packed, Extent::Whole, Layout::Plain, packed, out)
}

// Converts groups, bit i - 1 for Xi, to a positive table.
#[unsafe(no_mangle)]
pub extern "C" fn sharing_convert(l: u32, groups: &[u32], out: &mut [u8]) -> u32
    ensures number { result ≡ output_number (convert_call l groups.now) out.old }
    ensures bytes { out.new ≡ output_bytes (convert_call l groups.now) out.old }
{
    byte_calls::convert(l, groups, out)
}

// Changes the side of a table.
#[unsafe(no_mangle)]
pub extern "C" fn sharing_change_side(side: u32, table: &[u8], out: &mut [u8]) -> u32
    ensures number { result ≡ output_number (change_side_bytes (side_numbered side) table.now) out.old }
    ensures bytes { out.new ≡ output_bytes (change_side_bytes (side_numbered side) table.now) out.old }
{
    byte_calls::outputs::write(byte_calls::change_side(Side::from(side), table), out)
}

// Applies one equation, Xvariable = the term of the bytes.
#[unsafe(no_mangle)]
pub extern "C" fn sharing_equation(
    side: u32,
    table: &[u8],
    variable: u32,
    term: &[u8],
    out: &mut [u8],
) -> u32
    ensures number { result ≡ output_number (equation_bytes (side_numbered side) table.now variable term.now) out.old }
    ensures bytes { out.new
        ≡ output_bytes (equation_bytes (side_numbered side) table.now variable term.now) out.old }
{
    byte_calls::outputs::write(
        byte_calls::equation(Side::from(side), table, variable, term),
        out,
    )
}

// Sets two terms equal: walks them together and applies the equations found, or leaves no groups where they clash.
#[unsafe(no_mangle)]
pub extern "C" fn sharing_unify(
    side: u32,
    table: &[u8],
    left: &[u8],
    right: &[u8],
    out: &mut [u8],
) -> u32
    ensures number { result ≡ output_number (unify_bytes (side_numbered side) table.now left.now right.now)
        out.old }
    ensures bytes { out.new
        ≡ output_bytes (unify_bytes (side_numbered side) table.now left.now right.now)
        out.old }
{
    byte_calls::outputs::write(byte_calls::unify(Side::from(side), table, left, right), out)
}

// Joins two tables of one side.
#[unsafe(no_mangle)]
pub extern "C" fn sharing_join(side: u32, first: &[u8], second: &[u8], out: &mut [u8]) -> u32
    ensures number { result ≡ output_number (join_bytes (side_numbered side) first.now second.now) out.old }
    ensures bytes { out.new ≡ output_bytes (join_bytes (side_numbered side) first.now second.now) out.old }
{
    byte_calls::outputs::write(byte_calls::join(Side::from(side), first, second), out)
}

// Projects a table onto a set of variables, bit i - 1 for Xi.
#[unsafe(no_mangle)]
pub extern "C" fn sharing_project(side: u32, table: &[u8], keep: u32, out: &mut [u8]) -> u32
    ensures number { result ≡ output_number (projection_bytes (side_numbered side) table.now keep) out.old }
    ensures bytes { out.new ≡ output_bytes (projection_bytes (side_numbered side) table.now keep) out.old }
{
    byte_calls::outputs::write(byte_calls::project(Side::from(side), table, keep), out)
}

// Are two tables of one side equal in groups? 1 for yes, 0 for no.
#[unsafe(no_mangle)]
pub extern "C" fn sharing_equal(first: &[u8], second: &[u8], answer: &mut u32) -> u32
    ensures number { result ≡ reply_number (equal_bytes first.now second.now) }
    ensures word { answer.new ≡ reply_word (equal_bytes first.now second.now) answer.old }
{
    byte_calls::outputs::reply(byte_calls::equal(first, second), answer)
}

// Is a variable ground: has no group it?
#[unsafe(no_mangle)]
pub extern "C" fn sharing_ground(side: u32, table: &[u8], variable: u32, answer: &mut u32) -> u32
    ensures number { result ≡ reply_number (ground_bytes (side_numbered side) table.now variable) }
    ensures word { answer.new ≡ reply_word (ground_bytes (side_numbered side) table.now variable) answer.old }
{
    byte_calls::outputs::reply(
        byte_calls::ground(Side::from(side), table, variable),
        answer,
    )
}

// Are two sets of variables independent: does no group meet both?
#[unsafe(no_mangle)]
pub extern "C" fn sharing_independent(
    side: u32,
    table: &[u8],
    first: u32,
    second: u32,
    answer: &mut u32,
) -> u32
    ensures number { result ≡ reply_number (independent_bytes (side_numbered side) table.now first second) }
    ensures word { answer.new
        ≡ reply_word (independent_bytes (side_numbered side) table.now first second) answer.old }
{
    byte_calls::outputs::reply(
        byte_calls::independent(Side::from(side), table, first, second),
        answer,
    )
}

// Is a group in a positive table after the equation "variable = term", and why or why not?
#[unsafe(no_mangle)]
pub extern "C" fn sharing_reason(
    table: &[u8],
    variable: u32,
    term: &[u8],
    group: u32,
    verdict: &mut u32,
    x_entry: &mut u32,
    t_entry: &mut u32,
) -> u32
    ensures number { result ≡ verdict_number (reason_bytes table.now variable term.now group) }
    ensures word { verdict.new
        ≡ verdict_word (reason_bytes table.now variable term.now group) verdict.old }
    ensures entries { (x_entry.new
        ≡ x_word (reason_bytes table.now variable term.now group) x_entry.old)
        × (t_entry.new
        ≡ t_word (reason_bytes table.now variable term.now group) t_entry.old) }
{
    byte_calls::outputs::verdict(
        byte_calls::reason(table, variable, term, group),
        verdict,
        x_entry,
        t_entry,
    )
}

// Of a positive and a negative form at the front of two buffers the one with fewer entries, as a part of the buffer that holds
// it; `part` is any part before the call.
#[unsafe(no_mangle)]
pub extern "C" fn sharing_smaller<'a, 'b>(
    positive: &'a [u8],
    negative: &'a [u8],
    part: &'b mut &'a [u8],
)
    ensures { lent part.new ≡ smaller_part (lent positive.entry) (lent negative.entry) }
{
    *part = byte_calls::outputs::smaller(positive, negative);
}

// Applies equations in order, each with a variable on the left, after the whole input was checked.
#[unsafe(no_mangle)]
pub extern "C" fn sharing_run(side: u32, table: &[u8], equations: &[u8]) -> Running
    ensures { result ≡ run_state Variable side table.now equations.now }
{
    running::run(Left::Variable, side, table, equations)
}

// Applies equations in order, each of two terms, after the whole input was checked.
#[unsafe(no_mangle)]
pub extern "C" fn sharing_unify_run(side: u32, table: &[u8], equations: &[u8]) -> Running
    ensures { result ≡ run_state Term side table.now equations.now }
{
    running::run(Left::Term, side, table, equations)
}

// Starts a running analysis.
#[unsafe(no_mangle)]
pub extern "C" fn sharing_start(side: u32, table: &[u8]) -> Running
    ensures { result ≡ started side table.now }
{
    running::start(side, table)
}

// Applies one equation to a running analysis; a refusal leaves the whole state as it was.
#[unsafe(no_mangle)]
pub extern "C" fn sharing_step(state: &mut Running, variable: u32, term: &[u8]) -> u32
    ensures { (state.new ≡ advanced state.old (one_term variable term.now))
        × (result ≡ step_number state.old (one_term variable term.now)) }
{
    tables::answer_number(running::advance(state, variable, term))
}

// Sets two terms equal in a running analysis; a refusal leaves the whole state as it was.
#[unsafe(no_mangle)]
pub extern "C" fn sharing_unify_step(state: &mut Running, left: &[u8], right: &[u8]) -> u32
    ensures { (state.new ≡ advanced state.old (two_terms left.now right.now))
        × (result ≡ step_number state.old (two_terms left.now right.now)) }
{
    tables::answer_number(running::unify(state, left, right))
}

// Writes the table of a running analysis.
#[unsafe(no_mangle)]
pub extern "C" fn sharing_write(state: &Running, out: &mut [u8]) -> u32
    ensures { (result ≡ state_number state.now out.old)
        × (out.new ≡ state_bytes state.now out.old) }
{
    running::write(*state, out)
}
