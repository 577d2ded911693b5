// The report of an input: a positive table and equations, run, and written as text into a lent output.
#![tactic(auto)]

ghost use Rattle.std.specs.Prelude.{◌≡◌};
ghost use Rattle.tables.specs.Refusals.{refusal_number};
ghost use Rattle.tables.specs.Values.{GoodTable};
ghost use Rattle.equation_forms.specs.declared.Left.TheVariants.{Variable};
ghost use Rattle.equation_forms.specs.EquationForms.{equations_in, GoodSizes};
ghost use Rattle.text.specs.RunTexts.{run_text};
ghost use Rattle.report.specs.Reports.{refused_text, narrowed, fitted, refused_report, run_report, rest_report};
ghost use Rattle.report.specs.Reports.{rest_text, report_of, report_bytes};

use equation_forms::Left;
use forms::Extent;
use running::Running;
use tables::{Refusal, Table};
use text::{Pass, Reported};

// The most bytes of an input (most_input).
const INPUT: usize = 8192;

// No text of a run has more bytes (most_text).
const TEXT: usize = 552500;

// The length of the word `refused `.
const REFUSED: usize = 8;

// Where the text does not fit: an accepted run is refused 9 and has applied none.
fn narrowed(s: Running) -> Running
    ensures { result ≡ narrowed s }
{
    if s.code == 0 {
        running::refused(u32::from(Refusal::Narrow), 0)
    } else {
        s
    }
}

// Runs, and writes its text where that fits; else nothing is written.
fn write_fitting(t: Table, q: &[u8], out: &mut [u8]) -> Reported
    requires { GoodSizes Variable q.now × GoodTable t }
    ensures answer { result ≡ run_report t (equations_in Variable q.now) out.old }
    ensures bytes { out.new ≡ fitted (run_text t (equations_in Variable q.now)) out.old }
{
    if TEXT <= out.len() {
        return text::runs::write_run(Pass::Write, t, q, out);
    }
    let measured = text::runs::write_run(Pass::Measure, t, q, out);
    let size = measured.size;
    if size <= out.len() {
        return text::runs::write_run(Pass::Write, t, q, out);
    }
    let s = measured.state;
    Reported {
        state: narrowed(s),
        size: 0,
    }
}

// Writes only the number of a refusal, where that fits. None is applied.
fn refuse(r: Refusal, out: &mut [u8]) -> Reported
    ensures answer { result ≡ refused_report (refusal_number r) out.old }
    ensures bytes { out.new ≡ fitted (refused_text (refusal_number r)) out.old }
{
    let code = u32::from(r);
    let end = REFUSED + text::lines::digits(code);
    let state = running::refused(code, 0);
    if out.len() <= end {
        return Reported {
            state: state,
            size: 0,
        };
    }
    text::lines::write(out, 0, b"refused ");
    text::lines::write_decimal(out, REFUSED, code);
    out[end] = b'\n';
    Reported {
        state: state,
        size: end + 1,
    }
}

// The report of a table that was read and the bytes after it.
fn report_rest(t: Table, q: &[u8], out: &mut [u8]) -> Reported
    requires { GoodTable t }
    ensures answer { result ≡ rest_report t q.now out.old }
    ensures bytes { out.new ≡ fitted (rest_text t q.now) out.old }
{
    match equation_forms::check(Left::Variable, t.l, q) {
        Err(r) => refuse(r, out),
        Ok(()) => write_fitting(t, q, out),
    }
}

// Reads a positive table and then equations, runs them, and writes what the run says: above 8192 bytes is 1 before any
// other check; where the text does not fit nothing is written.
pub fn report(input: &[u8], out: &mut [u8]) -> Reported
    ensures answer { result ≡ report_of input.now out.old }
    ensures bytes { out.new ≡ report_bytes input.now out.old }
{
    if INPUT < input.len() {
        return refuse(Refusal::Torn, out);
    }
    let read = forms::read_table(Extent::Front, input);
    if let Err(r) = read.answer {
        return refuse(r, out);
    }
    let end = forms::front_length(input);
    report_rest(read.table, &input[end..], out)
}
