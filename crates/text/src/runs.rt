// The text of a run, measured or written into a lent output. Inner: not a public call.
ghost use Rattle.std.specs.Prelude.{◌≡◌, ◌+◌, ◌≤◌, ◌<◌, length};
ghost use Rattle.tables.specs.Refusals.{Refused};
ghost use Rattle.tables.specs.Values.{GoodTable};
ghost use Rattle.equation_forms.specs.declared.Left.TheVariants.{Variable};
ghost use Rattle.equation_forms.specs.EquationForms.{equations_in, GoodSizes};
ghost use Rattle.running.specs.States.{run_from};
ghost use Rattle.text.specs.Lines.{block, first_text, equation_text};
ghost use Rattle.text.specs.Passes.{Room, passed};
ghost use Rattle.text.specs.RunTexts.{most_text, run_text};

use crate::{Pass, Reported};
use equation_forms::Left;
use operations::Side;
use tables::{Refusal, Table};

// The lengths of the words `eq `, ` entries ` and ` refused `.
const EQ: usize = 3;

const ENTRIES: usize = 9;

const REFUSED: usize = 9;

// ---- What a run says

// A word and a number, the number of entries of a table, then its entries. The end of the text.
fn write_table(pass: Pass, out: &mut [u8], at: usize, word: &[u8], a: u32, t: Table) -> usize
    requires { (at ≤ most_text) × (length word.now ≤ 9) × (a < 1000) × GoodTable t
        × Room pass out.old at (block word.now a t) }
    ensures { (result ≡ at + length (block word.now a t))
        × (out.new ≡ passed pass out.old at (block word.now a t)) }
{
    let l = t.l;
    let n = t.n;
    let here = at + crate::lines::line_length(word.len(), a, ENTRIES, n as u32);
    let end = here + n * (l as usize + 1);
    match pass {
        Pass::Measure => end,
        Pass::Write => {
            crate::lines::write_line(out, at, word, a, b" entries ", n as u32);
            crate::lines::write_entries(out, here, t);
            end
        }
    }
}

// That the equation numbered k is refused. The end of the text.
fn write_refused(pass: Pass, out: &mut [u8], at: usize, k: u32, r: Refusal, t: Table) -> usize
    requires { (at ≤ most_text) × (k < 1000) × Room pass out.old at (equation_text k (Refused r) t) }
    ensures { (result ≡ at + length (equation_text k (Refused r) t))
        × (out.new ≡ passed pass out.old at (equation_text k (Refused r) t)) }
{
    let code = u32::from(r);
    let end = at + crate::lines::line_length(EQ, k, REFUSED, code);
    match pass {
        Pass::Measure => end,
        Pass::Write => {
            crate::lines::write_line(out, at, b"eq ", k, b" refused ", code);
            end
        }
    }
}

// The equation numbered k, of its answer and the table that goes with it. The end of the text.
fn write_equation(
    pass: Pass,
    out: &mut [u8],
    at: usize,
    k: u32,
    answer: Result<(), Refusal>,
    t: Table,
) -> usize
    requires { (at ≤ most_text) × (k < 1000) × GoodTable t × Room pass out.old at (equation_text k answer t) }
    ensures { (result ≡ at + length (equation_text k answer t))
        × (out.new ≡ passed pass out.old at (equation_text k answer t)) }
{
    match answer {
        Ok(()) => write_table(pass, out, at, b"eq ", k, t),
        Err(r) => write_refused(pass, out, at, k, r, t),
    }
}

// The table that was read: its variables and entries, then the entries. The end of the text.
fn write_first(pass: Pass, out: &mut [u8], t: Table) -> usize
    requires { GoodTable t × Room pass out.old 0 (first_text t) }
    ensures { (result ≡ length (first_text t)) × (out.new ≡ passed pass out.old 0 (first_text t)) }
{
    write_table(pass, out, 0, b"vars ", t.l, t)
}

// ---- The run

// Runs equations that were checked on the table, up to the first that is full, with its text.
pub fn write_run(pass: Pass, t: Table, q: &[u8], out: &mut [u8]) -> Reported
    requires { GoodSizes Variable q.now × GoodTable t × Room pass out.old 0 (run_text t (equations_in Variable q.now)) }
    ensures { (result ≡ record {
      state = run_from 0 t 0 (equations_in Variable q.now);
      size = length (run_text t (equations_in Variable q.now));
    })
        × (out.new ≡ passed pass out.old 0 (run_text t (equations_in Variable q.now))) }
{
    let mut end = write_first(pass, out, t);
    let mut u = t;
    let mut c = equation_forms::first(q);
    // A `while`: the cursor moves on by the length of the equation that stands at it.
    while equation_forms::more(c) {
        let a = running::step(Left::Variable, Side::Positive, u, c, q);
        u = a.table;
        end = write_equation(pass, out, end, c.k as u32 + 1, a.answer, u);
        if let Err(r) = a.answer {
            return Reported {
                state: running::stopped(u32::from(r), 0, c.k, u),
                size: end,
            };
        }
        c = equation_forms::next(Left::Variable, c, q);
    }
    Reported {
        state: running::stopped(0, 0, c.k, u),
        size: end,
    }
}
