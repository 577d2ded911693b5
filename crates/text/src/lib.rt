// The text of a run, measured or written straight into a lent output. Inner: not a public call.
#![tactic(auto)]

pub mod lines; // numbers, lines and entries
pub mod runs; // a table, an equation, a run

use running::Running;

// What is answered of a run: its state, and the length of the text that was measured or written. No `Result`: a refused run has
// both too (`refused_report`). It derives what `Table` does.
#[derive(Clone, Copy)]
pub struct Reported {
    pub state: Running,
    pub size: usize,
}

// A text is measured first, and written only where it fits. Contracts name the pass (`passed`), which a closure has not.
#[derive(Clone, Copy, Debug, PartialEq, Eq)]
pub enum Pass {
    Measure,
    Write,
}
