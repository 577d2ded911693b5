// Candidate strings of one list or two, and working lists grown by them: cross, meets, close. Inner: not a public call.
// Where a result is full, nothing is said of the array lent for it. Arrays lent as room may hold anything before and after.
#![tactic(auto)]

pub mod rows; // rows of candidate strings, of one list and one string or set
pub mod pairs; // cross and meets, and what stands on meets: relevant and irrelevant
pub mod closing; // close

// How two strings make a candidate: "a or b", or their meet where they match. Contracts name it (`row_of`), which a closure has
// not.
#[derive(Clone, Copy, Debug, PartialEq, Eq)]
pub enum Pairing {
    Or,
    Meet,
}
