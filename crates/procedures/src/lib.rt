// Equation, projection and join on working lists, of both sides. Inner: not a public call.
// Where a result is full, nothing is said of the array lent for it. Arrays lent as room may hold anything before and after.
#![tactic(auto)]

pub mod equations; // abstract unification
pub mod projections; // projection and join
