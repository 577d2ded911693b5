// Working lists: one lent array of 256 words and a count. Nothing is said of what is past the count. Inner: not a public call.
// A scan has no early exit, or one after each block of 8, so that it compiles to vector code.
#![tactic(auto)]

pub mod growth; // growing a list by one string or by each of a row
pub mod widening; // what a string is widened to before a list is grown by it
pub mod filter; // growing by a row, with strings that are known to change nothing kept at hand
pub mod row_growth; // growing by rows with a filter or without, as one trait
pub mod values; // from a table value and back
