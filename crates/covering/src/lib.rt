// What a working list covers, for any width to 32, without going through all groups. Inner: not a public call.
#![tactic(auto)]

pub mod cover; // is every group that a string covers covered by a list?
pub mod equality; // do two lists stand for the same groups?
pub mod independence; // does no group meet both of two sets? Has no group a variable?
