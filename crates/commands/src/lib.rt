// One command of an expression: read from bytes, tested against the counts so far, and counted. The definitions are in the crate `expression`.
#![tactic(auto)]

pub mod counting;
pub mod effects;
pub mod reading;
