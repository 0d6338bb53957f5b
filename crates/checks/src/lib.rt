// A whole expression: the checks that come before any table, the workspace of one that passes, and the outcome of one that refuses. The definitions of
// the checks are in the crate `expression`.
#![tactic(auto)]

pub mod checking;
pub mod frames;
pub mod outcomes;
