// The table of a policy by enumeration, from the meaning of the rules alone: for the oracle.
#![tactic(auto)]

pub mod tabulating;
pub mod triples;

// The arguments of a decision or a report beside the sheet.
#[derive(Clone, Copy)]
pub struct Request {
    // P and G of 01
    pub pair_limit: u64,
    pub subset_limit: u64,
    // words of the workspace
    pub room: u64,
    // the pins as masks
    pub assumed_true: u64,
    pub assumed_false: u64,
    // of the plain tables
    pub is_plain: bool,
    // of the table after the command at an offset, for a buffer of so many words; else a decision
    pub is_report: bool,
    pub asked: usize,
    pub buffer: u64,
}
