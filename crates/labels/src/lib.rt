// Sets of labels as numbers, for any number of labels: the definitions are in specs/, the laws in proofs/.
#![tactic(auto)]

// How many labels there are: 0 to 9.
pub const LABELS: u8 = 10;
