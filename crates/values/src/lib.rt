// Values carried beside the entries of a table: what one walk tells of all interpretations that give an entry. The definitions are in specs/, the
// theorems in proofs/.
#![tactic(auto)]

// A value in words: where one word is enough, the high one is 0.
#[derive(Clone, Copy)]
pub struct Value {
    pub high: u64,
    pub low: u64,
}
