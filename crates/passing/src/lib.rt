// A name passes tables by (02, Item 1): a step over it moves only the place, a report asked there gives the table before it, and 15 and 16 never stand there.
// The theorems are in proofs/. No crate uses it, so no must-fail edit pays for it.
#![tactic(auto)]
