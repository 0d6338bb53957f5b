// What a greater width changes, that is more labels (02, Item 12), and that no other answer changes: over L labels in place of K a request that 7 does not refuse
// gets the same answer, and the same tables laid out anew. The layout is in specs/, the theorems in proofs/. No crate uses it, so no must-fail edit pays for it.
#![tactic(auto)]
