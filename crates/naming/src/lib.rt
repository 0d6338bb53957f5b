// What a name is (02, Item 1), in the words of the list of commands, and that names change nothing else: an expression and the same one with its names taken out
// have the same trees, tables, verdicts and plan. The definitions are in specs/, the theorems in proofs/. No crate uses it, so no must-fail edit pays for it.
#![tactic(auto)]
