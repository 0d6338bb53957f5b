// What links without direction keep (02, Item 11): where the half that is new is without effect, an expression has the tables, verdicts, plans and answer sets
// that it had. The definitions from before are in specs/, the theorems in proofs/. No crate uses it, so no must-fail edit pays for it.
#![tactic(auto)]
