// That external atoms change nothing else (02, Item 9): an expression without them has the tables, the verdict, the plan and the answer sets that it had. The
// definitions from before are in specs/, the theorems in proofs/. No crate uses it, so no must-fail edit pays for it.
#![tactic(auto)]
