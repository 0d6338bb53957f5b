// What a decision answers, and that it is what the expression's rules say. The definitions are in specs/, the theorems in proofs/.
#![tactic(auto)]
