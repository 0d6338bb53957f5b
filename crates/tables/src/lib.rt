// The tables of an expression, by Definitions 5 and 8 of the clique-width paper, and what they say of models and answer sets. The definitions are in
// specs/, the theorems in proofs/.
#![tactic(auto)]
