// Finite sets as strictly rising lists, and tests over lists: the definitions are in specs/, the laws in proofs/.
#![tactic(auto)]
