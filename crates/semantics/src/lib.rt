// What an expression means: its atoms and rules, its models and its answer sets. The definitions are in specs/, the laws in proofs/.
#![tactic(auto)]
