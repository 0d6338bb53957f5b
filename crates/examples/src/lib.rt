// Examples by evaluation of what a walk, a report and a host's words are: literal rows, so that a wrong number in definition and code alike is noticed. They are in proofs/.
#![tactic(auto)]
