// The triple of an interpretation (01: plan) or of a subset of it, and whether it is an answer set. Both are masks of atoms.
use crate::Request;
use meaning::is_met;
use policies::Policy;
use policies::building::members_of;
use policies::sets::{meeting, set_at};

// The atoms of the newest operand.
pub fn atoms_of(p: Policy) -> u64 {
    members_of(p.atoms, p.depth)
}

// Whether a set is one of the newest operand's atoms alone and obeys the pins on them.
pub fn obeys(p: Policy, set: u64, q: Request) -> bool {
    meaning::obeys(set, atoms_of(p), q.assumed_true, q.assumed_false)
}

// Whether a subset meets rule k of the reduct by an interpretation.
fn meets(p: Policy, k: u64, interpretation: u64, subset: u64) -> bool {
    is_met(
        set_at(p.heads, k),
        set_at(p.positives, k),
        set_at(p.negatives, k),
        interpretation,
        subset,
    )
}

// Whether it is a proper subset that agrees with an interpretation on every external atom (02, Item 9).
pub fn is_smaller(p: Policy, interpretation: u64, subset: u64) -> bool {
    meaning::is_smaller(p.external, interpretation, subset)
}

// The rules of the newest operand that it does not meet.
fn unmet(p: Policy, interpretation: u64, subset: u64) -> u64 {
    let mut rules: u64 = 0;
    for k in 0..8 {
        if !meets(p, k, interpretation, subset) {
            rules |= 1 << k;
        }
    }
    rules & members_of(p.rules, p.depth)
}

// labels::LABELS at the width of a triple.
const LABELS: u32 = labels::LABELS as u32;

// T, F and U behind each other (02, Item 12: T + 1024×F + 1048576×U).
pub fn triple(p: Policy, interpretation: u64, subset: u64) -> u32 {
    let t = meeting(p.atoms.labels, atoms_of(p) & subset);
    let f = meeting(p.atoms.labels, atoms_of(p) & !subset);
    let u = meeting(p.rules.labels, unmet(p, interpretation, subset));
    t | (f << LABELS) | (u << (2 * LABELS))
}

pub fn is_model(p: Policy, interpretation: u64, subset: u64) -> bool {
    unmet(p, interpretation, subset) == 0
}

// Whether nothing smaller than an interpretation is a model of its reduct. A proper subset is a lesser mask.
pub fn is_least(p: Policy, interpretation: u64) -> bool {
    !(0..interpretation).any(|j| is_smaller(p, interpretation, j) && is_model(p, interpretation, j))
}
