// What the commands of a sheet build (01, "The sheet"; 02, Items 9 and 11), from the documents alone: what the oracle enumerates. Proved to stay within
// bounds and to end; right as far as it is tried.
#![tactic(auto)]

pub mod building;
pub mod sets;

use crate::sets::Sets;

// Atoms (01: copies), or rules. The first eight are kept, the others counted.
#[derive(Clone, Copy, Default)]
pub struct Members {
    pub count: u64,
    // for each label (01: group) and for each operand (01: part) the set of its members; see the module sets
    pub labels: Sets,
    pub operands: Sets,
}

// What the commands so far built. An operand's number is the depth at which it stands on the stack: the newest is number `depth`.
#[derive(Clone, Copy, Default)]
pub struct Policy {
    // where the next command starts
    pub at: usize,
    // the number of the last command's refusal, if it is refused, and where it started
    pub fault: Option<u64>,
    pub place: usize,
    // how many operands there are, and the most there were at once
    pub depth: u64,
    pub deepest: u64,
    pub atoms: Members,
    pub rules: Members,
    // the external atoms (02: granted copies) among those kept, as a set
    pub external: u64,
    // for each rule the three sets of atoms (01: head, needed, barring)
    pub heads: Sets,
    pub positives: Sets,
    pub negatives: Sets,
}

// Before the first command.
pub fn no_policy() -> Policy {
    Policy::default()
}

// Refused by a number: any but 0, which says that it is not.
pub fn refused(p: Policy, fault: u64) -> Policy {
    Policy {
        fault: (fault != 0).then_some(fault),
        ..p
    }
}
