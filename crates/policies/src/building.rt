// What one command does to what was built, and 9 to 11. Its operands i and j are labels.
use crate::sets::{linked, moved, set_at, with};
use crate::{Members, Policy};
use expression::limits::{ATOM_LIMIT, DEPTH_LIMIT, RULE_LIMIT};
use expression::refusals::Reason;

// ---- members

// One more, with a label, as an operand of its own.
fn added(m: Members, operand: u64, label: u64) -> Members {
    let bit = kept_bit(m.count);
    Members {
        count: m.count.saturating_add(1),
        labels: with(m.labels, label, bit),
        operands: with(m.operands, operand, bit),
    }
}

// The set of member n alone; of those that are only counted, the empty set.
fn kept_bit(n: u64) -> u64 {
    if n > 7 {
        return 0;
    }
    1u64 << n
}

// The members of an operand.
pub fn members_of(m: Members, operand: u64) -> u64 {
    set_at(m.operands, operand)
}

// Those of them with a label.
fn labelled(m: Members, operand: u64, label: u64) -> u64 {
    members_of(m, operand) & set_at(m.labels, label)
}

fn united(m: Members, newest: u64) -> Members {
    let below = newest.saturating_sub(1);
    Members {
        operands: moved(m.operands, newest, below, members_of(m, newest)),
        ..m
    }
}

fn relabelled(m: Members, newest: u64, i: u64, j: u64) -> Members {
    Members {
        labels: moved(m.labels, i, j, labelled(m, newest, i)),
        ..m
    }
}

// ---- commands

// 9 to 11 for a command byte, if one of them refuses it.
pub fn fault_of(p: Policy, byte: u8) -> Option<Reason> {
    match byte {
        0x11 | 0x13 => leaf_fault(p.depth, p.atoms.count, ATOM_LIMIT),
        0x12 => leaf_fault(p.depth, p.rules.count, RULE_LIMIT),
        0x21 => operand_fault(p.depth, 2),
        _ => operand_fault(p.depth, 1),
    }
}

fn leaf_fault(depth: u64, count: u64, limit: u64) -> Option<Reason> {
    if count >= limit {
        return Some(Reason::Crowded);
    }
    (depth >= DEPTH_LIMIT).then_some(Reason::Deep)
}

fn operand_fault(depth: u64, needed: u64) -> Option<Reason> {
    (depth < needed).then_some(Reason::Bare)
}

// A command that has no fault. A name changes nothing that is built (02, Item 1).
pub fn apply(p: Policy, byte: u8, i: u64, j: u64) -> Policy {
    match byte {
        0x11 => add_atom(p, i),
        0x12 => add_rule(p, i),
        0x13 => add_external(p, i),
        0x21 => unite(p),
        0x31 => relabel(p, i, j),
        0x41 | 0x42 | 0x43 => connect(p, byte, i, j),
        _ => p,
    }
}

// With a new operand.
fn deeper(p: Policy) -> Policy {
    let depth = p.depth.saturating_add(1);
    Policy {
        depth,
        deepest: p.deepest.max(depth),
        ..p
    }
}

fn add_atom(p: Policy, label: u64) -> Policy {
    let next = deeper(p);
    Policy {
        atoms: added(p.atoms, next.depth, label),
        ..next
    }
}

// An atom in every other respect (02, Item 9).
fn add_external(p: Policy, label: u64) -> Policy {
    Policy {
        external: p.external | kept_bit(p.atoms.count),
        ..add_atom(p, label)
    }
}

fn add_rule(p: Policy, label: u64) -> Policy {
    let next = deeper(p);
    Policy {
        rules: added(p.rules, next.depth, label),
        ..next
    }
}

// 01: join.
fn unite(p: Policy) -> Policy {
    Policy {
        depth: p.depth.saturating_sub(1),
        atoms: united(p.atoms, p.depth),
        rules: united(p.rules, p.depth),
        ..p
    }
}

// 01: move.
fn relabel(p: Policy, i: u64, j: u64) -> Policy {
    Policy {
        atoms: relabelled(p.atoms, p.depth, i, j),
        rules: relabelled(p.rules, p.depth, i, j),
        ..p
    }
}

// 01: link, which has no direction (02, Item 11). The first half changes no label and no operand, so the second is judged on the operand as it was.
fn connect(p: Policy, byte: u8, i: u64, j: u64) -> Policy {
    put_atoms(put_atoms(p, byte, i, j), byte, j, i)
}

// The atoms of label i put into the rules of label j.
fn put_atoms(p: Policy, byte: u8, i: u64, j: u64) -> Policy {
    let atoms = labelled(p.atoms, p.depth, i);
    let rules = labelled(p.rules, p.depth, j);
    match byte {
        0x41 => Policy {
            heads: linked(p.heads, rules, atoms),
            ..p
        },
        0x42 => Policy {
            positives: linked(p.positives, rules, atoms),
            ..p
        },
        _ => Policy {
            negatives: linked(p.negatives, rules, atoms),
            ..p
        },
    }
}
