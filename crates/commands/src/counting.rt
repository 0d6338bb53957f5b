// What commands leave, and tests 9 to 11 (01, Outcomes).
ghost use Rattle.std.specs.Prelude.{◌≡◌, cond, ◌+◌, ◌-◌, min, max, ltb, leb};
ghost use Rattle.expression.specs.Limits.{depth_limit, count_limit};
ghost use Rattle.expression.specs.Refusals.{crowded, deep, bare};
ghost use Rattle.expression.specs.declared.Effect.TheVariants.{Push};
ghost use Rattle.expression.specs.Told.{fault_of};
ghost use Rattle.expression.specs.Reading.{no_counts, counted_by, counted, capped, leaf_fault, count_fault};

use crate::effects::effect;
use expression::limits::{ATOM_LIMIT, DEPTH_LIMIT, RULE_LIMIT};
use expression::refusals::Reason;
use expression::{Command, Counts, Effect, Leaf};

// The first of 9 to 11 that refuses a command after such counts, if one does.
pub fn count_fault(n: Counts, c: Command) -> Result<(), Reason>
    ensures { fault_of result ≡ count_fault n c }
{
    let e = effect(c);
    match e {
        Effect::Push(l) => leaf_fault(n, l),
        Effect::Unite => bare_fault(n.depth, 2),
        Effect::Change => bare_fault(n.depth, 1),
        Effect::Pass => bare_fault(n.depth, 1),
    }
}

fn leaf_fault(n: Counts, l: Leaf) -> Result<(), Reason>
    ensures { fault_of result ≡ leaf_fault n l }
{
    match l {
        Leaf::Atom => full_fault(n.atoms, ATOM_LIMIT, n.depth),
        Leaf::Rule => full_fault(n.rules, RULE_LIMIT, n.depth),
    }
}

// So many leaves of a kind, and operands: 9, then 10.
fn full_fault(count: u64, limit: u64, depth: u64) -> Result<(), Reason>
    ensures { fault_of result ≡ cond (leb limit count) crowded (cond (leb depth_limit depth) deep 0) }
{
    if count >= limit {
        return Err(Reason::Crowded);
    }
    if depth >= DEPTH_LIMIT {
        return Err(Reason::Deep);
    }
    Ok(())
}

// A command on operands: 11.
fn bare_fault(depth: u64, needed: u64) -> Result<(), Reason>
    ensures { fault_of result ≡ cond (ltb depth needed) bare 0 }
{
    if depth < needed {
        return Err(Reason::Bare);
    }
    Ok(())
}

// The counts before the first command.
pub fn no_counts() -> Counts
    ensures { result ≡ no_counts }
{
    Counts {
        atoms: 0,
        rules: 0,
        depth: 0,
        deepest: 0,
    }
}

// The counts after a command; none goes past what a word holds.
pub fn counted(n: Counts, c: Command) -> Counts
    ensures { result ≡ capped (counted n c) }
{
    counted_by(n, effect(c))
}

// The same, by its effect.
pub fn counted_by(n: Counts, e: Effect) -> Counts
    ensures { result ≡ capped (counted_by n e) }
{
    match e {
        Effect::Push(l) => with_leaf(n, l),
        Effect::Unite => at_depth(n.atoms, n.rules, n.depth.saturating_sub(1), n.deepest),
        Effect::Change | Effect::Pass => at_depth(n.atoms, n.rules, n.depth, n.deepest),
    }
}

fn with_leaf(n: Counts, l: Leaf) -> Counts
    ensures { result ≡ capped (counted_by n (Push l)) }
{
    match l {
        Leaf::Atom => at_depth(
            n.atoms.saturating_add(1),
            n.rules,
            n.depth.saturating_add(1),
            n.deepest,
        ),
        Leaf::Rule => at_depth(
            n.atoms,
            n.rules.saturating_add(1),
            n.depth.saturating_add(1),
            n.deepest,
        ),
    }
}

fn at_depth(atoms: u64, rules: u64, depth: u64, deepest: u64) -> Counts
    ensures { result ≡ capped (record { atoms = atoms; rules = rules; depth = depth; deepest = max deepest depth }) }
{
    Counts {
        atoms: atoms,
        rules: rules,
        depth: depth,
        deepest: deepest.max(depth),
    }
}
