// A command on the tables of a workspace, with their counts.
#![tactic(auto)]

ghost use Rattle.std.specs.Prelude.{◌≡◌, [], ℕ, ◌+◌, ◌-◌, ◌≤◌, ◌<◌, length};
ghost use Rattle.labels.specs.Labels.{label_count};
ghost use Rattle.expression.specs.Commands.{Suits};
ghost use Rattle.expression.specs.Refusals.{number_of};
ghost use Rattle.semantics.specs.Expressions.{act};
ghost use Rattle.semantics.specs.AnswerSets.{Assumptions};
ghost use Rattle.tables.specs.Algebras.{tables};
ghost use Rattle.entries.specs.declared.Carry.TheVariants.{Nothing};
ghost use Rattle.leaves.specs.declared.Tables.TheVariants.{Pairs};
ghost use Rattle.leaves.specs.Leaves.{atom_at, Resolved, Wide};
ghost use Rattle.workspace.specs.Workspace.{fault_of};
ghost use Rattle.operations.specs.Operations.{Meets};
ghost use Rattle.advances.specs.Advances.{SomeStand, Advances};

use commands::effects::effect;
use entries::Carry;
use expression::Command;
use expression::refusals::Reason;
use leaves::{Atom, Tables};

// 15 or 16, by the count that a command answers.
pub fn fault_of(p: usize, r: usize) -> Reason
    requires { (p < r) × (p ≤ 1024) }
    ensures { number_of result ≡ fault_of p r }
{
    if p + 1 < r {
        return Reason::SubsetsFull;
    }
    Reason::PlansFull
}

// The command on t tables in d areas, and their counts; `atom` is the next atom. The answer is as operations::act's.
pub fn advance(
    ws: &mut [u32],
    row: &mut [u32],
    index: &mut [u32],
    vals: &mut [u64],
    counts: &mut [u64],
    kind: Tables,
    carry: Carry,
    d: usize,
    w: usize,
    p: usize,
    t: usize,
    c: Command,
    atom: Atom,
) -> usize
    requires wide { Wide kind w × (w ≤ 4096) × (1 ≤ p) × (p ≤ 1024) × (length row.old ≡ w) × (p ≤ length index.old) }
    requires suits { Suits label_count c × Meets c d t × Resolved carry atom }
    requires some_stand { SomeStand carry d w p t ws.old vals.old counts.old }
    ensures { (o : Assumptions) (a : ℕ) → atom ≡ atom_at carry o a → Advances kind carry d w p t c a o result ws.old vals.old counts.old ws.new vals.new counts.new }
{
    let n = stacks::count_below(&counts[..], t, 1);
    let m = stacks::count_below(&counts[..], t, 2);
    let r = operations::act(ws, row, index, vals, kind, carry, d, w, p, t, n, m, c, atom);
    if r <= p {
        stacks::tally(counts, effect(c), t, r as u64);
    }
    r
}

// A command on t tables in d areas, whose counts follow, in arrays that are long enough. The answer is as advance's.
fn advance_in(
    ws: &mut [u32],
    row: &mut [u32],
    index: &mut [u32],
    vals: &mut [u64],
    counts: &mut [u64],
    d: usize,
    w: usize,
    p: usize,
    t: usize,
    c: Command,
    atom: Atom,
) -> usize
    requires le_w { (3 ≤ w) × (w ≤ 1026) × (1 ≤ p) × (p ≤ 1024) × (w ≤ length row.old) × (p ≤ length index.old) }
    requires suits { Suits label_count c × Meets c d t × Resolved Nothing atom × SomeStand Nothing d w p t ws.old [] counts.old }
    ensures { (o : Assumptions) (a : ℕ) → atom ≡ atom_at Nothing o a → Advances Pairs Nothing d w p t c a o result ws.old [] counts.old ws.new [] counts.new }
{
    advance(
        ws,
        &mut row[..w],
        index,
        vals,
        counts,
        Tables::Pairs,
        Carry::Nothing,
        d,
        w,
        p,
        t,
        c,
        atom,
    )
}

// The same in arrays made here; tables that carry nothing take no words of values.
pub fn advance_here(
    ws: &mut [u32],
    counts: &mut [u64],
    d: usize,
    w: usize,
    p: usize,
    t: usize,
    c: Command,
    atom: Atom,
) -> usize
    requires le_w { (3 ≤ w) × (w ≤ 1026) × (1 ≤ p) × (p ≤ 1024) }
    requires suits { Suits label_count c × Meets c d t × Resolved Nothing atom × SomeStand Nothing d w p t ws.old [] counts.old }
    ensures { (o : Assumptions) (a : ℕ) → atom ≡ atom_at Nothing o a → Advances Pairs Nothing d w p t c a o result ws.old [] counts.old ws.new [] counts.new }
{
    let mut row = [0u32; 1026];
    let mut index = [0u32; 1024];
    let mut vals = [0u64; 1];
    advance_in(
        ws, &mut row, &mut index, &mut vals, counts, d, w, p, t, c, atom,
    )
}
