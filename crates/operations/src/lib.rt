// One command on the tables of a workspace.
#![tactic(auto)]

ghost use Rattle.std.specs.Prelude.{◌≡◌, [], ◌∷◌, ℕ, ◌+◌, ◌-◌, ◌*◌, ◌≤◌, ◌<◌, length};
ghost use Rattle.labels.specs.Labels.{label_count};
ghost use Rattle.expression.specs.Commands.{Suits};
ghost use Rattle.expression.specs.Limits.{area_count};
ghost use Rattle.semantics.specs.Expressions.{act, change_newest};
ghost use Rattle.semantics.specs.AnswerSets.{Assumptions};
ghost use Rattle.tables.specs.Algebras.{tables};
ghost use Rattle.batches.specs.Batches.{batch_limit, Joins, commands_of};
ghost use Rattle.making.specs.Making.{table_of_all};
ghost use Rattle.leaves.specs.Leaves.{table_algebra, atom_at, Resolved, leaf_entries, KeepsBoth, Wide};
ghost use Rattle.maps.specs.Maps.{batched_table};
ghost use Rattle.operands.specs.Operands.{Ready, Acts};
ghost use Rattle.operations.specs.Operations.{Meets, mapped_table, pushed};

use entries::Carry;
use expression::{Command, NewAtom};
use leaves::{Atom, Tables};
use operands::{unite_newest, values_from};

// The newest of t tables in d areas, of n entries, becomes what the commands make of it.
pub fn map_newest(
    ws: &mut [u32],
    row: &mut [u32],
    index: &mut [u32],
    vals: &mut [u64],
    carry: Carry,
    d: usize,
    w: usize,
    p: usize,
    t: usize,
    n: usize,
    ops: &[u32],
) -> usize
    requires le_w { (2 ≤ w) × (w ≤ 4096) × (p ≤ 1024) × (d ≤ area_count) × (length row.old ≡ w) × (p ≤ length index.old) × (length ops.now ≤ batch_limit) }
    requires le_t { (1 ≤ t) × ((m : ℕ) × Ready carry d w p t n m ws.old vals.old) }
    ensures { (result ≤ p) × ((m : ℕ) → Acts carry d w p t n m (change_newest (batched_table carry (commands_of ops.now))) result ws.old vals.old ws.new vals.new) }
{
    let area = p * w;
    let i = t - 1;
    let a = i * area;
    let old = values_from(carry, p, i);
    let made = values_from(carry, p, d - 1);
    let r = maps::map_table(
        ws,
        row,
        index,
        vals,
        carry,
        w,
        p,
        a,
        old,
        n,
        (d - 1) * area,
        made,
        ops,
    );
    workspace::move_values(vals, carry, d, p, i, r);
    r
}

// The same for one relabel or connect.
fn map_by(
    ws: &mut [u32],
    row: &mut [u32],
    index: &mut [u32],
    vals: &mut [u64],
    carry: Carry,
    d: usize,
    w: usize,
    p: usize,
    t: usize,
    n: usize,
    c: Command,
) -> usize
    requires le_w { (2 ≤ w) × (w ≤ 4096) × (p ≤ 1024) × (d ≤ area_count) × (length row.old ≡ w) × (p ≤ length index.old) }
    requires suits { Suits label_count c × Joins c }
    requires le_t { (1 ≤ t) × ((m : ℕ) × Ready carry d w p t n m ws.old vals.old) }
    ensures { (m : ℕ) → Acts carry d w p t n m (change_newest (mapped_table carry c)) result ws.old vals.old ws.new vals.new }
{
    let op = batches::word_of(c);
    let ops = [op; 1];
    map_newest(ws, row, index, vals, carry, d, w, p, t, n, &ops)
}

// The table of an atom comes on t tables in d areas.
fn push_atom(
    ws: &mut [u32],
    row: &mut [u32],
    index: &mut [u32],
    vals: &mut [u64],
    tables: Tables,
    carry: Carry,
    d: usize,
    w: usize,
    p: usize,
    t: usize,
    atom: Atom,
    new: NewAtom,
) -> usize
    requires wide { Wide tables w × (p ≤ 1024) × (d ≤ area_count) × (length row.old ≡ w) × (p ≤ length index.old) × (new.label < label_count) × KeepsBoth carry atom }
    requires t_bound { (t + 1 < d) × ((n : ℕ) × (m : ℕ) × Ready carry d w p t n m ws.old vals.old) }
    ensures { (n m : ℕ) → Acts carry d w p t n m (pushed (table_of_all carry (leaf_entries tables atom new))) result ws.old vals.old ws.new vals.new }
{
    let area = p * w;
    let made = values_from(carry, p, d - 1);
    let k = entries::words_of(carry, p);
    let r = leaf_tables::atom_table(
        ws,
        row,
        index,
        &mut vals[made..made + k],
        tables,
        carry,
        w,
        p,
        t * area,
        (d - 1) * area,
        atom,
        new,
    );
    if r <= p {
        workspace::move_values(vals, carry, d, p, t, r);
    }
    r
}

// The table of a rule of label g comes on t tables in d areas.
fn push_rule(
    ws: &mut [u32],
    row: &mut [u32],
    index: &mut [u32],
    vals: &mut [u64],
    tables: Tables,
    carry: Carry,
    d: usize,
    w: usize,
    p: usize,
    t: usize,
    g: u32,
) -> usize
    requires le_w { (2 ≤ w) × (1 ≤ p) × (p ≤ 1024) × (d ≤ area_count) × (length row.old ≡ w) × (p ≤ length index.old) × (g < label_count) }
    requires t_bound { (t + 1 < d) × ((n : ℕ) × (m : ℕ) × Ready carry d w p t n m ws.old vals.old) }
    ensures { (n m : ℕ) → Acts carry d w p t n m (pushed (table_of_all carry ((table_algebra tables carry).unmet g ∷ []))) result ws.old vals.old ws.new vals.new }
{
    let area = p * w;
    let made = values_from(carry, p, d - 1);
    let k = entries::words_of(carry, p);
    let r = leaf_tables::rule_table(
        ws,
        row,
        index,
        &mut vals[made..made + k],
        tables,
        carry,
        w,
        p,
        t * area,
        (d - 1) * area,
        g,
    );
    workspace::move_values(vals, carry, d, p, t, r);
    r
}

// The command on t tables in d areas, the newest of n entries and the one below it of m; `atom` is the next atom. The answer is how many
// entries the newest table has then; p + 1 where it would have more than p, p + 2 where a pair of it would have too many subsets.
pub fn act(
    ws: &mut [u32],
    row: &mut [u32],
    index: &mut [u32],
    vals: &mut [u64],
    kind: Tables,
    carry: Carry,
    d: usize,
    w: usize,
    p: usize,
    t: usize,
    n: usize,
    m: usize,
    c: Command,
    atom: Atom,
) -> usize
    requires wide { Wide kind w × (w ≤ 4096) × (1 ≤ p) × (p ≤ 1024) × (d ≤ area_count) × (length row.old ≡ w) × (p ≤ length index.old) }
    requires suits { Suits label_count c × Meets c d t × Resolved carry atom × Ready carry d w p t n m ws.old vals.old }
    ensures { (o : Assumptions) (a : ℕ) → atom ≡ atom_at carry o a → Acts carry d w p t n m (act (tables (table_algebra kind carry) o) a c) result ws.old vals.old ws.new vals.new }
{
    match c {
        Command::Atom(new) => push_atom(ws, row, index, vals, kind, carry, d, w, p, t, atom, new),
        Command::Rule(g) => push_rule(ws, row, index, vals, kind, carry, d, w, p, t, g),
        Command::Union => unite_newest(ws, row, index, vals, carry, d, w, p, t, n, m),
        Command::Relabel(_, _) => map_by(ws, row, index, vals, carry, d, w, p, t, n, c),
        Command::Connect(_, _, _) => map_by(ws, row, index, vals, carry, d, w, p, t, n, c),
        Command::Name(_) => n,
    }
}
