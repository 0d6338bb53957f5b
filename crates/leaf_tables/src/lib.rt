// The tables of the leaves of an expression: of an atom under assumptions, and of a rule.
#![tactic(auto)]

ghost use Rattle.std.specs.Prelude.{◌≡◌, cond, [], ◌∷◌, ◌+◌, ◌*◌, ◌≤◌, ◌<◌, length};
ghost use Rattle.labels.specs.Labels.{label_count};
ghost use Rattle.candidates.specs.Candidates.{Readable};
ghost use Rattle.rows.specs.Parts.{part, zeros};
ghost use Rattle.entries.specs.Carries.{Keeps, Kept};
ghost use Rattle.making.specs.Making.{Next, Puts, Finished, entry_of};
ghost use Rattle.leaves.specs.Leaves.{table_algebra, leaf_entries, KeepsBoth, Wide};

use entries::Carry;
use expression::NewAtom;
use leaves::{Atom, NO_VALUE, Tables, write_absent, write_present, write_unmet};
use values::Value;

// The pair in `row`, with the value v, put into the table that is being made at word `to`, where it is allowed. The answer is as making::put_entry's.
fn put_if(
    ws: &mut [u32],
    row: &[u32],
    index: &mut [u32],
    vals: &mut [u64],
    carry: Carry,
    w: usize,
    p: usize,
    to: usize,
    m: usize,
    v: Value,
    is_allowed: bool,
) -> usize
    requires le_w { (2 ≤ w) × (p ≤ 1024) × (to + p * w ≤ length ws.old) }
    requires readable { Readable row.now × (length row.now ≡ w) × Keeps carry v }
    requires next { Next carry w p to m (cond is_allowed (entry_of row.now v ∷ []) []) ws.old index.old vals.old }
    ensures { Puts carry w p to m (cond is_allowed (entry_of row.now v ∷ []) []) result ws.old index.old vals.old ws.new index.new vals.new }
{
    if is_allowed {
        return making::put_entry(ws, row, index, vals, carry, w, p, to, m, v);
    }
    m
}

// The entries of an atom put into a new table at word `to`: the present one where it may be in, the absent one where it may be out. The
// answer is as making::put_entry's.
fn put_leaf(
    ws: &mut [u32],
    row: &mut [u32],
    index: &mut [u32],
    vals: &mut [u64],
    tables: Tables,
    carry: Carry,
    w: usize,
    p: usize,
    to: usize,
    atom: Atom,
    new: NewAtom,
) -> usize
    requires wide { Wide tables w × (p ≤ 1024) × (length row.old ≡ w) × (new.label < label_count) × KeepsBoth carry atom × (to + p * w ≤ length ws.old) }
    requires next { Next carry w p to 0 (leaf_entries tables atom new) ws.old index.old vals.old }
    ensures { Puts carry w p to 0 (leaf_entries tables atom new) result ws.old index.old vals.old ws.new index.new vals.new }
{
    write_present(row, tables, new);
    let m = put_if(
        ws,
        row,
        index,
        vals,
        carry,
        w,
        p,
        to,
        0,
        atom.value_in,
        atom.may_be_in,
    );
    write_absent(row, new.label);
    put_if(
        ws,
        row,
        index,
        vals,
        carry,
        w,
        p,
        to,
        m,
        atom.value_out,
        atom.may_be_out,
    )
}

// The table of an atom, put at word `at`, where a table of no rows is; made in the words from `to` on. The answer is how many rows it has;
// p + 1 where there are more than p, and nothing changes then.
pub fn atom_table(
    ws: &mut [u32],
    row: &mut [u32],
    index: &mut [u32],
    vals: &mut [u64],
    tables: Tables,
    carry: Carry,
    w: usize,
    p: usize,
    at: usize,
    to: usize,
    atom: Atom,
    new: NewAtom,
) -> usize
    requires wide { Wide tables w × (p ≤ 1024) × (length row.old ≡ w) × (new.label < label_count) × KeepsBoth carry atom }
    requires w_bound { (at + p * w ≤ to) × (to + p * w ≤ length ws.old) }
    requires ws_value { (part at (p * w) ws.old ≡ zeros (p * w)) × (part to (p * w) ws.old ≡ zeros (p * w)) × (p ≤ length index.old) × Kept carry p 0 vals.old }
    ensures finished { Finished carry w p at (leaf_entries tables atom new) result ws.old ws.old ws.new vals.new }
    ensures upper_bound { result ≤ p + 1 }
{
    let r = put_leaf(ws, row, index, vals, tables, carry, w, p, to, atom, new);
    making::settle(ws, row, index, w, p, r, 0, at, to);
    r
}

// The table of a rule of label g, put at word `at`, where a table of no rows is; made in the words from `to` on. The answer is how many rows it has. The
// row is the same whichever tables are made.
pub fn rule_table(
    ws: &mut [u32],
    row: &mut [u32],
    index: &mut [u32],
    vals: &mut [u64],
    tables: Tables,
    carry: Carry,
    w: usize,
    p: usize,
    at: usize,
    to: usize,
    g: u32,
) -> usize
    requires le_w { (2 ≤ w) × (1 ≤ p) × (p ≤ 1024) × (length row.old ≡ w) × (g < label_count) }
    requires w_bound { (at + p * w ≤ to) × (to + p * w ≤ length ws.old) }
    requires ws_value { (part at (p * w) ws.old ≡ zeros (p * w)) × (part to (p * w) ws.old ≡ zeros (p * w)) × (p ≤ length index.old) × Kept carry p 0 vals.old }
    ensures finished { Finished carry w p at ((table_algebra tables carry).unmet g ∷ []) result ws.old ws.old ws.new vals.new }
    ensures upper_bound { result ≤ p }
{
    write_unmet(row, g);
    let m = making::put_entry(ws, row, index, vals, carry, w, p, to, 0, NO_VALUE);
    making::settle(ws, row, index, w, p, m, 0, at, to);
    m
}
