// A table that is being made of candidates, in words of its own.
#![tactic(auto)]

ghost use Rattle.std.specs.Prelude.{◌≡◌, [], ◌∷◌, ◌+◌, ◌*◌, ◌≤◌, length};
ghost use Rattle.candidates.specs.Candidates.{Readable};
ghost use Rattle.rows.specs.Parts.{Apart, part};
ghost use Rattle.rows.specs.Rows.{Rows, Indexed};
ghost use Rattle.entries.specs.Carries.{Keeps};
ghost use Rattle.making.specs.Making.{Next, Puts, Settled, entry_of};

use entries::Carry;
use values::Value;

// The pair in `row`, with the value v, put into the table that is being made at word `to`. The answer is the count then; p + 1 where there are more than
// p rows.
pub fn put_entry(
    ws: &mut [u32],
    row: &[u32],
    index: &mut [u32],
    vals: &mut [u64],
    carry: Carry,
    w: usize,
    p: usize,
    to: usize,
    m: usize,
    v: Value,
) -> usize
    requires le_w { (2 ≤ w) × (p ≤ 1024) × (to + p * w ≤ length ws.old) }
    requires readable { Readable row.now × (length row.now ≡ w) × Keeps carry v }
    requires next { Next carry w p to m (entry_of row.now v ∷ []) ws.old index.old vals.old }
    ensures { Puts carry w p to m (entry_of row.now v ∷ []) result ws.old index.old vals.old ws.new index.new vals.new }
{
    if p < m {
        return m;
    }
    let end = to + p * w;
    entries::insert_entry(&mut ws[to..end], index, vals, carry, w, p, m, row, v)
}

// The r rows that were made at word `to` take the place of the n rows at word `at`, unless they are more than p. The words they were made in are zero
// again.
pub fn settle(
    ws: &mut [u32],
    row: &mut [u32],
    index: &[u32],
    w: usize,
    p: usize,
    r: usize,
    n: usize,
    at: usize,
    to: usize,
)
    requires le_w { (2 ≤ w) × (length row.old ≡ w) }
    requires apart { Apart at to (p * w) (length ws.old) }
    requires rows { Rows w p n (part at (p * w) ws.old) × Rows w p p (part to (p * w) ws.old) }
    requires indexed { r ≤ p → Indexed w p r (part to (p * w) ws.old) index.now }
    ensures { Settled w p r at to index.now ws.old ws.new }
{
    if p < r {
        let area = p * w;
        areas::clear_rows(&mut ws[to..to + area], w, p, 0, p);
    } else {
        areas::finish_table(ws, row, index, w, p, r, n, at, to);
    }
}
