// The commands ahead in an expression that may be done at once, done on the newest table of a workspace.
#![tactic(auto)]

ghost use Rattle.std.specs.Prelude.{◌≡◌, List, ℕ, ◌≤◌, length};
ghost use Rattle.semantics.specs.Expressions.{change_newest};
ghost use Rattle.batches.specs.Batches.{batch_limit, commands_of};
ghost use Rattle.entries.specs.Carries.{Entry};
ghost use Rattle.maps.specs.Maps.{batched_table};
ghost use Rattle.advances.specs.Advances.{Stands, SomeStand};
ghost use Rattle.ahead.specs.Ahead.{Ahead};

use entries::Carry;
use expression::{Counts, Effect};
use stretches::Stretch;

// The commands that the words of ops stand for, at once on the newest of t tables in d areas, and its count.
fn map_ahead(
    ws: &mut [u32],
    row: &mut [u32],
    index: &mut [u32],
    vals: &mut [u64],
    counts: &mut [u64],
    carry: Carry,
    d: usize,
    w: usize,
    p: usize,
    t: usize,
    ops: &[u32],
)
    requires le_w { (2 ≤ w) × (w ≤ 4096) × (p ≤ 1024) × (length row.old ≡ w) × (p ≤ length index.old) × (length ops.now ≤ batch_limit) }
    requires le_t { (1 ≤ t) × SomeStand carry d w p t ws.old vals.old counts.old }
    ensures { (ts : List (List Entry)) (beyond : List ℕ) → Stands carry d w p ts beyond ws.old vals.old counts.old → length ts ≡ t → Stands carry d w p (change_newest (batched_table carry (commands_of ops.now)) ts) beyond ws.new vals.new counts.new }
{
    let n = stacks::count_below(&counts[..], t, 1);
    let r = operations::map_newest(ws, row, index, vals, carry, d, w, p, t, n, ops);
    stacks::tally(counts, Effect::Change, t, r as u64);
}

// The commands from `at` on that may be done at once, done: relabels, connects, rules with the union behind them. n are the counts before them.
pub fn run_ahead(
    s: &[u8],
    stop: usize,
    at: usize,
    n: Counts,
    ops: &mut [u32],
    ws: &mut [u32],
    row: &mut [u32],
    index: &mut [u32],
    vals: &mut [u64],
    counts: &mut [u64],
    carry: Carry,
    d: usize,
    w: usize,
    p: usize,
) -> Stretch
    requires le_w { (2 ≤ w) × (w ≤ 4096) × (p ≤ 1024) × (length row.old ≡ w) × (p ≤ length index.old) × (length ops.old ≤ batch_limit) }
    requires some_stand { SomeStand carry d w p n.depth ws.old vals.old counts.old }
    ensures { (ts : List (List Entry)) (beyond : List ℕ) → Stands carry d w p ts beyond ws.old vals.old counts.old → length ts ≡ n.depth → Ahead carry d w p stop at n s.now ts beyond result ws.new vals.new counts.new }
{
    if n.depth == 0 {
        return Stretch {
            next: at,
            count: 0,
            counts: n,
        };
    }
    let r = stretches::read_stretch(s, stop, at, n, ops);
    if r.count == 0 {
        return r;
    }
    map_ahead(
        ws,
        row,
        index,
        vals,
        counts,
        carry,
        d,
        w,
        p,
        n.depth as usize,
        &ops[..r.count],
    );
    r
}
