// The commands of an expression on the tables of a workspace, one after the other.
#![tactic(auto)]

ghost use Rattle.std.specs.Prelude.{◌≡◌, List, [], ℕ, ◌≤◌, length};
ghost use Rattle.semantics.specs.AnswerSets.{by_masks};
ghost use Rattle.batches.specs.Batches.{batch_limit};
ghost use Rattle.leaves.specs.Leaves.{Wide};
ghost use Rattle.advances.specs.Advances.{Stands};
ghost use Rattle.walks.specs.Walks.{Enough, Reaches};

use advances::{advance, fault_of};
use ahead::run_ahead;
use commands::counting::{counted, no_counts};
use entries::Carry;
use expression::Pins;
use expression::refusals::Refusal;
use leaves::{Tables, atom_at};
use reader::read_next;

// A command whose table exceeds a limit, and how many tables stand then.
#[derive(Clone, Copy)]
pub struct Stopped {
    pub refusal: Refusal,
    pub tables: usize,
}

// All commands that start before `stop`, in d areas, on no tables at first; how many tables stand then. The expression passed the checks, so every offset that comes is a
// command's. ops is lent for words of commands.
fn walk_by(
    s: &[u8],
    stop: usize,
    ws: &mut [u32],
    row: &mut [u32],
    index: &mut [u32],
    vals: &mut [u64],
    counts: &mut [u64],
    ops: &mut [u32],
    kind: Tables,
    carry: Carry,
    d: usize,
    w: usize,
    p: usize,
    pins: Pins,
) -> Result<usize, Stopped>
    requires wide { Wide kind w × (w ≤ 4096) × (1 ≤ p) × (p ≤ 1024) × (length row.old ≡ w) × (p ≤ length index.old) × (stop ≤ length s.now) × (length ops.old ≤ batch_limit) }
    requires enough { Enough d s.now × ((beyond : List ℕ) × Stands carry d w p [] beyond ws.old vals.old counts.old) }
    ensures { (beyond : List ℕ) → Stands carry d w p [] beyond ws.old vals.old counts.old → Reaches kind carry (by_masks pins.assumed_true pins.assumed_false) d w p stop s.now beyond ws.new vals.new counts.new result }
{
    let mut at: usize = 0;
    let mut n = no_counts();
    while at < stop {
        let b = run_ahead(
            s, stop, at, n, ops, ws, row, index, vals, counts, carry, d, w, p,
        );
        if stop <= b.next {
            return Ok(b.counts.depth as usize);
        }
        let Ok((c, next)) = read_next(s, b.next) else {
            return Ok(0);
        };
        let t = b.counts.depth as usize;
        let atom = atom_at(carry, b.counts.atoms, pins);
        let k = advance(
            ws, row, index, vals, counts, kind, carry, d, w, p, t, c, atom,
        );
        if p < k {
            return Err(Stopped {
                refusal: fault_of(p, k).at(b.next),
                tables: t,
            });
        }
        n = counted(b.counts, c);
        at = next;
    }
    Ok(n.depth as usize)
}

// The same with words of its own.
pub fn walk(
    s: &[u8],
    stop: usize,
    ws: &mut [u32],
    row: &mut [u32],
    index: &mut [u32],
    vals: &mut [u64],
    counts: &mut [u64],
    kind: Tables,
    carry: Carry,
    d: usize,
    w: usize,
    p: usize,
    pins: Pins,
) -> Result<usize, Stopped>
    requires wide { Wide kind w × (w ≤ 4096) × (1 ≤ p) × (p ≤ 1024) × (length row.old ≡ w) × (p ≤ length index.old) × (stop ≤ length s.now) }
    requires enough { Enough d s.now × ((beyond : List ℕ) × Stands carry d w p [] beyond ws.old vals.old counts.old) }
    ensures { (beyond : List ℕ) → Stands carry d w p [] beyond ws.old vals.old counts.old → Reaches kind carry (by_masks pins.assumed_true pins.assumed_false) d w p stop s.now beyond ws.new vals.new counts.new result }
{
    let mut ops = [0u32; batches::BATCH_LIMIT];
    walk_by(
        s, stop, ws, row, index, vals, counts, &mut ops, kind, carry, d, w, p, pins,
    )
}
