// A decision in one walk, in arrays that are lent: whether the last table has an entry that accepts, and the least value of those.
#![tactic(auto)]

ghost use Rattle.std.specs.Prelude.{◌≡◌, ◌*◌, ◌≤◌, length};
ghost use Rattle.expression.specs.Limits.{depth_limit, area_count};
ghost use Rattle.expression.specs.Told.{outcome_of};
ghost use Rattle.semantics.specs.AnswerSets.{by_masks};
ghost use Rattle.rows.specs.Parts.{zeros};
ghost use Rattle.leaves.specs.Leaves.{Wide};
ghost use Rattle.workspace.specs.Workspace.{Roomy};
ghost use Rattle.stacks.specs.Stacks.{cleared};
ghost use Rattle.walks.specs.Walks.{Enough};
ghost use Rattle.deciding.specs.Deciding.{Decides};

use checks::frames::Frame;
use entries::Carry;
use expression::Pins;
use expression::refusals::Refusal;
use leaves::Tables;

// All commands on tables in the frame, its needed words cleared before and after. Yes comes with the least value of what accepts.
pub fn decide(
    s: &[u8],
    ws: &mut [u32],
    row: &mut [u32],
    index: &mut [u32],
    vals: &mut [u64],
    counts: &mut [u64],
    kind: Tables,
    carry: Carry,
    frame: Frame,
    pins: Pins,
) -> Result<Option<u64>, Refusal>
    requires wide { Wide kind frame.width × (frame.width ≤ 4096) × (1 ≤ frame.limit) × (frame.limit ≤ 1024) × (length row.old ≡ frame.width) × (frame.limit ≤ length index.old) }
    requires roomy { Roomy carry frame.areas frame.limit vals.old × (counts.old ≡ zeros depth_limit) }
    requires enough { Enough frame.areas s.now × (frame.need ≤ length ws.old) × (frame.areas * (frame.limit * frame.width) ≤ frame.need) × (frame.areas ≤ area_count) }
    ensures decides { Decides kind carry (by_masks pins.assumed_true pins.assumed_false) frame.width frame.limit s.now (outcome_of result) }
    ensures ws_after { ws.new ≡ cleared frame.need ws.old }
{
    let w = frame.width;
    let p = frame.limit;
    stacks::clear_need(ws, frame.need);
    let reached = walks::walk(
        s,
        s.len(),
        ws,
        row,
        index,
        vals,
        counts,
        kind,
        carry,
        frame.areas,
        w,
        p,
        pins,
    );
    match reached {
        Err(stop) => {
            stacks::clear_tables(ws, counts, w, p, stop.tables);
            Err(stop.refusal)
        }
        Ok(t) => {
            let n = stacks::count_below(counts, t, 1);
            let found = answers::least_accepting(ws, vals, carry, w, p, 0, n);
            stacks::clear_tables(ws, counts, w, p, t);
            Ok(found)
        }
    }
}
