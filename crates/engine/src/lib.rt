// The decisions: whether some answer set, or some model, obeys the assumptions.
#![tactic(auto)]

ghost use Rattle.std.specs.Prelude.{◌≡◌, ◌*◌, ◌≤◌, length};
ghost use Rattle.expression.specs.Limits.{depth_limit, area_count};
ghost use Rattle.expression.specs.Told.{outcome_of};
ghost use Rattle.semantics.specs.AnswerSets.{by_masks};
ghost use Rattle.rows.specs.Parts.{zeros};
ghost use Rattle.entries.specs.declared.Carry.TheVariants.{Nothing, First};
ghost use Rattle.leaves.specs.declared.Tables.TheVariants.{Plain, Pairs};
ghost use Rattle.leaves.specs.Leaves.{Wide};
ghost use Rattle.workspace.specs.Workspace.{values_from};
ghost use Rattle.stacks.specs.Stacks.{cleared};
ghost use Rattle.walks.specs.Walks.{Enough};
ghost use Rattle.deciding.specs.Deciding.{Decides};

use checks::frames::Frame;
use deciding::decide;
use entries::Carry;
use expression::Pins;
use expression::limits::AREAS;
use expression::refusals::Refusal;
use leaves::Tables;

// As decide, in arrays that are long enough.
fn decide_in(
    s: &[u8],
    ws: &mut [u32],
    row: &mut [u32],
    index: &mut [u32],
    vals: &mut [u64],
    counts: &mut [u64],
    kind: Tables,
    carry: Carry,
    frame: Frame,
    pins: Pins,
) -> Result<Option<u64>, Refusal>
    requires wide { Wide kind frame.width × (frame.width ≤ 4096) × (1 ≤ frame.limit) × (frame.limit ≤ 1024) × (frame.width ≤ length row.old) × (frame.limit ≤ length index.old) }
    requires vals_value { (vals.old ≡ zeros (length vals.old)) × (values_from carry frame.limit frame.areas ≤ length vals.old) × (counts.old ≡ zeros depth_limit) }
    requires enough { Enough frame.areas s.now × (frame.need ≤ length ws.old) × (frame.areas * (frame.limit * frame.width) ≤ frame.need) × (frame.areas ≤ area_count) }
    ensures decides { Decides kind carry (by_masks pins.assumed_true pins.assumed_false) frame.width frame.limit s.now (outcome_of result) }
    ensures ws_after { ws.new ≡ cleared frame.need ws.old }
{
    let row = &mut row[..frame.width];
    decide(s, ws, row, index, vals, counts, kind, carry, frame, pins)
}

// As decide, over tables of pairs with values, in arrays made here.
pub fn decide_pairs(
    s: &[u8],
    ws: &mut [u32],
    frame: Frame,
    pins: Pins,
) -> Result<Option<u64>, Refusal>
    requires le_w { (3 ≤ frame.width) × (frame.width ≤ 1026) × (1 ≤ frame.limit) × (frame.limit ≤ 1024) }
    requires enough { Enough frame.areas s.now × (frame.need ≤ length ws.old) × (frame.areas * (frame.limit * frame.width) ≤ frame.need) × (frame.areas ≤ area_count) }
    ensures decides { Decides Pairs First (by_masks pins.assumed_true pins.assumed_false) frame.width frame.limit s.now (outcome_of result) }
    ensures ws_after { ws.new ≡ cleared frame.need ws.old }
{
    let mut row = [0u32; 1026];
    let mut index = [0u32; 1024];
    let mut vals = [0u64; AREAS * 1024];
    let mut counts = [0u64; 8];
    decide_in(
        s,
        ws,
        &mut row,
        &mut index,
        &mut vals,
        &mut counts,
        Tables::Pairs,
        Carry::First,
        frame,
        pins,
    )
}

// As decide, over plain tables, whose rows have two words and carry nothing, in arrays made here.
pub fn decide_plain(
    s: &[u8],
    ws: &mut [u32],
    frame: Frame,
    pins: Pins,
) -> Result<Option<u64>, Refusal>
    requires le_p { (1 ≤ frame.limit) × (frame.limit ≤ 1024) }
    requires enough { Enough frame.areas s.now × (frame.need ≤ length ws.old) × (frame.areas * (frame.limit * 2) ≤ frame.need) × (frame.areas ≤ area_count) }
    ensures decides { Decides Plain Nothing (by_masks pins.assumed_true pins.assumed_false) 2 frame.limit s.now (outcome_of result) }
    ensures ws_after { ws.new ≡ cleared frame.need ws.old }
{
    let mut row = [0u32; 2];
    let mut index = [0u32; 1024];
    let mut vals = [0u64; 1];
    let mut counts = [0u64; 8];
    decide_in(
        s,
        ws,
        &mut row,
        &mut index,
        &mut vals,
        &mut counts,
        Tables::Plain,
        Carry::Nothing,
        Frame { width: 2, ..frame },
        pins,
    )
}
