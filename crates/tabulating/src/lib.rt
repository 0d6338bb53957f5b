// The table after the command asked, written into a buffer, in arrays made here.
#![tactic(auto)]

ghost use Rattle.std.specs.Prelude.{◌≡◌, ◌+◌, ◌*◌, ◌≤◌, ◌<◌, length};
ghost use Rattle.expression.specs.Limits.{depth_limit, area_count};
ghost use Rattle.semantics.specs.AnswerSets.{by_masks};
ghost use Rattle.rows.specs.Parts.{zeros};
ghost use Rattle.entries.specs.declared.Carry.TheVariants.{Nothing};
ghost use Rattle.leaves.specs.Leaves.{Wide};
ghost use Rattle.workspace.specs.Workspace.{pairs_of};
ghost use Rattle.walks.specs.Walks.{Enough, walk_to};
ghost use Rattle.reports.specs.Reports.{report_of};
ghost use Rattle.stacks.specs.Stacks.{cleared};
ghost use Rattle.reporting.specs.Report.{reported_of};
ghost use Rattle.reporting.specs.Reporting.{newest_in, report_answer, report_buffer};

use checks::frames::Frame;
use expression::Pins;
use expression::refusals::Refusal;
use leaves::Tables;
use report_walks::tabulate;
use reporting::Written;

// As tabulate, in arrays that are long enough. Reports carry no values.
fn tabulate_in(
    s: &[u8],
    asked: usize,
    ws: &mut [u32],
    out: &mut [u32],
    row: &mut [u32],
    index: &mut [u32],
    vals: &mut [u64],
    counts: &mut [u64],
    kind: Tables,
    frame: Frame,
    pins: Pins,
) -> Result<Written, Refusal>
    requires wide { Wide kind frame.width × (frame.width ≤ 4096) × (1 ≤ frame.limit) × (frame.limit ≤ 1024) × (frame.width ≤ length row.old) × (frame.limit ≤ length index.old) }
    requires counts_value { (counts.old ≡ zeros depth_limit) × (asked < length s.now) }
    requires enough { Enough frame.areas s.now × (frame.need ≤ length ws.old) × (frame.areas * (frame.limit * frame.width) ≤ frame.need) × (frame.areas ≤ area_count) }
    ensures value { reported_of result ≡ report_answer (λ x. report_of kind (pairs_of x)) (length out.old) asked (newest_in (walk_to kind Nothing (by_masks pins.assumed_true pins.assumed_false) frame.width frame.limit (asked + 1) s.now)) }
    ensures out_after { out.new ≡ report_buffer (λ x. report_of kind (pairs_of x)) out.old (newest_in (walk_to kind Nothing (by_masks pins.assumed_true pins.assumed_false) frame.width frame.limit (asked + 1) s.now)) }
    ensures ws_after { ws.new ≡ cleared frame.need ws.old }
{
    tabulate(
        s,
        asked,
        ws,
        out,
        &mut row[..frame.width],
        index,
        vals,
        counts,
        kind,
        frame,
        pins,
    )
}

// As tabulate, in arrays made here.
pub fn tabulate_here(
    s: &[u8],
    asked: usize,
    ws: &mut [u32],
    out: &mut [u32],
    kind: Tables,
    frame: Frame,
    pins: Pins,
) -> Result<Written, Refusal>
    requires wide { Wide kind frame.width × (frame.width ≤ 1026) × (1 ≤ frame.limit) × (frame.limit ≤ 1024) × (asked < length s.now) }
    requires enough { Enough frame.areas s.now × (frame.need ≤ length ws.old) × (frame.areas * (frame.limit * frame.width) ≤ frame.need) × (frame.areas ≤ area_count) }
    ensures value { reported_of result ≡ report_answer (λ x. report_of kind (pairs_of x)) (length out.old) asked (newest_in (walk_to kind Nothing (by_masks pins.assumed_true pins.assumed_false) frame.width frame.limit (asked + 1) s.now)) }
    ensures out_after { out.new ≡ report_buffer (λ x. report_of kind (pairs_of x)) out.old (newest_in (walk_to kind Nothing (by_masks pins.assumed_true pins.assumed_false) frame.width frame.limit (asked + 1) s.now)) }
    ensures ws_after { ws.new ≡ cleared frame.need ws.old }
{
    let mut row = [0u32; 1026];
    let mut index = [0u32; 1024];
    let mut vals = [0u64; 1];
    let mut counts = [0u64; 8];
    tabulate_in(
        s,
        asked,
        ws,
        out,
        &mut row,
        &mut index,
        &mut vals,
        &mut counts,
        kind,
        frame,
        pins,
    )
}
