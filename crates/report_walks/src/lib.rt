// A report in one walk, in arrays that are lent: the table after the command asked, written into a buffer.
#![tactic(auto)]

ghost use Rattle.std.specs.Prelude.{◌≡◌, ◌+◌, ◌*◌, ◌≤◌, ◌<◌, length};
ghost use Rattle.expression.specs.Limits.{depth_limit, area_count};
ghost use Rattle.semantics.specs.AnswerSets.{by_masks};
ghost use Rattle.rows.specs.Parts.{zeros};
ghost use Rattle.entries.specs.declared.Carry.TheVariants.{Nothing};
ghost use Rattle.leaves.specs.Leaves.{Wide};
ghost use Rattle.workspace.specs.Workspace.{pairs_of};
ghost use Rattle.walks.specs.Walks.{Enough, walk_to};
ghost use Rattle.reports.specs.Reports.{report_of};
ghost use Rattle.stacks.specs.Stacks.{cleared};
ghost use Rattle.reporting.specs.Report.{reported_of};
ghost use Rattle.reporting.specs.Reporting.{newest_in, report_answer, report_buffer};

use checks::frames::Frame;
use entries::Carry;
use expression::Pins;
use expression::refusals::Refusal;
use leaves::Tables;
use reporting::{Written, report_newest};

// The commands up to the one at the offset asked, and the report of the table after it; the words needed cleared before and after.
pub fn tabulate(
    s: &[u8],
    asked: usize,
    ws: &mut [u32],
    out: &mut [u32],
    row: &mut [u32],
    index: &mut [u32],
    vals: &mut [u64],
    counts: &mut [u64],
    kind: Tables,
    frame: Frame,
    pins: Pins,
) -> Result<Written, Refusal>
    requires wide { Wide kind frame.width × (frame.width ≤ 4096) × (1 ≤ frame.limit) × (frame.limit ≤ 1024) × (length row.old ≡ frame.width) × (frame.limit ≤ length index.old) }
    requires counts_value { (counts.old ≡ zeros depth_limit) × (asked < length s.now) }
    requires enough { Enough frame.areas s.now × (frame.need ≤ length ws.old) × (frame.areas * (frame.limit * frame.width) ≤ frame.need) × (frame.areas ≤ area_count) }
    ensures value { reported_of result ≡ report_answer (λ x. report_of kind (pairs_of x)) (length out.old) asked (newest_in (walk_to kind Nothing (by_masks pins.assumed_true pins.assumed_false) frame.width frame.limit (asked + 1) s.now)) }
    ensures out_after { out.new ≡ report_buffer (λ x. report_of kind (pairs_of x)) out.old (newest_in (walk_to kind Nothing (by_masks pins.assumed_true pins.assumed_false) frame.width frame.limit (asked + 1) s.now)) }
    ensures ws_after { ws.new ≡ cleared frame.need ws.old }
{
    let w = frame.width;
    let p = frame.limit;
    stacks::clear_need(ws, frame.need);
    let walked = walks::walk(
        s,
        asked + 1,
        ws,
        row,
        index,
        vals,
        counts,
        kind,
        Carry::Nothing,
        frame.areas,
        w,
        p,
        pins,
    );
    match walked {
        Err(e) => {
            stacks::clear_tables(ws, counts, w, p, e.tables);
            Err(e.refusal)
        }
        Ok(t) => {
            let report = report_newest(ws, out, counts, kind, w, p, t, asked);
            stacks::clear_tables(ws, counts, w, p, t);
            report
        }
    }
}
