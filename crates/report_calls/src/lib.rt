// The reports of the library, as the definitions say them. None has a `requires`.
#![tactic(auto)]

ghost use Rattle.std.specs.Prelude.{◌≡◌, length};
ghost use Rattle.labels.specs.Labels.{label_count};
ghost use Rattle.tables.specs.Definitions.{pairs, triples};
ghost use Rattle.decisions.specs.Decisions.{pairs_fault, plain_fault};
ghost use Rattle.checks.specs.Requests.{asked};
ghost use Rattle.leaves.specs.declared.Tables.TheVariants.{Pairs};
ghost use Rattle.workspace.specs.Workspace.{pairs_of};
ghost use Rattle.reports.specs.Reports.{report_of};
ghost use Rattle.reporting.specs.Report.{reported_of};
ghost use Rattle.reporting.specs.Reporting.{starts_at, asked_table, report_answer, report_buffer, words_reported};
ghost use Rattle.report_calls.specs.ReportCalls.{narrowed, entries_asked};

use checks::checking::{Terms, check};
use checks::frames::{Frame, frame_for};
use expression::refusals::{Reason, Refusal};
use leaves::Tables;
use places::locate;
use reporting::Written;
use tabulating::tabulate_here;

// Whether a command starts at the offset.
fn starts_at(s: &[u8], at: usize) -> bool
    ensures { result ≡ starts_at label_count s.now at }
{
    at < s.len() && locate(s, at).is_some()
}

// The frame for tables of a kind: a plain row is a triple and a count.
fn narrowed(kind: Tables, frame: Frame) -> Frame
    ensures { result ≡ narrowed kind frame }
{
    match kind {
        Tables::Plain => Frame { width: 2, ..frame },
        Tables::Pairs => frame,
    }
}

// The report of the table of a kind after the command at the offset.
fn report_kind(
    s: &[u8],
    at: usize,
    terms: Terms,
    kind: Tables,
    ws: &mut [u32],
    out: &mut [u32],
) -> Result<Written, Refusal>
    ensures value { reported_of result ≡ report_answer (λ x. report_of kind (pairs_of x)) (length out.old) at (entries_asked kind label_count (asked s.now terms (length ws.old)) at) }
    ensures out_after { out.new ≡ report_buffer (λ x. report_of kind (pairs_of x)) out.old (entries_asked kind label_count (asked s.now terms (length ws.old)) at) }
    ensures ws_after { ws.new ≡ words_reported label_count (asked s.now terms (length ws.old)) at ws.old }
{
    let n = check(s, terms, ws.len())?;
    if !starts_at(s, at) {
        return Err(Reason::Offset.at(at));
    }
    let frame = narrowed(kind, frame_for(n.deepest, terms));
    tabulate_here(s, at, ws, out, kind, frame, terms.pins)
}

// The report of the table of pairs after the command at the offset.
pub fn report(
    s: &[u8],
    at: usize,
    terms: Terms,
    ws: &mut [u32],
    out: &mut [u32],
) -> Result<Written, Refusal>
    ensures value { reported_of result ≡ report_answer (report_of Pairs) (length out.old) at (asked_table (pairs label_count) (pairs_fault terms.pair_limit terms.subset_limit) label_count (asked s.now terms (length ws.old)) at) }
    ensures out_after { out.new ≡ report_buffer (report_of Pairs) out.old (asked_table (pairs label_count) (pairs_fault terms.pair_limit terms.subset_limit) label_count (asked s.now terms (length ws.old)) at) }
    ensures ws_after { ws.new ≡ words_reported label_count (asked s.now terms (length ws.old)) at ws.old }
{
    report_kind(s, at, terms, Tables::Pairs, ws, out)
}

// The report of the plain table there; an entry is its triple alone.
pub fn plain_report(
    s: &[u8],
    at: usize,
    terms: Terms,
    ws: &mut [u32],
    out: &mut [u32],
) -> Result<Written, Refusal>
    ensures value { reported_of result ≡ report_answer (λ t. t) (length out.old) at (asked_table (triples label_count) (plain_fault terms.pair_limit) label_count (asked s.now terms (length ws.old)) at) }
    ensures out_after { out.new ≡ report_buffer (λ t. t) out.old (asked_table (triples label_count) (plain_fault terms.pair_limit) label_count (asked s.now terms (length ws.old)) at) }
    ensures ws_after { ws.new ≡ words_reported label_count (asked s.now terms (length ws.old)) at ws.old }
{
    report_kind(s, at, terms, Tables::Plain, ws, out)
}
