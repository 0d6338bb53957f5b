// The newest table, written into a buffer where it fits.
#![tactic(auto)]

ghost use Rattle.std.specs.Prelude.{◌≡◌, List, ℕ, ◌≤◌, length};
ghost use Rattle.entries.specs.declared.Carry.TheVariants.{Nothing};
ghost use Rattle.entries.specs.Carries.{Entry};
ghost use Rattle.decisions.specs.Decisions.{newest};
ghost use Rattle.workspace.specs.Workspace.{pairs_of};
ghost use Rattle.advances.specs.Advances.{Stands, SomeStand};
ghost use Rattle.reports.specs.Reports.{report_of};
ghost use Rattle.reporting.specs.Report.{reported_of};
ghost use Rattle.reporting.specs.Reporting.{table_at, report_answer, report_buffer};

use expression::refusals::{Reason, Refusal};
use leaves::Tables;

// How many entries and words were written.
#[derive(Clone, Copy)]
pub struct Written {
    pub entries: u64,
    pub words: u64,
}

// What a host is told of a report: how many entries and words were written, or a refusal with its number and place.
#[derive(Clone, Copy)]
pub enum Report {
    Written(u64, u64),
    Refused(u64, usize),
}

impl From<Result<Written, Refusal>> for Report {
    ghost from_gives = { λ r x. x ≡ reported_of r };

    fn from(r: Result<Written, Refusal>) -> Report {
        match r {
            Ok(w) => Report::Written(w.entries, w.words),
            Err(e) => Report::Refused(e.reason.number(), e.place),
        }
    }
}

// The newest of t tables, over the front of `out` if it fits there.
pub fn report_newest(
    ws: &[u32],
    out: &mut [u32],
    counts: &[u64],
    kind: Tables,
    w: usize,
    p: usize,
    t: usize,
    asked: usize,
) -> Result<Written, Refusal>
    requires le_w { (2 ≤ w) × (w ≤ 4096) × (p ≤ 1024) × (1 ≤ t) }
    requires by_index { (d : ℕ) × (vals : List ℕ) × SomeStand Nothing d w p t ws.now vals counts.now }
    ensures { (d : ℕ) (us : List (List Entry)) (beyond vals : List ℕ) → Stands Nothing d w p us beyond ws.now vals counts.now → length us ≡ t → (reported_of result ≡ report_answer (λ x. report_of kind (pairs_of x)) (length out.old) asked (table_at (newest us))) × (out.new ≡ report_buffer (λ x. report_of kind (pairs_of x)) out.old (table_at (newest us))) }
{
    let n = stacks::count_below(counts, t, 1);
    let a = (t - 1) * (p * w);
    let words = reports::report_words(ws, kind, w, p, a, n);
    if out.len() < words {
        return Err(Reason::ReportShort.at(asked));
    }
    reports::write_report(out, ws, kind, w, p, a, n);
    Ok(Written {
        entries: n as u64,
        words: words as u64,
    })
}
