// Whether a running record has the form asked for (01: 18), and what stands before its place.
#![tactic(auto)]

ghost use Rattle.std.specs.Prelude.{◌≡◌, ◌&&◌, ◌*◌, ◌≤◌, length, take, drop, ℕ};
ghost use Rattle.labels.specs.Labels.{label_count};
ghost use Rattle.expression.specs.declared.Counts.{Counts};
ghost use Rattle.expression.specs.Limits.{areas_for, area_count};
ghost use Rattle.expression.specs.Checks.{Passed, check, depth_of};
ghost use Rattle.forms.specs.Forms.{are_zero, are_tables};
ghost use Rattle.checks.specs.Requests.{request};
ghost use Rattle.records.specs.Steps.{formed_at};

use checks::checking::Terms;
use expression::Counts;
use places::locate;
use records::Record;

// Whether t tables of the form asked for stand in d areas, and counts of no others.
fn are_found(ws: &[u32], counts: &[u64], t: usize, d: usize, w: usize, p: usize) -> bool
    requires { (2 ≤ w) × (w ≤ 4096) × (p ≤ 1024) × (t ≤ length counts.now) × (t ≤ d) × (d ≤ area_count) × (d * (p * w) ≤ length ws.now) }
    ensures { result ≡ (are_zero (drop t counts.now) && are_tables label_count w p (take t counts.now) (take (d * (p * w)) ws.now)) }
{
    if !forms::are_zero_counts(&counts[t..]) {
        return false;
    }
    let need = d * (p * w);
    table_forms::are_tables(&ws[..need], &counts[..t], w, p)
}

// The counts before the record's place, unless 18 refuses, whatever the pins. So many areas hold all the words needed.
pub fn formed_at(state: Record, ws: &[u32], s: &[u8], areas: usize, terms: Terms) -> Option<Counts>
    requires { (i : ℕ) × (o : ℕ) × (z : Counts) × (check label_count (request s.now terms.pair_limit terms.subset_limit (length ws.now) i o) ≡ Passed z) × (areas ≡ areas_for (depth_of label_count s.now)) }
    ensures { (i o : ℕ) → result ≡ formed_at label_count (request s.now terms.pair_limit terms.subset_limit (length ws.now) i o) state ws.now }
{
    let n = locate(s, state.place)?;
    if state.tables as u64 != n.depth {
        return None;
    }
    if !are_found(
        ws,
        &state.counts,
        state.tables,
        areas,
        terms.subset_limit as usize + 2,
        terms.pair_limit as usize,
    ) {
        return None;
    }
    Some(n)
}
