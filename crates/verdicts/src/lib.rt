// The verdict with the running record by value, by an equation with the definition.
#![tactic(auto)]

ghost use Rattle.std.specs.Prelude.{◌≡◌, length, Some};
ghost use Rattle.labels.specs.Labels.{label_count};
ghost use Rattle.expression.specs.declared.Counts.{Counts};
ghost use Rattle.expression.specs.Told.{outcome_of};
ghost use Rattle.expression.specs.Checks.{Passed, check};
ghost use Rattle.checks.specs.Requests.{asked};
ghost use Rattle.records.specs.Steps.{formed_at, conclusion, verdict};

use answers::least_accepting;
use checks::checking::{Terms, check};
use checks::frames::frame_for;
use entries::Carry;
use expression::refusals::{Reason, Refusal};
use record_tests::formed_at;
use records::Record;

// Yes or no from the final table; before the end there is none.
fn conclusion(state: Record, ws: &[u32], s: &[u8], terms: Terms) -> Result<Option<u64>, Refusal>
    requires passed { (z : Counts) × (check label_count (asked s.now terms (length ws.now)) ≡ Passed z) }
    requires formed { (n : Counts) × (formed_at label_count (asked s.now terms (length ws.now)) state ws.now ≡ Some n) }
    ensures { outcome_of result ≡ conclusion label_count (asked s.now terms (length ws.now)) state ws.now }
{
    if state.place != s.len() {
        return Err(Reason::BadRecord.at(state.place));
    }
    let vals = [0u64; 1];
    let found = least_accepting(
        ws,
        &vals,
        Carry::Nothing,
        terms.subset_limit as usize + 2,
        terms.pair_limit as usize,
        0,
        state.counts[0] as usize,
    );
    // A yes without a plan, where some entry accepts.
    Ok(found.and(Some(0)))
}

// The decision of a record that has come to the end; record and words stay.
pub fn verdict(state: Record, ws: &[u32], s: &[u8], terms: Terms) -> Result<Option<u64>, Refusal>
    ensures { outcome_of result ≡ verdict label_count (asked s.now terms (length ws.now)) state ws.now }
{
    let z = check(s, terms, ws.len())?;
    let areas = frame_for(z.deepest, terms).areas;
    let Some(_) = formed_at(state, ws, s, areas, terms) else {
        return Err(Reason::BadRecord.at(state.place));
    };
    conclusion(state, ws, s, terms)
}
