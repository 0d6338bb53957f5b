// The grounded decision, as the definitions say it. It has no `requires`.
#![tactic(auto)]

ghost use Rattle.std.specs.Prelude.{◌≡◌, length};
ghost use Rattle.labels.specs.Labels.{label_count};
ghost use Rattle.expression.specs.Told.{outcome_of};
ghost use Rattle.decisions.specs.Outcomes.{grounded_outcome, GroundedRight};
ghost use Rattle.stacks.specs.Stacks.{words_after};
ghost use Rattle.checks.specs.Requests.{asked};

use checks::checking::{Terms, check};
use checks::frames::frame_for;
use expression::Outcome;
use expression::refusals::Refusal;

// The mask of the first answer set that obeys the pins, if there is one, or the refusal.
fn decided(s: &[u8], terms: Terms, ws: &mut [u32]) -> Result<Option<u64>, Refusal>
    ensures value { outcome_of result ≡ grounded_outcome label_count (asked s.now terms (length ws.old)) }
    ensures ws_after { ws.new ≡ words_after label_count (asked s.now terms (length ws.old)) ws.old }
{
    let n = check(s, terms, ws.len())?;
    let frame = frame_for(n.deepest, terms);
    let found = engine::decide_pairs(s, ws, frame, terms.pins)?;
    Ok(found.map(|v| answers::shown_mask(n.atoms, v)))
}

// The grounded decision. The outcome is the definition's; yes shows the first answer set of the expression's rules that obeys the assumptions, and no says
// that there is none (demand 3). The workspace is untouched where a check refuses, else its needed words are zero.
pub fn grounded(s: &[u8], terms: Terms, ws: &mut [u32]) -> Outcome
    ensures value { result ≡ grounded_outcome label_count (asked s.now terms (length ws.old)) }
    ensures grounded_right { GroundedRight label_count (asked s.now terms (length ws.old)) result }
    ensures ws_after { ws.new ≡ words_after label_count (asked s.now terms (length ws.old)) ws.old }
{
    Outcome::from(decided(s, terms, ws))
}
