// The plain decision, as the definitions say it. It has no `requires`.
#![tactic(auto)]

ghost use Rattle.std.specs.Prelude.{◌≡◌, length};
ghost use Rattle.labels.specs.Labels.{label_count};
ghost use Rattle.expression.specs.Told.{outcome_of};
ghost use Rattle.decisions.specs.Outcomes.{plain_outcome, PlainRight};
ghost use Rattle.stacks.specs.Stacks.{words_after};
ghost use Rattle.checks.specs.Requests.{asked};

use checks::checking::{Terms, check};
use checks::frames::frame_for;
use expression::Outcome;
use expression::refusals::Refusal;

// Whether some model obeys the pins, which is not shown, or the refusal.
fn decided(s: &[u8], terms: Terms, ws: &mut [u32]) -> Result<Option<u64>, Refusal>
    ensures value { outcome_of result ≡ plain_outcome label_count (asked s.now terms (length ws.old)) }
    ensures ws_after { ws.new ≡ words_after label_count (asked s.now terms (length ws.old)) ws.old }
{
    let n = check(s, terms, ws.len())?;
    let frame = frame_for(n.deepest, terms);
    let found = engine::decide_plain(s, ws, frame, terms.pins)?;
    Ok(found.map(|_| 0))
}

// The plain decision: the same of models, and yes shows none. A plain table's rows have no subsets, but the words needed are the same.
pub fn plain(s: &[u8], terms: Terms, ws: &mut [u32]) -> Outcome
    ensures value { result ≡ plain_outcome label_count (asked s.now terms (length ws.old)) }
    ensures plain_right { PlainRight label_count (asked s.now terms (length ws.old)) result }
    ensures ws_after { ws.new ≡ words_after label_count (asked s.now terms (length ws.old)) ws.old }
{
    Outcome::from(decided(s, terms, ws))
}
