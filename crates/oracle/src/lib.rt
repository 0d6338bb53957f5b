// Documents 01 and 02 by enumeration, from the meaning of the rules alone: what a small sheet says, its tables and its answers. For testing the engine
// against; slow and simple. It shares with the engine the limits, the refusals' reasons and their numbers, and no function or definition of tables. What a rule, a
// smaller plan and pins mean is proved (crate meaning); all else here is proved to stay within bounds and to end, and is right as far as it is tried
// (crate trials).
#![tactic(auto)]

ghost use Rattle.std.specs.Prelude.{◌≡◌, false, OnOk};

pub mod answering;
pub mod checking;
pub mod naming;

use expression::refusals::Reason;

// What a decision or a report answers.
#[derive(Clone, Copy, PartialEq, Eq)]
pub enum Answer {
    No,
    // with the mask shown, plainly 0
    Yes(u64),
    // the numbers of its entries and words
    Report(u64, usize),
}

// Why there is no answer.
#[derive(Clone, Copy, PartialEq, Eq)]
pub enum Unanswered {
    // by a refusal with its number and place
    Refused(u64, usize),
    // for more atoms or rules than are kept
    NotTried,
}

pub type Answered = Result<Answer, Unanswered>;

// A refusal where it holds.
fn refuse_if(holds: bool, reason: Reason, place: usize) -> Result<(), Unanswered>
    ensures { OnOk result (holds ≡ false) }
{
    if holds {
        return Err(Unanswered::Refused(reason as u64, place));
    }
    Ok(())
}
