// A running record, and what a step answers (01, "One command a call").
// The place of the next command, how many tables there are, and how many pairs each has, the oldest first.
#![tactic(auto)]

ghost use Rattle.std.specs.Prelude.{◌≡◌};
ghost use Rattle.records.specs.Told.{progress_of};

use expression::refusals::Refusal;

#[repr(C)]
#[derive(Clone, Copy, PartialEq, Eq)]
pub struct Record {
    pub place: usize,
    pub tables: usize,
    pub counts: [u64; 8],
}

// What a call did that is not refused: a command, or nothing, where the end was reached before.
#[derive(Clone, Copy, PartialEq, Eq)]
pub enum Progress {
    Moved,
    Ended,
}

// What a host is told of a call: it did a command, the end was reached before, or a refusal with its number and place.
#[derive(Clone, Copy)]
pub enum Answer {
    Moved,
    Ended,
    Refused(u64, usize),
}

impl From<Result<Progress, Refusal>> for Answer {
    ghost from_gives = { λ r x. x ≡ progress_of r };

    fn from(r: Result<Progress, Refusal>) -> Answer {
        match r {
            Ok(Progress::Moved) => Answer::Moved,
            Ok(Progress::Ended) => Answer::Ended,
            Err(e) => Answer::Refused(e.reason.number(), e.place),
        }
    }
}

// The record after a call, be it refused or not, and what is answered.
#[derive(Clone, Copy)]
pub struct Stepped {
    pub state: Record,
    pub progress: Result<Progress, Refusal>,
}
