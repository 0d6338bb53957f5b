// The calls of the walk for a host: the running record by value, the answer in words. None has a `requires`.
#![tactic(auto)]

ghost use Rattle.std.specs.Prelude.{◌≡◌, length};
ghost use Rattle.labels.specs.Labels.{label_count};
ghost use Rattle.checks.specs.Requests.{asked};
ghost use Rattle.records.specs.Steps.{step, start, verdict};
ghost use Rattle.host_words.specs.Answers.{returned, unless_short, answer_of};
ghost use Rattle.host_words.specs.Walked.{progress_words_of};

use checks::checking::Terms;
use expression::Outcome;
use host_words::{ANSWER_WORDS, write_answer, write_progress};
use records::{Answer, Record};

// The record after a call, and the number that the call returns.
#[derive(Clone, Copy)]
pub struct Told {
    pub state: Record,
    pub returned: u64,
}

// Starts a walk: a record at place 0 without tables, beside needed words that are zero.
pub fn tell_start(
    state: Record,
    workspace: &mut [u32],
    sheet: &[u8],
    terms: Terms,
    answer: &mut [u64],
) -> Told
    ensures returned_value { result.returned ≡ returned answer.old }
    ensures state_value { result.state ≡ unless_short answer.old state (start label_count (asked sheet.now terms (length workspace.old)) state workspace.old).state }
    ensures workspace_after { workspace.new ≡ unless_short answer.old workspace.old (start label_count (asked sheet.now terms (length workspace.old)) state workspace.old).words }
    ensures answer_after { answer.new ≡ unless_short answer.old answer.old (progress_words_of (start label_count (asked sheet.now terms (length workspace.old)) state workspace.old).answer answer.old) }
{
    if answer.len() < ANSWER_WORDS {
        return Told { state, returned: 0 };
    }
    let s = starts::start(state, workspace, sheet, terms);
    write_progress(answer, Answer::from(s.progress));
    Told {
        state: s.state,
        returned: 1,
    }
}

// Does the command at the record's place.
pub fn tell_step(
    state: Record,
    workspace: &mut [u32],
    sheet: &[u8],
    terms: Terms,
    answer: &mut [u64],
) -> Told
    ensures returned_value { result.returned ≡ returned answer.old }
    ensures state_value { result.state ≡ unless_short answer.old state (step label_count (asked sheet.now terms (length workspace.old)) state workspace.old).state }
    ensures workspace_after { workspace.new ≡ unless_short answer.old workspace.old (step label_count (asked sheet.now terms (length workspace.old)) state workspace.old).words }
    ensures answer_after { answer.new ≡ unless_short answer.old answer.old (progress_words_of (step label_count (asked sheet.now terms (length workspace.old)) state workspace.old).answer answer.old) }
{
    if answer.len() < ANSWER_WORDS {
        return Told { state, returned: 0 };
    }
    let s = steps::advance(state, workspace, sheet, terms);
    write_progress(answer, Answer::from(s.progress));
    Told {
        state: s.state,
        returned: 1,
    }
}

// Reads yes or no from the final table; it shows no plan.
pub fn tell_verdict(
    state: Record,
    workspace: &[u32],
    sheet: &[u8],
    terms: Terms,
    answer: &mut [u64],
) -> u64
    ensures value { result ≡ returned answer.old }
    ensures answer_after { answer.new ≡ unless_short answer.old answer.old (answer_of (verdict label_count (asked sheet.now terms (length workspace.now)) state workspace.now) answer.old) }
{
    if answer.len() < ANSWER_WORDS {
        return 0;
    }
    let o = Outcome::from(verdicts::verdict(state, workspace, sheet, terms));
    write_answer(answer, o);
    1
}
