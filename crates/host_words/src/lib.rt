// The answers of the calls for a host in words.
#![tactic(auto)]

ghost use Rattle.std.specs.Prelude.{◌≡◌, ◌∷◌, ◌≤◌, length, drop};
ghost use Rattle.host_words.specs.Answers.{answer_words, answer_of};
ghost use Rattle.host_words.specs.Reported.{report_words_of};
ghost use Rattle.host_words.specs.Walked.{progress_words_of};

use expression::Outcome;
use outcomes::{kind, place, value};
use records::Answer;
use reporting::Report;

// Kind, value and place.
pub const ANSWER_WORDS: usize = 3;

// The first three words; later words keep their values.
pub fn write_words(answer: &mut [u64], kind: u64, value: u64, place: u64)
    requires { answer_words ≤ length answer.old }
    ensures { answer.new ≡ kind ∷ value ∷ place ∷ drop answer_words answer.old }
{
    answer[0] = kind;
    answer[1] = value;
    answer[2] = place;
}

// An outcome's three words.
pub fn write_answer(answer: &mut [u64], o: Outcome)
    requires { answer_words ≤ length answer.old }
    ensures { answer.new ≡ answer_of o answer.old }
{
    write_words(answer, kind(o), value(o), place(o));
}

// The three words of what a step answers: 3 moved, 4 ended, or a refusal as that of a decision.
pub fn write_progress(answer: &mut [u64], x: Answer)
    requires { answer_words ≤ length answer.old }
    ensures { answer.new ≡ progress_words_of x answer.old }
{
    match x {
        Answer::Moved => write_words(answer, 3, 0, 0),
        Answer::Ended => write_words(answer, 4, 0, 0),
        Answer::Refused(number, at) => write_answer(answer, Outcome::Refused(number, at)),
    }
}

// A report's three words; a refusal is written as that of a decision.
pub fn write_report(answer: &mut [u64], r: Report)
    requires { answer_words ≤ length answer.old }
    ensures { answer.new ≡ report_words_of r answer.old }
{
    match r {
        Report::Written(entries, words) => write_words(answer, 1, entries, words),
        Report::Refused(number, at) => write_answer(answer, Outcome::Refused(number, at)),
    }
}
