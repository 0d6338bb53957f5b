// For programs that hold the engine against the oracle: the engine's decisions in the oracle's form, trials of many seeds, and how often each answer was
// agreed on, counted and printed.
#![tactic(auto)]

ghost use Rattle.std.specs.Prelude.{◌≡◌, true, ◌<◌, ◌≤◌, OnOk, IfErr};
ghost use Rattle.expression.specs.Refusals.{number_of};
ghost use Rattle.oracle.specs.declared.Unanswered.TheVariants.{Refused};
ghost use Rattle.tallies.specs.Decisions.{answered_of};

use checks::checking::Terms;
use expression::refusals::Refusal;
use expression::{Outcome, Pins};
use generator::next_seed;
use oracle::{Answer, Answered, Unanswered};
use oracle_tables::Request;
use std::io;

// ---- the engine's terms and answers, in the oracle's form and from it

pub fn terms(q: Request) -> Terms
    ensures { result ≡ record { pair_limit = q.pair_limit; subset_limit = q.subset_limit; pins = record { assumed_true = q.assumed_true; assumed_false = q.assumed_false } } }
{
    Terms {
        pair_limit: q.pair_limit,
        subset_limit: q.subset_limit,
        pins: Pins {
            assumed_true: q.assumed_true,
            assumed_false: q.assumed_false,
        },
    }
}

pub fn refused(e: Refusal) -> Unanswered
    ensures { result ≡ Refused (number_of e.reason) e.place }
{
    Unanswered::Refused(e.reason.number(), e.place)
}

pub fn decision(o: Outcome) -> Answered
    ensures { result ≡ answered_of o }
{
    match o {
        Outcome::Yes(mask) => Ok(Answer::Yes(mask)),
        Outcome::No => Ok(Answer::No),
        Outcome::Refused(number, place) => Err(Unanswered::Refused(number, place)),
    }
}

// A disagreement where something does not hold that should.
pub fn held<D: Copy>(holds: bool, otherwise: D) -> Result<(), D>
    ensures held { OnOk result (holds ≡ true) }
    ensures otherwise_told { IfErr result (λ d. d ≡ otherwise) }
{
    if holds {
        return Ok(());
    }
    Err(otherwise)
}

// ---- counts: of each refusal under its number, and of the other answers from 20 on

fn count_place(a: Answered) -> usize
    ensures { result < 64 }
{
    match a {
        Err(Unanswered::Refused(number, _)) => (number % 64) as usize,
        Ok(Answer::No) => 20,
        Ok(Answer::Yes(_)) => 21,
        Ok(Answer::Report(_, _)) => 22,
        Err(Unanswered::NotTried) => 23,
    }
}

pub fn count(counts: &mut [u64; 64], a: Answered) {
    let k = count_place(a);
    counts[k] = counts[k].saturating_add(1);
}

pub fn print_number(rt: &impl Print, x: u64) -> io::Result<()> {
    print!(rt; "{x} ")
}

pub fn print_counts(rt: &impl Print, counts: &[u64; 64], from: usize, end: usize) -> io::Result<()>
    requires { end ≤ 64 }
{
    for k in from..end {
        print_number(rt, counts[k])?;
    }
    Ok(())
}

// ---- trials

// Of n seeds, up to the first disagreement, which is printed: its seed and its number. A trial gives the answer that is agreed on.
pub fn try_seeds<D: Into<u64>, F: Fn(u64) -> Result<Answered, D> + Copy>(
    rt: &impl Print,
    n: u64,
    counts: &mut [u64; 64],
    try_seed: F,
) -> io::Result<()>
    requires { F.IsAlwaysCallable try_seed }
{
    let mut seed: u64 = 1;
    for _ in 0..n {
        seed = next_seed(seed);
        match try_seed(seed) {
            Ok(answer) => count(counts, answer),
            Err(disagreement) => return print_disagreement(rt, seed, disagreement.into()),
        }
    }
    Ok(())
}

pub fn print_disagreement(rt: &impl Print, seed: u64, disagreement: u64) -> io::Result<()> {
    println!(rt; "{seed} {disagreement} disagrees")
}
