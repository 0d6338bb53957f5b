// The three words that a host gets of an outcome (01, "One command a call"). The definitions are in the crate `expression`.
#![tactic(auto)]

ghost use Rattle.std.specs.Prelude.{◌≡◌};
ghost use Rattle.expression.specs.Outcomes.{kind_of, value_of, place_of};

use expression::Outcome;

// 0 no, 1 yes, 2 refused.
pub fn kind(o: Outcome) -> u64
    ensures { result ≡ kind_of o }
{
    match o {
        Outcome::Yes(_) => 1,
        Outcome::No => 0,
        Outcome::Refused(_, _) => 2,
    }
}

// The mask of the interpretation shown, or the number of the refusal; else 0.
pub fn value(o: Outcome) -> u64
    ensures { result ≡ value_of o }
{
    match o {
        Outcome::Yes(mask) => mask,
        Outcome::No => 0,
        Outcome::Refused(number, _) => number,
    }
}

// The place of the refusal; else 0.
pub fn place(o: Outcome) -> u64
    ensures { result ≡ place_of o }
{
    match o {
        Outcome::Yes(_) | Outcome::No => 0,
        Outcome::Refused(_, at) => at as u64,
    }
}
