// Postfix expressions of atoms and rules (01: sheets): commands, what reading them finds, and the checks that come before any table. The
// definitions are in specs/, the laws in proofs/.
#![tactic(auto)]

ghost use Rattle.std.specs.Prelude.{◌≡◌};
ghost use Rattle.expression.specs.Told.{outcome_of};

use crate::refusals::Refusal;

pub mod limits;
pub mod refusals;

// Which set of a rule a connect puts atoms into.
#[derive(Clone, Copy)]
pub enum Kind {
    Head,
    Positive,
    Negative,
}

// Whether a rule must make an atom for it to be in an answer set, or none need (02, Item 9: granted).
#[derive(Clone, Copy)]
pub enum Role {
    Derived,
    External,
}

// What a command says of the atom that it brings.
#[derive(Clone, Copy)]
pub struct NewAtom {
    pub label: u32,
    pub role: Role,
}

// A name is where its bytes begin (02, Item 1), in a word of 32 bits, as labels are: an offset of 64 would make every command read longer and slower.
#[derive(Clone, Copy)]
pub enum Command {
    Atom(NewAtom),
    Rule(u32),
    Union,
    Relabel(u32, u32),
    Connect(Kind, u32, u32),
    Name(u32),
}

// A leaf of an expression.
#[derive(Clone, Copy)]
pub enum Leaf {
    Atom,
    Rule,
}

// What a command does to the stack: a leaf comes on it, the two newest operands become one, the newest is changed, or all stay as they are.
#[derive(Clone, Copy)]
pub enum Effect {
    Push(Leaf),
    Unite,
    Change,
    Pass,
}

// What the commands so far leave: how many atoms and rules, how many operands on the stack, and the most there were at once.
#[derive(Clone, Copy)]
pub struct Counts {
    pub atoms: u64,
    pub rules: u64,
    pub depth: u64,
    pub deepest: u64,
}

// The atoms that are assumed true and false, as masks (01: pins in and out).
#[derive(Clone, Copy)]
pub struct Pins {
    pub assumed_true: u64,
    pub assumed_false: u64,
}

// A decision: yes with a plan as a mask, no, or a refusal with its number and place. One enum with data, since 01 names this form for what a host is told.
#[derive(Clone, Copy)]
pub enum Outcome {
    Yes(u64),
    No,
    Refused(u64, usize),
}

impl From<Result<Option<u64>, Refusal>> for Outcome {
    ghost from_gives = { λ r o. o ≡ outcome_of r };

    fn from(r: Result<Option<u64>, Refusal>) -> Outcome {
        match r {
            Ok(Some(mask)) => Outcome::Yes(mask),
            Ok(None) => Outcome::No,
            Err(e) => Outcome::Refused(e.reason.number(), e.place),
        }
    }
}
