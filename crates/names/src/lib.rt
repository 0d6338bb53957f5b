// What an atom is called (02, Item 1). The definitions are in the crate `expression`. No public function has a `requires`.
#![tactic(auto)]

ghost use Rattle.std.specs.Prelude.{◌≡◌};
ghost use Rattle.labels.specs.Labels.{label_count};
ghost use Rattle.expression.specs.Names.{is_atom, newest_by, called_by, called_in, name_of, bytes_named, naming_outcome};
ghost use Rattle.expression.specs.Reading.{reading};
ghost use Rattle.expression.specs.Checks.{Passed, check_sheet};
ghost use Rattle.expression.specs.Told.{named_of, naming_of};
ghost use Rattle.expression.specs.declared.Counts.{Counts};

use checks::checking::check_sheet;
use commands::counting::{counted, no_counts};
use commands::effects::effect;
use expression::limits::NAME_LENGTH;
use expression::refusals::Refusal;
use expression::{Command, Effect, Leaf, Outcome};
use reader::read_next;

// Whether the newest leaf is atom c after an effect; n atoms came before it.
fn newest_by(c: u64, n: u64, newest: bool, e: Effect) -> bool
    ensures { result ≡ newest_by c n newest e }
{
    match e {
        Effect::Push(l) => is_atom(c, n, l),
        Effect::Unite => newest,
        Effect::Change => newest,
        Effect::Pass => newest,
    }
}

fn is_atom(c: u64, n: u64, l: Leaf) -> bool
    ensures { result ≡ is_atom c n l }
{
    match l {
        Leaf::Atom => n == c,
        Leaf::Rule => false,
    }
}

// What it is called after a command.
#[tactic(auto, unfolding(expression::specs::Names::called_by))]
fn called_by(newest: bool, name: Option<usize>, c: Command) -> Option<usize>
    ensures { named_of result ≡ called_by newest (named_of name) c }
{
    match c {
        Command::Name(at) => { if newest { Some(at as usize) } else { name } }
        Command::Atom(_)
        | Command::Rule(_)
        | Command::Union
        | Command::Relabel(_, _)
        | Command::Connect(_, _, _) => name,
    }
}

// What atom c is called after all commands of an expression that passed its checks.
fn called(s: &[u8], c: u64) -> Option<usize>
    requires { (z : Counts) × (check_sheet label_count s.now ≡ Passed z) }
    ensures { named_of result ≡ called_in c (reading label_count s.now) }
{
    let mut at: usize = 0;
    let mut n = no_counts();
    let mut newest = false;
    let mut name = None;
    while at < s.len() {
        let Ok((d, next)) = read_next(s, at) else {
            return None;
        };
        name = called_by(newest, name, d);
        newest = newest_by(c, n.atoms, newest, effect(d));
        n = counted(n, d);
        at = next;
    }
    name
}

// The last name that atom c got, after checks 1 and 5 to 12.
pub fn name(s: &[u8], c: u64) -> Result<Option<usize>, Refusal>
    ensures { naming_of result ≡ name_of label_count s.now c }
{
    check_sheet(s)?;
    Ok(called(s, c))
}

// Its sixteen bytes, a part of the caller's own; none where there is no name.
pub fn name_bytes(s: &[u8], c: u64) -> &[u8]
    ensures { result.now ≡ bytes_named s.now (name_of label_count s.now c) }
{
    match name(s, c) {
        Ok(Some(at)) => &s[at..at + NAME_LENGTH],
        _ => &s[0..0],
    }
}

// The same as the outcome that a host is told.
pub fn name_outcome(s: &[u8], c: u64) -> Outcome
    ensures { result ≡ naming_outcome (name_of label_count s.now c) }
{
    match name(s, c) {
        Ok(Some(at)) => Outcome::Yes(at as u64),
        Ok(None) => Outcome::No,
        Err(e) => Outcome::Refused(e.reason.number(), e.place),
    }
}
