// What each command does to the stack (01, "The sheet"): a new command is one row.
ghost use Rattle.std.specs.Prelude.{◌≡◌};
ghost use Rattle.expression.specs.Effects.{effect};

use expression::{Command, Effect, Leaf};

pub fn effect(c: Command) -> Effect
    ensures { result ≡ effect c }
{
    match c {
        Command::Atom(_) => Effect::Push(Leaf::Atom),
        Command::Rule(_) => Effect::Push(Leaf::Rule),
        Command::Union => Effect::Unite,
        Command::Relabel(_, _) => Effect::Change,
        Command::Connect(_, _, _) => Effect::Change,
        Command::Name(_) => Effect::Pass,
    }
}
