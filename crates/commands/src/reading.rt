// One command from bytes (01, "The sheet").
ghost use Rattle.std.specs.Prelude.{◌≡◌, cond, ◌+◌, ◌^◌, ◌<◌, eqb, leb};
ghost use Rattle.labels.specs.Labels.{label_count};
ghost use Rattle.expression.specs.declared.Role.TheVariants.{Derived, External};
ghost use Rattle.expression.specs.declared.Command.TheVariants.{Name};
ghost use Rattle.expression.specs.Limits.{name_length};
ghost use Rattle.expression.specs.Refusals.{group, same};
ghost use Rattle.expression.specs.Told.{read_of};
ghost use Rattle.expression.specs.Commands.{Got, Fault, operand_count, tail_length, name_start, command_of, read_at};

use expression::limits::NAME_LENGTH;
use expression::refusals::Reason;
use expression::{Command, Kind, NewAtom, Role};
use labels::LABELS;

// The command at an offset with the offset after it, or the first of 5 to 8 that refuses it; past the end there is no command (5).
pub fn read_at(s: &[u8], at: usize) -> Result<(Command, usize), Reason>
    ensures { read_of result ≡ read_at label_count s.now at }
{
    if at >= s.len() {
        return Err(Reason::Unknown);
    }
    let b = s[at];
    if b == 0x21 {
        return Ok((Command::Union, at + 1));
    }
    let n = tail_length(b);
    if n == 0 {
        return Err(Reason::Unknown);
    }
    if s.len() - at <= n {
        return Err(Reason::Cut);
    }
    if n == NAME_LENGTH {
        return Ok(read_name(at));
    }
    let i = s[at + 1];
    if i >= LABELS {
        return Err(Reason::Group);
    }
    if n == 1 {
        return Ok((leaf_of(b, i), at + 2));
    }
    read_pair(b, i, s[at + 2], at + 3)
}

// A name whose command is at an offset. What its bytes are is not looked at (02, Item 1).
fn read_name(at: usize) -> (Command, usize)
    requires { at + (1 + name_length) < 2 ^ 64 }
    ensures { result ≡ (Name (name_start at), at + (1 + name_length)) }
{
    (
        Command::Name(((at + 1) % 0x100000000) as u32),
        at + (1 + NAME_LENGTH),
    )
}

// A relabel or a connect of labels i and j, the first of which passed test 7: 7 of the second, and 8.
fn read_pair(b: u8, i: u8, j: u8, next: usize) -> Result<(Command, usize), Reason>
    requires { operand_count b ≡ 2 }
    ensures { read_of result ≡ cond (leb label_count j) (Fault group) (cond (eqb i j) (Fault same) (Got (command_of b i j) next)) }
{
    if j >= LABELS {
        return Err(Reason::Group);
    }
    if i == j {
        return Err(Reason::Same);
    }
    Ok((pair_of(b, i, j), next))
}

// How many bytes a command has behind its own; 0 for one that has none, and for any other byte.
fn tail_length(b: u8) -> usize
    ensures { result ≡ tail_length b }
{
    match b {
        0x11 | 0x12 | 0x13 => 1,
        0x31 | 0x41 | 0x42 | 0x43 => 2,
        0x51 => NAME_LENGTH,
        _ => 0,
    }
}

// The command of a byte with one operand.
fn leaf_of(b: u8, g: u8) -> Command
    requires { operand_count b ≡ 1 }
    ensures { result ≡ command_of b g 0 }
{
    let label = g as u32;
    if b == 0x12 {
        return Command::Rule(label);
    }
    Command::Atom(NewAtom {
        label,
        role: role_of(b),
    })
}

// The role of an atom, by its byte.
fn role_of(b: u8) -> Role
    ensures { result ≡ cond (eqb b 0x13) External Derived }
{
    if b == 0x13 {
        return Role::External;
    }
    Role::Derived
}

// The command of a byte with two.
fn pair_of(b: u8, x: u8, y: u8) -> Command
    requires { operand_count b ≡ 2 }
    ensures { result ≡ command_of b x y }
{
    let i = x as u32;
    let j = y as u32;
    match b {
        0x31 => Command::Relabel(i, j),
        0x41 => Command::Connect(Kind::Head, i, j),
        0x42 => Command::Connect(Kind::Positive, i, j),
        _ => Command::Connect(Kind::Negative, i, j),
    }
}
