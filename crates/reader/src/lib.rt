// The reader: the lent sheet together with the offset reached (01, "One command a call").
#![tactic(auto)]

ghost use Rattle.std.specs.Prelude.{◌≡◌};
ghost use Rattle.labels.specs.Labels.{label_count};
ghost use Rattle.expression.specs.Commands.{read_at};
ghost use Rattle.expression.specs.Told.{read_of};

use expression::Command;
use expression::refusals::Reason;

#[derive(Clone, Copy)]
pub struct Reader<'a> {
    pub sheet: &'a [u8],
    pub at: usize,
}

// The command at the offset reached with the offset after it, or the first of 5 to 8 that refuses it.
pub fn next<'a>(r: Reader<'a>) -> Result<(Command, usize), Reason>
    ensures { read_of result ≡ read_at label_count r.entry.sheet.now r.entry.at }
{
    commands::reading::read_at(r.sheet, r.at)
}

// The same from a sheet and an offset.
pub fn read_next(s: &[u8], at: usize) -> Result<(Command, usize), Reason>
    ensures { read_of result ≡ read_at label_count s.now at }
{
    next(Reader { sheet: s, at })
}
