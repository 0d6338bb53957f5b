// Where commands start (01: 14 and 18). The definitions are in the crate `expression`.
#![tactic(auto)]

ghost use Rattle.std.specs.Prelude.{◌≡◌};
ghost use Rattle.labels.specs.Labels.{label_count};
ghost use Rattle.expression.specs.Places.{locate};

use commands::counting::{counted, no_counts};
use expression::Counts;
use reader::read_next;

// The counts before the offset asked, if it is a command's start or the end; after a command that is refused there is no start.
pub fn locate(s: &[u8], asked: usize) -> Option<Counts>
    ensures { result ≡ locate label_count s.now asked }
{
    let mut at: usize = 0;
    let mut n = no_counts();
    while at != asked {
        let Ok((c, next)) = read_next(s, at) else {
            return None;
        };
        n = counted(n, c);
        at = next;
    }
    Some(n)
}
