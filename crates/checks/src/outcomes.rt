// Outcomes of the checks alone.
ghost use Rattle.std.specs.Prelude.{◌≡◌};
ghost use Rattle.labels.specs.Labels.{label_count};
ghost use Rattle.expression.specs.Checks.{depth_outcome};

use crate::checking::check_sheet;
use expression::Outcome;

// Yes with the most operands that the expression has at a time: so a caller knows how many words to lend (02, Item 8).
pub fn depth(s: &[u8]) -> Outcome
    ensures { result ≡ depth_outcome label_count s.now }
{
    match check_sheet(s) {
        Ok(n) => Outcome::Yes(n.deepest),
        Err(e) => Outcome::from(Err(e)),
    }
}
