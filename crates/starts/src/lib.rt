// Starting a walk of one command a call, with the running record by value. No public function has a `requires`.
#![tactic(auto)]

ghost use Rattle.std.specs.Prelude.{◌≡◌, length};
ghost use Rattle.labels.specs.Labels.{label_count};
ghost use Rattle.checks.specs.Requests.{asked};
ghost use Rattle.records.specs.Steps.{start};
ghost use Rattle.records.specs.Told.{progress_of};

use checks::checking::{Terms, check};
use checks::frames::frame_for;
use records::{Progress, Record, Stepped};

// A record without tables, beside needed words that are zero.
pub fn start(state: Record, ws: &mut [u32], s: &[u8], terms: Terms) -> Stepped
    ensures state_value { result.state ≡ (start label_count (asked s.now terms (length ws.old)) state ws.old).state }
    ensures progress_value { progress_of result.progress ≡ (start label_count (asked s.now terms (length ws.old)) state ws.old).answer }
    ensures ws_after { ws.new ≡ (start label_count (asked s.now terms (length ws.old)) state ws.old).words }
{
    let n = match check(s, terms, ws.len()) {
        Ok(n) => n,
        Err(e) => return Stepped {
            state,
            progress: Err(e),
        },
    };
    stacks::clear_need(ws, frame_for(n.deepest, terms).need);
    Stepped {
        state: Record {
            place: 0,
            tables: 0,
            counts: [0u64; 8],
        },
        progress: Ok(Progress::Moved),
    }
}
