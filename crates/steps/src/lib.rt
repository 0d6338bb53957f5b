// One command a call, with the running record by value, as the definitions say it. No public function has a `requires`.
#![tactic(auto)]

ghost use Rattle.std.specs.Prelude.{◌≡◌, length, Some};
ghost use Rattle.labels.specs.Labels.{label_count};
ghost use Rattle.expression.specs.Limits.{areas_for};
ghost use Rattle.expression.specs.Checks.{Passed, check, depth_of};
ghost use Rattle.checks.specs.Requests.{asked};
ghost use Rattle.records.specs.Steps.{formed_at, command, step};
ghost use Rattle.records.specs.Told.{progress_of};
ghost use Rattle.starts.specs.Stepping.{Follows};

use advances::{advance_here, fault_of};
use checks::checking::{Terms, check};
use checks::frames::frame_for;
use commands::counting::counted;
use entries::Carry;
use expression::Counts;
use expression::refusals::Reason;
use leaves::atom_at;
use reader::read_next;
use record_tests::formed_at;
use records::{Progress, Record, Stepped};

// The command at the record's place, where n counts what stands before it; at the end there is none. So many areas hold all the words needed.
fn command(
    state: Record,
    ws: &mut [u32],
    s: &[u8],
    n: Counts,
    areas: usize,
    terms: Terms,
) -> Stepped
    requires passed { (z : Counts) × (check label_count (asked s.now terms (length ws.old)) ≡ Passed z) × (areas ≡ areas_for (depth_of label_count s.now)) }
    requires formed { formed_at label_count (asked s.now terms (length ws.old)) state ws.old ≡ Some n }
    ensures { Follows (command label_count (asked s.now terms (length ws.old)) n state ws.old) result.state (progress_of result.progress) ws.new }
{
    let Ok((c, next)) = read_next(s, state.place) else {
        return Stepped {
            state,
            progress: Ok(Progress::Ended),
        };
    };
    let limit = terms.pair_limit as usize;
    let atom = atom_at(Carry::Nothing, n.atoms, terms.pins);
    let mut counts = state.counts;
    let k = advance_here(
        ws,
        &mut counts,
        areas,
        terms.subset_limit as usize + 2,
        limit,
        state.tables,
        c,
        atom,
    );
    if limit < k {
        return Stepped {
            state,
            progress: Err(fault_of(limit, k).at(state.place)),
        };
    }
    Stepped {
        state: Record {
            place: next,
            tables: counted(n, c).depth as usize,
            counts,
        },
        progress: Ok(Progress::Moved),
    }
}

// The command at the record's place, where the record has the form asked for; else nothing changes.
pub fn advance(state: Record, ws: &mut [u32], s: &[u8], terms: Terms) -> Stepped
    ensures state_value { result.state ≡ (step label_count (asked s.now terms (length ws.old)) state ws.old).state }
    ensures progress_value { progress_of result.progress ≡ (step label_count (asked s.now terms (length ws.old)) state ws.old).answer }
    ensures ws_after { ws.new ≡ (step label_count (asked s.now terms (length ws.old)) state ws.old).words }
{
    let z = match check(s, terms, ws.len()) {
        Ok(z) => z,
        Err(e) => return Stepped {
            state,
            progress: Err(e),
        },
    };
    let areas = frame_for(z.deepest, terms).areas;
    let Some(n) = formed_at(state, ws, s, areas, terms) else {
        return Stepped {
            state,
            progress: Err(Reason::BadRecord.at(state.place)),
        };
    };
    command(state, ws, s, n, areas, terms)
}
