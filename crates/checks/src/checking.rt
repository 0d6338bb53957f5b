// The checks that come before any table (01, Outcomes: 1 to 13; 02, Item 8: 3 behind 12; Item 4: a clash last).
ghost use Rattle.std.specs.Prelude.{◌≡◌, not, ◌&&◌, ◌<◌, ◌^◌, ltb};
ghost use Rattle.labels.specs.Labels.{label_count};
ghost use Rattle.expression.specs.Told.{checked_of};
ghost use Rattle.expression.specs.Checks.{is_limit, check, check_bytes, check_sheet};
ghost use Rattle.checks.specs.Requests.{asked};

use crate::frames::frame_for;
use commands::counting::{count_fault, counted, no_counts};
use expression::limits::{BYTE_LIMIT, TABLE_LIMIT};
use expression::refusals::{Reason, Refusal};
use expression::{Counts, Pins};
use reader::read_next;

// What is asked of a sheet: under the limits P and G, and with pins.
#[derive(Clone, Copy)]
pub struct Terms {
    pub pair_limit: u64,
    pub subset_limit: u64,
    pub pins: Pins,
}

// All checks in the order of `checks`, with room for so many words.
pub fn check(s: &[u8], terms: Terms, room: usize) -> Result<Counts, Refusal>
    ensures { checked_of result ≡ check label_count (asked s.now terms room) }
{
    if s.len() > BYTE_LIMIT {
        return Err(Reason::Overlong.at(0));
    }
    if !are_limits(terms.pair_limit, terms.subset_limit) {
        return Err(Reason::Limits.at(0));
    }
    let n = check_bytes(s)?;
    if room < frame_for(n.deepest, terms).need {
        return Err(Reason::Cramped.at(0));
    }
    let pins = terms.pins;
    if has_absent(n.atoms, pins) {
        return Err(Reason::Absent.at(s.len()));
    }
    if pins.assumed_true & pins.assumed_false != 0 {
        return Err(Reason::Clash.at(0));
    }
    Ok(n)
}

// 1, then 5 to 12: those of the bytes alone.
pub fn check_sheet(s: &[u8]) -> Result<Counts, Refusal>
    ensures { checked_of result ≡ check_sheet label_count s.now }
{
    if s.len() <= BYTE_LIMIT {
        return check_bytes(s);
    }
    Err(Reason::Overlong.at(0))
}

// 5 to 11 at the first faulty command, then 12; else the counts of the whole expression.
pub fn check_bytes(s: &[u8]) -> Result<Counts, Refusal>
    ensures { checked_of result ≡ check_bytes label_count s.now }
{
    let mut at: usize = 0;
    let mut n = no_counts();
    while at < s.len() {
        let r = read_next(s, at);
        let Ok((c, next)) = r else {
            return Err(r.unwrap_err().at(at));
        };
        if let Err(reason) = count_fault(n, c) {
            return Err(reason.at(at));
        }
        n = counted(n, c);
        at = next;
    }
    if n.depth != 1 {
        return Err(Reason::Unjoined.at(s.len()));
    }
    Ok(n)
}

fn are_limits(p: u64, g: u64) -> bool
    ensures { result ≡ (is_limit p && is_limit g) }
{
    if !is_limit(p) {
        return false;
    }
    is_limit(g)
}

fn is_limit(n: u64) -> bool
    ensures { result ≡ is_limit n }
{
    if n == 0 {
        return false;
    }
    if n > TABLE_LIMIT {
        return false;
    }
    true
}

// An assumption on an atom that is none of the n.
fn has_absent(n: u64, pins: Pins) -> bool
    requires { n < 64 }
    ensures { result ≡ not (ltb pins.assumed_true (2 ^ n) && ltb pins.assumed_false (2 ^ n)) }
{
    if pins.assumed_true >> n != 0 {
        return true;
    }
    pins.assumed_false >> n != 0
}
