// The checks that come before any table: 1, 2, 5 to 12, then 3 (02, Item 8), 13, then 4 (02, Item 4), then 14.
ghost use Rattle.std.specs.Prelude.{◌≡◌, ◌≤◌, length, None, OnOk, IfOk};
ghost use Rattle.expression.specs.Limits.{byte_limit};

use crate::{Unanswered, refuse_if};
use expression::limits::{BYTE_LIMIT, TABLE_LIMIT};
use expression::refusals::Reason;
use oracle_tables::Request;
use policies::Policy;
use readings::read_to;

// The whole sheet read.
pub fn check(s: &[u8], q: Request) -> Result<Policy, Unanswered> {
    check_length(s)?;
    refuse_if(!is_limit(q.pair_limit), Reason::Limits, 0)?;
    refuse_if(!is_limit(q.subset_limit), Reason::Limits, 0)?;
    let p = read_whole(s)?;
    refuse_if(
        q.room < workspace_need(p.deepest, q) as u64,
        Reason::Cramped,
        0,
    )?;
    check_pins(s, p, q)?;
    if p.atoms.count > 7 || p.rules.count > 8 {
        return Err(Unanswered::NotTried);
    }
    refuse_if(!is_start(s, q), Reason::Offset, q.asked)?;
    Ok(p)
}

// 1.
pub fn check_length(s: &[u8]) -> Result<(), Unanswered>
    ensures { OnOk result (length s.now ≤ byte_limit) }
{
    refuse_if(s.len() > BYTE_LIMIT, Reason::Overlong, 0)
}

fn is_limit(x: u64) -> bool {
    0 < x && x <= TABLE_LIMIT
}

// 5 to 12.
pub fn read_whole(s: &[u8]) -> Result<Policy, Unanswered>
    ensures { IfOk result (λ p. (p.fault ≡ None) × (p.depth ≡ 1)) }
{
    let p = read_to(s, s.len());
    if let Some(number) = p.fault {
        return Err(Unanswered::Refused(number, p.place));
    }
    refuse_if(p.depth != 1, Reason::Unjoined, s.len())?;
    Ok(p)
}

// 13 and 4.
fn check_pins(s: &[u8], p: Policy, q: Request) -> Result<(), Unanswered> {
    refuse_if(
        has_absent(q.assumed_true | q.assumed_false, p.atoms.count),
        Reason::Absent,
        s.len(),
    )?;
    refuse_if(q.assumed_true & q.assumed_false != 0, Reason::Clash, 0)
}

// Whether a command starts at the offset that a report asks for, of a sheet without faults.
fn is_start(s: &[u8], q: Request) -> bool {
    if !q.is_report {
        return true;
    }
    q.asked < s.len() && read_to(s, q.asked).at == q.asked
}

// What a sheet needs that is read whole.
pub fn need_of(s: &[u8], q: Request) -> usize
    ensures { result ≤ 9455616 }
{
    workspace_need(read_to(s, s.len()).deepest, q)
}

// (d + 1) × P × (G + 2), for a depth that is such.
fn workspace_need(d: u64, q: Request) -> usize
    ensures { result ≤ 9455616 }
{
    areas((d % 9 + 1) as usize, area(q))
}

fn areas(n: usize, words: usize) -> usize
    requires { (n ≤ 9) × (words ≤ 1050624) }
    ensures { result ≤ 9455616 }
{
    n * words
}

// P × (G + 2), for limits that are such: they count modulo 1025.
pub fn area(q: Request) -> usize
    ensures { result ≤ 1050624 }
{
    product(q.pair_limit % 1025, q.subset_limit % 1025)
}

fn product(p: u64, g: u64) -> usize
    requires { (p ≤ 1024) × (g ≤ 1024) }
    ensures { result ≤ 1050624 }
{
    (p * (g + 2)) as usize
}

// Whether an atom is in the mask that isn't among the first n; n is at most 63.
fn has_absent(mask: u64, n: u64) -> bool {
    mask >> (n % 64) != 0
}
