// A sheet command by command: the oracle's reading, which shares with the engine's only the limits, the labels and the refusals' reasons.
#![tactic(auto)]

ghost use Rattle.std.specs.Prelude.{◌+◌, ◌<◌, ◌≤◌, length, IfSome};

use expression::refusals::Reason;
use policies::building::{apply, fault_of};
use policies::{Policy, no_policy, refused};

// labels::LABELS at the width of an operand.
const LABELS: u64 = labels::LABELS as u64;

// The commands that start before an offset, or those up to the first with a fault.
pub fn read_to(s: &[u8], end: usize) -> Policy
    requires { end ≤ length s.now }
{
    let mut p = no_policy();
    while p.at < end {
        p = advance(s, p);
        if p.fault.is_some() {
            return p;
        }
    }
    p
}

// The command at p.at done.
pub fn advance(s: &[u8], p: Policy) -> Policy
    requires { p.at < length s.now }
    ensures { (p.at < result.at) × (result.at ≤ length s.now) }
{
    let at = p.at;
    Policy {
        place: at,
        at: at + length_at(s, at),
        ..done(s, p)
    }
}

fn done(s: &[u8], p: Policy) -> Policy
    requires { p.at < length s.now }
{
    let at = p.at;
    match fault_at(s, p) {
        Some(reason) => refused(p, reason as u64),
        None => apply(p, s[at], operand(s, at, 1), operand(s, at, 2)),
    }
}

// How many bytes a command has, if there is one.
fn size(byte: u8) -> Option<usize>
    ensures { IfSome result (λ n. 0 < n) }
{
    match byte {
        0x21 => Some(1),
        0x11 | 0x12 | 0x13 => Some(2),
        0x31 | 0x41 | 0x42 | 0x43 => Some(3),
        0x51 => Some(17),
        _ => None,
    }
}

// How far it is to the next command; behind a fault, one byte.
fn length_at(s: &[u8], at: usize) -> usize
    requires { at < length s.now }
    ensures { (0 < result) × (at + result ≤ length s.now) }
{
    match size(s[at]) {
        Some(n) if n <= s.len() - at => n,
        _ => 1,
    }
}

// 5 to 11.
fn fault_at(s: &[u8], p: Policy) -> Option<Reason>
    requires { p.at < length s.now }
{
    let fault = bytes_fault(s, p.at);
    if fault.is_some() {
        return fault;
    }
    fault_of(p, s[p.at])
}

// 5 to 8.
fn bytes_fault(s: &[u8], at: usize) -> Option<Reason>
    requires { at < length s.now }
{
    match size(s[at]) {
        None => Some(Reason::Unknown),
        Some(n) if s.len() - at < n => Some(Reason::Cut),
        Some(n) => operands_fault(n, operand(s, at, 1), operand(s, at, 2)),
    }
}

// Of a command of n bytes the first n - 1 operands count; those of a name are no operands (02, Item 1).
fn operands_fault(n: usize, i: u64, j: u64) -> Option<Reason> {
    match n {
        2 => (i >= LABELS).then_some(Reason::Group),
        3 => pair_fault(i, j),
        _ => None,
    }
}

fn pair_fault(i: u64, j: u64) -> Option<Reason> {
    if i >= LABELS || j >= LABELS {
        return Some(Reason::Group);
    }
    (i == j).then_some(Reason::Same)
}

// The byte so far behind an offset, 0 behind the end.
fn operand(s: &[u8], at: usize, far: usize) -> u64
    requires { at < length s.now }
{
    if s.len() - at <= far {
        return 0;
    }
    u64::from(s[at + far])
}
