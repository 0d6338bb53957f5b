// What a decision or a report answers on a small sheet (01, Outcomes): yes and no by the rules alone, refusals and reports by the tables.
ghost use Rattle.std.specs.Prelude.{◌≤◌, length};

use crate::checking::check;
use crate::{Answer, Answered, Unanswered, refuse_if};
use expression::refusals::Reason;
use oracle_tables::Request;
use oracle_tables::tabulating::{Written, write_table};
use oracle_tables::triples::{is_least, is_model, obeys};
use policies::{Policy, no_policy};
use readings::advance;

// Tables are written at the front of `words`; that of a report stands there at the end.
pub fn answer(s: &[u8], q: Request, words: &mut [u32; 16512]) -> Answered {
    let p = check(s, q)?;
    let w = walk(s, q, end_of(s.len(), q), words)?;
    if q.is_report {
        return fitted(w, q);
    }
    Ok(enumerate(p, q))
}

// ---- tables

// A report stops after the command asked.
fn end_of(length: usize, q: Request) -> usize
    ensures { result ≤ length }
{
    if !q.is_report {
        return length;
    }
    if q.asked >= length {
        return length;
    }
    q.asked + 1
}

// The commands that start before an offset, each table made from nothing and held against the limits; the answer is the last.
fn walk(s: &[u8], q: Request, end: usize, words: &mut [u32; 16512]) -> Result<Written, Unanswered>
    requires { end ≤ length s.now }
{
    let mut w = Written::default();
    let mut p = no_policy();
    while p.at < end {
        p = advance(s, p);
        w = table_answer(write_table(p, q, words), q, p.place)?;
    }
    Ok(w)
}

// 15 and 16.
pub fn table_answer(w: Written, q: Request, place: usize) -> Result<Written, Unanswered> {
    refuse_if(w.subsets > q.subset_limit, Reason::SubsetsFull, place)?;
    refuse_if(w.entries > q.pair_limit, Reason::PlansFull, place)?;
    Ok(w)
}

// 17.
fn fitted(w: Written, q: Request) -> Answered {
    refuse_if(w.words > q.buffer, Reason::ReportShort, q.asked)?;
    Ok(Answer::Report(w.entries, w.words as usize))
}

// ---- answers by the rules alone

// Whether some answer set (01: grounded plan) obeys the pins; of a plain request, whether some model does.
fn enumerate(p: Policy, q: Request) -> Answer {
    match (0..128).map(reversed).find(|mask| is_answer(p, q, *mask)) {
        Some(mask) => Answer::Yes(shown(q, mask)),
        None => Answer::No,
    }
}

// The seven binary digits of k in reversed order. As k rises, what leaves atom 0 out comes first, then atom 1 likewise, and so on (02, Item 5).
fn reversed(k: u64) -> u64 {
    (k >> 6 & 1)
        | (k >> 4 & 2)
        | (k >> 2 & 4)
        | (k & 8)
        | ((k & 4) << 2)
        | ((k & 2) << 4)
        | ((k & 1) << 6)
}

// A plain yes shows nothing.
fn shown(q: Request, mask: u64) -> u64 {
    if q.is_plain {
        return 0;
    }
    mask
}

fn is_answer(p: Policy, q: Request, i: u64) -> bool {
    obeys(p, i, q) && is_model(p, i, i) && (q.is_plain || is_least(p, i))
}
