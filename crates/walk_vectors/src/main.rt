// Walks by calls held against the oracle (01, "One command a call"): pseudo-random sheets with limits and pins, started and stepped to the end or to 15
// or 16. Compared after each call are the answer, the record and every word of the workspace, which is made of the oracle's tables. Before each step and
// at the end, step and verdict refuse a record and a workspace that are damaged. Prints the first disagreement, if any, and how often each end was agreed on.
#![tactic(auto)]

ghost use Rattle.std.specs.Prelude.{◌≤◌};

use expression::Outcome;
use expression::refusals::{Reason, Refusal};
use generator::{ROOM, drawn, lent, next_seed, request, room, sheet};
use oracle::answering::{answer, table_answer};
use oracle::checking::{area, check, need_of};
use oracle::{Answer, Answered, Unanswered};
use oracle_tables::Request;
use oracle_tables::tabulating::write_table;
use policies::{Policy, no_policy};
use records::{Progress, Record, Stepped};
use starts::start;
use std::{io, mem};
use tallies::{decision, held, print_counts, refused, terms};
use verdicts::verdict;

// ---- what should be there: the record, and a model of the workspace, whose places count modulo their number

// What stands in lent words before a walk.
const MARK: u32 = 0xa5a5a5a5;

// The least word that is no triple.
const NO_TRIPLE: u32 = 1 << (3 * labels::LABELS as u32);

fn clear(model: &mut [u32; 20000], from: usize, end: usize) {
    for k in from..end {
        model[k % 20000] = 0;
    }
}

// n words of a report copied.
fn put_row(model: &mut [u32; 20000], to: usize, words: &[u32; 16512], at: usize, n: usize)
    requires { (to ≤ 20000) × (at ≤ 16512) × (n ≤ 8192) }
{
    for k in 0..n {
        model[(to + k) % 20000] = words[(at + k) % 16512];
    }
}

// How many words a report's pair has that starts at an offset.
fn pair_words(words: &[u32; 16512], at: usize) -> usize
    requires { at ≤ 16512 }
    ensures { result ≤ 8192 }
{
    2 + words[(at + 1) % 16512] as usize % 4096
}

// The pairs of a report in rows of a table, of so many words each.
fn put_rows(model: &mut [u32; 20000], from: usize, width: usize, words: &[u32; 16512], entries: u64)
    requires { (from ≤ 20000) × (width ≤ 20000) }
{
    let mut to = from;
    let mut at: usize = 0;
    for _ in 0..entries {
        let n = pair_words(words, at);
        put_row(model, to, words, at, n);
        to = (to + width) % 20000;
        at = (at + n) % 16512;
    }
}

// The newest of so many tables, as a report has it; no word behind it is in use.
fn put_table(
    model: &mut [u32; 20000],
    need: usize,
    q: Request,
    depth: u64,
    words: &[u32; 16512],
    entries: u64,
) {
    let from = table_start(area(q), newest(depth));
    clear(model, from, need);
    put_rows(
        model,
        from % 20000,
        (q.subset_limit % 1025 + 2) as usize,
        words,
        entries,
    );
}

// The number of the newest of so many tables, at most eight; the oldest is 0.
fn newest(depth: u64) -> usize
    ensures { result ≤ 7 }
{
    ((depth % 8 + 7) % 8) as usize
}

// Where table t begins.
fn table_start(area: usize, t: usize) -> usize
    requires { (area ≤ 1050624) × (t ≤ 7) }
{
    area * t
}

// Place 0, no tables.
fn started() -> Record {
    Record {
        place: 0,
        tables: 0,
        counts: [0u64; 8],
    }
}

// After a command that leaves a newest table of so many pairs. A join has one count less.
fn moved(r: Record, p: Policy, entries: u64) -> Record {
    let mut counts = r.counts;
    let t = newest(p.depth);
    counts[t] = entries;
    if p.depth < 8 {
        counts[p.depth as usize] = 0;
    }
    Record {
        place: p.at,
        tables: p.depth as usize,
        counts,
    }
}

// ---- what is there

fn told(x: Result<Progress, Refusal>) -> Result<Progress, Unanswered> {
    match x {
        Ok(p) => Ok(p),
        Err(e) => Err(refused(e)),
    }
}

fn is_stepped(
    x: Stepped,
    r: Record,
    a: Result<Progress, Unanswered>,
    ws: &[u32; 20000],
    model: &[u32; 20000],
) -> bool {
    told(x.progress) == a && x.state == r && ws == model
}

// ---- calls that should answer a, where record r and the model's words should be left

fn starts(
    s: &[u8],
    q: Request,
    given: Record,
    r: Record,
    a: Result<Progress, Unanswered>,
    ws: &mut [u32; 20000],
    model: &[u32; 20000],
) -> bool {
    let n = lent(q.room, ws.len());
    let x = start(given, &mut ws[..n], s, terms(q));
    is_stepped(x, r, a, ws, model)
}

fn steps(
    s: &[u8],
    q: Request,
    given: Record,
    r: Record,
    a: Result<Progress, Unanswered>,
    ws: &mut [u32; 20000],
    model: &[u32; 20000],
) -> bool {
    let n = lent(q.room, ws.len());
    let x = steps::advance(given, &mut ws[..n], s, terms(q));
    is_stepped(x, r, a, ws, model)
}

fn concludes(s: &[u8], q: Request, r: Record, a: Answered, ws: &[u32; 20000]) -> bool {
    let n = lent(q.room, ws.len());
    let o = Outcome::from(verdict(r, &ws[..n], s, terms(q)));
    decision(o) == a
}

// A verdict that answers v, and a step that answers a and changes nothing.
fn stays(
    s: &[u8],
    q: Request,
    r: Record,
    v: Answered,
    a: Result<Progress, Unanswered>,
    ws: &mut [u32; 20000],
    model: &[u32; 20000],
) -> bool {
    concludes(s, q, r, v, ws) && steps(s, q, r, r, a, ws, model)
}

// 18.
fn bad_record(r: Record) -> Unanswered {
    Unanswered::Refused(Reason::BadRecord as u64, r.place)
}

// A verdict and a step that both refuse a record as a bad one.
fn refuses_record(
    s: &[u8],
    q: Request,
    r: Record,
    ws: &mut [u32; 20000],
    model: &[u32; 20000],
) -> bool {
    let e = bad_record(r);
    stays(s, q, r, Err(e), Err(e), ws, model)
}

// ---- damage: none of it leaves a form that some record has

fn other_number(x: u64, n: u64) -> u64 {
    if n == 0 {
        return 1;
    }
    if x % 2 == 0 {
        return n - 1;
    }
    n.saturating_add(1)
}

fn with_other_count(x: u64, r: Record) -> Record {
    let k = (x % 8) as usize;
    let mut counts = r.counts;
    counts[k] = other_number(x / 8, counts[k]);
    Record { counts, ..r }
}

// Behind a place no command starts before which there are as many tables.
fn damaged(x: u64, r: Record) -> Record {
    match x % 4 {
        0 => Record {
            place: r.place % 8192 + 1,
            ..r
        },
        1 => Record {
            tables: other_number(x / 4, r.tables as u64) as usize,
            ..r
        },
        _ => with_other_count(x / 4, r),
    }
}

// The same word in both; what stood there.
fn exchange(ws: &mut [u32; 20000], model: &mut [u32; 20000], k: usize, x: u32) -> u32 {
    model[k % 20000] = x;
    mem::replace(&mut ws[k % 20000], x)
}

fn refuses_word(
    s: &[u8],
    q: Request,
    r: Record,
    k: usize,
    x: u32,
    ws: &mut [u32; 20000],
    model: &mut [u32; 20000],
) -> bool {
    let old = exchange(ws, model, k, x);
    let is_refused = refuses_record(s, q, r, ws, model);
    exchange(ws, model, k, old);
    is_refused
}

// A needed word; there are six at least.
fn needed(x: u64, need: usize) -> usize {
    let k = (x % 20000) as usize;
    if k < need {
        return k;
    }
    k % 6
}

// One of the last three, which are scratch.
fn scratch(x: u64, need: usize) -> usize {
    need.saturating_sub((x % 3) as usize + 1)
}

// A word that is no triple and no number of subsets; a word that is not in use.
fn refuses_words(
    s: &[u8],
    q: Request,
    r: Record,
    x: u64,
    ws: &mut [u32; 20000],
    model: &mut [u32; 20000],
) -> bool {
    let need = need_of(s, q);
    refuses_word(s, q, r, needed(x, need), NO_TRIPLE, ws, model)
        && refuses_word(s, q, r, scratch(x, need), 1, ws, model)
}

fn refuses_damage(
    s: &[u8],
    q: Request,
    r: Record,
    x: u64,
    ws: &mut [u32; 20000],
    model: &mut [u32; 20000],
) -> bool {
    refuses_record(s, q, damaged(x, r), ws, model) && refuses_words(s, q, r, x / 32, ws, model)
}

// ---- walks: one gives the refusal or the decision that it ends with

#[derive(Clone, Copy)]
enum Disagreement {
    Start = 32,
    Step = 33,
    Damage = 34,
    Verdict = 35,
}

impl From<Disagreement> for u64 {
    fn from(d: Disagreement) -> u64 {
        d as u64
    }
}

// What a step leaves: the record that the walk goes on from, or the refusal that it ends with. No Result: a refusal that both give is agreed on, and `?`
// is for disagreements.
#[derive(Clone, Copy)]
enum Turned {
    To(Record),
    Refused(Unanswered),
}

// A step to what the oracle has read, p.
fn step_to(
    s: &[u8],
    q: Request,
    p: Policy,
    r: Record,
    words: &mut [u32; 16512],
    ws: &mut [u32; 20000],
    model: &mut [u32; 20000],
) -> Result<Turned, Disagreement> {
    match table_answer(write_table(p, q, words), q, p.place) {
        Ok(w) => {
            put_table(model, need_of(s, q), q, p.depth, words, w.entries);
            let next = moved(r, p, w.entries);
            held(
                steps(s, q, r, next, Ok(Progress::Moved), ws, model),
                Disagreement::Step,
            )?;
            Ok(Turned::To(next))
        }
        Err(e) => {
            held(
                stays(s, q, r, Err(bad_record(r)), Err(e), ws, model),
                Disagreement::Step,
            )?;
            Ok(Turned::Refused(e))
        }
    }
}

// What holds before each step: damage is refused, and the verdict too.
fn guards(
    s: &[u8],
    q: Request,
    r: Record,
    x: u64,
    ws: &mut [u32; 20000],
    model: &mut [u32; 20000],
) -> Result<(), Disagreement> {
    held(
        concludes(s, q, r, Err(bad_record(r)), ws),
        Disagreement::Verdict,
    )?;
    held(refuses_damage(s, q, r, x, ws, model), Disagreement::Damage)
}

fn turn(
    s: &[u8],
    q: Request,
    p: Policy,
    r: Record,
    x: u64,
    words: &mut [u32; 16512],
    ws: &mut [u32; 20000],
    model: &mut [u32; 20000],
) -> Result<Turned, Disagreement> {
    guards(s, q, r, x, ws, model)?;
    step_to(s, q, p, r, words, ws, model)
}

// The decision's yes or no, without a plan.
fn decided(s: &[u8], q: Request, words: &mut [u32; 16512]) -> Answered {
    match answer(s, q, words) {
        Ok(Answer::Yes(_)) => Ok(Answer::Yes(0)),
        // no verdict refuses at the end, so this agrees with none
        Err(_) => Err(Unanswered::NotTried),
        a => a,
    }
}

// At the end a step changes nothing, and the verdict is the decision.
fn concluded(
    s: &[u8],
    q: Request,
    r: Record,
    v: Answered,
    ws: &mut [u32; 20000],
    model: &[u32; 20000],
) -> Result<Answered, Disagreement> {
    held(
        stays(s, q, r, v, Ok(Progress::Ended), ws, model),
        Disagreement::Verdict,
    )?;
    Ok(v)
}

fn ends(
    s: &[u8],
    q: Request,
    r: Record,
    x: u64,
    words: &mut [u32; 16512],
    ws: &mut [u32; 20000],
    model: &mut [u32; 20000],
) -> Result<Answered, Disagreement> {
    held(refuses_damage(s, q, r, x, ws, model), Disagreement::Damage)?;
    concluded(s, q, r, decided(s, q, words), ws, model)
}

fn walk(
    s: &[u8],
    q: Request,
    seed: u64,
    words: &mut [u32; 16512],
    ws: &mut [u32; 20000],
    model: &mut [u32; 20000],
) -> Result<Answered, Disagreement> {
    let mut p = no_policy();
    let mut r = started();
    let mut x = seed;
    while p.at < s.len() {
        x = next_seed(x);
        p = readings::advance(s, p);
        match turn(s, q, p, r, drawn(x), words, ws, model)? {
            Turned::To(next) => r = next,
            Turned::Refused(e) => return Ok(Err(e)),
        }
    }
    ends(s, q, r, drawn(seed), words, ws, model)
}

// ---- trials; the words lent are made for each, marked

// A record that a start does not look at.
fn any_record() -> Record {
    Record {
        place: 1,
        tables: 2,
        counts: [3u64; 8],
    }
}

// Where the checks refuse, so does every call, and nothing changes.
fn refuses(
    s: &[u8],
    q: Request,
    e: Unanswered,
    ws: &mut [u32; 20000],
    model: &[u32; 20000],
) -> Result<Answered, Disagreement> {
    let r = any_record();
    held(starts(s, q, r, r, Err(e), ws, model), Disagreement::Start)?;
    held(
        stays(s, q, r, Err(e), Err(e), ws, model),
        Disagreement::Step,
    )?;
    Ok(Err(e))
}

fn started_walk(
    s: &[u8],
    q: Request,
    seed: u64,
    words: &mut [u32; 16512],
    ws: &mut [u32; 20000],
    model: &mut [u32; 20000],
) -> Result<Answered, Disagreement> {
    clear(model, 0, need_of(s, q));
    held(
        starts(
            s,
            q,
            any_record(),
            started(),
            Ok(Progress::Moved),
            ws,
            model,
        ),
        Disagreement::Start,
    )?;
    walk(s, q, seed, words, ws, model)
}

fn try_lent(
    s: &[u8],
    q: Request,
    seed: u64,
    words: &mut [u32; 16512],
    ws: &mut [u32; 20000],
    model: &mut [u32; 20000],
) -> Result<Answered, Disagreement> {
    match check(s, q) {
        Ok(_) => started_walk(s, q, seed, words, ws, model),
        Err(Unanswered::NotTried) => Ok(Err(Unanswered::NotTried)),
        Err(e) => refuses(s, q, e, ws, model),
    }
}

fn try_request(s: &[u8], q: Request, seed: u64) -> Result<Answered, Disagreement> {
    let mut words = [0u32; 16512];
    let mut ws = [MARK; ROOM];
    let mut model = [MARK; ROOM];
    try_lent(s, q, seed, &mut words, &mut ws, &mut model)
}

const TRIALS: u64 = 2000;

fn try_seed(seed: u64) -> Result<Answered, Disagreement> {
    let mut bytes = [0u8; 768];
    let more = next_seed(seed / 5);
    let n = sheet(drawn(more), seed, &mut bytes);
    let mut q = request(more);
    q.room = room(drawn(next_seed(more / 7)), need_of(&bytes[..n], q));
    try_request(&bytes[..n], q, seed)
}

fn print_all(rt: &impl Print, counts: &[u64; 64]) -> io::Result<()> {
    print_counts(rt, counts, 1, 17)?;
    println!(rt; "refused, by number")?;
    print_counts(rt, counts, 20, 22)?;
    print_counts(rt, counts, 23, 24)?;
    println!(rt; "no, yes, not tried")
}

fn main(rt: HostRuntime) -> io::Result<()> {
    let mut counts = [0u64; 64];
    tallies::try_seeds(&rt, TRIALS, &mut counts, try_seed)?;
    print_all(&rt, &counts)
}
