// The engine held against the oracle: the sheets to try of 01 that are not starred, names, links, sheets with too many bytes, atoms or rules, then
// pseudo-random sheets, each by one of the four calls, and the name of every copy. Compared are the outcome, which plan is shown, every word of a report
// and every word of workspace and buffer afterwards. Prints the first disagreement, if any, and how often each outcome was agreed on.
#![tactic(auto)]

ghost use Rattle.std.specs.Prelude.{◌≤◌};

use calls::grounded;
use expression::refusals::Refusal;
use generator::{ROOM, drawn, lent, next_seed, room, sheet};
use oracle::answering::answer;
use oracle::checking::need_of;
use oracle::naming::name;
use oracle::{Answer, Answered, Unanswered};
use oracle_tables::Request;
use plain_calls::plain;
use report_calls::{plain_report, report};
use reporting::Written;
use std::io;
use tallies::{decision, held, print_counts, print_number, refused, terms};

// ---- the engine's answers in the oracle's form

fn report_answer(r: Result<Written, Refusal>) -> Answered {
    match r {
        Ok(w) => Ok(Answer::Report(w.entries, w.words as usize)),
        Err(e) => Err(refused(e)),
    }
}

fn engine_decision(s: &[u8], q: Request, ws: &mut [u32]) -> Answered {
    decision(if q.is_plain {
        plain(s, terms(q), ws)
    } else {
        grounded(s, terms(q), ws)
    })
}

fn engine_report(s: &[u8], q: Request, ws: &mut [u32], out: &mut [u32]) -> Answered {
    report_answer(if q.is_plain {
        plain_report(s, q.asked, terms(q), ws, out)
    } else {
        report(s, q.asked, terms(q), ws, out)
    })
}

fn engine_answer(s: &[u8], q: Request, ws: &mut [u32], out: &mut [u32]) -> Answered {
    if q.is_report {
        return engine_report(s, q, ws, out);
    }
    engine_decision(s, q, ws)
}

// ---- memory

// What stands in lent words before a call.
const MARK: u32 = 0xa5a5a5a5;

fn is_marked(lent: &[u32]) -> bool {
    lent.iter().all(|x| *x == MARK)
}

// Whether zeros stand in the first n places after it, and in the others what stood there.
fn has_zeros(lent: &[u32], n: usize) -> bool {
    let (zeroed, rest) = lent.split_at(n.min(lent.len()));
    zeroed.iter().all(|x| *x == 0) && is_marked(rest)
}

// Whether the first n of the words given stand in the first places, and in the others what stood there.
fn has_words(lent: &[u32; BUFFER_ROOM], words: &[u32; 16512], n: usize) -> bool {
    let n = n.min(BUFFER_ROOM);
    lent[..n] == words[..n] && is_marked(&lent[n..])
}

// How many words of the workspace a call zeroes: none with 1 to 14.
fn cleared(s: &[u8], q: Request, a: Answered) -> usize {
    match a {
        Err(Unanswered::Refused(number, _)) if number < 15 => 0,
        _ => need_of(s, q),
    }
}

// How many words of the buffer it writes: those of a report that is not refused.
fn written(a: Answered) -> usize {
    match a {
        Ok(Answer::Report(_, words)) => words,
        _ => 0,
    }
}

// ---- what a trial says: the answer that is agreed on, or one of these

#[derive(Clone, Copy, PartialEq, Eq)]
enum Disagreement {
    Outcome = 32,
    Workspace = 33,
    Buffer = 34,
    Name = 35,
}

impl From<Disagreement> for u64 {
    fn from(d: Disagreement) -> u64 {
        d as u64
    }
}

// ---- trials; the words lent are made for each, marked

// Enough for most reports, not for all.
const BUFFER_ROOM: usize = 64;

// The engine's answer, where it left its memory as it should; `words` are those of the oracle's report.
fn compared(
    s: &[u8],
    q: Request,
    words: &[u32; 16512],
    expected: Answered,
    ws: &mut [u32; ROOM],
    out: &mut [u32; BUFFER_ROOM],
) -> Result<Answered, Disagreement> {
    let n = lent(q.room, ws.len());
    let found = engine_answer(s, q, &mut ws[..n], out);
    held(has_zeros(ws, cleared(s, q, found)), Disagreement::Workspace)?;
    held(has_words(out, words, written(found)), Disagreement::Buffer)?;
    held(found == expected, Disagreement::Outcome)?;
    Ok(found)
}

fn try_lent(
    s: &[u8],
    q: Request,
    words: &[u32; 16512],
    expected: Answered,
) -> Result<Answered, Disagreement> {
    let mut ws = [MARK; ROOM];
    let mut out = [MARK; BUFFER_ROOM];
    compared(s, q, words, expected, &mut ws, &mut out)
}

fn try_request(s: &[u8], q: Request) -> Result<Answered, Disagreement> {
    let mut words = [0u32; 16512];
    let expected = answer(s, q, &mut words);
    if expected == Err(Unanswered::NotTried) {
        return Ok(expected);
    }
    try_lent(s, q, &words, expected)
}

// ---- the sheets to try of 01 that are not starred, and the answers that Items 4 and 8 of 02 name

// 1 where both refuse as listed.
fn listed(s: &[u8], pins_in: u64, pins_out: u64, number: u64, place: usize) -> u64
    ensures { result ≤ 1 }
{
    roomed(s, ROOM as u64, pins_in, pins_out, number, place)
}

// 1 where both do so in a room.
fn roomed(s: &[u8], room: u64, pins_in: u64, pins_out: u64, number: u64, place: usize) -> u64
    ensures { result ≤ 1 }
{
    let refused = Err(Unanswered::Refused(number, place));
    told(s, room, pins_in, pins_out, refused)
}

// 1 where both answer so in a room.
fn told(s: &[u8], room: u64, pins_in: u64, pins_out: u64, expected: Answered) -> u64
    ensures { result ≤ 1 }
{
    let q = Request {
        pair_limit: 32,
        subset_limit: 32,
        room,
        assumed_true: pins_in,
        assumed_false: pins_out,
        is_plain: false,
        is_report: false,
        asked: 0,
        buffer: 0,
    };
    u64::from(try_request(s, q) == Ok(expected))
}

fn try_listed(rt: &impl Print) -> io::Result<()> {
    let nine = b"\x11\x00\x11\x00\x11\x00\x11\x00\x11\x00\x11\x00\x11\x00\x11\x00\x11\x00";
    let a = listed(nine, 0, 0, 10, 16);
    let b = listed(b"\x11\x00\x11\x01", 0, 0, 12, 4);
    print_number(rt, a + b)?;
    println!(rt; "of 2 listed sheets")
}

// On no copy, on five: a clash on copy 40, one beside a pin on it, and one alone.
fn try_clashes(rt: &impl Print) -> io::Result<()> {
    let five = b"\x11\x00\x11\x00\x21\x11\x00\x21\x11\x00\x21\x11\x00\x21";
    let a = listed(b"", 1, 1, 12, 0);
    let b = listed(five, 0x10000000000, 0x10000000000, 13, 14);
    let c = listed(five, 0x10000000001, 1, 13, 14);
    let d = listed(five, 0x11, 0x10, 4, 0);
    print_number(rt, a + b + c + d)?;
    println!(rt; "of 4 clashes")
}

// Three copies that are parts at once need four areas of 1088 words: a word less comes before 13, and behind 5 and 12; with it all is read.
fn try_rooms(rt: &impl Print) -> io::Result<()> {
    let three = b"\x11\x00\x11\x00\x11\x00\x21\x21";
    let a = roomed(three, 4351, 8, 8, 3, 0);
    let b = roomed(b"\x11\x00\x99", 0, 8, 8, 5, 2);
    let c = roomed(b"\x11\x00\x11\x00", 0, 8, 8, 12, 4);
    let d = roomed(three, 4352, 1, 1, 4, 0);
    print_number(rt, a + b + c + d)?;
    println!(rt; "of 4 rooms")
}

// ---- names (02, Item 1)

// Whether the oracle calls a copy the same, by its offset and by its bytes.
fn has_name(s: &[u8], copy: u64) -> bool {
    let expected = name(s, copy);
    decision(names::name_outcome(s, copy)) == expected
        && has_bytes(s, names::name_bytes(s, copy), expected)
}

fn has_bytes(s: &[u8], bytes: &[u8], expected: Answered) -> bool {
    match expected {
        Ok(Answer::Yes(at)) => bytes.len() == 16 && stands_at(s, at as usize, bytes),
        _ => bytes.is_empty(),
    }
}

fn stands_at(s: &[u8], at: usize, bytes: &[u8]) -> bool {
    at <= s.len() && s[at..].starts_with(bytes)
}

// Of each copy that a random sheet has, and of one more.
fn has_names(s: &[u8]) -> bool {
    (0..8).all(|copy| has_name(s, copy))
}

// Two copies joined: the second is the newest, whose first name is replaced; a rule's name is no copy's; the bytes of a name are no commands.
fn try_names(rt: &impl Print) -> io::Result<()> {
    let two =
        b"\x11\x00\x11\x00\x21\x51\x21\x21\x21\x21\x21\x21\x21\x21\x21\x21\x21\x21\x21\x21\x21\x21\x51archive of 2026 \x12\x01\x51rule of archives\x21";
    let a = named(two, 0, Answer::No);
    let b = named(two, 1, Answer::Yes(23));
    let c = named(two, 2, Answer::No);
    let d = listed(
        b"\x51\x00\x00\x00\x00\x00\x00\x00\x00\x00\x00\x00\x00\x00\x00\x00\x00",
        0,
        0,
        11,
        0,
    );
    let e = listed(
        b"\x51\x00\x00\x00\x00\x00\x00\x00\x00\x00\x00\x00\x00\x00\x00\x00",
        0,
        0,
        6,
        0,
    );
    print_number(rt, a + b + c + d + e)?;
    println!(rt; "of 5 names")
}

// 1 where both call a copy as listed.
fn named(s: &[u8], copy: u64, expected: Answer) -> u64
    ensures { result ≤ 1 }
{
    u64::from(name(s, copy) == Ok(expected) && has_name(s, copy))
}

// ---- links (02, Item 11)

// 1 where both decide as listed.
fn decided(s: &[u8], expected: Answer) -> u64
    ensures { result ≤ 1 }
{
    told(s, ROOM as u64, 0, 0, Ok(expected))
}

// The rule in the first group named and the copy in the second: of each kind, and with a granted copy. Then a copy and a rule in both, either way round.
fn try_links(rt: &impl Print) -> io::Result<()> {
    let a = decided(b"\x12\x00\x11\x01\x21\x41\x00\x01", Answer::Yes(1));
    let b = decided(b"\x12\x00\x11\x01\x21\x42\x00\x01", Answer::Yes(0));
    let c = decided(b"\x12\x00\x11\x01\x21\x43\x00\x01", Answer::No);
    let d = decided(b"\x12\x00\x13\x01\x21\x43\x00\x01", Answer::Yes(1));
    let both = b"\x11\x00\x12\x00\x21\x11\x01\x21\x12\x01\x21\x41\x00\x01";
    let turned = b"\x11\x00\x12\x00\x21\x11\x01\x21\x12\x01\x21\x41\x01\x00";
    let e = decided(both, Answer::Yes(3));
    let f = decided(turned, Answer::Yes(3));
    print_number(rt, a + b + c + d + e + f)?;
    println!(rt; "of 6 links")
}

// ---- refusals that the random sheets are too small for

// A byte too many comes before what the bytes are; without it they are read.
fn try_long() -> u64
    ensures { result ≤ 2 }
{
    let long = [0u8; 4097];
    let most = [0u8; 4096];
    listed(&long, 0, 0, 1, 0) + listed(&most, 0, 0, 5, 0)
}

// Leaves of one kind, each joined at once: a leaf stands at offset 0, and then at every third from 2 on.
fn leaf_byte(leaf: u8, k: usize) -> u8 {
    match k {
        0 => leaf,
        1 => 0,
        _ => joined_byte(leaf, k % 3),
    }
}

fn joined_byte(leaf: u8, k: usize) -> u8 {
    match k {
        0 => 0,
        1 => 0x21,
        _ => leaf,
    }
}

fn put_leaves(leaf: u8, bytes: &mut [u8]) {
    for (k, byte) in bytes.iter_mut().enumerate() {
        *byte = leaf_byte(leaf, k);
    }
}

fn refused_at(leaf: u8, place: usize, bytes: &mut [u8]) -> u64
    ensures { result ≤ 1 }
{
    put_leaves(leaf, bytes);
    listed(bytes, 0, 0, 9, place)
}

// 1 where the leaf at an offset is one too many.
fn crowded(leaf: u8, place: usize) -> u64
    ensures { result ≤ 1 }
{
    let mut bytes = [0u8; 770];
    refused_at(leaf, place, &mut bytes)
}

// A 64th atom, of either kind, and a 257th rule.
fn try_large(rt: &impl Print) -> io::Result<()> {
    print_number(
        rt,
        try_long() + crowded(0x11, 188) + crowded(0x13, 188) + crowded(0x12, 767),
    )?;
    println!(rt; "of 5 large sheets")
}

// ---- random trials

const TRIALS: u64 = 40000;

fn request(seed: u64) -> Request {
    let last = drawn(next_seed(seed / 3));
    Request {
        is_plain: last % 2 == 1,
        is_report: last % 8 > 2,
        asked: (last / 8 % 128) as usize,
        buffer: BUFFER_ROOM as u64,
        ..generator::request(seed)
    }
}

fn try_seed(seed: u64) -> Result<Answered, Disagreement> {
    let mut bytes = [0u8; 768];
    let more = next_seed(seed / 5);
    let n = sheet(drawn(more), seed, &mut bytes);
    let mut q = request(more);
    q.room = room(drawn(next_seed(more / 7)), need_of(&bytes[..n], q));
    held(has_names(&bytes[..n]), Disagreement::Name)?;
    try_request(&bytes[..n], q)
}

fn print_all(rt: &impl Print, counts: &[u64; 64]) -> io::Result<()> {
    print_counts(rt, counts, 1, 18)?;
    println!(rt; "refused, by number")?;
    print_counts(rt, counts, 20, 24)?;
    println!(rt; "no, yes, reports, not tried")
}

fn main(rt: HostRuntime) -> io::Result<()> {
    let mut counts = [0u64; 64];
    try_listed(&rt)?;
    try_clashes(&rt)?;
    try_rooms(&rt)?;
    try_names(&rt)?;
    try_links(&rt)?;
    try_large(&rt)?;
    tallies::try_seeds(&rt, TRIALS, &mut counts, try_seed)?;
    print_all(&rt, &counts)
}
