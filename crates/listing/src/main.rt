// Reads a sheet from standard input and prints both decisions, then the table after the last command (01, Listing). Both limits are 32, and nothing
// is assumed.
#![tactic(auto)]

ghost use Rattle.std.specs.Prelude.{◌≡◌, false, ◌++◌, ◌≤◌, ◌<◌, length, drop, IfOk};
ghost use Rattle.labels.specs.Labels.{label_count};
ghost use Rattle.expression.specs.Limits.{area_words};
ghost use Rattle.decisions.specs.Outcomes.{verdict_of};
ghost use Rattle.checks.specs.Requests.{request};
ghost use Rattle.leaves.specs.declared.Tables.TheVariants.{Pairs};
ghost use Rattle.reports.specs.Reports.{report_of};
ghost use Rattle.report_calls.specs.Parts.{final_table};
ghost use Rattle.listing.specs.Listing.{is_refusal, either_refused, last_start, PairsFrom};

use calls::grounded;
use checks::checking::Terms;
use expression::limits::{AREAS, BYTE_LIMIT};
use expression::{Outcome, Pins};
use outcomes::{kind, place, value};
use plain_calls::plain;
use reader::read_next;
use report_calls::report;
use std::io;
use std::io::Read as _;

// Of pairs, and of subsets in a pair.
const LIMIT: u64 = 32;

// What is asked of the sheet: no atom is assumed true or false.
const TERMS: Terms = Terms {
    pair_limit: LIMIT,
    subset_limit: LIMIT,
    pins: Pins {
        assumed_true: 0,
        assumed_false: 0,
    },
};

// A row's words: a triple, a count and the subsets.
const WIDTH: usize = LIMIT as usize + 2;

// A table's words.
const AREA: usize = LIMIT as usize * WIDTH;

// ---- text; the byte strings stand apart from the loops

fn print_space(rt: &impl Print) -> io::Result<()> {
    print!(rt; " ")
}

fn end_line(rt: &impl Print) -> io::Result<()> {
    println!(rt)
}

fn print_outcome(rt: &impl Print, o: Outcome) -> io::Result<()> {
    rt.print(kind(o))?;
    print_space(rt)?;
    rt.print(value(o))?;
    print_space(rt)?;
    rt.print(place(o))?;
    end_line(rt)
}

fn print_word(rt: &impl Print, x: u32) -> io::Result<()> {
    rt.print(x)
}

// The words from `at` to `end` as one line.
fn print_line(rt: &impl Print, words: &[u32], at: usize, end: usize) -> io::Result<()>
    requires { (at < end) × (end ≤ length words.now) }
{
    print_word(rt, words[at])?;
    for &word in &words[at + 1..end] {
        print_space(rt)?;
        print_word(rt, word)?;
    }
    end_line(rt)
}

// ---- the table

// A report's n pairs, one to a line. A pair's second word says where it ends.
fn print_pairs(rt: &impl Print, words: &[u32], n: u64) -> io::Result<()>
    requires { PairsFrom 0 n words.now }
{
    let mut at: usize = 0;
    for _ in 0..n {
        let end = at + 2 + words[at + 1] as usize;
        print_line(rt, words, at, end)?;
        at = end;
    }
    Ok(())
}

// Where the last command starts.
fn last_start(s: &[u8]) -> usize
    ensures { result ≡ last_start label_count s.now }
{
    let mut last: usize = 0;
    let mut at: usize = 0;
    while let Ok((_, next)) = read_next(s, at) {
        last = at;
        at = next;
    }
    last
}

// The report of the table that the grounded decision was made from, and how many pairs it has. That table met the limits, so that a buffer of one area
// has room for it: the report is always written.
fn write_table(s: &[u8], ws: &mut [u32], words: &mut [u32]) -> u64
    requires ws_value { either_refused label_count (request s.now 32 32 (length ws.old) 0 0) ≡ false }
    requires area_words_in_bounds { area_words 32 32 ≤ length words.old }
    ensures value { result ≡ length (final_table label_count s.now 0 0) }
    ensures words_after { words.new ≡ report_of Pairs (final_table label_count s.now 0 0) ++ drop (length (report_of Pairs (final_table label_count s.now 0 0))) words.old }
{
    let at = last_start(s);
    let Ok(written) = report(s, at, TERMS, ws, words) else {
        return 0;
    };
    written.entries
}

fn print_table(rt: &impl Print, s: &[u8], ws: &mut [u32], words: &mut [u32]) -> io::Result<()>
    requires ws_value { either_refused label_count (request s.now 32 32 (length ws.old) 0 0) ≡ false }
    requires area_words_in_bounds { area_words 32 32 ≤ length words.old }
{
    let n = write_table(s, ws, words);
    print!(rt; "table {n}")?;
    end_line(rt)?;
    print_pairs(rt, words, n)
}

// ---- the decisions

fn is_refused(o: Outcome) -> bool
    ensures { result ≡ is_refusal (verdict_of o) }
{
    match o {
        Outcome::Yes(_) => false,
        Outcome::No => false,
        Outcome::Refused(_, _) => true,
    }
}

// Prints both decisions, and says whether either refused.
fn print_decisions(rt: &impl Print, s: &[u8], ws: &mut [u32]) -> io::Result<bool>
    ensures { IfOk result (λ v. v ≡ either_refused label_count (request s.now 32 32 (length ws.old) 0 0)) }
{
    let a = grounded(s, TERMS, ws);
    print!(rt; "answer ")?;
    print_outcome(rt, a)?;
    let b = plain(s, TERMS, ws);
    print!(rt; "plain ")?;
    print_outcome(rt, b)?;
    if is_refused(a) {
        return Ok(true);
    }
    Ok(is_refused(b))
}

fn print_listing(rt: &impl Print, s: &[u8], ws: &mut [u32], words: &mut [u32]) -> io::Result<()>
    requires { area_words 32 32 ≤ length words.old }
{
    if print_decisions(rt, s, ws)? {
        return Ok(());
    }
    print_table(rt, s, ws, words)
}

// The most words that tables need, and a buffer for the largest of them.
fn list(rt: &impl Print, s: &[u8]) -> io::Result<()> {
    let mut ws = [0u32; AREAS * AREA];
    let mut words = [0u32; AREA];
    print_listing(rt, s, &mut ws, &mut words)
}

// ---- standard input

// Reads until the buffer is full, the input ends or a read fails; how many bytes were read.
fn read_full(rt: &impl Input, buf: &mut [u8]) -> usize
    ensures { result ≤ length buf.new }
{
    let mut reader = rt.reader();
    let mut done: usize = 0;
    while done < buf.len() {
        let n = reader.read(&mut buf[done..]).unwrap_or(0);
        if n == 0 {
            break;
        }
        done += n;
    }
    done
}

// A read answers 0 at the end alone: a failed one is an error.
fn is_at_end(rt: &impl Input) -> bool {
    let mut more = [0u8; 1];
    matches!(rt.reader().read(&mut more), Ok(0))
}

// read_full stops at the end and at a failed read alike, so a further read tells them apart. What fills the buffer is overlong, whatever follows.
fn is_whole(rt: &impl Input, n: usize) -> bool {
    if n > BYTE_LIMIT {
        return true;
    }
    is_at_end(rt)
}

fn print_unread(rt: &impl Eprint) -> io::Result<()> {
    eprintln!(rt; "listing: standard input was not read whole: nothing decided")
}

// One byte more is read than a sheet may have, so that 1 can be said. What was not read whole is not decided.
fn main(rt: HostRuntime) -> io::Result<()> {
    let mut bytes = [0u8; BYTE_LIMIT + 1];
    let n = read_full(&rt, &mut bytes);
    if is_whole(&rt, n) {
        list(&rt, &bytes[..n])
    } else {
        print_unread(&rt)
    }
}
