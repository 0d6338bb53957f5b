// The sheets to try of 01, the readings that its order of checks asks for, and sheets with granted copies (02, Item 9) and with links either way (02,
// Item 11), by the solver that the engine is tested against. The list is read from standard input; it says how a trial is written. Prints each trial that
// disagrees with what is listed, and how many agree.
#![tactic(auto)]

ghost use Rattle.std.specs.Prelude.{◌≡◌, ◌+◌, ◌/◌, ◌<◌, ◌≤◌, length, take, IfOk};

use oracle::answering::answer;
use oracle::{Answer, Answered, Unanswered};
use oracle_tables::Request;
use std::io;
use std::io::Read;

// ---- the list: pairs of hexadecimal digits; a line that starts with # says what follows

// The value of a digit.
fn digit(b: u8) -> Option<u8> {
    match b {
        b'0'..=b'9' => Some(b - b'0'),
        b'a'..=b'f' => Some(b - b'a' + 10),
        _ => None,
    }
}

// Whether a remark goes on behind a byte.
fn is_remark(b: u8, before: bool) -> bool {
    match b {
        b'#' => true,
        b'\n' => false,
        _ => before,
    }
}

// A digit put behind n digits; the answer is how many there are then.
fn push(list: &mut [u8], n: usize, half: u8) -> usize
    requires { n / 2 < length list.old }
    ensures { result ≤ n + 1 }
{
    let at = n / 2;
    list[at] = list[at] << 4 | half;
    n + 1
}

// How many bytes are listed.
fn decode(text: &[u8], list: &mut [u8]) -> usize
    requires { (length text.now ≤ 16384) × (8192 ≤ length list.old) }
    ensures { (result ≤ length list.new) × (result ≡ length (take result list.new)) }
{
    let mut n: usize = 0;
    let mut in_remark = false;
    for b in text {
        in_remark = is_remark(*b, in_remark);
        if !in_remark && let Some(half) = digit(*b) {
            n = push(list, n, half);
        }
    }
    n / 2
}

// ---- a trial that starts at an offset of the list

// Bytes before its sheet.
const HEAD: usize = 13;

fn byte(list: &[u8], at: usize) -> usize
    requires { at < length list.now }
    ensures { result ≤ 255 }
{
    usize::from(list[at])
}

// A number in two bytes.
fn number(list: &[u8], at: usize) -> usize
    requires { at + 2 ≤ length list.now }
{
    256 * byte(list, at) + byte(list, at + 1)
}

// The bytes of its sheet, or of what is left of the list.
fn sheet_length(list: &[u8], at: usize) -> usize
    requires { at + 13 ≤ length list.now }
    ensures { at + 13 + result ≤ length list.now }
{
    let n = number(list, at + 11);
    n.min(list.len() - at - HEAD)
}

fn request_at(list: &[u8], at: usize) -> Request
    requires { at + 13 ≤ length list.now }
{
    let call = byte(list, at);
    Request {
        pair_limit: byte(list, at + 1) as u64,
        subset_limit: byte(list, at + 2) as u64,
        room: 9455616,
        assumed_true: byte(list, at + 3) as u64,
        assumed_false: byte(list, at + 4) as u64,
        is_plain: call % 2 == 1,
        is_report: call > 1,
        asked: byte(list, at + 5),
        buffer: byte(list, at + 6) as u64,
    }
}

fn found(s: &[u8], q: Request) -> Answered {
    let mut words = [0u32; 16512];
    answer(s, q, &mut words)
}

// An answer as it is listed: its kind, its value and its place, or in place of a place a report's words.
fn numbers(a: Answered) -> (u64, u64, usize) {
    match a {
        Ok(Answer::No) => (0, 0, 0),
        Ok(Answer::Yes(mask)) => (1, mask, 0),
        Ok(Answer::Report(entries, words)) => (1, entries, words),
        Err(Unanswered::Refused(number, place)) => (2, number, place),
        Err(Unanswered::NotTried) => (3, 0, 0),
    }
}

// Whether it is what is listed.
fn is_listed(a: Answered, list: &[u8], at: usize) -> bool
    requires { at + 13 ≤ length list.now }
{
    let kind = byte(list, at + 7) as u64;
    let value = byte(list, at + 8) as u64;
    numbers(a) == (kind, value, number(list, at + 9))
}

// 1 where the trial agrees, with a sheet of n bytes; else it is printed.
fn agrees(rt: &impl Print, trial: u64, list: &[u8], at: usize, n: usize) -> io::Result<u64>
    requires { at + 13 + n ≤ length list.now }
    ensures { IfOk result (λ v. v ≤ 1) }
{
    let from = at + HEAD;
    let a = found(&list[from..from + n], request_at(list, at));
    if is_listed(a, list, at) {
        return Ok(1);
    }
    print_trial(rt, trial, a)?;
    Ok(0)
}

fn print_trial(rt: &impl Print, trial: u64, found: Answered) -> io::Result<()> {
    let (kind, value, place) = numbers(found);
    println!(rt; "{trial} {kind} {value} {place} disagrees")
}

// ---- all trials

fn try_all(rt: &impl Print, list: &[u8]) -> io::Result<()> {
    let mut trials: u64 = 0;
    let mut agreeing: u64 = 0;
    let mut at: usize = 0;
    while list.len() - at >= HEAD {
        let n = sheet_length(list, at);
        trials += 1;
        agreeing += agrees(rt, trials, list, at, n)?;
        at += HEAD + n;
    }
    println!(rt; "{agreeing} of {trials} trials agree")
}

fn try_text(rt: &impl Print, text: &[u8], list: &mut [u8]) -> io::Result<()>
    requires { (length text.now ≤ 16384) × (8192 ≤ length list.old) }
{
    let n = decode(text, list);
    try_all(rt, &list[..n])
}

// ---- standard input

// Reads until the buffer is full or the input ends; how many bytes were read.
fn read_full(rt: &impl Input, buf: &mut [u8]) -> io::Result<usize>
    ensures { IfOk result (λ n. n ≤ length buf.new) }
{
    let mut reader = rt.reader();
    let mut done: usize = 0;
    while done < buf.len() {
        let n = reader.read(&mut buf[done..])?;
        if n == 0 {
            break;
        }
        done += n;
    }
    Ok(done)
}

fn main(rt: HostRuntime) -> io::Result<()> {
    let mut text = [0u8; 16384];
    let mut list = [0u8; 8192];
    let n = read_full(&rt, &mut text)?;
    try_text(&rt, &text[..n], &mut list)
}
