// Pseudo-random sheets, limits, pins and rooms, small enough for the oracle: at most 6 atoms and 6 rules where a sheet is valid. Names of any bytes stand
// between commands.
#![tactic(auto)]

ghost use Rattle.std.specs.Prelude.{◌≡◌, ◌+◌, ◌*◌, ◌<◌, ◌≤◌, length, take, false};

use oracle_tables::Request;

// labels::LABELS at the width of what is drawn.
const LABELS: u64 = labels::LABELS as u64;

// Marsaglia's xorshift; 0 is its one fixed point. It is linear over bits: what has to be drawn apart from a seed starts from a quotient of it.
pub fn next_seed(x: u64) -> u64 {
    let a = x ^ (x << 13);
    let b = a ^ (a >> 7);
    b ^ (b << 17)
}

// The number that a seed draws: its upper half, which is the better one.
pub fn drawn(seed: u64) -> u64
    ensures { result < 4294967296 }
{
    seed / 4294967296
}

// ---- commands

// The turns of a sheet: first atoms, rules, unions and links, then unions until one operand is left, then links.
const LEAF_TURNS: u64 = 24;

const UNION_TURNS: u64 = 31;

const TURNS: u64 = 36;

// The command of a turn where the operands are so many. Six turns may have an atom and six a rule.
fn command(turn: u64, x: u64, depth: u64) -> u8 {
    if depth < 1 {
        return atom(x / 256);
    }
    if is_union(turn, x, depth) {
        return 0x21;
    }
    if turn >= LEAF_TURNS {
        return link(x / 16);
    }
    leaf_or_link(turn % 4, x)
}

// Not of one operand, and always of eight.
fn is_union(turn: u64, x: u64, depth: u64) -> bool {
    if depth < 2 {
        return false;
    }
    if depth > 7 {
        return true;
    }
    if turn < LEAF_TURNS {
        return x % 8 < 2;
    }
    turn < UNION_TURNS
}

fn leaf_or_link(turn: u64, x: u64) -> u8 {
    if x % 8 > 6 {
        return link(x / 16);
    }
    match turn {
        0 => atom(x / 256),
        2 => 0x12,
        _ => link(x / 16),
    }
}

// Once in four an external one (02, Item 9).
fn atom(x: u64) -> u8 {
    match x % 4 {
        0 => 0x13,
        _ => 0x11,
    }
}

fn link(x: u64) -> u8 {
    match x % 16 {
        0 => 0x31,
        1..=7 => 0x41,
        8..=11 => 0x42,
        _ => 0x43,
    }
}

// One that need not make sense.
fn any_command(x: u64) -> u8 {
    if x % 32 == 0 {
        return (x / 32 % 256) as u8;
    }
    command(x / 64 % TURNS, x, x / 4096 % 9)
}

fn size(byte: u8) -> usize
    ensures { result ≤ 3 }
{
    match byte {
        0x21 => 1,
        0x11 | 0x12 | 0x13 => 2,
        _ => 3,
    }
}

fn depth_after(byte: u8, depth: u64) -> u64
    requires { depth ≤ 64 }
    ensures { result ≤ depth + 1 }
{
    match byte {
        0x11 | 0x12 | 0x13 => depth + 1,
        0x21 => depth.saturating_sub(1),
        _ => depth,
    }
}

// ---- names

// Once in many turns: how many bytes it has. What is valid has none before the first leaf.
fn put_name(out: &mut [u8], at: usize, is_valid: bool, depth: u64, x: u64) -> usize
    requires { at ≤ 768 }
    ensures { result ≤ 17 }
{
    if x % 8 != 0 {
        return 0;
    }
    if is_valid && depth < 1 {
        return 0;
    }
    put(out, at, 0x51);
    fill_name(out, at + 1, x / 8);
    17
}

fn fill_name(out: &mut [u8], at: usize, x: u64)
    requires { at ≤ 769 }
{
    for k in 0..16 {
        put(out, at + k as usize, name_byte(x, k));
    }
}

// Command bytes, labels, text, or one byte over and over.
fn name_byte(x: u64, k: u64) -> u8 {
    match x % 4 {
        0 => name_command(x / 4 + k % 16),
        1 => (k % LABELS) as u8,
        2 => (0x61 + k % 26) as u8,
        _ => (x / 4 % 256) as u8,
    }
}

fn name_command(x: u64) -> u8 {
    match x % 4 {
        0 => 0x11,
        1 => 0x21,
        2 => 0x51,
        _ => 0x41,
    }
}

// ---- sheets

#[derive(Clone, Copy, PartialEq, Eq)]
enum Style {
    // commands that need not make sense together
    Noise,
    // a sheet that is cut or has one byte changed
    Damaged,
    // one that passes checks 5 to 12
    Valid,
}

// Half of all are valid.
fn style_of(x: u64) -> Style {
    match x % 4 {
        0 => Style::Noise,
        1 => Style::Damaged,
        _ => Style::Valid,
    }
}

// A sheet of the style of a number. The answer is its length; the second fact is what a caller has to know to take that part of its array.
pub fn sheet(style: u64, seed: u64, out: &mut [u8]) -> usize
    requires { 768 ≤ length out.old }
    ensures { (result ≤ length out.new) × (result ≡ length (take result out.new)) }
{
    let style = style_of(style);
    let n = draft(style, seed, out);
    if style != Style::Damaged {
        return n;
    }
    damage(drawn(next_seed(seed / 3)), n, out)
}

fn draft(style: Style, seed: u64, out: &mut [u8]) -> usize
    ensures { result ≤ 720 }
{
    let mut next = next_seed(seed);
    let mut depth: u64 = 0;
    let mut at: usize = 0;
    for turn in drawn(next) % 20..TURNS {
        next = next_seed(next);
        at += put_name(out, at, style != Style::Noise, depth, drawn(next / 4096));
        let byte = styled_command(style, turn, drawn(next), depth);
        emit(out, at, byte, drawn(seed), next / 1024);
        at += size(byte);
        depth = depth_after(byte, depth);
    }
    at
}

fn styled_command(style: Style, turn: u64, x: u64, depth: u64) -> u8 {
    match style {
        Style::Noise => any_command(x),
        Style::Damaged | Style::Valid => command(turn, x, depth),
    }
}

// One of the first 2, 3 or 5 labels, or of all, for atoms and rules alike: so either label of a link may have both (02, Item 11).
fn label(x: u64, spread: u64) -> u8 {
    match spread % 4 {
        0 => (x % 2) as u8,
        1 => (x % 3) as u8,
        2 => (x % 5) as u8,
        _ => (x % LABELS) as u8,
    }
}

// j, or where it is i another label.
fn other(i: u8, j: u8) -> u8 {
    if i != j {
        return j;
    }
    if i == 0 {
        return 1;
    }
    0
}

// A command with two labels that differ; if it has less operands, the next one is written over those too many.
fn emit(out: &mut [u8], at: usize, byte: u8, spread: u64, x: u64)
    requires { at ≤ 768 }
{
    let i = label(x, spread);
    let j = other(i, label(x / 64, spread));
    put(out, at, byte);
    put(out, at + 1, i);
    put(out, at + 2, j);
}

fn put(out: &mut [u8], at: usize, x: u8) {
    if at < out.len() {
        out[at] = x;
    }
}

// Of n bytes one changed, mostly to a command or a label or near one, or the first few alone; the answer is how many are left.
fn damage(x: u64, n: usize, out: &mut [u8]) -> usize
    ensures { result ≤ n }
{
    let at = (x / 4 % 128) as usize;
    if at >= n {
        return n;
    }
    if x % 4 == 0 {
        return at;
    }
    put(out, at, damaged_byte(x / 512));
    n
}

fn damaged_byte(x: u64) -> u8 {
    match x % 4 {
        0 => (x / 4 % 88) as u8,
        1 => edge_label(x / 4),
        _ => (x / 4 % LABELS) as u8,
    }
}

// The last label, the first byte that is none, or the greatest one.
fn edge_label(x: u64) -> u8 {
    match x % 3 {
        0 => (LABELS - 1) as u8,
        1 => LABELS as u8,
        _ => 255,
    }
}

// ---- requests

// A decision with limits and pins, in all the room there is.
pub fn request(seed: u64) -> Request
    ensures { (result.is_plain ≡ false) × (result.is_report ≡ false) × (result.room ≡ 20000) }
{
    let x = drawn(seed);
    let more = next_seed(seed);
    Request {
        pair_limit: limit(x),
        subset_limit: limit(x / 4096),
        room: ROOM as u64,
        assumed_true: pins(more),
        assumed_false: pins(next_seed(more)),
        is_plain: false,
        is_report: false,
        asked: 0,
        buffer: 0,
    }
}

// Once in many 0 or one beyond the greatest.
pub fn limit(x: u64) -> u64 {
    match x % 128 {
        0 => 0,
        1 => 1025,
        2..=15 => 1 + x / 128 % 4,
        16..=31 => 1 + x / 128 % 16,
        32..=47 => 64,
        _ => 32,
    }
}

// Mostly no atom or few of the first ones; sometimes one that the sheet can lack.
pub fn pins(seed: u64) -> u64 {
    let x = drawn(seed);
    match x % 16 {
        0 => x / 16 % 64,
        1..=4 => x / 16 % 4,
        5 => seed & 0x8000000000000040,
        _ => 0,
    }
}

// ---- rooms: how many words of workspace are lent

// Enough for both limits of 32, and for one of 64 beside one of 32; not always for both of 64.
pub const ROOM: usize = 20000;

// Mostly just the words needed; else one less, all there are, or some number.
pub fn room(x: u64, need: usize) -> u64 {
    match x % 8 {
        0 => need.saturating_sub(1).min(ROOM) as u64,
        1 => ROOM as u64,
        2 => x / 8 % ROOM as u64,
        _ => need.min(ROOM) as u64,
    }
}

// How many of so many words are lent.
pub fn lent(room: u64, words: usize) -> usize
    ensures { result ≤ words }
{
    room.min(words as u64) as usize
}
