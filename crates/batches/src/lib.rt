// Several commands on one row: relabels, connects and unions with a rule, one after the other on each triple; the subsets are put in order once. A word
// stands for a command, or for a rule with the connects and the relabel behind it.
#![tactic(auto)]

ghost use Rattle.std.specs.Prelude.{◌≡◌, cond, ◌∷◌, map, ◌+◌, ◌*◌, ◌≤◌, ◌<◌, length, take, get_or};
ghost use Rattle.std.specs.Int.Bits.{bit_or};
ghost use Rattle.labels.specs.Labels.{label_count};
ghost use Rattle.labels.specs.Sets.{without};
ghost use Rattle.expression.specs.declared.Command.TheVariants.{Connect};
ghost use Rattle.expression.specs.Commands.{Suits};
ghost use Rattle.tables.specs.Triples.{mark_u};
ghost use Rattle.candidates.specs.Candidates.{pair_of, Readable};
ghost use Rattle.batches.specs.Batches.{Joins, label_in, command_of, step_triple, is_met, Fits, settled, judge_of, judge_triple, word_step, word_steps, words_pair};

use expression::{Command, Kind};

// labels::LABELS at the width of a triple.
const LABELS: u32 = labels::LABELS as u32;

// How many words a batch has at most.
pub const BATCH_LIMIT: usize = 64;

// How many sets of labels there are: the base of a word's digits.
const SETS: u64 = 1 << LABELS;

// The same at the width of a command's word.
pub const BASE: u32 = 1 << LABELS;

// Where the labels of negative atoms begin in the word of a rule judged at once.
pub const NEGATIVES: u64 = 1 << (2 * LABELS);

// Where its own labels begin.
pub const RULES: u64 = 1 << (3 * LABELS);

// Where those begin that it is given then.
const AFTERS: u64 = SETS * RULES;

// The first such word.
pub const JUDGES: u64 = SETS * AFTERS;

// A rule with atoms put into it, judged at once: the marks of a triple that meet it, the labels of negative atoms, which meet it by the interpretation's
// own T; its label, and the one it is given then. Where `leaves` is 1 what has its label is left to a later word.
#[derive(Clone, Copy)]
pub struct Judge {
    pub marks: u32,
    pub negative: u32,
    pub label: u32,
    pub after: u32,
    pub leaves: u32,
}

// What words leave of a row: its own triple, and how many subsets there are.
#[derive(Clone, Copy)]
pub struct Left {
    pub own: u32,
    pub count: usize,
}

// The label in a word's lowest digit.
#[tactic(auto, unfolding(crate::specs::Batches::label_in))]
fn label_in(x: u64) -> u32
    ensures { (result ≡ label_in label_count x) × (result < label_count) }
{
    let g = (x % SETS) as u32;
    if g < LABELS {
        return g;
    }
    LABELS - 1
}

// The command that a word stands for.
#[tactic(auto, unfolding(crate::specs::Batches::command_of, crate::specs::Batches::formed))]
pub fn command_of(w: u64) -> Command
    ensures { result ≡ command_of label_count w }
{
    let j = label_in(w);
    let i = label_in(w / SETS);
    let f = w / SETS / SETS;
    if f == 0 {
        return Command::Rule(j);
    }
    if f == 1 {
        return Command::Relabel(i, j);
    }
    if f == 2 {
        return Command::Connect(Kind::Head, i, j);
    }
    if f == 3 {
        return Command::Connect(Kind::Positive, i, j);
    }
    Command::Connect(Kind::Negative, i, j)
}

// The word of a connect.
#[tactic(auto, unfolding(crate::specs::Batches::command_of, crate::specs::Batches::formed, crate::specs::Batches::label_in))]
pub fn connect_word(k: Kind, i: u32, j: u32) -> u32
    requires { (i < label_count) × (j < label_count) }
    ensures { command_of label_count result ≡ Connect k i j }
{
    match k {
        Kind::Head => (2 * BASE + i) * BASE + j,
        Kind::Positive => (3 * BASE + i) * BASE + j,
        Kind::Negative => (4 * BASE + i) * BASE + j,
    }
}

// The word of a rule, a relabel or a connect.
#[tactic(auto, unfolding(expression::specs::Effects::effect, expression::specs::Commands::Suits))]
pub fn word_of(c: Command) -> u32
    requires { Suits label_count c × Joins c }
    ensures { command_of label_count result ≡ c }
{
    match c {
        Command::Rule(g) => g,
        Command::Relabel(i, j) => (BASE + i) * BASE + j,
        Command::Connect(k, i, j) => connect_word(k, i, j),
        Command::Atom(_) | Command::Union | Command::Name(_) => 0,
    }
}

// r with the mark of an unmet rule of label g.
#[tactic(auto, unfolding(tables::specs::Triples::mark_u))]
pub fn with_rule(g: u32, r: u32) -> u32
    requires { g < label_count }
    ensures { result ≡ bit_or r (mark_u label_count g) }
{
    r | (1 << (2 * LABELS + g))
}

// What the command makes of a triple r, where q is the interpretation's own. A rule stands for the union with it.
#[tactic(auto, unfolding(crate::specs::Batches::step_triple, candidates::specs::Candidates::map_triple, expression::specs::Commands::Suits))]
fn step_triple(c: Command, q: u32, r: u32) -> u32
    requires { Suits label_count c }
    ensures { result ≡ step_triple label_count c q r }
{
    match c {
        Command::Rule(g) => with_rule(g, r),
        Command::Relabel(_, _) | Command::Connect(_, _, _) => candidates::map_triple(c, q, r),
        Command::Atom(_) | Command::Union | Command::Name(_) => r,
    }
}

// Each triple as the command makes it.
fn step_words(run: &mut [u32], c: Command, q: u32)
    requires { Suits label_count c }
    ensures { run.new ≡ map (step_triple label_count c q) run.old }
{
    for x in run.iter_mut() {
        *x = step_triple(c, q, *x);
    }
}

// The rule that a word stands for.
#[tactic(auto, unfolding(crate::specs::Batches::judge_of))]
pub fn judge_of(w: u64) -> Judge
    ensures { (result ≡ judge_of label_count w) × Fits label_count result }
{
    Judge {
        marks: (w % NEGATIVES) as u32,
        negative: (w / NEGATIVES % SETS) as u32,
        label: label_in(w / RULES),
        after: label_in(w / AFTERS),
        leaves: (w / JUDGES / 2 % 2) as u32,
    }
}

// Whether the rule is met, by one test. Negative atoms count by the interpretation's own triple q, for the subsets too.
fn is_met(j: Judge, q: u32, r: u32) -> bool
    ensures { result ≡ is_met j q r }
{
    (q & j.negative) | (r & j.marks) != 0
}

// r without the mark of an unmet rule of label g. No branch: the triples of one row differ in it.
fn without_rule(g: u32, r: u32) -> u32
    requires { g < label_count }
    ensures { result ≡ without (2 * label_count + g) r }
{
    let m = 1 << (2 * LABELS + g);
    (r | m) - m
}

// r with that mark unless the rule is met. No branch either.
fn with_unmet(g: u32, met: bool, r: u32) -> u32
    requires { g < label_count }
    ensures { result ≡ cond met r (bit_or r (mark_u label_count g)) }
{
    r | ((!met as u32) << (2 * LABELS + g))
}

// Its label is out of U if it is met, else in U, and is relabelled then.
#[tactic(auto, unfolding(expression::specs::Commands::Suits))]
fn settled(j: Judge, q: u32, r: u32, met: bool) -> u32
    requires { Fits label_count j }
    ensures { result ≡ settled label_count j.label j.after met r }
{
    let c = Command::Relabel(j.label, j.after);
    candidates::map_triple(c, q, with_unmet(j.label, met, without_rule(j.label, r)))
}

// What the rule makes of a triple r, where q is the interpretation's own.
#[tactic(auto, unfolding(crate::specs::Batches::judge_triple))]
fn judge_triple(j: Judge, q: u32, r: u32) -> u32
    requires { Fits label_count j }
    ensures { result ≡ judge_triple label_count j q r }
{
    let met = is_met(j, q, r);
    if j.leaves == 0 {
        return settled(j, q, r, met);
    }
    with_unmet(j.after, met, r)
}

// Each triple as the rule makes it.
fn judge_words(run: &mut [u32], j: Judge, q: u32)
    requires { Fits label_count j }
    ensures { run.new ≡ map (judge_triple label_count j q) run.old }
{
    for x in run.iter_mut() {
        *x = judge_triple(j, q, *x);
    }
}

// Each triple, and the interpretation's own q, as the word makes them. The answer is the own one: the word is taken apart once for all of them.
fn word_all(run: &mut [u32], w: u64, q: u32) -> u32
    ensures { result ∷ run.new ≡ word_step label_count w (q ∷ run.old) }
{
    if w < JUDGES {
        let c = command_of(w);
        step_words(run, c, q);
        return step_triple(c, q, q);
    }
    let j = judge_of(w);
    judge_words(run, j, q);
    judge_triple(j, q, q)
}

// The same by all words.
fn step_all(run: &mut [u32], q: u32, code: &[u64]) -> u32
    ensures { result ∷ run.new ≡ word_steps label_count code.now (q ∷ run.old) }
{
    let mut own = q;
    for w in code {
        own = word_all(run, *w, own);
    }
    own
}

// By timing: the loops over triples run in vectors, and blocks of four were slower.
const BLOCK: usize = 8;

// n in whole blocks where there is room for them, else n.
fn in_blocks(n: usize, room: usize) -> usize
    requires { (n ≤ room) × (room ≤ 4096) }
    ensures { (n ≤ result) × (result ≤ room) }
{
    let k = (n + (BLOCK - 1)) / BLOCK * BLOCK;
    if k <= room {
        return k;
    }
    n
}

// What the words make of the first n numbers of src, where q is the interpretation's own triple. There are no more than before, so each finds room. Numbers behind
// them are copied and stepped too, up to a whole block: so short loops have no remainder, whose length the processor would have to guess.
fn batch_subsets(run: &mut [u32], src: &[u32], n: usize, q: u32, code: &[u64]) -> Left
    requires { (n ≤ length src.now) × (length src.now ≤ length run.old) × (length run.old ≤ 4096) }
    ensures { (result.count ≤ n) × (result.own ∷ take result.count run.new ≡ words_pair label_count code.now (q ∷ take n src.now)) }
{
    let k = in_blocks(n, src.len());
    words::copy_words(run, &src[..k]);
    let own = step_all(&mut run[..k], q, code);
    let count = runs::settle(run, n);
    Left { own, count }
}

// The row that the words make of the row src. The answer is how many subsets it has. What stands behind them is left.
pub fn batch_row(row: &mut [u32], src: &[u32], code: &[u64]) -> usize
    requires readable { Readable src.now }
    requires src_in_bounds { (length src.now ≤ length row.old) × (length row.old ≤ 4096) }
    ensures { (result ≡ get_or row.new 1 0) × (2 + result ≤ length row.new) × (pair_of row.new ≡ words_pair label_count code.now (pair_of src.now)) }
{
    let q = src[0];
    let n = src[1] as usize;
    let left = batch_subsets(&mut row[2..], &src[2..], n, q, code);
    row[0] = left.own;
    row[1] = left.count as u32;
    left.count
}
