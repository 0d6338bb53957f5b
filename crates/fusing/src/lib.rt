// Words for commands: a rule, the connects that put atoms into it and the relabel behind them become one word, so that a row is gone through once for
// all of them.
#![tactic(auto)]

ghost use Rattle.std.specs.Prelude.{◌≡◌, true, ◌||◌, List, ℕ, ◌+◌, ◌*◌, ◌≤◌, ◌<◌, length, take};
ghost use Rattle.labels.specs.Labels.{label_count};
ghost use Rattle.labels.specs.Sets.{has, Within};
ghost use Rattle.expression.specs.Commands.{Suits};
ghost use Rattle.tables.specs.Triples.{settles};
ghost use Rattle.marks.specs.Marks.{Marked};
ghost use Rattle.batches.specs.Batches.{command_of, commands_of, step_triple, step, reversed, steps, is_met, Fits, judges_from, judge_of, word_triple, word_steps};
ghost use Rattle.fusing.specs.Fusing.{marks_after, half_of, IsLink};

use batches::{
    BASE, JUDGES, Judge, NEGATIVES, RULES, command_of, connect_word, judge_of, with_rule,
};
use expression::{Command, Kind};

// labels::LABELS at the width of a word.
const LABELS: u32 = labels::LABELS as u32;

// The word of a rule judged at once.
fn judge_word(j: Judge) -> u64
    requires { Fits label_count j }
    ensures { (judges_from label_count ≤ result) × (judge_of label_count result ≡ j) }
{
    let front = ((1 + j.leaves) * BASE + j.after) * BASE + j.label;
    front as u64 * RULES + j.negative as u64 * NEGATIVES + j.marks as u64
}

// The rule with atoms of label i put into it.
fn with_atoms(j: Judge, k: Kind, i: u32) -> Judge
    requires { Fits label_count j × (i < label_count) }
    ensures { Fits label_count result × (result.label ≡ j.label) × (result.after ≡ j.after) × (result.leaves ≡ j.leaves) × ((q r : ℕ) → is_met result q r ≡ (is_met j q r || settles label_count k i q r)) }
{
    match k {
        Kind::Head => Judge {
            marks: j.marks | (1 << i),
            ..j
        },
        Kind::Positive => Judge {
            marks: j.marks | (1 << (LABELS + i)),
            ..j
        },
        Kind::Negative => Judge {
            negative: j.negative | (1 << i),
            ..j
        },
    }
}

// The word that does what a rule's word and then the command do, if it is of that rule; else 0. Only a rule that keeps its label can go on.
#[tactic(auto, unfolding(expression::specs::Commands::Suits))]
fn joined(w: u64, c: Command) -> u64
    requires { Suits label_count c }
    ensures { 0 < result → (q r : ℕ) → word_triple label_count result q r ≡ step_triple label_count c (word_triple label_count w q q) (word_triple label_count w q r) }
{
    if w < JUDGES {
        return 0;
    }
    let j = judge_of(w);
    if j.label != j.after {
        return 0;
    }
    if j.leaves != 0 {
        return 0;
    }
    match c {
        Command::Connect(k, i, g) => {
            if g != j.label {
                return 0;
            }
            judge_word(with_atoms(j, k, i))
        }
        Command::Relabel(g, h) => {
            if g != j.label {
                return 0;
            }
            judge_word(Judge { after: h, ..j })
        }
        Command::Rule(_) | Command::Atom(_) | Command::Union | Command::Name(_) => 0,
    }
}

// The word that does what the command of a word does. A rule's is of a rule judged with no atoms yet.
fn alone(w: u32) -> u64
    ensures { (q r : ℕ) → word_triple label_count result q r ≡ step_triple label_count (command_of label_count w) q r }
{
    if w < LABELS {
        return judge_word(Judge {
            marks: 0,
            negative: 0,
            label: w,
            after: w,
            leaves: 0,
        });
    }
    w as u64
}

// Whether there is such a mark.
#[tactic(auto, unfolding(labels::specs::Sets::has))]
fn has_mark(marks: u32, n: u32) -> bool
    requires { n < 32 }
    ensures { result ≡ has n marks }
{
    (marks >> n) % 2 == 1
}

// Whether the command is a connect that could touch no triple with no marks but these: none has an unmet rule of its label j, or none has an atom of its
// label i.
#[tactic(auto, unfolding(expression::specs::Commands::Suits))]
fn is_idle(c: Command, marks: u32) -> bool
    requires { Suits label_count c }
    ensures { result ≡ true → (q r : ℕ) → Within marks q → Within marks r → step_triple label_count c q r ≡ r }
{
    let Command::Connect(_, i, j) = c else {
        return false;
    };
    if !has_mark(marks, 2 * LABELS + j) {
        return true;
    }
    if has_mark(marks, i) {
        return false;
    }
    !has_mark(marks, LABELS + i)
}

// The command c of a word w comes behind the first m words of code, unless it is idle. The answer is how many they are then.
fn put_word(code: &mut [u64], m: usize, c: Command, w: u32, marks: u32) -> usize
    requires { (m < length code.old) × (c ≡ command_of label_count w) }
    ensures { (result ≤ m + 1) × ((x : List ℕ) → Marked marks (word_steps label_count (take m code.old) x) → word_steps label_count (take result code.new) x ≡ step label_count c (word_steps label_count (take m code.old) x)) }
{
    if 0 < m {
        let s = joined(code[m - 1], c);
        if 0 < s {
            code[m - 1] = s;
            return m;
        }
    }
    if is_idle(c, marks) {
        return m;
    }
    code[m] = alone(w);
    m + 1
}

// Whether a rule has atoms of label g.
#[tactic(auto, unfolding(labels::specs::Sets::has))]
fn speaks_of(j: Judge, g: u32) -> bool
    requires { g < label_count }
    ensures { result ≡ (has g j.marks || (has (label_count + g) j.marks || has g j.negative)) }
{
    if (j.marks >> g) % 2 == 1 {
        return true;
    }
    if (j.marks >> (LABELS + g)) % 2 == 1 {
        return true;
    }
    (j.negative >> g) % 2 == 1
}

// The word for a in front of b, both words of rules, by which what has the rule's label is left to b; if b is relabelled like a and has no atoms of
// these labels. Else 0.
fn lighter(a: u64, b: u64) -> u64
    ensures { 0 < result → (q r : ℕ) → word_triple label_count b (word_triple label_count result q q) (word_triple label_count result q r) ≡ word_triple label_count b (word_triple label_count a q q) (word_triple label_count a q r) }
{
    if a < JUDGES {
        return 0;
    }
    if b < JUDGES {
        return 0;
    }
    let i = judge_of(a);
    let j = judge_of(b);
    if i.leaves + j.leaves != 0 {
        return 0;
    }
    if i.label != j.label {
        return 0;
    }
    if i.after != j.after {
        return 0;
    }
    if j.label == j.after {
        return 0;
    }
    if speaks_of(j, j.label) {
        return 0;
    }
    if speaks_of(j, j.after) {
        return 0;
    }
    judge_word(Judge { leaves: 1, ..i })
}

// The last but one of m words, lighter where it can be: after a relabel, of the word w.
#[tactic(auto, using(crate::proofs::Fusing::put_first))]
fn lighten(code: &mut [u64], m: usize, w: u32)
    requires { m ≤ length code.old }
    ensures { (x : List ℕ) → word_steps label_count (take m code.new) x ≡ word_steps label_count (take m code.old) x }
{
    if w / BASE / BASE != 1 {
        return;
    }
    if 2 <= m {
        let s = lighter(code[m - 2], code[m - 1]);
        if 0 < s {
            code[m - 2] = s;
        }
    }
}

// The word of a command or, where back is not 0, of the other half of a link (02, Item 11).
#[tactic(auto, unfolding(crate::specs::Fusing::turned, expression::specs::Commands::Suits))]
fn half_word(w: u32, back: usize) -> u32
    ensures { command_of label_count result ≡ half_of back (command_of label_count w) }
{
    if back == 0 {
        return w;
    }
    let c = command_of(w as u64);
    match c {
        Command::Connect(k, i, j) => connect_word(k, j, i),
        Command::Relabel(_, _)
        | Command::Rule(_)
        | Command::Atom(_)
        | Command::Union
        | Command::Name(_) => w,
    }
}

// 1 if the other half of a link is to come, else 0: where it came already, and where it is idle, as it mostly is.
#[tactic(auto, unfolding(batches::specs::Batches::reversed, expression::specs::Commands::Suits))]
fn goes_back(c: Command, back: usize, marks: u32) -> usize
    requires { Suits label_count c }
    ensures { (result ≤ 1) × (result ≡ 1 → (back ≡ 0) × IsLink c) × (result ≡ 0 → back ≡ 0 → (y : List ℕ) → Marked marks y → y ≡ reversed label_count c y) }
{
    if back != 0 {
        return 0;
    }
    match c {
        Command::Connect(k, i, j) => {
            let other = Command::Connect(k, j, i);
            if is_idle(other, marks) {
                return 0;
            }
            1
        }
        Command::Relabel(_, _)
        | Command::Rule(_)
        | Command::Atom(_)
        | Command::Union
        | Command::Name(_) => 0,
    }
}

// The marks that triples may have after a command.
#[tactic(auto, unfolding(crate::specs::Fusing::marks_after, candidates::specs::Candidates::map_triple, expression::specs::Commands::Suits))]
fn marks_after(c: Command, marks: u32) -> u32
    requires { Suits label_count c }
    ensures { result ≡ marks_after label_count c marks }
{
    match c {
        Command::Rule(g) => with_rule(g, marks),
        Command::Relabel(_, _) => candidates::map_triple(c, marks, marks),
        Command::Connect(_, _, _) | Command::Atom(_) | Command::Union | Command::Name(_) => marks,
    }
}

// The command of a word of ops. A call of its own: inlined into the loop, the limit on a group becomes a jump, and a move's path would hang on its groups.
#[inline(never)]
fn command_in(w: u32) -> Command
    ensures { (result ≡ command_of label_count w) × Suits label_count result }
{
    command_of(w as u64)
}

// Words for the commands of ops on pairs with no marks but these. A link is two connects at most: a half that could touch no mark is left out, so a rule
// whose label has no atoms is one word with its links. The answer is how many words.
pub fn fuse(code: &mut [u64], ops: &[u32], marks: u32) -> usize
    requires { 2 * length ops.now ≤ length code.old }
    ensures { (result ≤ length code.new) × ((x : List ℕ) → Marked marks x → word_steps label_count (take result code.new) x ≡ steps label_count (commands_of ops.now) x) }
{
    let mut m = 0;
    let mut seen = marks;
    let mut back = 0;
    let mut k = 0;
    // No `for`: where the other half of a link is to come, the next turn has the same word.
    while k < ops.len() {
        let w = half_word(ops[k], back);
        let c = command_in(w);
        m = put_word(code, m, c, w, seen);
        lighten(code, m, w);
        seen = marks_after(c, seen);
        back = goes_back(c, back, seen);
        k += 1 - back;
    }
    m
}
