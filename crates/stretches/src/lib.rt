// Commands that may be done at once on the newest table, read from an expression: relabels, connects, and a rule with the union behind it.
#![tactic(auto)]

ghost use Rattle.std.specs.Prelude.{◌≡◌, ℕ, ◌≤◌, length, take};
ghost use Rattle.labels.specs.Labels.{label_count};
ghost use Rattle.expression.specs.declared.Effect.TheVariants.{Push};
ghost use Rattle.expression.specs.Commands.{Got, read_at};
ghost use Rattle.expression.specs.Effects.{effect};
ghost use Rattle.batches.specs.Batches.{commands_of};
ghost use Rattle.stretches.specs.Stretches.{SpeltBy, Chain, closed_by, joined_counts, chain_counts};

use commands::counting::counted_by;
use commands::effects::effect;
use expression::{Command, Counts, Effect, Leaf};
use reader::read_next;

// How far such commands go, how many they are, and the counts after them.
#[derive(Clone, Copy)]
pub struct Stretch {
    pub next: usize,
    pub count: usize,
    pub counts: Counts,
}

// A rule c before a command of such an effect, which ends at `next`.
fn closed_by(c: Command, next: usize, e: Effect) -> Option<(Command, usize)>
    ensures { result ≡ closed_by c next e }
{
    match e {
        Effect::Unite => Some((c, next)),
        Effect::Push(_) | Effect::Change | Effect::Pass => None,
    }
}

// A command c that pushes a leaf and ends at `mid`, if it is a rule and a union that starts before `stop` stands behind it. Names between the two change
// nothing (02, Item 1).
fn with_union(s: &[u8], stop: usize, c: Command, l: Leaf, mid: usize) -> Option<(Command, usize)>
    ensures { (at : ℕ) → read_at label_count s.now at ≡ Got c mid → effect c ≡ Push l → SpeltBy label_count s.now stop at result }
{
    let Leaf::Rule = l else {
        return None;
    };
    let mut end = mid;
    while end < stop {
        let Ok((d, next)) = read_next(s, end) else {
            return None;
        };
        let e = effect(d);
        let Effect::Pass = e else {
            return closed_by(c, next, e);
        };
        end = next;
    }
    None
}

// Such a command at an offset, if there is one, and the offset after it.
fn joined_at(s: &[u8], stop: usize, at: usize) -> Option<(Command, usize)>
    ensures { SpeltBy label_count s.now stop at result }
{
    let Ok((c, next)) = read_next(s, at) else {
        return None;
    };
    let e = effect(c);
    match e {
        Effect::Push(l) => with_union(s, stop, c, l, next),
        Effect::Change => Some((c, next)),
        Effect::Unite | Effect::Pass => None,
    }
}

// The counts after a command; after a leaf and the union behind it.
fn joined_counts(n: Counts, c: Command) -> Counts
    ensures { result ≡ joined_counts n c }
{
    let e = effect(c);
    let m = counted_by(n, e);
    match e {
        Effect::Push(_) => counted_by(m, Effect::Unite),
        Effect::Unite => m,
        Effect::Change => m,
        Effect::Pass => m,
    }
}

// The commands from `at` on, each as a word, as many as there are and as there is room for; n are the counts before them.
pub fn read_stretch(s: &[u8], stop: usize, at: usize, n: Counts, ops: &mut [u32]) -> Stretch
    ensures { (result.count ≤ length ops.new) × Chain label_count s.now stop at result.next (commands_of (take result.count ops.new)) × (result.counts ≡ chain_counts n (commands_of (take result.count ops.new))) }
{
    let mut next = at;
    let mut counts = n;
    for count in 0..ops.len() {
        if stop <= next {
            return Stretch {
                next,
                count,
                counts,
            };
        }
        let Some((c, after)) = joined_at(s, stop, next) else {
            return Stretch {
                next,
                count,
                counts,
            };
        };
        ops[count] = batches::word_of(c);
        counts = joined_counts(counts, c);
        next = after;
    }
    Stretch {
        next,
        count: ops.len(),
        counts,
    }
}
