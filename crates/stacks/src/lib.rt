// The counts of a stack of tables beside its workspace, and a workspace cleared.
#![tactic(auto)]

ghost use Rattle.std.specs.Prelude.{◌≡◌, List, [], ◌++◌, ℕ, ◌≤◌, length, drop};
ghost use Rattle.tables.specs.Definitions.{Pair};
ghost use Rattle.rows.specs.Parts.{zeros};
ghost use Rattle.workspace.specs.Workspace.{workspace_of};
ghost use Rattle.stacks.specs.Stacks.{count_below, Applies, tallied, Counted};

use expression::Effect;

// The count of the k-th newest of t tables, 0 where there is none.
pub fn count_below(counts: &[u64], t: usize, k: usize) -> usize
    requires { (1 ≤ k) × (t ≤ length counts.now) }
    ensures { result ≡ count_below t k counts.now }
{
    if t < k {
        return 0;
    }
    counts[t - k] as usize
}

// The counts after a command of such an effect on t tables, whose newest table then has r entries.
#[tactic(auto, unfolding(crate::specs::Stacks::tallied))]
pub fn tally(counts: &mut [u64], e: Effect, t: usize, r: u64)
    requires { Applies e t (length counts.old) }
    ensures { counts.new ≡ tallied e t r counts.old }
{
    match e {
        Effect::Push(_) => counts[t] = r,
        Effect::Unite => {
            counts[t - 2] = r;
            counts[t - 1] = 0;
        }
        Effect::Change => counts[t - 1] = r,
        Effect::Pass => {}
    }
}

// Zeros over the first need words.
pub fn clear_need(ws: &mut [u32], need: usize)
    requires { need ≤ length ws.old }
    ensures { ws.new ≡ zeros need ++ drop need ws.old }
{
    rows::clear(&mut ws[..need]);
}

// Zeros over all t tables, the newest first; only words that they use are written.
pub fn clear_tables(ws: &mut [u32], counts: &[u64], w: usize, p: usize, t: usize)
    requires le_w { 2 ≤ w }
    requires by_index { (d : ℕ) × (ts : List (List Pair)) × (beyond : List ℕ) × Counted d w p t ts beyond counts.now ws.old }
    ensures { (d : ℕ) (ts : List (List Pair)) (beyond : List ℕ) → Counted d w p t ts beyond counts.now ws.old → ws.new ≡ workspace_of d w p [] beyond }
{
    for i in (0..t).rev() {
        let area = p * w;
        let at = i * area;
        let n = counts[i] as usize;
        areas::clear_rows(&mut ws[at..at + area], w, p, 0, n);
    }
}
