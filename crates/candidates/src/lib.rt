// What a command makes of a triple, and of two rows in a lent row of words.
#![tactic(auto)]

ghost use Rattle.std.specs.Prelude.{◌≡◌, cond, ◌∷◌, ◌+◌, ◌≤◌, ◌<◌, length};
ghost use Rattle.labels.specs.Labels.{label_count};
ghost use Rattle.expression.specs.Commands.{Suits};
ghost use Rattle.tables.specs.Triples.{relabel_triple, settles};
ghost use Rattle.tables.specs.Definitions.{subsets, unite_pairs};
ghost use Rattle.runs.specs.Runs.{Filled};
ghost use Rattle.candidates.specs.Candidates.{pair_of, Readable, Made, map_triple};

use expression::{Command, Kind};

// labels::LABELS at the width of a word.
const LABELS: u32 = labels::LABELS as u32;

// The marks of label 0 in a triple's three sets.
const MARKS: u32 = 1 + (1 << LABELS) + (1 << (2 * LABELS));

// What had label i has label j, in each of the triple's three sets at once.
fn relabel_triple(i: u32, j: u32, r: u32) -> u32
    requires { (i < label_count) × (j < label_count) }
    ensures { result ≡ relabel_triple label_count i j r }
{
    let moved = r & (MARKS << i);
    ((moved >> i) << j) | (r ^ moved)
}

// 1 if atoms of label i meet a rule that they are put into, else 0. Negative ones count by the interpretation's own triple q: the reduct is by it.
fn settled(k: Kind, i: u32, q: u32, r: u32) -> u32
    requires { i < label_count }
    ensures { result ≡ cond (settles label_count k i q r) 1 0 }
{
    match k {
        Kind::Head => (r >> i) % 2,
        Kind::Positive => (r >> (LABELS + i)) % 2,
        Kind::Negative => (q >> i) % 2,
    }
}

// What the command makes of a triple r, where q is the interpretation's own. No branch on r: the triples of one row differ in it.
pub fn map_triple(c: Command, q: u32, r: u32) -> u32
    requires { Suits label_count c }
    ensures { result ≡ map_triple label_count c q r }
{
    match c {
        Command::Relabel(i, j) => relabel_triple(i, j, r),
        Command::Connect(k, i, j) => {
            let met = settled(k, i, q, r) << (2 * LABELS + j);
            r ^ (r & met)
        }
        Command::Atom(_) => r,
        Command::Rule(_) => r,
        Command::Union => r,
        Command::Name(_) => r,
    }
}

// The subsets of two united interpretations: one side whole with a subset of the other, then a subset of each. The answer is as runs::insert's.
fn unite_subsets(run: &mut [u32], qa: u32, a: &[u32], qb: u32, b: &[u32]) -> usize
    ensures { Filled (subsets (unite_pairs (qa ∷ a.now) (qb ∷ b.now))) result run.new }
{
    let left = runs::insert_unions(run, 0, b, qa);
    if run.len() < left {
        return left;
    }
    // most unions are with an atom, whose pairs have one subset at most
    if b.len() < 2 {
        return products::insert_few(run, left, a, qb, b);
    }
    products::insert_products(run, left, a, qb, b)
}

// The row of two united pairs. The answer is how many subsets it has, or more than the row has room for. What stands behind the subsets is left.
pub fn unite_row(row: &mut [u32], a: &[u32], b: &[u32]) -> usize
    requires in_bounds { (2 ≤ length row.old) × (length row.old ≤ 4096) }
    requires readable { Readable a.now }
    requires readable_2 { Readable b.now }
    ensures { Made (length row.old) result (unite_pairs (pair_of a.now) (pair_of b.now)) row.new }
{
    let qa = a[0];
    let qb = b[0];
    let na = a[1] as usize;
    let nb = b[1] as usize;
    let m = unite_subsets(&mut row[2..], qa, &a[2..2 + na], qb, &b[2..2 + nb]);
    if row.len() - 2 < m {
        return m;
    }
    row[0] = qa | qb;
    row[1] = m as u32;
    m
}
