// The answer that a table of rows gives: whether a row accepts, the least value of those that do, and the interpretation that has such a value.
#![tactic(auto)]

ghost use Rattle.std.specs.Prelude.{◌≡◌, ◌+◌, ◌*◌, ◌≤◌, length};
ghost use Rattle.lists.specs.Lists.{some};
ghost use Rattle.labels.specs.Labels.{label_count};
ghost use Rattle.expression.specs.Limits.{atom_limit};
ghost use Rattle.tables.specs.Triples.{all_met};
ghost use Rattle.tables.specs.Definitions.{accepting};
ghost use Rattle.values.specs.Values.{worth, add};
ghost use Rattle.values.specs.First.{firsts, shown_by};
ghost use Rattle.candidates.specs.Candidates.{pair_of, Readable};
ghost use Rattle.rows.specs.Parts.{part};
ghost use Rattle.rows.specs.Rows.{Rows};
ghost use Rattle.entries.specs.Carries.{Beside};
ghost use Rattle.making.specs.Making.{entries_at};
ghost use Rattle.answers.specs.Answers.{least_of, total_of};

use entries::Carry;
use expression::limits::ATOM_LIMIT;

// A triple below it has U empty.
const UNMET: u32 = 1 << (2 * labels::LABELS as u32);

// Whether some triple of the list has U empty.
fn some_met(triples: &[u32]) -> bool
    ensures { result ≡ some (all_met label_count) triples.now }
{
    triples.iter().any(|t| *t < UNMET)
}

// Whether the row's pair accepts: Q has U empty, and no subset has.
#[tactic(auto, unfolding(tables::specs::Definitions::accepting, tables::specs::Triples::all_met, candidates::specs::Candidates::pair_of))]
pub fn accepts_row(row: &[u32]) -> bool
    requires { Readable row.now }
    ensures { result ≡ accepting label_count (pair_of row.now) }
{
    if UNMET <= row[0] {
        return false;
    }
    let n = row[1] as usize;
    !some_met(&row[2..2 + n])
}

// The least with one value more.
#[tactic(auto, unfolding(values::specs::Values::add, values::specs::First::firsts, values::specs::First::least_by))]
fn with_value(best: Option<u64>, v: u64) -> Option<u64>
    ensures { total_of result ≡ add firsts (total_of best) (worth v) }
{
    match best {
        None => Some(v),
        Some(u) => Some(entries::lesser(u, v)),
    }
}

// The least value, by its low word, of the rows that accept, where there is one, of the n rows at word a with the values `vals`. With nothing carried every
// value is 0.
pub fn least_accepting(
    ws: &[u32],
    vals: &[u64],
    carry: Carry,
    w: usize,
    p: usize,
    a: usize,
    n: usize,
) -> Option<u64>
    requires { (a + p * w ≤ length ws.now) × Rows w p n (part a (p * w) ws.now) × Beside carry n vals.now }
    ensures { total_of result ≡ least_of (accepting label_count) (entries_at carry w p a n vals.now ws.now) }
{
    let mut best = None;
    for j in 0..n {
        let ra = a + j * w;
        if accepts_row(&ws[ra..ra + w]) {
            let v = entries::value_at(vals, carry, n, j);
            best = with_value(best, v.low);
        }
    }
    best
}

// The mask of the interpretation of n atoms that has the value v: bit 62 - c of v is atom c.
pub fn shown_mask(n: u64, v: u64) -> u64
    requires { n ≤ atom_limit }
    ensures { result ≡ shown_by n v }
{
    let mut mask = 0;
    for c in 0..n {
        if (v >> (ATOM_LIMIT - (c + 1))) % 2 == 1 {
            mask |= 1 << c;
        }
    }
    mask
}
