// The marks that the triples of a table have: what a link could touch is found once for all rows.
#![tactic(auto)]

ghost use Rattle.std.specs.Prelude.{◌+◌, ◌*◌, ◌≤◌, length};
ghost use Rattle.lists.specs.Lists.{All};
ghost use Rattle.labels.specs.Sets.{Within};
ghost use Rattle.candidates.specs.Candidates.{pair_of, Readable};
ghost use Rattle.rows.specs.Parts.{part};
ghost use Rattle.rows.specs.Rows.{rows_in, Rows};
ghost use Rattle.marks.specs.Marks.{Marked};

// The marks of m and of the triples.
fn run_marks(run: &[u32], m: u32) -> u32
    ensures { Within result m × All (Within result) run.now }
{
    let mut all = m;
    for x in run {
        all = all | *x;
    }
    all
}

// Most rows have no more subsets. So many words are looked at in every row that has them, since zeros stand behind the subsets: of the forms that were timed the
// fastest.
const SHORT: usize = 8;

// The marks of m and of a row's triples. Between its own and the others stands their count, which is no triple.
fn row_marks(row: &[u32], m: u32) -> u32
    requires { Readable row.now }
    ensures { Within result m × Marked result (pair_of row.now) }
{
    let q = row[0];
    let n = row[1] as usize;
    if row.len() < SHORT + 2 {
        return run_marks(&row[2..2 + n], m | q);
    }
    let first = run_marks(&row[2..SHORT + 2], m | q);
    if n <= SHORT {
        return first;
    }
    run_marks(&row[SHORT + 2..2 + n], first)
}

// The marks of the n rows at word a.
pub fn table_marks(ws: &[u32], w: usize, p: usize, a: usize, n: usize) -> u32
    requires { (w ≤ 4096) × (p ≤ 1024) × (a + p * w ≤ length ws.now) × Rows w p n (part a (p * w) ws.now) }
    ensures { All (Marked result) (rows_in w n (part a (p * w) ws.now)) }
{
    let mut m = 0;
    for j in 0..n {
        let ra = a + j * w;
        m = row_marks(&ws[ra..ra + w], m);
    }
    m
}
