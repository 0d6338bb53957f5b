// Areas of rows in lent words: cleared, and a table written out in order over another.
#![tactic(auto)]

ghost use Rattle.std.specs.Prelude.{◌≡◌, ◌++◌, ◌*◌, ◌≤◌, max, length, take, drop};
ghost use Rattle.rows.specs.Parts.{part, put, zeros, Apart};
ghost use Rattle.rows.specs.Rows.{sorted_of, Indexed, table_of, rows_in, Rows};

// Of the area's n rows only the first m stay.
#[tactic(auto, using(crate::proofs::Clearing::next_within))]
pub fn clear_rows(area: &mut [u32], w: usize, p: usize, m: usize, n: usize)
    requires le_w { 2 ≤ w }
    requires rows { Rows w p n area.old }
    requires m_le_n { m ≤ n }
    ensures { area.new ≡ table_of w p (take m (rows_in w n area.old)) }
{
    for i in (m..n).rev() {
        let at = i * w;
        rows::clear_row(&mut area[at..at + w]);
    }
}

// The m rows of the area at `from`, in the order of the index, over the n rows of the area at `to`.
pub fn write_rows(
    ws: &mut [u32],
    row: &mut [u32],
    index: &[u32],
    w: usize,
    p: usize,
    m: usize,
    n: usize,
    to: usize,
    from: usize,
)
    requires le_w { (2 ≤ w) × (length row.old ≡ w) }
    requires apart { Apart to from (p * w) (length ws.old) }
    requires rows { Rows w p n (part to (p * w) ws.old) }
    requires indexed { Indexed w p m (part from (p * w) ws.old) index.now }
    ensures { ws.new ≡ put to (p * w) ws.old (table_of w p (sorted_of w m (part from (p * w) ws.old) index.now ++ drop m (rows_in w n (part to (p * w) ws.old)))) }
{
    for i in 0..m {
        let s = index[i] as usize;
        let a = from + s * w;
        rows::load_row(row, &ws[a..a + w]);
        let b = to + i * w;
        rows::store_row(&mut ws[b..b + w], row);
    }
}

fn larger(m: usize, n: usize) -> usize
    ensures { result ≡ max m n }
{
    if m < n { n } else { m }
}

// The table made in the area at `from` takes the place of the n rows at `to`; the area it was made in is zero again.
pub fn finish_table(
    ws: &mut [u32],
    row: &mut [u32],
    index: &[u32],
    w: usize,
    p: usize,
    m: usize,
    n: usize,
    to: usize,
    from: usize,
)
    requires le_w { (2 ≤ w) × (length row.old ≡ w) }
    requires apart { Apart to from (p * w) (length ws.old) }
    requires rows { Rows w p n (part to (p * w) ws.old) }
    requires indexed { Indexed w p m (part from (p * w) ws.old) index.now }
    ensures { ws.new ≡ put from (p * w) (put to (p * w) ws.old (table_of w p (sorted_of w m (part from (p * w) ws.old) index.now))) (zeros (p * w)) }
{
    write_rows(ws, row, index, w, p, m, n, to, from);
    let area = p * w;
    clear_rows(&mut ws[to..to + area], w, p, m, larger(m, n));
    clear_rows(&mut ws[from..from + area], w, p, 0, m);
}
