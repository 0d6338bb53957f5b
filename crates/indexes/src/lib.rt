// A table that is made row by row behind an index: a row found, a row put in.
#![tactic(auto)]

ghost use Rattle.std.specs.Prelude.{◌≡◌, ℕ, ◌≤◌, length};
ghost use Rattle.lists.specs.Sorted.{compare_lists, rank};
ghost use Rattle.candidates.specs.Candidates.{pair_of, Readable};
ghost use Rattle.rows.specs.Rows.{sorted_of, Indexed};
ghost use Rattle.rows.specs.Inserted.{Inserted};

use rows::Placed;
use std::cmp::Ordering;

// How many of the m rows come before the row. The first look is at the last row, since rows mostly come in order.
pub fn find_row(area: &[u32], index: &[u32], w: usize, m: usize, row: &[u32]) -> usize
    requires by_index { (p : ℕ) × Indexed w p m area.now index.now }
    requires readable { Readable row.now }
    ensures { result ≡ rank compare_lists (pair_of row.now) (sorted_of w m area.now index.now) }
{
    if m == 0 {
        return 0;
    }
    let mut lo = 0;
    let mut hi = m;
    let mut mid = m - 1;
    while lo < hi {
        let s = index[mid] as usize;
        let o = rows::compare_at(row, area, w, s);
        match o {
            Ordering::Greater => {
                lo = mid + 1;
            }
            Ordering::Less => {
                hi = mid;
            }
            Ordering::Equal => {
                hi = mid;
            }
        }
        mid = lo + (hi - lo) / 2;
    }
    lo
}

// The row put among the m rows, unless its pair is there. A new row goes behind those that arrived, and the index says where it stands in order.
pub fn insert_row(
    area: &mut [u32],
    index: &mut [u32],
    w: usize,
    p: usize,
    m: usize,
    row: &[u32],
) -> Placed
    requires le_w { (2 ≤ w) × (p ≤ 1024) }
    requires indexed { Indexed w p m area.old index.old }
    requires readable { Readable row.now × (length row.now ≡ w) }
    ensures { Inserted w p m (pair_of row.now) area.old index.old area.new index.new result }
{
    let k = find_row(&area[..], &index[..], w, m, row);
    if k < m {
        let s = index[k] as usize;
        let o = rows::compare_at(row, &area[..], w, s);
        if let Ordering::Equal = o {
            return Placed::Old(k);
        }
    }
    if m == p {
        return Placed::Full;
    }
    let at = m * w;
    rows::store_row(&mut area[at..at + w], row);
    runs::push_front(&mut index[k..m + 1], m as u32);
    Placed::New(k)
}
