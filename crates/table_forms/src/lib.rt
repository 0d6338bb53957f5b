// Whether words have the form that a running record's tables must have (01: 18). Every word is looked at once, and a row once more in its order.
#![tactic(auto)]

ghost use Rattle.std.specs.Prelude.{◌≡◌, ◌*◌, ◌≤◌, length};
ghost use Rattle.labels.specs.Labels.{label_count};
ghost use Rattle.forms.specs.Forms.{is_table, are_tables};

use forms::{are_zero, is_next_row, is_row};

// Whether the area is a table of n pairs: 1 to p rows in strictly rising order, zeros behind them.
fn is_table(area: &[u32], w: usize, p: usize, n: usize) -> bool
    requires { (2 ≤ w) × (w ≤ 4096) × (p ≤ 1024) × (length area.now ≡ p * w) }
    ensures { result ≡ is_table label_count w p n area.now }
{
    if n == 0 {
        return false;
    }
    if p < n {
        return false;
    }
    if !is_row(&area[..w]) {
        return false;
    }
    for i in 1..n {
        let at = i * w;
        if !is_next_row(&area[at - w..at], &area[at..at + w]) {
            return false;
        }
    }
    are_zero(&area[n * w..])
}

// Whether the words are tables of so many pairs each, the oldest first, in areas of p rows of w words, and zeros behind them.
pub fn are_tables(ws: &[u32], counts: &[u64], w: usize, p: usize) -> bool
    requires { (2 ≤ w) × (w ≤ 4096) × (p ≤ 1024) × (length counts.now * (p * w) ≤ length ws.now) }
    ensures { result ≡ are_tables label_count w p counts.now ws.now }
{
    let k = p * w;
    for (i, n) in counts.iter().enumerate() {
        let at = i * k;
        if !is_table(&ws[at..at + k], w, p, *n as usize) {
            return false;
        }
    }
    are_zero(&ws[counts.len() * k..])
}
