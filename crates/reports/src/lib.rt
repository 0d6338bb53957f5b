// The report of a table: its entries, written one after the other.
#![tactic(auto)]

ghost use Rattle.std.specs.Prelude.{◌≡◌, ◌++◌, ◌+◌, ◌*◌, ◌≤◌, length, drop};
ghost use Rattle.rows.specs.Parts.{part};
ghost use Rattle.rows.specs.Rows.{Rows, rows_in};
ghost use Rattle.reports.specs.Reports.{entry_length, report_of};

use leaves::Tables;

// How many words an entry of n subsets takes.
fn entry_words(kind: Tables, n: u32) -> usize
    ensures { result ≡ entry_length kind n }
{
    match kind {
        Tables::Plain => 1,
        Tables::Pairs => 2 + n as usize,
    }
}

// How many words the n rows at word a take.
pub fn report_words(ws: &[u32], kind: Tables, w: usize, p: usize, a: usize, n: usize) -> usize
    requires le_w { (2 ≤ w) × (w ≤ 4096) × (p ≤ 1024) }
    requires w_in_bounds { (a + p * w ≤ length ws.now) × Rows w p n (part a (p * w) ws.now) }
    ensures { result ≡ length (report_of kind (rows_in w n (part a (p * w) ws.now))) }
{
    let mut total = 0;
    for j in 0..n {
        let at = a + j * w;
        total += entry_words(kind, ws[at + 1]);
    }
    total
}

// The n rows at word a over the front of `out`; what stands behind them there stays.
pub fn write_report(
    out: &mut [u32],
    ws: &[u32],
    kind: Tables,
    w: usize,
    p: usize,
    a: usize,
    n: usize,
)
    requires le_w { (2 ≤ w) × (w ≤ 4096) × (p ≤ 1024) }
    requires w_in_bounds { (a + p * w ≤ length ws.now) × Rows w p n (part a (p * w) ws.now) }
    requires ws_in_bounds { length (report_of kind (rows_in w n (part a (p * w) ws.now))) ≤ length out.old }
    ensures { out.new ≡ report_of kind (rows_in w n (part a (p * w) ws.now)) ++ drop (length (report_of kind (rows_in w n (part a (p * w) ws.now)))) out.old }
{
    let mut to = 0;
    for j in 0..n {
        let at = a + j * w;
        let k = entry_words(kind, ws[at + 1]);
        words::copy_words(&mut out[to..to + k], &ws[at..at + k]);
        to += k;
    }
}
