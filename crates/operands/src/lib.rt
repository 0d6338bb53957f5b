// The union of the two newest tables of a workspace.
#![tactic(auto)]

ghost use Rattle.std.specs.Prelude.{◌≡◌, ◌+◌, ◌≤◌, length};
ghost use Rattle.expression.specs.Limits.{depth_limit, area_count};
ghost use Rattle.semantics.specs.Expressions.{unite_newest};
ghost use Rattle.workspace.specs.Workspace.{values_from};
ghost use Rattle.operands.specs.Operands.{Ready, Acts, united_table};

use entries::Carry;

// Where the values of area i begin.
pub fn values_from(carry: Carry, p: usize, i: usize) -> usize
    requires { (i ≤ depth_limit) × (p ≤ 1024) }
    ensures { result ≡ values_from carry p i }
{
    i * entries::words_of(carry, p)
}

// Of t tables in d areas the newest, of n entries, is united with the one below it, of m.
pub fn unite_newest(
    ws: &mut [u32],
    row: &mut [u32],
    index: &mut [u32],
    vals: &mut [u64],
    carry: Carry,
    d: usize,
    w: usize,
    p: usize,
    t: usize,
    n: usize,
    m: usize,
) -> usize
    requires le_w { (2 ≤ w) × (w ≤ 4096) × (p ≤ 1024) × (d ≤ area_count) × (length row.old ≡ w) × (p ≤ length index.old) }
    requires le_t { (2 ≤ t) × Ready carry d w p t n m ws.old vals.old }
    ensures { Acts carry d w p t n m (unite_newest (united_table carry)) result ws.old vals.old ws.new vals.new }
{
    let area = p * w;
    let i = t - 2;
    let a = i * area;
    let left = values_from(carry, p, i);
    let right = values_from(carry, p, i + 1);
    let made = values_from(carry, p, d - 1);
    let r = unions::unite_tables(
        ws,
        row,
        index,
        vals,
        carry,
        w,
        p,
        a,
        left,
        m,
        a + area,
        right,
        n,
        (d - 1) * area,
        made,
    );
    if r <= p {
        workspace::move_values(vals, carry, d, p, i, r);
    }
    r
}
