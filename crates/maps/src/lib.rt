// Relabels, links and unions with a rule on a table, several at once.
#![tactic(auto)]

ghost use Rattle.std.specs.Prelude.{◌≡◌, [], ◌∷◌, ◌+◌, ◌*◌, ◌≤◌, length};
ghost use Rattle.candidates.specs.Candidates.{Readable};
ghost use Rattle.rows.specs.Parts.{Apart, part, zeros};
ghost use Rattle.rows.specs.Rows.{Rows};
ghost use Rattle.batches.specs.Batches.{batch_limit, commands_of};
ghost use Rattle.entries.specs.Carries.{Keeps, in_words, value_area, OnlyArea, Kept};
ghost use Rattle.making.specs.Making.{Next, Puts, Finished};
ghost use Rattle.maps.specs.Maps.{worded_at, worded_all, batched_all};

use entries::Carry;
use values::Value;

// A link may be two words of code.
const CODE_LIMIT: usize = 2 * batches::BATCH_LIMIT;

// What words of code make of the pair at word ra, with the value v, put into the table that is being made at word `to`. It has no more subsets than
// before, so it fits. The answer is the count then; p + 1 where there are more than p rows.
pub fn map_entry(
    ws: &mut [u32],
    row: &mut [u32],
    index: &mut [u32],
    vals: &mut [u64],
    carry: Carry,
    w: usize,
    p: usize,
    ra: usize,
    to: usize,
    m: usize,
    v: Value,
    code: &[u64],
) -> usize
    requires le_w { (2 ≤ w) × (w ≤ 4096) × (p ≤ 1024) × (length row.old ≡ w) }
    requires w_in_bounds { (ra + w ≤ length ws.old) × (to + p * w ≤ length ws.old) }
    requires readable { Readable (part ra w ws.old) × Keeps carry v }
    requires next { Next carry w p to m (worded_at w ra v code.now ws.old ∷ []) ws.old index.old vals.old }
    ensures { Puts carry w p to m (worded_at w ra v code.now ws.old ∷ []) result ws.old index.old vals.old ws.new index.new vals.new }
{
    batches::batch_row(row, &ws[ra..ra + w], code);
    making::put_entry(ws, row, index, vals, carry, w, p, to, m, v)
}

// Each of the n entries at word a, whose values stand at word `old` of vals, mapped and put in; values are made at word `made`. The answer is as
// map_entry's.
pub fn map_all(
    ws: &mut [u32],
    row: &mut [u32],
    index: &mut [u32],
    vals: &mut [u64],
    carry: Carry,
    w: usize,
    p: usize,
    a: usize,
    old: usize,
    n: usize,
    to: usize,
    made: usize,
    code: &[u64],
) -> usize
    requires le_w { (2 ≤ w) × (w ≤ 4096) × (p ≤ 1024) × (length row.old ≡ w) }
    requires w_bound { (a + p * w ≤ to) × (to + p * w ≤ length ws.old) }
    requires rows { Rows w p n (part a (p * w) ws.old) × Apart old made (in_words carry p) (length vals.old) }
    requires next { Next carry w p to 0 (worded_all carry w p a old n code.now vals.old ws.old) ws.old index.old (value_area carry p made vals.old) }
    ensures puts { Puts carry w p to 0 (worded_all carry w p a old n code.now vals.old ws.old) result ws.old index.old (value_area carry p made vals.old) ws.new index.new (value_area carry p made vals.new) }
    ensures only_area { OnlyArea carry p made vals.old vals.new }
{
    let k = entries::words_of(carry, p);
    let mut r = 0;
    for j in 0..n {
        let ra = a + j * w;
        let v = entries::value_at(&vals[old..old + k], carry, n, j);
        r = map_entry(
            ws,
            row,
            index,
            &mut vals[made..made + k],
            carry,
            w,
            p,
            ra,
            to,
            r,
            v,
            code,
        );
    }
    r
}

// The table at word a, of n rows, becomes what the commands make of it; made in the words from `to` on. The values of the two stand at words `old` and
// `made` of vals. It has no more rows than before; the answer is how many. code is lent for the words, which
// are for a table with its marks.
fn map_fused(
    ws: &mut [u32],
    row: &mut [u32],
    index: &mut [u32],
    vals: &mut [u64],
    carry: Carry,
    w: usize,
    p: usize,
    a: usize,
    old: usize,
    n: usize,
    to: usize,
    made: usize,
    ops: &[u32],
    code: &mut [u64],
) -> usize
    requires le_w { (2 ≤ w) × (w ≤ 4096) × (p ≤ 1024) × (length row.old ≡ w) × (2 * length ops.now ≤ length code.old) }
    requires w_bound { (a + p * w ≤ to) × (to + p * w ≤ length ws.old) }
    requires rows { Rows w p n (part a (p * w) ws.old) × Apart old made (in_words carry p) (length vals.old) }
    requires ws_value { (part to (p * w) ws.old ≡ zeros (p * w)) × (p ≤ length index.old) × Kept carry p 0 (value_area carry p made vals.old) }
    ensures upper_bound { (result ≤ p) × Finished carry w p a (batched_all carry w p a old n (commands_of ops.now) vals.old ws.old) result ws.old ws.old ws.new (value_area carry p made vals.new) }
    ensures only_area { OnlyArea carry p made vals.old vals.new }
{
    let marks = marks::table_marks(ws, w, p, a, n);
    let m = fusing::fuse(code, ops, marks);
    let r = map_all(
        ws,
        row,
        index,
        vals,
        carry,
        w,
        p,
        a,
        old,
        n,
        to,
        made,
        &code[..m],
    );
    making::settle(ws, row, index, w, p, r, n, a, to);
    r
}

// The same with words of its own.
pub fn map_table(
    ws: &mut [u32],
    row: &mut [u32],
    index: &mut [u32],
    vals: &mut [u64],
    carry: Carry,
    w: usize,
    p: usize,
    a: usize,
    old: usize,
    n: usize,
    to: usize,
    made: usize,
    ops: &[u32],
) -> usize
    requires le_w { (2 ≤ w) × (w ≤ 4096) × (p ≤ 1024) × (length row.old ≡ w) × (length ops.now ≤ batch_limit) }
    requires w_bound { (a + p * w ≤ to) × (to + p * w ≤ length ws.old) }
    requires rows { Rows w p n (part a (p * w) ws.old) × Apart old made (in_words carry p) (length vals.old) }
    requires ws_value { (part to (p * w) ws.old ≡ zeros (p * w)) × (p ≤ length index.old) × Kept carry p 0 (value_area carry p made vals.old) }
    ensures upper_bound { (result ≤ p) × Finished carry w p a (batched_all carry w p a old n (commands_of ops.now) vals.old ws.old) result ws.old ws.old ws.new (value_area carry p made vals.new) }
    ensures only_area { OnlyArea carry p made vals.old vals.new }
{
    let mut code = [0u64; CODE_LIMIT];
    map_fused(
        ws, row, index, vals, carry, w, p, a, old, n, to, made, ops, &mut code,
    )
}
