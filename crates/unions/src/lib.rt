// The union of two tables.
#![tactic(auto)]

ghost use Rattle.std.specs.Prelude.{◌≡◌, [], ◌∷◌, ◌+◌, ◌-◌, ◌*◌, ◌≤◌, ◌<◌, length};
ghost use Rattle.candidates.specs.Candidates.{Readable};
ghost use Rattle.rows.specs.Parts.{Apart, part, put, zeros};
ghost use Rattle.rows.specs.Rows.{Rows};
ghost use Rattle.entries.specs.Carries.{Keeps, in_words, value_area, OnlyArea, Kept};
ghost use Rattle.making.specs.Making.{Next, Steps, Finished};
ghost use Rattle.unions.specs.Unions.{united_at, united_with, united_all};

use entries::Carry;
use values::Value;

// The pairs at words ra and rb united with the value v, and put into the table that is being made at word `to`. The answer is the count then; p + 1
// where there are more than p rows, p + 2 where the united pair does not fit.
pub fn unite_entry(
    ws: &mut [u32],
    row: &mut [u32],
    index: &mut [u32],
    vals: &mut [u64],
    carry: Carry,
    w: usize,
    p: usize,
    ra: usize,
    rb: usize,
    to: usize,
    m: usize,
    v: Value,
) -> usize
    requires le_w { (2 ≤ w) × (w ≤ 4096) × (p ≤ 1024) × (length row.old ≡ w) }
    requires w_in_bounds { (ra + w ≤ length ws.old) × (rb + w ≤ length ws.old) × (to + p * w ≤ length ws.old) }
    requires readable { Readable (part ra w ws.old) × Readable (part rb w ws.old) × Keeps carry v }
    requires next { Next carry w p to m (united_at w ra rb v ws.old ∷ []) ws.old index.old vals.old }
    ensures { Steps carry w p to m (united_at w ra rb v ws.old ∷ []) result ws.old index.old vals.old ws.new index.new vals.new }
{
    let s = &ws[..];
    let k = candidates::unite_row(row, &s[ra..ra + w], &s[rb..rb + w]);
    if w - 2 < k {
        return p + 2;
    }
    making::put_entry(ws, row, index, vals, carry, w, p, to, m, v)
}

// The entry of the row at word ra with value va united with each of the n rows at word b, whose values stand at word `right` of vals; values are made
// at word `made`. The answer is as unite_entry's.
pub fn unite_with_all(
    ws: &mut [u32],
    row: &mut [u32],
    index: &mut [u32],
    vals: &mut [u64],
    carry: Carry,
    w: usize,
    p: usize,
    ra: usize,
    va: Value,
    b: usize,
    right: usize,
    n: usize,
    to: usize,
    made: usize,
    m: usize,
) -> usize
    requires le_w { (2 ≤ w) × (w ≤ 4096) × (p ≤ 1024) × (length row.old ≡ w) }
    requires w_bound { (ra + w ≤ to) × (b + p * w ≤ to) × (to + p * w ≤ length ws.old) }
    requires readable { Readable (part ra w ws.old) × Rows w p n (part b (p * w) ws.old) × Apart right made (in_words carry p) (length vals.old) }
    requires next { Next carry w p to m (united_with carry w p ra va b right n vals.old ws.old) ws.old index.old (value_area carry p made vals.old) }
    ensures steps { Steps carry w p to m (united_with carry w p ra va b right n vals.old ws.old) result ws.old index.old (value_area carry p made vals.old) ws.new index.new (value_area carry p made vals.new) }
    ensures only_area { OnlyArea carry p made vals.old vals.new }
{
    let k = entries::words_of(carry, p);
    let mut r = m;
    for j in 0..n {
        let rb = b + j * w;
        let vb = entries::value_at(&vals[right..right + k], carry, n, j);
        let v = entries::together(carry, va, vb);
        r = unite_entry(
            ws,
            row,
            index,
            &mut vals[made..made + k],
            carry,
            w,
            p,
            ra,
            rb,
            to,
            r,
            v,
        );
        if p + 1 < r {
            return r;
        }
    }
    r
}

// Each of the na entries at word a united with each of the nb entries at word b; their values stand at words `left` and `right` of vals, and values are
// made at word `made`. The answer is as unite_entry's.
pub fn unite_all(
    ws: &mut [u32],
    row: &mut [u32],
    index: &mut [u32],
    vals: &mut [u64],
    carry: Carry,
    w: usize,
    p: usize,
    a: usize,
    left: usize,
    na: usize,
    b: usize,
    right: usize,
    nb: usize,
    to: usize,
    made: usize,
) -> usize
    requires le_w { (2 ≤ w) × (w ≤ 4096) × (p ≤ 1024) × (length row.old ≡ w) }
    requires w_bound { (a + p * w ≤ to) × (b + p * w ≤ to) × (to + p * w ≤ length ws.old) }
    requires rows { Rows w p na (part a (p * w) ws.old) × Rows w p nb (part b (p * w) ws.old) × Apart left made (in_words carry p) (length vals.old) × Apart right made (in_words carry p) (length vals.old) }
    requires next { Next carry w p to 0 (united_all carry w p a left na b right nb vals.old ws.old) ws.old index.old (value_area carry p made vals.old) }
    ensures steps { Steps carry w p to 0 (united_all carry w p a left na b right nb vals.old ws.old) result ws.old index.old (value_area carry p made vals.old) ws.new index.new (value_area carry p made vals.new) }
    ensures only_area { OnlyArea carry p made vals.old vals.new }
{
    let k = entries::words_of(carry, p);
    let mut r = 0;
    for i in 0..na {
        let ra = a + i * w;
        let va = entries::value_at(&vals[left..left + k], carry, na, i);
        r = unite_with_all(
            ws, row, index, vals, carry, w, p, ra, va, b, right, nb, to, made, r,
        );
        if r > p + 1 {
            return r;
        }
    }
    r
}

// The table at word a, of na rows, becomes its union with the table at word b, of nb rows, which is gone then; made in the words from `to` on. The values of
// the three stand at words `left`, `right` and `made` of vals.
pub fn unite_tables(
    ws: &mut [u32],
    row: &mut [u32],
    index: &mut [u32],
    vals: &mut [u64],
    carry: Carry,
    w: usize,
    p: usize,
    a: usize,
    left: usize,
    na: usize,
    b: usize,
    right: usize,
    nb: usize,
    to: usize,
    made: usize,
) -> usize
    requires le_w { (2 ≤ w) × (w ≤ 4096) × (p ≤ 1024) × (length row.old ≡ w) }
    requires w_bound { (a + p * w ≤ b) × (b + p * w ≤ to) × (to + p * w ≤ length ws.old) }
    requires rows { Rows w p na (part a (p * w) ws.old) × Rows w p nb (part b (p * w) ws.old) × Apart left made (in_words carry p) (length vals.old) × Apart right made (in_words carry p) (length vals.old) }
    requires ws_value { (part to (p * w) ws.old ≡ zeros (p * w)) × (p ≤ length index.old) × Kept carry p 0 (value_area carry p made vals.old) }
    ensures finished { Finished carry w p a (united_all carry w p a left na b right nb vals.old ws.old) result ws.old (put b (p * w) ws.old (zeros (p * w))) ws.new (value_area carry p made vals.new) }
    ensures only_area { OnlyArea carry p made vals.old vals.new }
{
    let r = unite_all(
        ws, row, index, vals, carry, w, p, a, left, na, b, right, nb, to, made,
    );
    making::settle(ws, row, index, w, p, r, na, a, to);
    if r <= p {
        let area = p * w;
        areas::clear_rows(&mut ws[b..b + area], w, p, 0, nb);
    }
    r
}
