// Rows with values carried beside them in 64-bit words: merged where equal rows meet, moved along with the rows.
#![tactic(auto)]

ghost use Rattle.std.specs.Prelude.{◌≡◌, ◌+◌, ◌^◌, ◌<◌, ◌≤◌, min, ◌∷◌, ◌++◌, length, take, drop, slice_index_or};
ghost use Rattle.candidates.specs.Candidates.{pair_of, Readable};
ghost use Rattle.rows.specs.Rows.{Indexed};
ghost use Rattle.values.specs.Values.{no_value};
ghost use Rattle.entries.specs.Carries.{carried_by, Keeps, in_words, values_in, Beside, KeptWords, Kept};
ghost use Rattle.entries.specs.Entries.{Entered};

use rows::Placed;
use values::Value;

// What the words beside the rows keep: none, one word a row, two words a row.
#[derive(Clone, Copy)]
pub enum Carry {
    Nothing,
    First,
    Consequences,
}

// How many words m values take.
pub fn words_of(carry: Carry, m: usize) -> usize
    requires { in_words carry m < 2 ^ 64 }
    ensures { result ≡ in_words carry m }
{
    match carry {
        Carry::Nothing => 0,
        Carry::First => m,
        Carry::Consequences => 2 * m,
    }
}

pub fn lesser(a: u64, b: u64) -> u64
    ensures { result ≡ min a b }
{
    if a < b { a } else { b }
}

// The value of either of two interpretations.
#[tactic(auto, unfolding(values::specs::Consequences::consequences))]
pub fn either(carry: Carry, a: Value, b: Value) -> Value
    ensures { result ≡ (carried_by carry).either a b }
{
    match carry {
        Carry::Nothing => Value { high: 0, low: 0 },
        Carry::First => Value {
            high: 0,
            low: lesser(a.low, b.low),
        },
        Carry::Consequences => Value {
            high: a.high | b.high,
            low: a.low & b.low,
        },
    }
}

// The value of two parts of one interpretation.
#[tactic(auto, unfolding(values::specs::Consequences::consequences))]
pub fn together(carry: Carry, a: Value, b: Value) -> Value
    ensures { result ≡ (carried_by carry).together a b }
{
    match carry {
        Carry::Nothing => Value { high: 0, low: 0 },
        Carry::First => Value {
            high: 0,
            low: std::num::wrapping_add_u64(a.low, b.low),
        },
        Carry::Consequences => Value {
            high: a.high | b.high,
            low: a.low | b.low,
        },
    }
}

// The value of row i of m.
pub fn value_at(vals: &[u64], carry: Carry, m: usize, i: usize) -> Value
    requires { Beside carry m vals.now × (i < m) }
    ensures { result ≡ slice_index_or (values_in carry m vals.now) i no_value }
{
    match carry {
        Carry::Nothing => Value { high: 0, low: 0 },
        Carry::First => {
            let low = vals[i];
            Value { high: 0, low }
        }
        Carry::Consequences => {
            let high = vals[2 * i];
            let low = vals[2 * i + 1];
            Value { high, low }
        }
    }
}

// Of p words m are taken: x goes to place k of them, and those from there on one place up.
fn push_word(vals: &mut [u64], p: usize, m: usize, k: usize, x: u64)
    requires { KeptWords p m vals.old × (k ≤ m) × (m < p) }
    ensures { KeptWords p (m + 1) vals.new × (take (m + 1) vals.new ≡ take k (take m vals.old) ++ x ∷ drop k (take m vals.old)) }
{
    runs::push_front(&mut vals[k..m + 1], x);
}

// Likewise the two words of v.
fn push_both(vals: &mut [u64], p: usize, m: usize, k: usize, v: Value)
    requires { KeptWords p m vals.old × (k ≤ m) × (m + 1 < p) }
    ensures { KeptWords p (m + 2) vals.new × (take (m + 2) vals.new ≡ take k (take m vals.old) ++ v.high ∷ v.low ∷ drop k (take m vals.old)) }
{
    push_word(vals, p, m, k, v.low);
    push_word(vals, p, m + 1, k, v.high);
}

// v goes to place k of the m values, and those from there on one place up.
fn push_value(vals: &mut [u64], carry: Carry, p: usize, m: usize, k: usize, v: Value)
    requires kept { Kept carry p m vals.old × Keeps carry v }
    requires k_le_m { (k ≤ m) × (m < p) }
    ensures { Kept carry p (m + 1) vals.new × (values_in carry (m + 1) vals.new ≡ take k (values_in carry m vals.old) ++ v ∷ drop k (values_in carry m vals.old)) }
{
    match carry {
        Carry::Nothing => {}
        Carry::First => {
            push_word(vals, p, m, k, v.low);
        }
        Carry::Consequences => {
            push_both(vals, 2 * p, 2 * m, 2 * k, v);
        }
    }
}

// v takes place k of the m values.
fn put_value(vals: &mut [u64], carry: Carry, p: usize, m: usize, k: usize, v: Value)
    requires kept { Kept carry p m vals.old × Keeps carry v }
    requires k_lt_m { (k < m) × (m ≤ p) }
    ensures { Kept carry p m vals.new × (values_in carry m vals.new ≡ take k (values_in carry m vals.old) ++ v ∷ drop (k + 1) (values_in carry m vals.old)) }
{
    match carry {
        Carry::Nothing => {}
        Carry::First => {
            vals[k] = v.low;
        }
        Carry::Consequences => {
            vals[2 * k] = v.high;
            vals[2 * k + 1] = v.low;
        }
    }
}

// v and the value at place k merge there.
fn merge_value(vals: &mut [u64], carry: Carry, p: usize, m: usize, k: usize, v: Value)
    requires kept { Kept carry p m vals.old }
    requires k_lt_m { (k < m) × (m ≤ p) }
    ensures { Kept carry p m vals.new × (values_in carry m vals.new ≡ take k (values_in carry m vals.old) ++ (carried_by carry).either v (slice_index_or (values_in carry m vals.old) k no_value) ∷ drop (k + 1) (values_in carry m vals.old)) }
{
    let old = value_at(vals, carry, m, k);
    let merged = either(carry, v, old);
    put_value(vals, carry, p, m, k, merged);
}

// The row with its value put among the m rows; where its equal stands, the values merge. The answer is the new count, or p + 1 where there is no room.
pub fn insert_entry(
    area: &mut [u32],
    index: &mut [u32],
    vals: &mut [u64],
    carry: Carry,
    w: usize,
    p: usize,
    m: usize,
    row: &[u32],
    v: Value,
) -> usize
    requires le_w { (2 ≤ w) × (p ≤ 1024) }
    requires indexed { Indexed w p m area.old index.old }
    requires kept { Kept carry p m vals.old × Keeps carry v }
    requires readable { Readable row.now × (length row.now ≡ w) }
    ensures { Entered carry w p m result (record { item = pair_of row.now; value = v }) area.old index.old vals.old area.new index.new vals.new }
{
    let r = indexes::insert_row(area, index, w, p, m, row);
    match r {
        Placed::New(k) => {
            push_value(vals, carry, p, m, k, v);
            m + 1
        }
        Placed::Old(k) => {
            merge_value(vals, carry, p, m, k, v);
            m
        }
        Placed::Full => p + 1,
    }
}
