// The leaves of an expression: the next atom, resolved under assumptions, and the rows of an atom that is in or out, and of a rule.
#![tactic(auto)]

ghost use Rattle.std.specs.Prelude.{◌≡◌, [], ◌∷◌, ℕ, ◌^◌, ◌≤◌, ◌<◌, length};
ghost use Rattle.labels.specs.Labels.{label_count};
ghost use Rattle.labels.specs.Sets.{has};
ghost use Rattle.expression.specs.Limits.{atom_limit};
ghost use Rattle.semantics.specs.AnswerSets.{by_masks};
ghost use Rattle.tables.specs.Triples.{mark_f, mark_u};
ghost use Rattle.values.specs.First.{first_weight};
ghost use Rattle.candidates.specs.Candidates.{pair_of, Readable};
ghost use Rattle.entries.specs.Carries.{carried_by};
ghost use Rattle.leaves.specs.Leaves.{algebra_of, atom_at, Wide};

use entries::Carry;
use expression::limits::ATOM_LIMIT;
use expression::{NewAtom, Pins, Role};
use values::Value;

// Which tables are made: Definition 5's, kept as pairs without subsets, or Definition 8's.
#[derive(Clone, Copy)]
pub enum Tables {
    Plain,
    Pairs,
}

// The next atom, resolved: whether it may be in and may be out under the assumptions, and its value in and out. Its label and role stand in the command.
#[derive(Clone, Copy)]
pub struct Atom {
    pub may_be_in: bool,
    pub may_be_out: bool,
    pub value_in: Value,
    pub value_out: Value,
}

// The value of an atom that is out, of a rule, and of every atom where nothing is carried.
pub const NO_VALUE: Value = Value { high: 0, low: 0 };

// labels::LABELS at the width of a word.
const LABELS: u32 = labels::LABELS as u32;

// The set of the mark m alone.
fn mark(m: u32) -> u32
    requires { m < 32 }
    ensures { result ≡ 2 ^ m }
{
    1 << m
}

// Whether the atom c is in the mask.
fn has_atom(c: u64, mask: u64) -> bool
    requires { c ≤ atom_limit }
    ensures { result ≡ has c mask }
{
    (mask >> c) % 2 == 1
}

// The weight of the atom c in the first interpretation's value. No atom has the number ATOM_LIMIT, but a walk resolves the next one before every command.
fn first_weight(c: u64) -> u64
    requires { c ≤ atom_limit }
    ensures { result ≡ first_weight c }
{
    if c == ATOM_LIMIT {
        return 1;
    }
    1 << (ATOM_LIMIT - (c + 1))
}

// The value of the atom c where it is in.
fn present_value(carry: Carry, c: u64) -> Value
    requires { c ≤ atom_limit }
    ensures { result ≡ (carried_by carry).present c }
{
    match carry {
        Carry::Nothing => NO_VALUE,
        Carry::First => Value {
            high: 0,
            low: first_weight(c),
        },
        Carry::Consequences => {
            let mask = 1 << c;
            Value {
                high: mask,
                low: mask,
            }
        }
    }
}

// The atom c under pins.
pub fn atom_at(carry: Carry, c: u64, pins: Pins) -> Atom
    requires { c ≤ atom_limit }
    ensures { result ≡ atom_at carry (by_masks pins.assumed_true pins.assumed_false) c }
{
    let value_in = present_value(carry, c);
    Atom {
        may_be_in: !has_atom(c, pins.assumed_false),
        may_be_out: !has_atom(c, pins.assumed_true),
        value_in,
        value_out: NO_VALUE,
    }
}

// The row of the triple q, without subsets.
fn write_triple(row: &mut [u32], q: u32)
    requires { 2 ≤ length row.old }
    ensures { Readable row.new × (pair_of row.new ≡ q ∷ []) }
{
    row[0] = q;
    row[1] = 0;
}

// The row of the triple q with the one subset s.
fn write_subset(row: &mut [u32], q: u32, s: u32)
    requires { 3 ≤ length row.old }
    ensures { Readable row.new × (pair_of row.new ≡ q ∷ s ∷ []) }
{
    row[0] = q;
    row[1] = 1;
    row[2] = s;
}

// The row of an atom that is in. In tables of pairs its subset leaves it out; an external one has none.
pub fn write_present(row: &mut [u32], tables: Tables, a: NewAtom)
    requires { (a.label < label_count) × Wide tables (length row.old) }
    ensures { Readable row.new × ((c : ℕ) → pair_of row.new ≡ (algebra_of tables label_count).present c a) }
{
    let q = mark(a.label);
    match tables {
        Tables::Plain => {
            write_triple(row, q);
        }
        Tables::Pairs => {
            let role = a.role;
            match role {
                Role::Derived => {
                    let s = mark(LABELS + a.label);
                    write_subset(row, q, s);
                }
                Role::External => {
                    write_triple(row, q);
                }
            }
        }
    }
}

// The row of an atom of label g that is out.
pub fn write_absent(row: &mut [u32], g: u32)
    requires { (g < label_count) × (2 ≤ length row.old) }
    ensures { Readable row.new × (pair_of row.new ≡ mark_f label_count g ∷ []) }
{
    write_triple(row, mark(LABELS + g));
}

// The row of a rule of label g, which is unmet.
pub fn write_unmet(row: &mut [u32], g: u32)
    requires { (g < label_count) × (2 ≤ length row.old) }
    ensures { Readable row.new × (pair_of row.new ≡ mark_u label_count g ∷ []) }
{
    write_triple(row, mark(2 * LABELS + g));
}
