// Whether words have the form that the rows of a running record's tables must have (01: 18).
#![tactic(auto)]

ghost use Rattle.std.specs.Prelude.{◌≡◌, true, false, ◌&&◌, ◌*◌, ◌^◌, ◌≤◌, ltb, length};
ghost use Rattle.lists.specs.Lists.{every};
ghost use Rattle.lists.specs.Sorted.{by_order, compare_numbers, compare_lists};
ghost use Rattle.labels.specs.Labels.{label_count};
ghost use Rattle.candidates.specs.Candidates.{pair_of, Readable};
ghost use Rattle.forms.specs.Forms.{are_zero, is_rising, is_row};

// A triple is three sets of labels::LABELS labels.
pub const TRIPLE_LIMIT: u32 = 1 << (3 * labels::LABELS as u32);

// Whether the words are all 0.
pub fn are_zero(part: &[u32]) -> bool
    ensures { result ≡ are_zero part.now }
{
    part.iter().all(|word| *word == 0)
}

// Whether the counts are all 0.
pub fn are_zero_counts(counts: &[u64]) -> bool
    ensures { result ≡ are_zero counts.now }
{
    counts.iter().all(|count| *count == 0)
}

// Whether the triples are under the limit and strictly rise. `low` is the least that the next one may be.
fn triples_rise(triples: &[u32]) -> bool
    ensures { result ≡ (every (λ v. ltb v (2 ^ (3 * label_count))) triples.now && is_rising compare_numbers triples.now) }
{
    let mut low = 0;
    for &x in triples {
        if TRIPLE_LIMIT <= x {
            return false;
        }
        if x < low {
            return false;
        }
        low = x + 1;
    }
    true
}

// Whether the words are a row: a pair that they have room for, its triples in order, zeros behind it.
pub fn is_row(row: &[u32]) -> bool
    requires { (2 ≤ length row.now) × (length row.now ≤ 4096) }
    ensures { result ≡ is_row label_count row.now }
{
    let n = row[1] as usize;
    if row.len() - 2 < n {
        return false;
    }
    if TRIPLE_LIMIT <= row[0] {
        return false;
    }
    if !triples_rise(&row[2..2 + n]) {
        return false;
    }
    are_zero(&row[2 + n..])
}

// Whether the words are a row whose pair comes after that of the previous row.
pub fn is_next_row(previous: &[u32], row: &[u32]) -> bool
    requires readable { Readable previous.now }
    requires in_bounds { (2 ≤ length row.now) × (length row.now ≤ 4096) }
    ensures { result ≡ (is_row label_count row.now && by_order (compare_lists (pair_of previous.now) (pair_of row.now)) true false false) }
{
    is_row(row) && rows::compare_rows(previous, row).is_lt()
}
