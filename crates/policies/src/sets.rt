// Sixteen sets of numbers under 8: set k is byte k of two words, and member x of it is bit x. Sets count modulo 16. Words, not an array of bytes: the
// functions below are public, and would ask for narrower sets.

// labels::LABELS at the width of a word.
const LABELS: u64 = labels::LABELS as u64;

#[derive(Clone, Copy, Default)]
pub struct Sets {
    pub low: u64,
    pub high: u64,
}

pub fn no_sets() -> Sets {
    Sets::default()
}

// Set k alone.
fn placed(set: u64, k: u64) -> Sets {
    let byte = set << (8 * (k % 8));
    if k % 16 < 8 {
        return Sets { low: byte, high: 0 };
    }
    Sets { low: 0, high: byte }
}

pub fn set_at(sets: Sets, k: u64) -> u64 {
    let mut word = sets.high;
    if k % 16 < 8 {
        word = sets.low;
    }
    (word >> (8 * (k % 8))) % 256
}

// Set k with more members.
pub fn with(sets: Sets, k: u64, more: u64) -> Sets {
    let set = placed(more, k);
    Sets {
        low: sets.low | set.low,
        high: sets.high | set.high,
    }
}

// A part of set i moved to set j.
pub fn moved(sets: Sets, i: u64, j: u64, part: u64) -> Sets {
    let gone = placed(part, i);
    let left = Sets {
        low: sets.low & !gone.low,
        high: sets.high & !gone.high,
    };
    with(left, j, part)
}

// The labels whose sets have a member of `set`.
pub fn meeting(sets: Sets, set: u64) -> u32 {
    let mut numbers: u32 = 0;
    for k in 0..LABELS {
        if set_at(sets, k) & set != 0 {
            numbers |= 1 << k;
        }
    }
    numbers
}

// More members in each set of a rule that has its number in `numbers`.
pub fn linked(sets: Sets, numbers: u64, more: u64) -> Sets {
    let mut next = sets;
    for k in 0..8 {
        if (numbers >> k) % 2 == 1 {
            next = with(next, k, more);
        }
    }
    next
}
