// The values of a table that was made, put beside those of the other tables.
#![tactic(auto)]

ghost use Rattle.std.specs.Prelude.{◌≡◌, ◌+◌, ◌≤◌, ◌<◌, length};
ghost use Rattle.workspace.specs.Workspace.{values_from, moved_to, placed};

use entries::Carry;

// The n words at word `from` go to word `to`, and are zero then.
fn move_words(vals: &mut [u64], to: usize, from: usize, n: usize)
    requires { (to + n ≤ from) × (from + n ≤ length vals.old) }
    ensures { vals.new ≡ moved_to to from n vals.old }
{
    vals.copy_within(from..from + n, to);
    vals[from..from + n].fill(0);
}

// The r values that were made, in the last of d areas, become those of table i.
pub fn move_values(vals: &mut [u64], carry: Carry, d: usize, p: usize, i: usize, r: usize)
    requires { (r ≤ p) × (i + 1 < d) × (values_from carry p d ≤ length vals.old) }
    ensures { vals.new ≡ placed carry d p i r vals.old }
{
    let k = entries::words_of(carry, p);
    let n = entries::words_of(carry, r);
    move_words(vals, i * k, (d - 1) * k, n);
}
