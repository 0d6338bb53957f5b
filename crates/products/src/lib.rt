// The unions of two runs' numbers: gathered in any order through a filter, and put in order once.
#![tactic(auto)]

ghost use Rattle.std.specs.Prelude.{◌++◌, map, ◌+◌, ◌≤◌, ◌<◌, length, take};
ghost use Rattle.std.specs.Int.Bits.{bit_or};
ghost use Rattle.lists.specs.Lists.{products};
ghost use Rattle.lists.specs.Sorted.{compare_numbers, second, Rising, insert, insert_all, set_of};
ghost use Rattle.runs.specs.Runs.{Grown, Filled};
ghost use Rattle.products.specs.Filters.{Known, GrownKnown, Gathered};

// The unions of each number of a with q and with the number of b, if there is one, all put into the run. The answer is as runs::insert's.
pub fn insert_few(run: &mut [u32], n: usize, a: &[u32], q: u32, b: &[u32]) -> usize
    requires n_in_bounds { n ≤ length run.old }
    requires rising { Rising compare_numbers (take n run.old) }
    requires b_len_bound { length b.now < 2 }
    ensures { Grown (insert_all compare_numbers second (map (bit_or q) a.now ++ products bit_or a.now b.now) (take n run.old)) result run.old run.new }
{
    let whole = runs::insert_unions(run, n, a, q);
    if b.len() == 0 {
        return whole;
    }
    if run.len() < whole {
        return whole;
    }
    runs::insert_unions(run, whole, a, b[0])
}

// Where the filter may hold x: the product's middle digits spread the numbers over it.
fn slot(x: u32) -> usize
    ensures { result < 1024 }
{
    ((x as u64) * 2654435769 / 4194304 % 1024) as usize
}

// As runs::insert; a number that the filter holds is in the run already.
fn insert_seen(run: &mut [u32], n: usize, seen: &mut [u32; 1024], x: u32) -> usize
    requires n_in_bounds { n ≤ length run.old }
    requires rising { Rising compare_numbers (take n run.old) }
    requires known { Known seen.old (take n run.old) }
    ensures { GrownKnown (insert compare_numbers second x (take n run.old)) result run.old run.new seen.new }
{
    let h = slot(x);
    if seen[h] == x {
        return n;
    }
    let m = runs::insert(run, n, x);
    seen[h] = x;
    m
}

// As runs::insert_unions, through the filter.
fn insert_unions(run: &mut [u32], n: usize, seen: &mut [u32; 1024], src: &[u32], q: u32) -> usize
    requires n_in_bounds { n ≤ length run.old }
    requires rising { Rising compare_numbers (take n run.old) }
    requires known { Known seen.old (take n run.old) }
    ensures { GrownKnown (insert_all compare_numbers second (map (bit_or q) src.now) (take n run.old)) result run.old run.new seen.new }
{
    let mut m = n;
    for x in src {
        m = insert_seen(run, m, seen, q | *x);
        if run.len() < m {
            return m;
        }
    }
    m
}

// x behind the first n numbers, unless the filter holds it.
#[tactic(auto, using(crate::proofs::Filtering::held, crate::proofs::Filtering::appended))]
fn append_seen(run: &mut [u32], n: usize, seen: &mut [u32; 1024], x: u32) -> usize
    requires n_in_bounds { n < length run.old }
    requires known { Known seen.old (set_of (take n run.old)) }
    ensures { (result ≤ n + 1) × Gathered (insert compare_numbers second x (set_of (take n run.old))) result run.new seen.new }
{
    let h = slot(x);
    if seen[h] == x {
        return n;
    }
    seen[h] = x;
    run[n] = x;
    n + 1
}

// The unions of q with each number of src behind the first n numbers, in any order.
fn append_unions(run: &mut [u32], n: usize, seen: &mut [u32; 1024], src: &[u32], q: u32) -> usize
    requires src_in_bounds { n + length src.now ≤ length run.old }
    requires known { Known seen.old (set_of (take n run.old)) }
    ensures { Gathered (insert_all compare_numbers second (map (bit_or q) src.now) (set_of (take n run.old))) result run.new seen.new }
{
    let mut m = n;
    for x in src {
        m = append_seen(run, m, seen, q | *x);
    }
    m
}

// The same in any room: where it may be short, the numbers are put in order first, and each new one in its place.
fn gather_unions(run: &mut [u32], n: usize, seen: &mut [u32; 1024], src: &[u32], q: u32) -> usize
    requires n_in_bounds { n ≤ length run.old }
    requires known { Known seen.old (set_of (take n run.old)) }
    ensures { Gathered (insert_all compare_numbers second (map (bit_or q) src.now) (set_of (take n run.old))) result run.new seen.new }
{
    if src.len() <= run.len() - n {
        return append_unions(run, n, seen, src, q);
    }
    let m = runs::settle(run, n);
    insert_unions(run, m, seen, src, q)
}

// The unions of each number of a with each number of b, gathered in the same way.
fn gather_products(run: &mut [u32], n: usize, seen: &mut [u32; 1024], a: &[u32], b: &[u32]) -> usize
    requires n_in_bounds { n ≤ length run.old }
    requires known { Known seen.old (set_of (take n run.old)) }
    ensures { Gathered (insert_all compare_numbers second (products bit_or a.now b.now) (set_of (take n run.old))) result run.new seen.new }
{
    let mut m = n;
    for x in a {
        m = gather_unions(run, m, seen, b, *x);
        if run.len() < m {
            return m;
        }
    }
    m
}

// The unions of each number of a with q and with each number of b, all put into a run that is not empty. The answer is as runs::insert's.
pub fn insert_products(run: &mut [u32], n: usize, a: &[u32], q: u32, b: &[u32]) -> usize
    requires n_nonzero { (0 < n) × (n ≤ length run.old) }
    requires rising { Rising compare_numbers (take n run.old) }
    ensures { Filled (insert_all compare_numbers second (map (bit_or q) a.now ++ products bit_or a.now b.now) (take n run.old)) result run.new }
{
    // the filter starts with numbers of the run, so it needs no mark for an empty place
    let first = run[0];
    let mut seen = [first; 1024];
    let whole = gather_unions(run, n, &mut seen, a, q);
    if run.len() < whole {
        return whole;
    }
    let m = gather_products(run, whole, &mut seen, a, b);
    if run.len() < m {
        return m;
    }
    runs::settle(run, m)
}
