// The rows: the first whose partner is nearest, and the nearest of the live nodes after one.
ghost use Rattle.std.specs.Prelude.{◌≡◌, ◌+◌, ◌≤◌, ◌<◌, eqb, length, position};
ghost use Rattle.measures.specs.Boxes.{InOrder};
ghost use Rattle.partners.specs.Rows.{row_at, SameRows, Least, FirstLeast, Lowest, NearestAfter};

use crate::pair::Near;
use crate::rows::Rows;

// The least of some numbers. It is found apart from where it stands: so many numbers at a time can be looked at.
fn least(ds: &[u32]) -> u32
    requires { 0 < length ds.now }
    ensures { Least ds.now result }
{
    let mut d = ds[0];
    for e in ds {
        d = d.min(*e);
    }
    d
}

// The first of the numbers that is d.
fn first_at(ds: &[u32], d: u32) -> Option<usize>
    ensures { result ≡ position (λ e. eqb e d) ds.now }
{
    ds.iter().position(|e| *e == d)
}

// The first of the least of some numbers. It is a function of its own also when it runs: so its loop has one index, and not one for each array that a caller reads by it.
#[inline(never)]
fn first_least(ds: &[u32]) -> usize
    requires { 0 < length ds.now }
    ensures { FirstLeast ds.now result }
{
    first_at(ds, least(ds)).unwrap()
}

// Of k rows, the first of those whose partner is nearest.
pub fn lowest(rows: &Rows, k: usize) -> usize
    requires { (0 < k) × (k ≤ 512) }
    ensures { Lowest rows.now k result }
{
    first_least(&rows.far[..k])
}

// The first of the nearest of the live nodes after row a. How far each is stands beside its row; no row changes.
pub fn partner(rows: &mut Rows, live: &[usize], a: usize) -> Near
    requires { (a + 1 < length live.now) × (length live.now ≤ 512) × InOrder (row_at rows.old a).box }
    ensures { NearestAfter rows.old live.now a result × SameRows rows.old rows.new }
{
    let b = rows.box_in(a);
    let from = a + 1;
    let k = live.len();
    rows.spans(from, k, b);
    let t = from + first_least(&rows.aside[from..k]);
    Near {
        at: live[t],
        far: rows.aside[t],
    }
}
