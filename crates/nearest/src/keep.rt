// The live nodes and their rows, from join to join.
ghost use Rattle.std.specs.Prelude.{◌-◌, ◌≤◌, ◌<◌, length};
ghost use Rattle.lists.specs.Grow.{up_to};
ghost use Rattle.measures.specs.Boxes.{InOrder};
ghost use Rattle.partners.specs.Boxes.{Upright};
ghost use Rattle.partners.specs.Rows.{row_at, skip_both, Right, Seated, Entered, Closed};

use measures::boxes::Box;
use partners::best::Choice;
use partners::live;
use partners::pair::Near;
use partners::rows::Rows;

// Node m with box b comes after k rows that were held against it. The last of them had no later node, so this one is its partner, whatever it kept.
fn seat(rows: &mut Rows, k: usize, b: Box, m: usize)
    requires { (k < 512) × (m < 1024) × InOrder b }
    ensures { Seated k b m rows.old rows.new }
{
    rows.put_row(k, b);
    if k == 0 {
        return;
    }
    let last = k - 1;
    let e = rows.span(last, b);
    rows.give(last, Near { at: m, far: e });
}

// Node m with box b enters after k rows.
fn enter(rows: &mut Rows, k: usize, b: Box, m: usize)
    requires { (k < 512) × (m < 1024) × InOrder b }
    ensures { Entered k b m (row_at rows.old) (row_at rows.new) }
{
    rows.hold(k, b, m as u32);
    seat(rows, k, b, m);
}

// The two rows of a pair leave k of them, and node m with box b enters after the others. Those between the two move up by one place, those after both by two, and each is held against the new node on its way: so each is gone over once.
fn close_rows(rows: &mut Rows, k: usize, c: Choice, b: Box, m: usize)
    requires { (k ≤ 512) × (c.row < c.with) × (c.with < k) × (m < 1024) × InOrder b }
    ensures { Entered (k - 2) b m (λ t. row_at rows.old (skip_both c t)) (row_at rows.new) }
{
    let w = c.with - 1;
    let n = m as u32;
    rows.hold(c.row, b, n);
    rows.take::<1>(c.row, w, b, n);
    rows.take::<2>(w, k - 2, b, n);
    seat(rows, k - 2, b, m);
}

// The two nodes of a pair leave with their rows, and node m with box b is live after all others.
pub fn close(live: &mut [usize], rows: &mut Rows, c: Choice, b: Box, m: usize)
    requires { (length live.old ≤ 512) × (c.row < c.with) × (c.with < length live.old) × (m < 1024) × InOrder b }
    ensures { Closed c b m live.old live.new rows.old rows.new }
{
    let k = live.len();
    let w = c.with - 1;
    close_rows(rows, k, c, b, m);
    live::up::<1>(live, c.row, w);
    live::up::<2>(live, w, k - 2);
    live[k - 2] = m;
}

// The rows of all sinks.
pub fn begin(bs: &[Box], rows: &mut Rows, n: usize)
    requires { (n ≤ 512) × (n ≤ length bs.now) × Upright n bs.now }
    ensures { Right bs.now (up_to n) n (row_at rows.new) }
{
    for i in 0..n {
        enter(rows, i, bs[i], i);
    }
}
