// The joining order of sinks.
ghost use Rattle.std.specs.Prelude.{◌≡◌, ◌+◌, ◌*◌, ◌<◌, length, set};
ghost use Rattle.lists.specs.Grow.{front};
ghost use Rattle.measures.specs.Boxes.{hull_of};
ghost use Rattle.plane.specs.Said.{told};
ghost use Rattle.orders.specs.Table.{box_at};
ghost use Rattle.nearest.specs.Rounds.{Open, Round};
ghost use Rattle.nearest.specs.Calls.{order_at, check_nearest, Joining};
ghost use Rattle.nearest.specs.Ready.{CanJoin};

use crate::keep;
use measures::boxes;
use measures::boxes::Box;
use orders::table;
use partners::pair::Pair;
use partners::rows::Rows;
use partners::{best, live};
use plane::refusal::Refusal;
use plane::sinks::Sinks;

// Pair i, the lower number first.
fn write_pair(js: &mut [u16], i: usize, p: Pair)
    requires { (2 * i + 1 < length js.old) × (p.low < 65536) × (p.high < 65536) }
    ensures { js.new ≡ set (set js.old (2 * i) p.low) (2 * i + 1) p.high }
{
    let at = 2 * i;
    js[at] = p.low as u16;
    js[at + 1] = p.high as u16;
}

// Node m's box: the hull of a pair.
fn put_hull(bs: &mut [Box], m: usize, p: Pair)
    requires { (m < length bs.old) × (p.low < m) × (p.high < m) }
    ensures { bs.new ≡ set bs.old m (hull_of (box_at bs.old p.low) (box_at bs.old p.high)) }
{
    bs[m] = boxes::hull(bs[p.low], bs[p.high]);
}

// Join i of n sinks: the best pair is joined and written, and what is kept is right again for the live nodes, one fewer.
fn round(bs: &mut [Box], live: &mut [usize], rows: &mut Rows, n: usize, i: usize, js: &mut [u16])
    requires { Open n i bs.old live.old rows.old js.old }
    ensures { Round n i bs.old bs.new live.old live.new rows.new js.old js.new }
{
    let m = n + i;
    let c = best::nearest(live, bs, rows);
    let p = best::pair_at(live, c);
    put_hull(bs, m, p);
    keep::close(live, rows, c, bs[m], m);
    write_pair(js, i, p);
}

// The joining order of sinks that were checked, where the buffer has room for it.
pub fn order_sound(sinks: &Sinks<'_>, js: &mut [u16])
    requires { CanJoin sinks.now.xs.now sinks.now.ys.now sinks.now.delays.now js.old }
    ensures { js.new ≡ front (order_at sinks.now.xs.now sinks.now.ys.now sinks.now.delays.now) js.old }
{
    let n = sinks.xs.len();
    let mut bs = [boxes::BLANK; 1023];
    let mut live = [0usize; 512];
    let mut rows = Rows::blank();
    table::put_sinks(sinks, &mut bs);
    live::begin(&mut live[..n]);
    keep::begin(&bs, &mut rows, n);
    for i in 0..n - 1 {
        round(&mut bs, &mut live[..n - i], &mut rows, n, i, js);
    }
}

// Refusals 1 to 4 and 15, and 7 where the buffer of joins is too short.
#[tactic(auto, using(plane::proofs::Checks::accepted), unfolding(crate::specs::Calls::check_nearest))]
pub fn check_nearest(sinks: &Sinks<'_>, room: usize) -> Result<(), Refusal>
    ensures { result ≡ check_nearest sinks.now.xs.now sinks.now.ys.now sinks.now.delays.now room }
{
    sinks.check(512)?;
    if room < 2 * (sinks.xs.len() - 1) {
        return Err(Refusal::Room);
    }
    Ok(())
}

// Refusals 1 to 4, 15 and 7, else the joining order in the lent buffer.
#[tactic(auto, using(crate::proofs::Passing::ready))]
pub fn join_nearest(sinks: &Sinks<'_>, js: &mut [u16]) -> Result<(), Refusal>
    ensures { Joining sinks.now.xs.now sinks.now.ys.now sinks.now.delays.now js.old (told result) js.new }
{
    check_nearest(sinks, js.len())?;
    order_sound(sinks, js);
    Ok(())
}
