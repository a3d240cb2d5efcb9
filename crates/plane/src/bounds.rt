// Boxes for callers: the box of all sinks, and a box with one more sink.
ghost use Rattle.std.specs.Prelude.{◌≡◌, ◌+◌, ◌-◌, ◌<◌};
ghost use Rattle.lists.specs.Grow.{up_to};
ghost use Rattle.zero_skew.specs.Box.{across};
ghost use Rattle.plane.specs.Sinks.{sinks_in, count, Fit};
ghost use Rattle.measures.specs.Covers.{Covers};
ghost use Rattle.plane.specs.Said.{told};
ghost use Rattle.plane.specs.Bounds.{bounds, bounds_in, box_answer, seen, widened_by, verdict, Widens};

use crate::refusal::Refusal;
use crate::sinks;
use crate::sinks::Sinks;
use measures::boxes::Box;
use measures::{boxes, measure};

// A held box after one more sink, and what was said of the sink.
#[derive(Clone, Copy)]
pub struct Widening {
    pub held: Box,
    pub said: Result<(), Refusal>,
}

// The four numbers of a box, with sign.
#[derive(Clone, Copy)]
pub struct Extent {
    pub least_u: i64,
    pub greatest_u: i64,
    pub least_v: i64,
    pub greatest_v: i64,
}

pub fn ends(b: Box) -> Extent
    ensures { bounds_in result ≡ bounds b }
{
    Extent {
        least_u: measure::signed(b.lu),
        greatest_u: measure::signed(b.hu),
        least_v: measure::signed(b.lv),
        greatest_v: measure::signed(b.hv),
    }
}

// The diameter of a box, whatever numbers it holds.
#[tactic(auto, using(crate::proofs::Unlifted::diam_is))]
pub fn diameter(b: Box) -> u32
    ensures { result ≡ across (bounds b) }
{
    boxes::diameter(b)
}

// The box of all of them.
fn box_sound(sinks: &Sinks<'_>) -> Box
    requires { Fit sinks.now × (0 < count sinks.now) }
    ensures { Covers (sinks_in sinks.now) (up_to (count sinks.now)) result }
{
    let mut b = sinks::box_at(sinks, 0);
    for i in 1..sinks.xs.len() {
        b = boxes::hull(b, sinks::box_at(sinks, i));
    }
    b
}

// The box of all sinks, or refusal 1 to 4 or 15.
#[tactic(auto, using(crate::proofs::Checks::accepted, crate::proofs::Checks::fitting, crate::proofs::Covering::covers_box), unfolding(crate::specs::Bounds::box_answer))]
pub fn box_of(sinks: &Sinks<'_>) -> Result<Box, Refusal>
    ensures { seen result ≡ box_answer sinks.now.xs.now sinks.now.ys.now sinks.now.delays.now }
{
    sinks.check(512)?;
    Ok(box_sound(sinks))
}

// What is said of one more sink: refusal 4, then 15, both at place 0.
pub fn verdict_on(x: i32, y: i32, w: u32) -> Result<(), Refusal>
    ensures { result ≡ verdict x y w }
{
    if !sinks::inside(x, y) {
        return Err(Refusal::Outside(0));
    }
    if measure::is_late(w) {
        return Err(Refusal::Late(0));
    }
    Ok(())
}

// The box with one more sink; the box itself where the sink or its delay is out of range.
pub fn enlarged(b: Box, x: i32, y: i32, w: u32) -> Box
    ensures { bounds result ≡ widened_by (bounds b) x y w }
{
    match verdict_on(x, y, w) {
        Ok(()) => boxes::hull(b, boxes::sink_box(x, y, w)),
        Err(_) => b,
    }
}

// A held box, widened by one more sink. Where the sink is refused, with 4 or 15, place 0, the box stays.
pub fn widened(b: Box, x: i32, y: i32, w: u32) -> Widening
    ensures { Widens (bounds b) x y w (bounds result.held) (told result.said) }
{
    Widening {
        held: enlarged(b, x, y, w),
        said: verdict_on(x, y, w),
    }
}
