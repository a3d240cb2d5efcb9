// The check of sinks: refusals 1 to 4 and 15.
ghost use Rattle.std.specs.Prelude.{◌≡◌, [], ◌∷◌, ◌&&◌, ◌<◌, pos, length, get_or, position};
ghost use Rattle.std.specs.List.{zip};
ghost use Rattle.lists.specs.First.{any};
ghost use Rattle.measures.specs.Range.{in_range, late};
ghost use Rattle.measures.specs.Boxes.{sink_box};
ghost use Rattle.measures.specs.Covers.{Covers};
ghost use Rattle.plane.specs.Sinks.{out_of_range, too_late, check_places, check_sinks, sinks_in, count, Fit, Placed};

use crate::refusal::Refusal;
use measures::boxes::Box;
use measures::{boxes, measure};

// The sinks of a call: sink i stands at xs[i] and ys[i], and has the delay delays[i]. They are three lists, as callers from C lend them, and what a call asks of them its check says.
#[derive(Clone, Copy)]
pub struct Sinks<'a> {
    pub xs: &'a [i32],
    pub ys: &'a [i32],
    pub delays: &'a [u32],
}

// Whether a sink may stand at x and y.
pub fn inside(x: i32, y: i32) -> bool
    ensures { result ≡ (in_range x && in_range y) }
{
    measure::in_range(x) && measure::in_range(y)
}

fn first_outside(xs: &[i32], ys: &[i32]) -> Option<usize>
    ensures { result ≡ position out_of_range (zip xs.now ys.now) }
{
    xs.iter().zip(ys).position(|(x, y)| !inside(*x, *y))
}

fn first_late(delays: &[u32]) -> Option<usize>
    ensures { result ≡ position late delays.now }
{
    delays.iter().position(|w| measure::is_late(*w))
}

// Whether one of them is late. The greatest is found first: no turn of the loop ends it, so that the compiler takes many at once.
#[tactic(auto, using(crate::proofs::Checks::late_more))]
fn any_late(delays: &[u32]) -> bool
    ensures { result ≡ any (too_late delays.now) (length delays.now) }
{
    let mut most: u32 = 0;
    for w in delays {
        most = most.max(*w);
    }
    measure::is_late(most)
}

// Refusals 1 to 4 in order, of sinks without a list of delays, where at most `limit` sinks are taken.
#[tactic(auto, using(crate::proofs::Found::outside_found), unfolding(crate::specs::Sinks::check_places))]
pub fn check_places(xs: &[i32], ys: &[i32], limit: usize) -> Result<(), Refusal>
    ensures { result ≡ check_places limit xs.now ys.now }
{
    let n = xs.len();
    if n != ys.len() {
        return Err(Refusal::Lists);
    }
    if n == 0 {
        return Err(Refusal::NoSink);
    }
    if limit < n {
        return Err(Refusal::TooMany);
    }
    if let Some(i) = first_outside(xs, ys) {
        return Err(Refusal::Outside(i));
    }
    Ok(())
}

// The box of the place of sink i, without its delay.
pub fn place_at(xs: &[i32], ys: &[i32], i: usize) -> Box
    requires { Placed xs.now ys.now i }
    ensures { result ≡ sink_box (get_or xs.now i (pos 0)) (get_or ys.now i (pos 0)) 0 }
{
    boxes::sink_box(xs[i], ys[i], 0)
}

impl Sinks<'_> {
    // Refusals 1 to 4 and 15 in order, where at most `limit` sinks are taken.
    #[tactic(auto, using(crate::proofs::Found::late_found), unfolding(crate::specs::Sinks::check_sinks))]
    pub fn check(&self, limit: usize) -> Result<(), Refusal>
        ensures { result ≡ check_sinks limit self.now.xs.now self.now.ys.now self.now.delays.now }
    {
        if self.xs.len() != self.delays.len() {
            return Err(Refusal::Lists);
        }
        check_places(self.xs, self.ys, limit)?;
        if any_late(self.delays) {
            if let Some(i) = first_late(self.delays) {
                return Err(Refusal::Late(i));
            }
        }
        Ok(())
    }
}

// The box of sink i.
pub fn box_at(sinks: &Sinks<'_>, i: usize) -> Box
    requires { Fit sinks.now × (i < count sinks.now) }
    ensures { Covers (sinks_in sinks.now) (i ∷ []) result }
{
    boxes::sink_box(sinks.xs[i], sinks.ys[i], sinks.delays[i])
}
