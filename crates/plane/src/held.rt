// A box by `&mut`, widened where it stands.
ghost use Rattle.plane.specs.Said.{told};
ghost use Rattle.plane.specs.Bounds.{bounds, Widens};

use crate::bounds;
use crate::refusal::Refusal;
use measures::boxes::Box;

// Thin over the box by value: callers that hold no reference use `bounds::widened`.
pub fn widen(b: &mut Box, x: i32, y: i32, w: u32) -> Result<(), Refusal>
    ensures { Widens (bounds b.old) x y w (bounds b.new) (told result) }
{
    *b = bounds::enlarged(*b, x, y, w);
    bounds::verdict_on(x, y, w)
}
