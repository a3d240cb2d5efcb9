// The segment of a box, and the place that a node takes in it.
ghost use Rattle.std.specs.Prelude.{◌≡◌, ◌*◌, ◌≤◌};
ghost use Rattle.measures.specs.Measures.{low_of, high_of, near_of};
ghost use Rattle.measures.specs.Boxes.{diam_of, Fair};
ghost use Rattle.measures.specs.Spots.{root_of, nearest_of};

use crate::boxes::Box;
use crate::measure;
use crate::measure::{Doubled, Tilted};

// A place, in doubled coordinates.
#[derive(Clone, Copy)]
pub struct Spot {
    pub u: Doubled,
    pub v: Doubled,
}

// The least place of a box's segment; d is its diameter.
pub fn root_spot(b: Box, d: u32) -> Spot
    requires { Fair b × (d ≡ diam_of b) }
    ensures { result ≡ root_of b }
{
    Spot {
        u: measure::low_end(b.hu, d),
        v: measure::low_end(b.hv, d),
    }
}

// On one axis: the value of a segment nearest to p.
fn nearest_on(lo: Tilted, hi: Tilted, d: u32, p: Doubled) -> Doubled
    requires { (hi.0 ≤ 78000000) × (d ≤ 2 * hi.0) × (lo.0 ≤ 78000000) × (d ≤ 28000000) }
    ensures { result ≡ near_of (low_of hi d) (high_of lo d) p }
{
    measure::nearest(measure::low_end(hi, d), measure::high_end(lo, d), p)
}

// The place of a box's segment that is nearest to p on each axis; d is its diameter.
pub fn nearest_spot(b: Box, d: u32, p: Spot) -> Spot
    requires { Fair b × (d ≡ diam_of b) }
    ensures { result ≡ nearest_of b p }
{
    Spot {
        u: nearest_on(b.lu, b.hu, d, p.u),
        v: nearest_on(b.lv, b.hv, d, p.v),
    }
}
