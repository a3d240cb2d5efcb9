// The box of four numbers, by value.
ghost use Rattle.std.specs.Prelude.{◌≡◌, ◌≤◌};
ghost use Rattle.measures.specs.Range.{Central, Brief};
ghost use Rattle.measures.specs.Boxes.{around_box, sink_box, hull_of, diam_of, InOrder, numbers_of, box_in};

use crate::measure;
use crate::measure::Tilted;

// The least and the greatest u and v of a set of sinks.
#[derive(Clone, Copy)]
pub struct Box {
    pub lu: Tilted,
    pub hu: Tilted,
    pub lv: Tilted,
    pub hv: Tilted,
}

// What stands in an array of boxes where none is put yet.
pub const BLANK: Box = Box {
    lu: measure::CORNER,
    hu: measure::CORNER,
    lv: measure::CORNER,
    hv: measure::CORNER,
};

// The box that reaches w to each side of u and v.
fn around(u: Tilted, v: Tilted, w: u32) -> Box
    requires { (u.0 ≤ 72000000) × (v.0 ≤ 72000000) × Brief w × (w ≤ u.0) × (w ≤ v.0) }
    ensures { result ≡ around_box u v w }
{
    Box {
        lu: measure::less(u, w),
        hu: measure::more(u, w),
        lv: measure::less(v, w),
        hv: measure::more(v, w),
    }
}

// The box of one sink.
pub fn sink_box(x: i32, y: i32, w: u32) -> Box
    requires { Central x × Central y × Brief w }
    ensures { result ≡ sink_box x y w }
{
    let gx = measure::on_grid(x);
    let gy = measure::on_grid(y);
    around(measure::tilted_u(gx, gy), measure::tilted_v(gx, gy), w)
}

// The box of two sets together.
pub fn hull(a: Box, b: Box) -> Box
    ensures { result ≡ hull_of a b }
{
    Box {
        lu: a.lu.min(b.lu),
        hu: a.hu.max(b.hu),
        lv: a.lv.min(b.lv),
        hv: a.hv.max(b.hv),
    }
}

// The larger of the two widths.
#[tactic(auto, unfolding(crate::specs::Boxes::diam_of))]
pub fn diameter(b: Box) -> u32
    ensures { result ≡ diam_of b }
{
    let wu = measure::width(b.lu, b.hu);
    let wv = measure::width(b.lv, b.hv);
    wu.max(wv)
}

// The same, where the ends of both axes stand in order: a plain difference each. It is a function of its own for speed: of the seventy-two instructions of the loop that holds rows it saves twelve.
#[tactic(auto, unfolding(crate::specs::Boxes::diam_of))]
pub fn breadth(b: Box) -> u32
    requires { InOrder b }
    ensures { result ≡ diam_of b }
{
    let ru = measure::rise(b.lu, b.hu);
    let rv = measure::rise(b.lv, b.hv);
    ru.max(rv)
}

// A box as four numbers in memory that a caller keeps, and the box that four numbers stand for: any four do.
impl From<Box> for [u32; 4] {
    ghost from_gives = { λ b n. n ≡ numbers_of b };

    fn from(b: Box) -> [u32; 4] {
        [b.lu.into(), b.hu.into(), b.lv.into(), b.hv.into()]
    }
}

impl From<[u32; 4]> for Box {
    ghost from_gives = { λ n b. b ≡ box_in n };

    fn from([lu, hu, lv, hv]: [u32; 4]) -> Box {
        Box {
            lu: lu.into(),
            hu: hu.into(),
            lv: lv.into(),
            hv: hv.into(),
        }
    }
}
