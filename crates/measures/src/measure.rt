// The three measures. Each is held as an unsigned number, counted from a far corner of the plane (the prover's arithmetic reads naturals),
// and the number is private to this module: a sum of two unlike ones does not compile. A tilted one converts to its number and back.
ghost use Rattle.std.specs.Prelude.{◌≡◌, ◌*◌, ◌^◌, ◌≤◌, ◌<◌};
ghost use Rattle.measures.specs.Range.{in_range, late, Central, Brief};
ghost use Rattle.measures.specs.Measures.{kept_as, grid_of, u_of, v_of, less_of, more_of, gap, low_of, high_of, near_of, lowered, raised, unlifted};

// A coordinate x or y, in grid units.
#[derive(Clone, Copy)]
pub struct Grid(u32);

// A coordinate u or v, in grid units.
#[derive(Clone, Copy, PartialEq, Eq, PartialOrd, Ord)]
pub struct Tilted(u32);

// The far corner of the plane, from which they are counted.
pub const CORNER: Tilted = Tilted(0);

// A coordinate U or V, in half grid units.
#[derive(Clone, Copy, PartialEq, Eq, PartialOrd, Ord)]
pub struct Doubled(u32);

// The number that stands for a tilted coordinate in memory that a caller keeps, and the coordinate that a number stands for: every number does.
impl From<Tilted> for u32 {
    ghost from_gives = { λ a n. n ≡ a.0 };

    fn from(a: Tilted) -> u32 {
        a.0
    }
}

impl From<u32> for Tilted {
    ghost from_gives = { λ n a. a ≡ kept_as n };

    fn from(n: u32) -> Tilted {
        Tilted(n)
    }
}

// Whether x may be the coordinate of a sink.
pub fn in_range(x: i32) -> bool
    ensures { result ≡ in_range x }
{
    -1000000 <= x && x <= 1000000
}

// Whether no sink may have the delay w.
pub fn is_late(w: u32) -> bool
    ensures { result ≡ late w }
{
    1000000 < w
}

// No `From`: it could not ask that x is near. Nor a `TryFrom`: callers have checked x, and would test it again.
pub fn on_grid(x: i32) -> Grid
    requires { Central x }
    ensures { result ≡ grid_of x }
{
    Grid((x + 32000000) as u32)
}

pub fn tilted_u(x: Grid, y: Grid) -> Tilted
    requires { (x.0 ≤ 36000000) × (y.0 ≤ 36000000) }
    ensures { result ≡ u_of x y }
{
    Tilted(x.0 + y.0)
}

pub fn tilted_v(x: Grid, y: Grid) -> Tilted
    requires { (x.0 ≤ 36000000) × (y.0 ≤ 36000000) }
    ensures { result ≡ v_of x y }
{
    Tilted(64000000 + x.0 - y.0)
}

// w lower, and w higher.
pub fn less(a: Tilted, w: u32) -> Tilted
    requires { w ≤ a.0 }
    ensures { result ≡ less_of a w }
{
    Tilted(a.0 - w)
}

pub fn more(a: Tilted, w: u32) -> Tilted
    requires { (a.0 ≤ 72000000) × Brief w }
    ensures { result ≡ more_of a w }
{
    Tilted(a.0 + w)
}

// How far two values are apart.
pub fn width(a: Tilted, b: Tilted) -> u32
    ensures { result ≡ gap b.0 a.0 }
{
    a.0.abs_diff(b.0)
}

// The same, where b is not below a, for `boxes::breadth`.
pub fn rise(a: Tilted, b: Tilted) -> u32
    requires { a.0 ≤ b.0 }
    ensures { result ≡ gap b.0 a.0 }
{
    b.0 - a.0
}

// A tilted coordinate, as a number with sign. (That it is small is for the caller's store of the result. It has a name, since a `From` to i64 beside that to u32 would not say which of the two is counted from the corner.)
pub fn signed(a: Tilted) -> i64
    ensures { (result ≡ unlifted a.0) × (a.0 < 2 ^ 32) }
{
    i64::from(a.0) - 64000000
}

// The least and the greatest doubled coordinate of a segment.
pub fn low_end(hi: Tilted, d: u32) -> Doubled
    requires { (hi.0 ≤ 78000000) × (d ≤ 2 * hi.0) }
    ensures { result ≡ low_of hi d }
{
    Doubled(2 * hi.0 - d)
}

pub fn high_end(lo: Tilted, d: u32) -> Doubled
    requires { (lo.0 ≤ 78000000) × (d ≤ 28000000) }
    ensures { result ≡ high_of lo d }
{
    Doubled(2 * lo.0 + d)
}

// The value from lo to hi that is nearest to p. Two choices between two numbers each: no branch hangs on where p lies.
pub fn nearest(lo: Doubled, hi: Doubled, p: Doubled) -> Doubled
    ensures { result ≡ near_of lo hi p }
{
    lo.max(hi.min(p))
}

// A doubled coordinate, as a number with sign. No `From`, here and next: it could not ask that the number fits.
pub fn whole(p: Doubled) -> i32
    requires { p.0 ≤ 184000000 }
    ensures { result ≡ lowered p.0 }
{
    (p.0 as i32) - 128000000
}

// And back: the doubled coordinate that such a number stands for.
pub fn lifted(p: i32) -> Doubled
    requires { (p ≡ lowered (raised p).0) × ((raised p).0 ≤ 184000000) }
    ensures { result ≡ raised p }
{
    Doubled((p + 128000000) as u32)
}
