// How far sinks are apart, in a square of twelve rows by twelve, and the diameters of all subsets from them.
ghost use Rattle.std.specs.Prelude.{◌≡◌, [], ℕ, ◌<◌, ◌≤◌, ◌+◌, ◌^◌, max, length};
ghost use Rattle.zero_skew.specs.Plane.{dist};
ghost use Rattle.zero_skew.specs.Box.{apart as apartOf};
ghost use Rattle.plane.specs.Sinks.{sinks_at, sinks_in, count, Fit, Placed};
ghost use Rattle.subsets.specs.Square.{Square, RowOf, Widths, Changed, held, farthest_in};

use measures::boxes;
use plane::sinks;
use plane::sinks::Sinks;

// The distance of sinks i and j: the larger of the two widths of the box of their places.
fn distance(xs: &[i32], ys: &[i32], i: usize, j: usize) -> u32
    requires { Placed xs.now ys.now i × Placed xs.now ys.now j }
    ensures { (result ≡ dist ((sinks_at xs.now ys.now []).at i) ((sinks_at xs.now ys.now []).at j)) × (result ≤ 28000000) }
{
    boxes::diameter(boxes::hull(sinks::place_at(xs, ys, i), sinks::place_at(xs, ys, j)))
}

// How far sinks i and j are apart: their distance and both delays.
fn apart(sinks: &Sinks<'_>, i: usize, j: usize) -> u32
    requires { Fit sinks.now × (i < count sinks.now) × (j < count sinks.now) }
    ensures { result ≡ apartOf (sinks_in sinks.now) i j }
{
    distance(sinks.xs, sinks.ys, i, j) + (sinks.delays[i] + sinks.delays[j])
}

// How far sink i is apart from each sink.
fn row(sinks: &Sinks<'_>, i: usize) -> [u32; 12]
    requires { Fit sinks.now × (i < count sinks.now) × (count sinks.now ≤ 12) }
    ensures { RowOf (sinks_in sinks.now) i (count sinks.now) result }
{
    let mut r: [u32; 12] = [0; 12];
    for j in 0..sinks.xs.len() {
        r[j] = apart(sinks, i, j);
    }
    r
}

// How far all sinks are apart.
pub fn square(sinks: &Sinks<'_>) -> [[u32; 12]; 12]
    requires { Fit sinks.now × (count sinks.now ≤ 12) }
    ensures { Square (sinks_in sinks.now) result }
{
    let mut q: [[u32; 12]; 12] = [[0; 12]; 12];
    for i in 0..sinks.xs.len() {
        q[i] = row(sinks, i);
    }
    q
}

// The diameter of s, of those in ds.
pub fn diameter(ds: &[u32; 4096], s: u32) -> u32
    requires { s < 2 ^ 12 }
    ensures { result ≡ held ds.now s }
{
    ds[s as usize]
}

// For every r below `step`, the entry at half + step + r is made the larger of that at half + r and w.
// As in `widen`, no test stands around the store, and what is written is not read by a later turn: of such a loop the compiler takes many turns at once.
fn stretch(ds: &mut [u32], half: usize, step: usize, w: u32)
    requires { half + step + step ≤ length ds.old }
    ensures { Changed (half + step) step (λ (r : ℕ). max (held ds.old (half + r)) w) ds.old ds.new }
{
    for r in 0..step {
        ds[half + step + r] = ds[half + r].max(w);
    }
}

// For every subset r of the sinks before j, how far sink j is from the farthest of them and of itself, at half + r. The sinks are taken in one by one, and each doubles the subsets that are done.
fn farthest(q: [[u32; 12]; 12], ds: &mut [u32], j: usize, half: usize)
    requires { (j < 12) × (half ≡ 2 ^ j) × (half + half ≤ length ds.old) }
    ensures { Changed half half (farthest_in q j) ds.old ds.new }
{
    let mut step = 1;
    ds[half] = q[j][j];
    for i in 0..j {
        stretch(ds, half, step, q[i][j]);
        step = 2 * step;
    }
}

// For every r below `half`, the entry at half + r is made the larger of itself and that at r.
fn widen(ds: &mut [u32], half: usize)
    requires { half + half ≤ length ds.old }
    ensures { Changed half half (λ (r : ℕ). max (held ds.old (half + r)) (held ds.old r)) ds.old ds.new }
{
    for r in 0..half {
        ds[half + r] = ds[half + r].max(ds[r]);
    }
}

// The diameters of all subsets of n sinks, from the square. The subsets whose highest sink is j are half + r, for the subsets r of the sinks before it.
pub fn diameters(q: [[u32; 12]; 12], ds: &mut [u32], n: usize)
    requires { (n ≤ 12) × (2 ^ n ≤ length ds.old) }
    ensures { Widths q (2 ^ n) ds.new }
{
    let mut half = 1;
    ds[0] = 0;
    for j in 0..n {
        farthest(q, ds, j, half);
        widen(ds, half);
        half = 2 * half;
    }
}
