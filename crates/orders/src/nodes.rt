// The nodes of a sound joining order, bottom-up: their boxes, diameters and parents.
ghost use Rattle.std.specs.Prelude.{◌≡◌, ◌-◌, ◌<◌, length};
ghost use Rattle.plane.specs.Sinks.{sinks_in, count};
ghost use Rattle.orders.specs.Sound.{Ordered, SoundFor};
ghost use Rattle.orders.specs.Arrays.{Parents, NodeRoom, OwnRoom, PutsOwn, Up, PutsJoin, PutsJoins, AllNodes};
ghost use Rattle.orders.specs.Nodes.{total};

use crate::table;
use measures::boxes;
use measures::boxes::Box;
use plane::sinks::Sinks;

// What is kept of N nodes, by their number: the box of the sinks below, its diameter, and the parent.
// One array for each part: with an array of structs the loops of embedding took up to a tenth longer (tried in a sketch of them).
#[derive(Drop)]
pub struct Nodes<const N: usize> {
    pub hulls: [Box; N],
    pub diameters: [u32; N],
    pub parents: [u16; N],
}

// The own diameter of each sink, twice its delay, and the sum of them.
fn put_own(delays: &[u32], ds: &mut [u32]) -> u64
    requires { OwnRoom delays.now ds.old }
    ensures { PutsOwn delays.now (length delays.now) result ds.new }
{
    let mut sum: u64 = 0;
    for (i, w) in delays.iter().enumerate() {
        let d = 2 * *w;
        ds[i] = d;
        sum += u64::from(d);
    }
    sum
}

// Join i: the box and the diameter of its node, and whose parent it is.
fn put_join(
    js: &[u16],
    n: usize,
    i: usize,
    hulls: &mut [Box],
    diameters: &mut [u32],
    parents: &mut [u16],
) -> u32
    requires { Ordered n js.now × (i < n - 1) × Up n js.now i hulls.old diameters.old parents.old }
    ensures { PutsJoin n js.now i hulls.old diameters.old result hulls.new diameters.new parents.new }
{
    let a = usize::from(js[2 * i]);
    let b = usize::from(js[2 * i + 1]);
    let m = n + i;
    let c = boxes::hull(hulls[a], hulls[b]);
    let d = boxes::breadth(c);
    hulls[m] = c;
    diameters[m] = d;
    let p = m as u16;
    parents[a] = p;
    parents[b] = p;
    d
}

// All joins, bottom-up, and the sum of their diameters.
fn put_joins(
    js: &[u16],
    n: usize,
    hulls: &mut [Box],
    diameters: &mut [u32],
    parents: &mut [u16],
) -> u64
    requires { Ordered n js.now × Up n js.now 0 hulls.old diameters.old parents.old }
    ensures { PutsJoins n js.now (n - 1) hulls.old result hulls.new diameters.new parents.new }
{
    let mut sum: u64 = 0;
    for i in 0..n - 1 {
        sum += u64::from(put_join(js, n, i, hulls, diameters, parents));
    }
    sum
}

// All nodes, and the total: the sum of the diameters of all joins, and the root's once more, without the sinks' own. Three lists of any lengths that have the room, and not `Nodes<N>`: no caller is asked for arrays, nor for arrays of one length.
// It goes into its caller: where the lists are arrays of that one's own, the compiler then knows that no store to them changes the sinks (embedding 512 sinks takes 8 in 100 longer without).
#[inline(always)]
pub fn put_nodes(
    sinks: &Sinks<'_>,
    js: &[u16],
    hulls: &mut [Box],
    diameters: &mut [u32],
    parents: &mut [u16],
) -> u32
    requires { SoundFor sinks.now js.now × NodeRoom (count sinks.now) hulls.old diameters.old parents.old }
    ensures { AllNodes (sinks_in sinks.now) js.now hulls.new diameters.new parents.new × (result ≡ total (sinks_in sinks.now) js.now) }
{
    let n = sinks.xs.len();
    table::put_sinks(sinks, hulls);
    let own = put_own(sinks.delays, diameters);
    let sum = put_joins(js, n, hulls, diameters, parents);
    let root = 2 * n - 2;
    (sum + u64::from(diameters[root]) - own) as u32
}

// The parent of each node but the root, from the pairs.
pub fn parents(js: &[u16], n: usize) -> [usize; 1023]
    requires { Ordered n js.now }
    ensures { Parents n js.now result }
{
    let mut ps = [0usize; 1023];
    for (j, k) in js.iter().enumerate() {
        ps[usize::from(*k)] = n + j / 2;
    }
    ps
}
