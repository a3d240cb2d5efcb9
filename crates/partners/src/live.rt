// The live nodes, packed: they stand at the front of one list, in rising order, with no joined node among them.
ghost use Rattle.std.specs.Prelude.{◌≡◌, ◌+◌, ◌≤◌, length};
ghost use Rattle.lists.specs.Grow.{up_to};
ghost use Rattle.partners.specs.Live.{Rising};
ghost use Rattle.partners.specs.Rows.{place_of, NodesUp};

// All sinks are live.
pub fn begin(live: &mut [usize])
    ensures { live.new ≡ up_to (length live.old) }
{
    for (t, x) in live.iter_mut().enumerate() {
        *x = t;
    }
}

// Each node of a run becomes the one D after it. How far nodes move is a plain number: so many move at a time.
pub fn up<const D: usize>(live: &mut [usize], from: usize, to: usize)
    requires { (from ≤ to) × (to + D ≤ length live.old) }
    ensures { NodesUp D from to live.old live.new }
{
    for t in from..to {
        live[t] = live[t + D];
    }
}

// Where a node stands, if it is live. The nodes rise, so each look leaves half of them. (By hand: std's `binary_search` was tried, and joining 512 sinks took 2 to 3 in 100 longer.)
pub fn place(live: &[usize], x: usize) -> Option<usize>
    requires { Rising live.now }
    ensures { result ≡ place_of live.now x }
{
    let mut lo = 0;
    let mut hi = live.len();
    while lo < hi {
        let mid = lo + (hi - lo) / 2;
        if live[mid] < x {
            lo = mid + 1;
        } else {
            hi = mid;
        }
    }
    if lo < live.len() && live[lo] == x {
        Some(lo)
    } else {
        None
    }
}
