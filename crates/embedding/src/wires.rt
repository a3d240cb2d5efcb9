// The wire of each node to its parent.
ghost use Rattle.std.specs.Prelude.{◌≡◌, ◌-◌, ◌*◌, ◌≤◌, length};
ghost use Rattle.lists.specs.Grow.{tab, front};
ghost use Rattle.orders.specs.Arrays.{Climbs, wire_in};

use orders::nodes::Nodes;

pub fn write_wires<const N: usize>(nodes: &Nodes<N>, n: usize, ws: &mut [u32])
    requires { Climbs n nodes.now × (2 * n - 1 ≤ length ws.old) }
    ensures { ws.new ≡ front (tab (wire_in n nodes.now) (2 * n - 1)) ws.old }
{
    let root = 2 * n - 2;
    for k in 0..root {
        let p = usize::from(nodes.parents[k]);
        ws[k] = nodes.diameters[p] - nodes.diameters[k];
    }
    ws[root] = 0;
}
