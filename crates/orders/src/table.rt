// The boxes of all sinks, in one list with those of all nodes.
ghost use Rattle.std.specs.Prelude.{◌≤◌, length};
ghost use Rattle.plane.specs.Sinks.{Fit, count};
ghost use Rattle.orders.specs.Table.{SinkedBy};

use measures::boxes::Box;
use plane::sinks;
use plane::sinks::Sinks;

// The boxes of all sinks.
pub fn put_sinks(sinks: &Sinks<'_>, bs: &mut [Box])
    requires { Fit sinks.now × (count sinks.now ≤ length bs.old) }
    ensures { SinkedBy sinks.now bs.new }
{
    for i in 0..sinks.xs.len() {
        bs[i] = sinks::box_at(sinks, i);
    }
}
