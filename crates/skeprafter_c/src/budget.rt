// The exact search with a budget.
ghost use Rattle.skeprafter_c.specs.Searched.{Searched};

use crate::said;
use skeprafter::{Layout, Sinks};

#[unsafe(no_mangle)]
pub extern "C" fn skeprafter_search(
    x: &[i32],
    y: &[i32],
    delays: &[u32],
    budget: u64,
    table: &mut [u32],
    joins: &mut [u16],
    u: &mut [i32],
    v: &mut [i32],
    wires: &mut [u32],
    said: &mut [u64; 6],
)
    ensures { Searched x.now y.now delays.now budget table.old joins.old u.old v.old wires.old table.new joins.new u.new v.new wires.new said.new }
{
    let sinks = Sinks {
        xs: x,
        ys: y,
        delays,
    };
    let mut layout = Layout {
        us: u,
        vs: v,
        ws: wires,
    };
    *said = said::of_answer(skeprafter::search(&sinks, budget, table, joins, &mut layout));
}
