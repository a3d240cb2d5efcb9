// Trees: embedding a joining order, and joining by least diameter.
ghost use Rattle.skeprafter_c.specs.Trees.{Embeds, Joins, JoinsAndEmbeds};

use crate::said;
use skeprafter::{Layout, Sinks};

#[unsafe(no_mangle)]
pub extern "C" fn skeprafter_embed(
    x: &[i32],
    y: &[i32],
    delays: &[u32],
    joins: &[u16],
    u: &mut [i32],
    v: &mut [i32],
    wires: &mut [u32],
    said: &mut [u64; 6],
)
    ensures { Embeds x.now y.now delays.now joins.now u.old v.old wires.old u.new v.new wires.new said.new }
{
    let sinks = Sinks {
        xs: x,
        ys: y,
        delays,
    };
    let mut layout = Layout {
        us: u,
        vs: v,
        ws: wires,
    };
    *said = said::of_answer(skeprafter::embed(&sinks, joins, &mut layout));
}

#[unsafe(no_mangle)]
pub extern "C" fn skeprafter_join_nearest(
    x: &[i32],
    y: &[i32],
    delays: &[u32],
    joins: &mut [u16],
    said: &mut [u64; 6],
)
    ensures { Joins x.now y.now delays.now joins.old joins.new said.new }
{
    let sinks = Sinks {
        xs: x,
        ys: y,
        delays,
    };
    *said = said::of_answer(skeprafter::join_nearest(&sinks, joins));
}

#[unsafe(no_mangle)]
pub extern "C" fn skeprafter_embed_nearest(
    x: &[i32],
    y: &[i32],
    delays: &[u32],
    joins: &mut [u16],
    u: &mut [i32],
    v: &mut [i32],
    wires: &mut [u32],
    said: &mut [u64; 6],
)
    ensures { JoinsAndEmbeds x.now y.now delays.now joins.old u.old v.old wires.old joins.new u.new v.new wires.new said.new }
{
    let sinks = Sinks {
        xs: x,
        ys: y,
        delays,
    };
    let mut layout = Layout {
        us: u,
        vs: v,
        ws: wires,
    };
    *said = said::of_answer(skeprafter::embed_nearest(&sinks, joins, &mut layout));
}
