// Embedding a joining order.
ghost use Rattle.std.specs.Prelude.{◌-◌, ◌*◌, ◌≤◌};
ghost use Rattle.plane.specs.Said.{told};
ghost use Rattle.plane.specs.Sinks.{prompt, count};
ghost use Rattle.embedding.specs.Ready.{Ready, Embeds, ReadyIn, EmbedsIn};
ghost use Rattle.embedding.specs.Layouts.{SameLists};
ghost use Rattle.embedding.specs.Permitted.{PermittedIn};

use crate::layout::Layout;
use crate::{places, wires};
use measures::boxes;
use orders::nodes::Nodes;
use orders::{check, nodes};
use plane::refusal::Refusal;
use plane::sinks::Sinks;

// The same as `embed_sound`, with room for N nodes.
fn embed_with<const N: usize>(sinks: &Sinks<'_>, js: &[u16], layout: &mut Layout<'_>) -> u32
    requires { ReadyIn sinks.now js.now layout.old × (2 * count sinks.now - 1 ≤ N) × (N ≤ 1023) }
    ensures same { SameLists layout.old layout.new }
    ensures embeds { EmbedsIn sinks.now js.now layout.old result layout.new }
{
    let mut nodes = Nodes::<N> {
        hulls: [boxes::BLANK; N],
        diameters: [0; N],
        parents: [0; N],
    };
    let n = sinks.xs.len();
    let total = nodes::put_nodes(
        sinks,
        js,
        &mut nodes.hulls,
        &mut nodes.diameters,
        &mut nodes.parents,
    );
    places::join_places(&nodes, n, layout.us, layout.vs);
    places::sink_places(sinks.xs, sinks.ys, layout.us, layout.vs);
    wires::write_wires(&nodes, n, layout.ws);
    total
}

// The places and the wires of all nodes, and the total, where the sinks and the joins are sound and the layout has room.
pub fn embed_sound(sinks: &Sinks<'_>, js: &[u16], layout: &mut Layout<'_>) -> u32
    requires { ReadyIn sinks.now js.now layout.old }
    ensures same { SameLists layout.old layout.new }
    ensures embeds { EmbedsIn sinks.now js.now layout.old result layout.new }
{
    // To clear room for the nodes of 512 sinks would take longer than to embed 12.
    if sinks.xs.len() <= 12 {
        return embed_with::<23>(sinks, js, layout);
    }
    embed_with::<1023>(sinks, js, layout)
}

// The same, into three lists of the caller's own, lent one by one. (With a layout over arrays of N numbers of its own, N a parameter, a caller's proof did not get back what the arrays hold.)
pub fn embed_into(
    sinks: &Sinks<'_>,
    js: &[u16],
    us: &mut [i32],
    vs: &mut [i32],
    ws: &mut [u32],
) -> u32
    requires { Ready sinks.now.xs.now sinks.now.ys.now sinks.now.delays.now js.now us.old vs.old ws.old }
    ensures { Embeds sinks.now.xs.now sinks.now.ys.now sinks.now.delays.now js.now us.old vs.old ws.old result us.new vs.new ws.new }
{
    embed_sound(sinks, js, &mut Layout { us, vs, ws })
}

// The same of sinks that have no delay.
pub fn embed_prompt(
    xs: &[i32],
    ys: &[i32],
    js: &[u16],
    us: &mut [i32],
    vs: &mut [i32],
    ws: &mut [u32],
) -> u32
    requires { Ready xs.now ys.now (prompt xs.now) js.now us.old vs.old ws.old }
    ensures { Embeds xs.now ys.now (prompt xs.now) js.now us.old vs.old ws.old result us.new vs.new ws.new }
{
    let none = [0u32; 512];
    let delays = &none[..xs.len()];
    embed_into(&Sinks { xs, ys, delays }, js, us, vs, ws)
}

// Refusals 1 to 4, 15, 6 and 7 in order, else the total, with the places and the wires in the layout.
#[tactic(auto, unfolding(crate::specs::Embedding::answer))]
pub fn embed(sinks: &Sinks<'_>, js: &[u16], layout: &mut Layout<'_>) -> Result<u32, Refusal>
    ensures same { SameLists layout.old layout.new }
    ensures permitted { PermittedIn sinks.now js.now layout.old (told result) layout.new }
{
    check::check_order(sinks, js)?;
    layout.check_room(2 * sinks.xs.len() - 1)?;
    Ok(embed_sound(sinks, js, layout))
}
