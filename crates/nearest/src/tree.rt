// The tree of joining by least diameter: the joining order and its embedding.
ghost use Rattle.plane.specs.Said.{told};
ghost use Rattle.embedding.specs.Layouts.{SameLists};
ghost use Rattle.nearest.specs.Calls.{EmbeddingIn};
ghost use Rattle.nearest.specs.Ready.{CanBuildIn, TreesIn};

use crate::order;
use embedding::embed;
use embedding::layout::Layout;
use plane::refusal::Refusal;
use plane::sinks::Sinks;

// The joins, the places and the wires, and the total, where the sinks were checked and the buffers have room.
pub fn tree_sound(sinks: &Sinks<'_>, js: &mut [u16], layout: &mut Layout<'_>) -> u32
    requires { CanBuildIn sinks.now js.old layout.old }
    ensures same { SameLists layout.old layout.new }
    ensures builds { TreesIn sinks.now js.old layout.old result js.new layout.new }
{
    order::order_sound(sinks, js);
    // The three lists one by one, and not the layout whole: so a must-fail edit can exchange two of them.
    let joins = &js[..2 * (sinks.xs.len() - 1)];
    embed::embed_into(sinks, joins, layout.us, layout.vs, layout.ws)
}

// Refusals 1 to 4, 15 and 7, else the total, with the joins, the places and the wires in the lent buffers.
#[tactic(auto, using(embedding::proofs::Rooms::has_room, crate::proofs::Passing::ready), unfolding(crate::specs::Calls::tree_answer))]
pub fn embed_nearest(
    sinks: &Sinks<'_>,
    js: &mut [u16],
    layout: &mut Layout<'_>,
) -> Result<u32, Refusal>
    ensures same { SameLists layout.old layout.new }
    ensures permitted { EmbeddingIn sinks.now js.old layout.old (told result) js.new layout.new }
{
    order::check_nearest(sinks, js.len())?;
    layout.check_room(2 * sinks.xs.len() - 1)?;
    Ok(tree_sound(sinks, js, layout))
}
