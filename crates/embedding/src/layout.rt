// What a tree is written into.
ghost use Rattle.std.specs.Prelude.{◌≡◌, length};
ghost use Rattle.embedding.specs.Embedding.{check_room};

use crate::room;
use plane::refusal::Refusal;

// U and V of each node's place, and its wire, by node number: three lists, as callers from C lend them.
#[derive(Drop)]
pub struct Layout<'a> {
    pub us: &'a mut [i32],
    pub vs: &'a mut [i32],
    pub ws: &'a mut [u32],
}

impl Layout<'_> {
    // Refusal 7: room for so many nodes in each.
    pub fn check_room(&self, nodes: usize) -> Result<(), Refusal>
        ensures { result ≡ check_room nodes (length self.now.us.now) (length self.now.vs.now) (length self.now.ws.now) }
    {
        room::check_room(nodes, self.us.len(), self.vs.len(), self.ws.len())
    }
}
