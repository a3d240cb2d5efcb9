// The check of the lent buffers: refusal 7.
ghost use Rattle.std.specs.Prelude.{◌≡◌};
ghost use Rattle.embedding.specs.Embedding.{check_room};

use plane::refusal::Refusal;

// Room for all nodes in the buffers of U, V and wires. It takes lengths, and no `Layout`: a caller may ask before it has the buffers.
pub fn check_room(all: usize, us: usize, vs: usize, ws: usize) -> Result<(), Refusal>
    ensures { result ≡ check_room all us vs ws }
{
    if us < all || vs < all || ws < all {
        return Err(Refusal::Room);
    }
    Ok(())
}
