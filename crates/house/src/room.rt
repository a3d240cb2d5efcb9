// Refusal 7.
ghost use Rattle.std.specs.Prelude.{◌≡◌};
ghost use Rattle.house.specs.Writing.{room_for};

use plane::refusal::Refusal;

// A lent buffer has room for what the answer fills in it.
pub fn room(needed: usize, room: usize) -> Result<(), Refusal>
    ensures { result ≡ room_for needed room }
{
    if room < needed {
        Err(Refusal::Room)
    } else {
        Ok(())
    }
}
