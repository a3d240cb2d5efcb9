// The checks of the exact search: refusals 1 to 4 and 15, then 7.
ghost use Rattle.std.specs.Prelude.{◌≡◌, ◌<◌, ◌≤◌, length};
ghost use Rattle.search.specs.Rooms.{check_rooms, check_search};

use embedding::layout::Layout;
use plane::refusal::Refusal;
use plane::sinks::Sinks;
use subsets::subset;

// Refusal 7: room for the table, the pairs and all nodes of n sinks.
#[tactic(auto, unfolding(crate::specs::Rooms::check_rooms))]
fn check_rooms(n: usize, table: usize, js: usize, layout: &Layout<'_>) -> Result<(), Refusal>
    requires { (0 < n) × (n ≤ 12) }
    ensures { result ≡ check_rooms n table js (length layout.now.us.now) (length layout.now.vs.now) (length layout.now.ws.now) }
{
    if table < subset::subsets(n) as usize {
        return Err(Refusal::Room);
    }
    if js < 2 * (n - 1) {
        return Err(Refusal::Room);
    }
    layout.check_room(2 * n - 1)
}

// Refusals 1 to 4 and 15, then 7.
#[tactic(auto, using(plane::proofs::Checks::accepted), unfolding(crate::specs::Rooms::check_search))]
pub fn check_search(
    sinks: &Sinks<'_>,
    table: usize,
    js: usize,
    layout: &Layout<'_>,
) -> Result<(), Refusal>
    ensures { result ≡ check_search sinks.now.xs.now sinks.now.ys.now sinks.now.delays.now table js (length layout.now.us.now) (length layout.now.vs.now) (length layout.now.ws.now) }
{
    sinks.check(12)?;
    check_rooms(sinks.xs.len(), table, js, layout)
}
