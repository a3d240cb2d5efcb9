// The check of sinks with their joins: refusals 1 to 4, 15 and 6.
ghost use Rattle.std.specs.Prelude.{◌≡◌};
ghost use Rattle.plane.specs.Sinks.{prompt};
ghost use Rattle.orders.specs.Joins.{check_order};

use crate::joins;
use plane::refusal::Refusal;
use plane::sinks;
use plane::sinks::Sinks;

// Refusals 1 to 4, 15 and 6: the sinks, then the joins.
#[tactic(auto, using(plane::proofs::Checks::accepted), unfolding(crate::specs::Joins::check_order))]
pub fn check_order(sinks: &Sinks<'_>, js: &[u16]) -> Result<(), Refusal>
    ensures { result ≡ check_order sinks.now.xs.now sinks.now.ys.now sinks.now.delays.now js.now }
{
    sinks.check(512)?;
    joins::check_joins(js, sinks.xs.len())
}

// The same of sinks that have no delay, for which no list of zeros is lent.
#[tactic(auto, using(plane::proofs::Checks::check_prompt), unfolding(crate::specs::Joins::check_order))]
pub fn check_prompt(xs: &[i32], ys: &[i32], js: &[u16]) -> Result<(), Refusal>
    ensures { result ≡ check_order xs.now ys.now (prompt xs.now) js.now }
{
    sinks::check_places(xs, ys, 512)?;
    joins::check_joins(js, xs.len())
}
