// The sinks of a call: refusals, the check of sinks, the box of all sinks, and a held box that is widened.
#![tactic(auto)]

pub mod bounds;
pub mod held;
pub mod refusal;
pub mod sinks;
