// The exact search with a budget: the kept tree and the call.
#![tactic(auto)]

mod kept;
mod rooms;
pub mod search;
