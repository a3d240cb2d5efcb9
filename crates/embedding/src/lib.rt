// Embedding a joining order: places top-down, wires, and the call.
#![tactic(auto)]

pub mod embed;
pub mod layout;
mod places;
pub mod room;
mod wires;
