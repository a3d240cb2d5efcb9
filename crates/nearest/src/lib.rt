// Joining by least diameter: join by join, and the calls.
#![tactic(auto)]

mod keep;
pub mod order;
pub mod tree;
