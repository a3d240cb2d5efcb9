// Subsets of at most twelve sinks as numbers, and their diameters.
#![tactic(auto)]

pub mod square;
pub mod subset;
