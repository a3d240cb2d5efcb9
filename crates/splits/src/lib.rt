// The work table for any budget: split by split, or whole.
#![tactic(auto)]

pub mod fill;
