// Joining orders: the check of sinks with their pairs, and what goes up an order: the box, the diameter and the parent of each node.
#![tactic(auto)]

pub mod check;
pub mod joins;
pub mod nodes;
pub mod table;
