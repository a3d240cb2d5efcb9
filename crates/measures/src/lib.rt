// The three measures of coordinates, the box of four numbers, and segments.
#![tactic(auto)]

pub mod boxes;
pub mod measure;
pub mod segment;
