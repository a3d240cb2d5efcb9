// The lines of a tree and of a refusal: brackets, node lines.
#![tactic(auto)]

pub mod brackets;
pub mod embedded;
pub mod line;
pub mod whole;
