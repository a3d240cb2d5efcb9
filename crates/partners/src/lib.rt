// Joining by least diameter: the live nodes, what is kept beside each, and the pair that is joined next.
#![tactic(auto)]

pub mod best;
pub mod live;
mod lowest;
pub mod pair;
pub mod rows;
