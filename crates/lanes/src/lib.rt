// The whole work table, by blocks of eight subsets in lanes: from F(n) steps on.
#![tactic(auto)]

pub mod blocks;
mod lanes;
