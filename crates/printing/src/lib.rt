// What the program prints for its input: a sink file read, its tree found, and the tree's lines, or a refusal.
#![tactic(auto)]

pub mod program;
