// The house files of trees.
#![tactic(auto)]

pub mod tree_file;
