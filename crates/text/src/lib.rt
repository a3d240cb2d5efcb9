// Numbers and words as bytes of text, written into a lent buffer.
#![tactic(auto)]

pub mod figures;
pub mod page;
