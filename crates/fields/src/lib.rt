// Numbers as bytes, fields with their tags and lengths, and the records in them.
#![tactic(auto)]

pub mod field;
pub mod number;
pub mod record;
pub mod tag;
