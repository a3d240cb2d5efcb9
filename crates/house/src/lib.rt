// The house files of sinks and of joining orders.
#![tactic(auto)]

pub mod joined_file;
pub mod room;
pub mod sink_file;
