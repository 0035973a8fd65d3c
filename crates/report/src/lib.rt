// The report: its values, their encoding, and the writer into a lent buffer.
#![tactic(auto)]

pub mod names;
pub mod origins;
pub mod writer;
