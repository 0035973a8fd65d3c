// The judge of a sheet: the first refusal that it meets of 1 to 9, or what the report is made from.
#![tactic(auto)]

pub mod check;
pub mod front;
pub mod tree;
