// The check of a node and of all that it holds: its refusals, and what the report needs to know of it.
#![tactic(auto)]

pub mod check;
pub mod root;
pub mod tally;
