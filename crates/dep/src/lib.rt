// The dependencies of a sheet, in the order of the walk over its tree.
#![tactic(auto)]

pub mod walk;
