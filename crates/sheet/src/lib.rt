// The sheet's positions, comments, groups and program, read field by field; its nodes are read in sheet_heads and sheet_nodes.
#![tactic(auto)]

pub mod commented;
pub mod comments;
pub mod covering;
pub mod fields;
pub mod groups;
pub mod limits;
pub mod lookups;
pub mod names;
pub mod program;
pub mod tables;
