// The reading of a report, field by field, by those who hold one.
#![tactic(auto)]

pub mod dependencies;
pub mod fields;
