// The JSDoc imports of a sheet: those of all its star-opened block comments, written ascending by place.
#![tactic(auto)]

pub mod imports;
pub mod notes;
