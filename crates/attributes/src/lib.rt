// The attributes of an import: pairs of keys and values, whose keys ascend by their bytes.
#![tactic(auto)]

pub mod pairs;
pub mod props;
pub mod readings;
pub mod writer;
