// The heads of nodes, properties and arguments: what stands before their first node.
#![tactic(auto)]

pub mod node;
pub mod parts;
pub mod quoted;
pub mod texts;
