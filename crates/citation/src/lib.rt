// The lines that `cite` prints for a report, written into a lent buffer.
#![tactic(auto)]

pub mod cite;
pub mod columns;
pub mod lines;
