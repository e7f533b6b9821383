// Answers and the lines of reports written as bytes, straight into the caller's slice.
#![tactic(auto)]

mod line;
pub mod put;
pub mod report;
pub mod room;
pub mod write;
