// A session's rows: match, the association that a row names, and the establishment that added it.
#![tactic(auto)]

pub mod picked;
pub mod row;
