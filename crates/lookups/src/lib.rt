// What is looked up in the network and in a session's rows, the users of associations, and what stands in a place that holds nothing.
#![tactic(auto)]

pub mod blank;
pub mod network;
pub mod rows;
pub mod set;
pub mod users;
