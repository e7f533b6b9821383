// Node and route calls: their refusals in order, and the network that an accepted one leaves.
#![tactic(auto)]

pub mod after;
pub mod node;
pub mod route;
