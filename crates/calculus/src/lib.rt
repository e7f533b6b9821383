// The types of the tunnel calculus, the SPI of a pair of nodes, and the numbers of refusals and losses.
#![tactic(auto)]

pub mod answer;
pub mod effect;
pub mod network;
pub mod number;
pub mod packet;
pub mod request;
pub mod session;
pub mod state;
