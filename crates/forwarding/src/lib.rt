// The rules that move a packet: wire, out and up.
#![tactic(auto)]

pub mod out;
pub mod up;
pub mod wire;
