// The simulator: a call, and the calls of a text.
#![tactic(auto)]

pub mod call;
pub mod calls;
mod line;
