// The rule of each item, with what it looks up, proved equal to the model's.
#![tactic(auto)]

pub mod rule;
