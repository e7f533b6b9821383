// Effects: as the rules give them, and applied to a session's part.
#![tactic(auto)]

mod apply;
pub mod effect;
pub mod moves;
