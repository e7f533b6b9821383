// The state's tables: a fresh state, a session's part taken out of them and put back, and all of them.
#![tactic(auto)]

pub mod fresh;
pub mod part;
mod places;
