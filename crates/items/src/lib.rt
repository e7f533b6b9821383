// Packets, items, and the places that hold a session's items.
#![tactic(auto)]

pub mod item;
pub mod packet;
pub mod places;
