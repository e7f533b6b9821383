// The form language: a line read as a form, input split into lines.
#![tactic(auto)]

mod fields;
pub mod line;
mod list;
mod node;
pub mod read;
mod scan;
