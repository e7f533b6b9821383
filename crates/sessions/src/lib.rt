// A session's requests: what each does to the session's own part, and to the users.
#![tactic(auto)]

pub mod requests;
