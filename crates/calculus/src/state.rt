// The tables of the simulator, and a session's part of them.
use crate::answer::{Answer, Refusal};
use crate::network::Network;
use crate::packet::Slot;
use crate::session::{Row, Session};

// What one session holds: its items, and its rows in order of age, of which the first `session.rows` stand.
#[derive(Clone, Copy)]
pub struct Part {
    pub session: Session,
    pub items: [Option<Slot>; 16],
    pub rows: [Row; 32],
}

// Document 01's desk. Session u owns the places 16 × (u − 1) to 16 × u − 1 of the items and 32 × (u − 1) to 32 × u − 1
// of the rows; the users of an association stand in the order node, in before out, peer. `opened`: an open was accepted.
#[derive(Clone, Copy)]
pub struct State {
    pub opened: bool,
    pub network: Network,
    pub sessions: [Session; 8],
    pub items: [Option<Slot>; 128],
    pub rows: [Row; 256],
    pub users: [u16; 2048],
}

// What a call that asks for no report answers, or why it is refused, and the state that it leaves.
#[derive(Clone, Copy)]
pub struct Turn {
    pub state: State,
    pub answer: Result<Answer, Refusal>,
}
