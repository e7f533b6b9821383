// A call's request, its numbers in range.
ghost use Rattle.std.specs.Prelude.{◌≡◌};
ghost use Rattle.calculus.specs.Number.{sender, sender_of};

use crate::answer::Refusal;
use crate::network::Kind;
use crate::number::{ItemNumber, SessionNumber, within};

// Which end of a session sends.
#[derive(Clone, Copy)]
pub enum Sender {
    Client,
    Server,
}

impl Sender {
    // The end that a number names: 0 the client, 1 the server.
    pub fn numbered(which: u64) -> Sender
        ensures { result ≡ sender_of which }
    {
        if which == 0 {
            Sender::Client
        } else {
            Sender::Server
        }
    }
}

// The end that a number names, or refusal 2.
impl TryFrom<u64> for Sender {
    type Error = Refusal;

    fn try_from(which: u64) -> Result<Sender, Refusal>
        ensures { result ≡ sender which }
    {
        if within(which, 0, 1) {
            Ok(Sender::numbered(which))
        } else {
            Err(Refusal::Range)
        }
    }
}

// A node has its credentials: a place for each, true where it is in the set.
#[derive(Clone, Copy)]
pub enum Request {
    Node {
        node: u8,
        kind: Kind,
        has: [bool; 64],
        needs: [bool; 64],
    },
    Route {
        at: u8,
        destination: u8,
        next: u8,
    },
    Open {
        session: SessionNumber,
        client: u8,
        server: u8,
    },
    Step {
        session: SessionNumber,
        item: ItemNumber,
    },
    Send {
        session: SessionNumber,
        sender: Sender,
        tag: u32,
    },
    Close(SessionNumber),
    Drop {
        session: SessionNumber,
        establishment: u8,
    },
    Show,
    Net,
}

// A report that a request asks for; where it asks for none, its answer is one line.
#[derive(Clone, Copy)]
pub enum Report {
    AllAssociations,
    WholeNetwork,
}
