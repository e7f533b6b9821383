// A session and its rows.
use crate::number::ItemNumber;

// How far a set-up has come.
#[derive(Clone, Copy, PartialEq, Eq)]
pub enum Stage {
    Unused,
    SettingUp,
    Open,
    Denied,
}

// A set-up session between its client and its server (document 01's ends c and d), with how many establishments it has
// begun, how many rows it has, and the last item number that it was issued, 0 before the first.
#[derive(Clone, Copy)]
pub struct Session {
    pub stage: Stage,
    pub client: u8,
    pub server: u8,
    pub begun: u8,
    pub rows: u8,
    pub last: ItemNumber,
}

// Document 01's peer of a row, or q of a header: a node; 0 in a row that holds nothing. With request #110 there are up to four.
#[derive(Clone, Copy, PartialEq, Eq)]
pub struct Peers {
    pub first: u8,
}

// A row (a policy entry): packets from `source` to `destination`, its filter, go through the tunnel between `node` and
// its peer, out of the node or, where `out` is false, into it. Its session is the one whose table holds it;
// `establishment` is document 01's e.
#[derive(Clone, Copy)]
pub struct Row {
    pub node: u8,
    pub out: bool,
    pub source: u8,
    pub destination: u8,
    pub peers: Peers,
    pub establishment: u8,
}
