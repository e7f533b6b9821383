// What a rule of a step does.
use crate::answer::Loss;
use crate::packet::Item;
use crate::session::Row;

// What comes of a step: the items that it writes, the first named with the lower number, or why it writes none.
#[derive(Clone, Copy)]
pub enum Outcome {
    Wrote(Item),
    // an item that a default route moved
    WroteByDefault(Item),
    WroteTwo(Item, Item),
    Lost(Loss),
    Denied,
    Opened,
    Delivered(u32),
}

// A wait: dwait(a) of a discovery or ewait(a, e) of an establishment.
#[derive(Clone, Copy, PartialEq, Eq)]
pub enum Wait {
    Discovery(u8),
    Establishment(u8, u8),
}

// All that a step does to its session, but the numbers: those follow from how many items it writes.
#[derive(Clone, Copy)]
pub struct Effect {
    pub outcome: Outcome,
    // the wait that it uses up
    pub wait: Option<Wait>,
    // the rows that it adds, the older first
    pub added: Option<(Row, Row)>,
    // the establishment that it begins
    pub begins: Option<u8>,
}
