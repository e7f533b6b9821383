// What a call answers, its refusals and its losses; and an association as show reports it.
ghost use Rattle.std.specs.Prelude.{◌≡◌};
ghost use Rattle.calculus.specs.Answer.{loss_number, refusal_number};

use crate::number::{ItemNumber, Spi};

// Why a call or a join is refused, by its number in document 01's table, or document 02's.
#[derive(Clone, Copy, PartialEq, Eq)]
pub enum Refusal {
    Short = 0,
    Unreadable = 1,
    Range = 2,
    Double = 3,
    Unknown = 4,
    Late = 5,
    Taken = 6,
    Idle = 7,
    Same = 8,
    Gateway = 9,
    Spent = 10,
    NoItem = 11,
    Waiting = 12,
    Full = 13,
    // of a join, document 02's
    Clash = 14,
    Unsorted = 15,
    // of a drop, document 02's
    Busy = 16,
    NoSuchTunnel = 17,
}

impl From<Refusal> for u8 {
    ghost from_gives = { λ refusal number. number ≡ refusal_number refusal };

    fn from(refusal: Refusal) -> u8 {
        refusal as u8
    }
}

// Why a packet is lost, by its number in document 01's rules.
#[derive(Clone, Copy, PartialEq, Eq)]
pub enum Loss {
    // bare Data or Done at a gateway
    Unprotected = 1,
    HopLimit = 2,
    NoRoute = 3,
    // no association, or no in row of this session, for its header
    NoTunnel = 4,
    // not through the tunnel of the matching in row
    WrongTunnel = 5,
    // 8 establishments begun
    Exhausted = 6,
}

impl From<Loss> for u8 {
    ghost from_gives = { λ loss number. number ≡ loss_number loss };

    fn from(loss: Loss) -> u8 {
        loss as u8
    }
}

// What a call that is not refused answers, unless it asks for a report.
#[derive(Clone, Copy)]
pub enum Answer {
    Ok,
    Made(ItemNumber),
    MadeByDefault(ItemNumber),
    MadeTwo(ItemNumber, ItemNumber),
    Lost(Loss),
    Denied,
    Opened,
    Delivered(u32),
    Closed,
}

// A standing association as show reports it: its direction is out, or in.
#[derive(Clone, Copy)]
pub struct ShownAssociation {
    pub node: u8,
    pub out: bool,
    pub peer: u8,
    pub spi: Spi,
    pub users: u16,
}
