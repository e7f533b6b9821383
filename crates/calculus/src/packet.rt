// Packets, and the items of a session that hold them.
use crate::number::{ItemNumber, Spi};

// The hops that a packet starts with, and that a header brings.
pub const HOP_LIMIT: u8 = 32;

// What a packet carries. `Req` and `Rep` name an establishment, `Disc` the last tunnel point, `Data` a tag.
#[derive(Clone, Copy, PartialEq, Eq)]
pub enum Payload {
    Req(u8),
    Rep(u8),
    Disc(u8),
    Done,
    Data(u32),
}

// The header of a tunnel: its two ends, its SPI and its own hop count, the outer one.
#[derive(Clone, Copy, PartialEq, Eq)]
pub struct Header {
    pub from: u8,
    pub to: u8,
    pub spi: Spi,
    pub hops: u8,
}

// A packet, with at most one header. `hops` is its own count, the inner one.
#[derive(Clone, Copy, PartialEq, Eq)]
pub struct Packet {
    pub source: u8,
    pub destination: u8,
    pub payload: Payload,
    pub hops: u8,
    pub header: Option<Header>,
}

// The two sides of an establishment.
#[derive(Clone, Copy, PartialEq, Eq)]
pub enum Side {
    Responder,
    Initiator,
}

// What a session has pending, each as document 01 writes it: wire(a, packet, h), out(a, packet), up(a, packet),
// est(a, b, e), auth(a, q, e, side), grant(a, q, e, side), ack(a, e), dwait(a), ewait(a, e).
// Document 01's in(a, packet, q) is part of up since request #107, and wire's h stands in its packet since #108.
#[derive(Clone, Copy)]
pub enum Item {
    Wire(u8, Packet),
    Out(u8, Packet),
    Up(u8, Packet),
    Est(u8, u8, u8),
    Auth(u8, u8, u8, Side),
    Grant(u8, u8, u8, Side),
    Ack(u8, u8),
    Dwait(u8),
    Ewait(u8, u8),
}

// A pending item, with its number.
#[derive(Clone, Copy)]
pub struct Slot {
    pub number: ItemNumber,
    pub item: Item,
}
