// Packets, their headers and their hop counts.
ghost use Rattle.std.specs.Prelude.{◌≡◌};
ghost use Rattle.model.specs.Packet as spec;

use calculus::packet::{HOP_LIMIT, Header, Packet, Payload};

// A new packet, with no header.
pub fn bare(source: u8, destination: u8, payload: Payload) -> Packet
    ensures { result ≡ spec.bare source destination payload }
{
    Packet {
        source,
        destination,
        payload,
        hops: HOP_LIMIT,
        header: None,
    }
}

// The packet with this header in place of its own, or with none.
pub fn under(p: Packet, header: Option<Header>) -> Packet
    ensures { result ≡ spec.under p header }
{
    Packet { header, ..p }
}

// The node that the packet goes to: the other end of its tunnel, or its destination.
pub fn target(p: Packet) -> u8
    ensures { result ≡ spec.target p }
{
    p.header.map_or(p.destination, |h| h.to)
}

// The count in use: the header's while it is on, else the inner one.
fn hops_left(p: Packet) -> u8
    ensures { result ≡ spec.hops_left p }
{
    p.header.map_or(p.hops, |h| h.hops)
}

pub fn no_hops_left(p: Packet) -> bool
    ensures { result ≡ spec.no_hops_left p }
{
    hops_left(p) == 0
}

// The packet with one taken from the count in use.
pub fn fewer(p: Packet) -> Packet
    ensures { result ≡ spec.fewer p }
{
    match p.header {
        None => Packet {
            hops: p.hops.saturating_sub(1),
            ..p
        },
        Some(h) => {
            let outer = Header {
                hops: h.hops.saturating_sub(1),
                ..h
            };
            under(p, Some(outer))
        }
    }
}

// Whether the packet carries Data.
pub fn has_data(p: Packet) -> bool
    ensures { result ≡ spec.is_data p.payload }
{
    matches!(p.payload, Payload::Data(_))
}

// Whether it is Req(e) or Rep(e).
pub fn concerns(y: Payload, e: u8) -> bool
    ensures { result ≡ spec.concerns y e }
{
    match y {
        Payload::Req(f) | Payload::Rep(f) => f == e,
        _ => false,
    }
}

// Whether the packet carries Req(e) or Rep(e).
pub fn has_establishment(p: Packet, e: u8) -> bool
    ensures { result ≡ spec.concerns p.payload e }
{
    concerns(p.payload, e)
}

pub fn is_data_or_done(y: Payload) -> bool
    ensures { result ≡ spec.is_data_or_done y }
{
    matches!(y, Payload::Done | Payload::Data(_))
}
