// The rule wire.
ghost use Rattle.std.specs.Prelude.{◌≡◌, eqb};
ghost use Rattle.model.specs.Network.{is_gateway, next_hop};
ghost use Rattle.model.specs.Packet as packet;
ghost use Rattle.model.specs.Rules as spec;

use calculus::answer::Loss;
use calculus::effect::{Effect, Outcome};
use calculus::network::{Network, NextHop};
use calculus::packet::{Item, Packet, Payload};
use calculus::session::Session;
use effects::effect::{lost, only, writes};
use items::packet::{fewer, is_data_or_done, no_hops_left, target};
use lookups::network::{is_gateway, next_hop};

// Whether a Disc is met at `a`: a gateway or the server, and not its last tunnel point.
fn discovers(gateway: bool, server: u8, a: u8, y: Payload) -> bool
    ensures { result ≡ spec.discovers gateway server a y }
{
    match y {
        Payload::Disc(p) => a != p && (gateway || a == server),
        _ => false,
    }
}

fn last_point(y: Payload) -> u8
    ensures { result ≡ spec.last_point y }
{
    match y {
        Payload::Disc(p) => p,
        _ => 0,
    }
}

fn begin(a: u8, p: u8, e: u8) -> Effect
    ensures { result ≡ spec.begin a p e }
{
    Effect {
        outcome: Outcome::WroteTwo(Item::Dwait(a), Item::Est(a, p, e)),
        wait: None,
        added: None,
        begins: Some(e),
    }
}

fn unprotected(gateway: bool, p: Packet) -> bool
    ensures { result ≡ spec.unprotected gateway p }
{
    gateway && p.header.is_none() && is_data_or_done(p.payload)
}

fn onward(next: Option<NextHop>, p: Packet) -> Effect
    ensures { result ≡ spec.onward next p }
{
    match next {
        Some(NextHop::Exact(node)) => writes(Item::Wire(node, p)),
        Some(NextHop::Default(node)) => only(Outcome::WroteByDefault(Item::Wire(node, p))),
        None => lost(Loss::NoRoute),
    }
}

// Onward by the route from `a` to the packet's target, with one hop less.
fn routed(n: &Network, a: u8, p: Packet) -> Effect
    ensures { result ≡ spec.onward (next_hop n.now a (packet.target p)) (packet.fewer p) }
{
    let next = next_hop(n, a, target(p));
    onward(next, fewer(p))
}

// Whether the packet has come to where it goes.
fn arrived(a: u8, p: Packet) -> bool
    ensures { result ≡ eqb a (packet.target p) }
{
    a == target(p)
}

// The first case that fits, where `gateway` tells whether `a` is one.
#[tactic(auto, unfolding(model::specs::Rules::wire_rule))]
fn first_fit(gateway: bool, n: &Network, s: Session, a: u8, p: Packet) -> Effect
    ensures { result ≡ spec.wire_rule gateway (next_hop n.now a) s a p }
{
    if discovers(gateway, s.server, a, p.payload) {
        if 8 <= s.begun {
            return lost(Loss::Exhausted);
        }
        return begin(a, last_point(p.payload), s.begun + 1);
    }
    if arrived(a, p) {
        return writes(Item::Up(a, p));
    }
    if unprotected(gateway, p) {
        return lost(Loss::Unprotected);
    }
    if no_hops_left(p) {
        return lost(Loss::HopLimit);
    }
    routed(n, a, p)
}

// wire(a, packet, h): h is the packet's count in use.
pub fn wire(n: &Network, s: Session, a: u8, p: Packet) -> Effect
    ensures { result ≡ spec.wire_rule (is_gateway n.now a) (next_hop n.now a) s a p }
{
    first_fit(is_gateway(n, a), n, s, a, p)
}
