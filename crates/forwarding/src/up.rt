// The rule up.
ghost use Rattle.std.specs.Prelude.{◌≡◌, false};
ghost use Rattle.model.specs.Row as row;
ghost use Rattle.model.specs.Rules as spec;

use calculus::answer::Loss;
use calculus::effect::{Effect, Outcome, Wait};
use calculus::packet::{Header, Item, Packet, Payload, Side};
use calculus::session::{Peers, Row};
use effects::effect::{lost, only, writes, writes_for};
use items::packet::under;
use lookups::users::stands;
use rows::row::{admits, named, newest};

// The peers that the header is from; none where there is no header.
fn stripped(h: Option<Header>) -> Option<Peers>
    ensures { result ≡ spec.stripped h }
{
    h.and_then(|x| named(x.from))
}

// Whether the packet is bare, or its header's association stands and this session has an in row of it.
fn admitted(users: &[u16; 2048], rows: &[Row], a: u8, h: Option<Header>) -> bool
    ensures { result ≡ spec.admitted (row.stands users.now false) rows.now a h }
{
    match h {
        None => true,
        Some(h) => stands(users, false, a, h.from) && admits(rows, a, h.from),
    }
}

// Whether the packet came through the tunnel of its matching in row, or through none where there is no row.
fn matched(rows: &[Row], a: u8, p: Packet) -> bool
    ensures { result ≡ spec.matched rows.now a p }
{
    newest(rows, false, a, p) == stripped(p.header)
}

// A packet from `b`, received at its destination `a`.
fn received(a: u8, b: u8, y: Payload) -> Effect
    ensures { result ≡ spec.received a b y }
{
    match y {
        Payload::Req(e) => writes(Item::Auth(a, b, e, Side::Responder)),
        Payload::Rep(e) => {
            let item = Item::Auth(a, b, e, Side::Initiator);
            writes_for(Some(Wait::Establishment(a, e)), item)
        }
        Payload::Disc(_) => lost(Loss::WrongTunnel),
        Payload::Done => only(Outcome::Opened),
        Payload::Data(tag) => only(Outcome::Delivered(tag)),
    }
}

// up(a, packet): admit, match, then strip and forward, or receive.
#[tactic(auto, unfolding(model::specs::Rules::up_rule))]
pub fn up(users: &[u16; 2048], rows: &[Row], a: u8, p: Packet) -> Effect
    ensures { result ≡ spec.up_rule (row.stands users.now false) rows.now a p }
{
    if !admitted(users, rows, a, p.header) {
        return lost(Loss::NoTunnel);
    }
    if !matched(rows, a, p) {
        return lost(Loss::WrongTunnel);
    }
    if p.destination != a {
        return writes(Item::Out(a, under(p, None)));
    }
    received(a, p.source, p.payload)
}
