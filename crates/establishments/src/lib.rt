// The rules of an establishment: est, auth, grant, ack.
#![tactic(auto)]

ghost use Rattle.std.specs.Prelude.{◌≡◌};
ghost use Rattle.model.specs.Rules as spec;

use calculus::effect::{Effect, Outcome, Wait};
use calculus::packet::{Item, Payload, Side};
use calculus::session::Session;
use effects::effect::{only, writes, writes_for, writes_rows};
use items::packet::bare;
use rows::row::row;

// est(a, b, e)
#[tactic(auto, unfolding(model::specs::Rules::est_rule))]
pub fn est(a: u8, b: u8, e: u8) -> Effect
    ensures { result ≡ spec.est_rule a b e }
{
    let request = Item::Out(a, bare(a, b, Payload::Req(e)));
    only(Outcome::WroteTwo(request, Item::Ewait(a, e)))
}

// auth(a, q, e, side), where `enough` tells whether q has all that a needs
#[tactic(auto, unfolding(model::specs::Rules::auth_rule))]
pub fn auth(enough: bool, a: u8, q: u8, e: u8, side: Side) -> Effect
    ensures { result ≡ spec.auth_rule enough a q e side }
{
    if enough {
        return writes(Item::Grant(a, q, e, side));
    }
    only(Outcome::Denied)
}

// grant(a, q, e, side)
#[tactic(auto, unfolding(model::specs::Rules::grant_rule))]
pub fn grant(s: Session, a: u8, q: u8, e: u8, side: Side) -> Effect
    ensures { result ≡ spec.grant_rule s a q e side }
{
    match side {
        Side::Responder => {
            let older = row(true, a, s.client, s.server, q, e);
            let newer = row(false, a, s.server, s.client, q, e);
            writes_rows(older, newer, Item::Out(a, bare(a, q, Payload::Rep(e))))
        }
        Side::Initiator => {
            let older = row(true, a, s.server, s.client, q, e);
            let newer = row(false, a, s.client, s.server, q, e);
            writes_rows(older, newer, Item::Ack(a, e))
        }
    }
}

// What an ack at `a` writes.
fn acknowledged(s: Session, a: u8) -> Item
    ensures { result ≡ spec.acknowledged s a }
{
    if a == s.server {
        return Item::Out(a, bare(s.server, s.client, Payload::Done));
    }
    Item::Wire(a, bare(s.client, s.server, Payload::Disc(a)))
}

// ack(a, e)
#[tactic(auto, unfolding(model::specs::Rules::ack_rule))]
pub fn ack(s: Session, a: u8) -> Effect
    ensures { result ≡ spec.ack_rule s a }
{
    writes_for(Some(Wait::Discovery(a)), acknowledged(s, a))
}
