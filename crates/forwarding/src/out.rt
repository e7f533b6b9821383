// The rule out.
ghost use Rattle.std.specs.Prelude.{◌≡◌};
ghost use Rattle.model.specs.Rules as spec;

use calculus::answer::Loss;
use calculus::effect::Effect;
use calculus::number::Spi;
use calculus::packet::{HOP_LIMIT, Header, Item, Packet};
use calculus::session::{Peers, Row};
use effects::effect::{lost, writes};
use items::packet::{fewer, no_hops_left, under};
use rows::row::newest;

// The header of the tunnel from `a`, or none.
fn header_to(a: u8, x: Option<Peers>) -> Option<Header>
    ensures { result ≡ spec.header_to a x }
{
    x.map(|q| Header {
        from: a,
        to: q.first,
        spi: Spi::between(q.first, a),
        hops: HOP_LIMIT,
    })
}

// The packet through the tunnel of its matching out row, or bare.
fn sent(rows: &[Row], a: u8, p: Packet) -> Effect
    ensures { result ≡ spec.sent rows.now a p }
{
    let through = newest(rows, true, a, p);
    writes(Item::Wire(a, under(p, header_to(a, through))))
}

// out(a, packet): a node that did not create the packet takes one of its hops.
#[tactic(auto, unfolding(model::specs::Rules::out_rule))]
pub fn out(rows: &[Row], a: u8, p: Packet) -> Effect
    ensures { result ≡ spec.out_rule rows.now a p }
{
    if a == p.source {
        return sent(rows, a, p);
    }
    if no_hops_left(p) {
        return lost(Loss::HopLimit);
    }
    sent(rows, a, fewer(p))
}
