// The rule of an item, with what it looks up.
ghost use Rattle.std.specs.Prelude.{◌≡◌, false};
ghost use Rattle.model.specs.Network.{has_all_needed};
ghost use Rattle.model.specs.Row as row;
ghost use Rattle.model.specs.Rules as spec;

use calculus::answer::Loss;
use calculus::effect::Effect;
use calculus::network::Network;
use calculus::packet::{Item, Side};
use calculus::state::Part;
use effects::effect::lost;
use establishments::{ack, auth, est, grant};
use forwarding::out::out;
use forwarding::up::up;
use forwarding::wire::wire;
use lookups::network::has_all_needed;
use lookups::rows::held;

// Auth, with whether q has all that a needs.
fn auth_at(n: &Network, a: u8, q: u8, e: u8, side: Side) -> Effect
    ensures { result ≡ spec.auth_rule (has_all_needed n.now a q) a q e side }
{
    auth(has_all_needed(n, a, q), a, q, e, side)
}

// What the item's rule does, for the session whose part is `t`. A wait has none: a step of one is refused before.
#[tactic(auto, unfolding(model::specs::Rules::rule))]
pub fn rule(n: &Network, users: &[u16; 2048], t: &Part, i: Item) -> Effect
    ensures { result ≡ spec.rule n.now (row.stands users.now false) t.now i }
{
    let s = t.session;
    match i {
        Item::Wire(a, p) => wire(n, s, a, p),
        Item::Out(a, p) => out(held(t), a, p),
        Item::Up(a, p) => up(users, held(t), a, p),
        Item::Est(a, b, e) => est(a, b, e),
        Item::Auth(a, q, e, side) => auth_at(n, a, q, e, side),
        Item::Grant(a, q, e, side) => grant(s, a, q, e, side),
        Item::Ack(a, _) => ack(s, a),
        Item::Dwait(_) | Item::Ewait(_, _) => lost(Loss::WrongTunnel),
    }
}
