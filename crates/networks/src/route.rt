// What a route call answers.
ghost use Rattle.std.specs.Prelude.{◌≡◌, not};
ghost use Rattle.calculus.specs.declared.answer.Answer.{Answer};
ghost use Rattle.model.specs.Network as network;
ghost use Rattle.model.specs.Requests as spec;

use calculus::answer::{Answer, Refusal};
use calculus::network::Network;
use lookups::network::{given, route_to};

// Whether the destination is 0, or a node that was given.
fn is_destination_given(n: &Network, b: u8) -> bool
    ensures { result ≡ spec.destination_given n.now b }
{
    b == 0 || given(n, b)
}

fn is_route_unknown(n: &Network, a: u8, b: u8, hop: u8) -> bool
    ensures { result ≡ not (spec.nodes_given n.now a b hop) }
{
    !(given(n, a) && is_destination_given(n, b) && given(n, hop))
}

fn is_same(a: u8, b: u8, hop: u8) -> bool
    ensures { result ≡ spec.leads_back a b hop }
{
    a == b || a == hop
}

fn has_route(n: &Network, a: u8, b: u8) -> bool
    ensures { result ≡ network.is_routed n.now a b }
{
    route_to(n, a, b).is_some()
}

// route a b hop: refusals 5, 4, 8, 3.
#[tactic(auto, unfolding(model::specs::Requests::checked))]
pub fn route_answer(opened: bool, n: &Network, a: u8, b: u8, hop: u8) -> Result<Answer, Refusal>
    ensures { result ≡ spec.checked (spec.route_checks opened n.now a b hop) Answer.Ok }
{
    if opened {
        return Err(Refusal::Late);
    }
    if is_route_unknown(n, a, b, hop) {
        return Err(Refusal::Unknown);
    }
    if is_same(a, b, hop) {
        return Err(Refusal::Same);
    }
    if has_route(n, a, b) {
        return Err(Refusal::Double);
    }
    Ok(Answer::Ok)
}
