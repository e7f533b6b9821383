// The network that an accepted node or route call leaves.
ghost use Rattle.std.specs.Prelude.{◌≡◌, cond};
ghost use Rattle.model.specs.Network as network;
ghost use Rattle.model.specs.Requests as spec;
ghost use Rattle.model.specs.Turn as turns;

use calculus::answer::{Answer, Refusal};
use calculus::network::{Kind, Network, Node};
use calculus::number::pred;
use calculus::request::Request;
use lookups::network::route_place;
use lookups::set::set_at;

// Past the end of a table nothing is stored, as the definitions have it.
fn with_node(n: &mut Network, a: u8, kind: Kind, has: [bool; 64], needs: [bool; 64])
    ensures { n.new ≡ spec.with_node n.old a kind has needs }
{
    let node = Node { kind, has, needs };
    set_at(&mut n.nodes, pred(a) as usize, Some(node));
}

// The next node that a route names: none by 0, which is no node.
fn next_node(next: u8) -> Option<u8>
    ensures { result ≡ network.next_node next }
{
    if next == 0 { None } else { Some(next) }
}

fn with_route(n: &mut Network, a: u8, b: u8, hop: u8)
    ensures { n.new ≡ spec.with_route n.old a b hop }
{
    set_at(&mut n.routes, route_place(a, b), next_node(hop));
}

// The network with what a node or route call gives.
fn network_with(n: &mut Network, q: Request)
    ensures { n.new ≡ turns.network_with n.old q }
{
    match q {
        Request::Node {
            node,
            kind,
            has,
            needs,
        } => with_node(n, node, kind, has, needs),
        Request::Route {
            at,
            destination,
            next,
        } => with_route(n, at, destination, next),
        _ => {}
    }
}

fn network_of(n: &mut Network, asked: Result<Request, Refusal>)
    ensures { n.new ≡ turns.network_of n.old asked }
{
    if let Ok(q) = asked {
        network_with(n, q);
    }
}

// Whether the answer is `(ok)`: no other leaves another network.
fn is_ok(answer: Result<Answer, Refusal>) -> bool
    ensures { result ≡ turns.answers_ok answer }
{
    matches!(answer, Ok(Answer::Ok))
}

// Adds to the network, once a line is answered that asks this, what an accepted node or route call gives.
pub fn network_after(
    n: &mut Network,
    asked: Result<Request, Refusal>,
    answer: Result<Answer, Refusal>,
)
    ensures { n.new ≡ cond (turns.answers_ok answer) (turns.network_of n.old asked) n.old }
{
    if is_ok(answer) {
        network_of(n, asked);
    }
}
