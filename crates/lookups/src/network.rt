// What is looked up in the network.
ghost use Rattle.std.specs.Prelude.{◌≡◌, not, ◌||◌, None, get_or};
ghost use Rattle.std.specs.List.{list_all, zip};
ghost use Rattle.model.specs.Network as spec;

use calculus::network::{Kind, Network, NextHop, Node};
use calculus::number::{is_node, pred};

// The entry of a table at a place; past its end there is none.
fn entry<T: Copy>(table: &[Option<T>], at: usize) -> Option<T>
    ensures { result ≡ get_or table.now at None }
{
    if at < table.len() {
        return table[at];
    }
    None
}

// Node `a`, if it was given.
#[tactic(auto, using(crate::proofs::Nodes::node_bounds), unfolding(model::specs::Network::node_at))]
fn node_at(n: &Network, a: u8) -> Option<Node>
    ensures { result ≡ spec.node_at n.now a }
{
    if is_node(a as u64) {
        return entry(&n.nodes, a as usize - 1);
    }
    None
}

// Whether node `a` was given.
pub fn given(n: &Network, a: u8) -> bool
    ensures { result ≡ spec.given n.now a }
{
    node_at(n, a).is_some()
}

// Whether `a` was given as a gateway.
pub fn is_gateway(n: &Network, a: u8) -> bool
    ensures { result ≡ spec.is_gateway n.now a }
{
    match node_at(n, a) {
        Some(node) => node.kind == Kind::Gateway,
        None => false,
    }
}

// The place of the route from node `a` for destination `b`.
pub fn route_place(a: u8, b: u8) -> usize
    ensures { result ≡ spec.route_place a b }
{
    33 * pred(a) as usize + b as usize
}

// The next node of the route from node `a` for destination `b`, if one was given.
pub fn route_to(n: &Network, a: u8, b: u8) -> Option<u8>
    ensures { result ≡ spec.route_to n.now a b }
{
    entry(&n.routes, route_place(a, b))
}

// By a route of its own, else by the default, which is asked only then.
fn hop(n: &Network, a: u8, b: u8) -> Option<NextHop>
    ensures { result ≡ spec.hop (spec.route_to n.now a b) (spec.route_to n.now a 0) }
{
    if let Some(next) = route_to(n, a, b) {
        return Some(NextHop::Exact(next));
    }
    let next = route_to(n, a, 0)?;
    Some(NextHop::Default(next))
}

// The next hop from `a` for `b`; none where `a` or `b` is no node.
#[tactic(auto, unfolding(model::specs::Network::next_hop))]
pub fn next_hop(n: &Network, a: u8, b: u8) -> Option<NextHop>
    ensures { result ≡ spec.next_hop n.now a b }
{
    if is_node(a as u64) && is_node(b as u64) {
        return hop(n, a, b);
    }
    None
}

// Whether a credential is had, or not needed.
fn is_met(has: bool, needs: bool) -> bool
    ensures { result ≡ (has || not needs) }
{
    has || !needs
}

// Whether each credential, at its place in the two sets, is had or not needed.
fn all_met(has: &[bool; 64], needs: &[bool; 64]) -> bool
    ensures { result ≡ list_all (λ p. p.0 || not p.1) (zip has.now needs.now) }
{
    has.iter()
        .zip(needs)
        .all(|(had, needed)| is_met(*had, *needed))
}

// Whether every credential of `needs` is in `has`.
#[tactic(auto, using(crate::proofs::Covers::covers_zip))]
fn covers(has: &[bool; 64], needs: &[bool; 64]) -> bool
    ensures { result ≡ spec.covers has.now needs.now }
{
    all_met(has, needs)
}

// What a node has; one that was not given has nothing.
fn had(node: Option<Node>) -> [bool; 64]
    ensures { result ≡ spec.had node }
{
    match node {
        Some(node) => node.has,
        None => [false; 64],
    }
}

// What a node needs; one that was not given needs nothing.
fn needed(node: Option<Node>) -> [bool; 64]
    ensures { result ≡ spec.needed node }
{
    match node {
        Some(node) => node.needs,
        None => [false; 64],
    }
}

// Whether `q` has all that `a` needs.
#[tactic(auto, unfolding(model::specs::Network::has_all_needed))]
pub fn has_all_needed(n: &Network, a: u8, q: u8) -> bool
    ensures { result ≡ spec.has_all_needed n.now a q }
{
    let peer = node_at(n, q);
    let node = node_at(n, a);
    covers(&had(peer), &needed(node))
}
