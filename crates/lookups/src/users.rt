// The users of associations, in the order node, in before out, peer.
ghost use Rattle.std.specs.Prelude.{◌≡◌, cond, ◌<◌, Some, None, IfSome};
ghost use Rattle.model.specs.Row as spec;

use calculus::number::is_node;
use calculus::session::Row;

fn are_nodes(a: u8, q: u8) -> bool
    ensures { result ≡ spec.are_nodes a q }
{
    is_node(a as u64) && is_node(q as u64)
}

// The place of the users of In(a, q) or Out(a, q); none where a or q is no node.
fn place(out: bool, a: u8, q: u8) -> Option<usize>
    ensures is { result ≡ cond (spec.are_nodes a q) (Some (spec.users_place out a q)) None }
    ensures inside { IfSome result (λ at. at < 2048) }
{
    if !are_nodes(a, q) {
        return None;
    }
    let side = if out { 32 } else { 0 };
    Some(64 * (a as usize - 1) + side + (q as usize - 1))
}

// Whether In(a, q) or Out(a, q) stands; none does where a or q is no node.
#[tactic(auto, unfolding(model::specs::Row::users_of))]
pub fn stands(users: &[u16; 2048], out: bool, a: u8, q: u8) -> bool
    ensures { result ≡ spec.stands users.now out a q }
{
    match place(out, a, q) {
        Some(at) => 0 < users[at],
        None => false,
    }
}

// The users once a row has come; as they were where its node or its peer is no node, or where they are 65,535.
#[tactic(auto, unfolding(model::specs::Row::with_users))]
pub fn raise(users: &mut [u16; 2048], r: Row)
    ensures { users.new ≡ spec.with_users spec.one_more users.old r }
{
    if let Some(at) = place(r.out, r.node, r.peers.first) {
        users[at] = users[at].saturating_add(1);
    }
}

// The users once a row has gone, as in `raise`; 0 stays.
#[tactic(auto, unfolding(model::specs::Row::with_users))]
fn lower_one(users: &mut [u16; 2048], r: &Row)
    ensures { users.new ≡ spec.with_users spec.one_less users.old r.now }
{
    if let Some(at) = place(r.out, r.node, r.peers.first) {
        users[at] = users[at].saturating_sub(1);
    }
}

// The users once these rows have gone.
pub fn lower(users: &mut [u16; 2048], rows: &[Row])
    ensures { users.new ≡ spec.lowered users.old rows.now }
{
    for row in rows {
        lower_one(users, row);
    }
}
