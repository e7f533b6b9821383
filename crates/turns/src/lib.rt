// What a line does, told by the part of the session that it names and by the tables that all sessions share.
#![tactic(auto)]

ghost use Rattle.std.specs.Prelude.{◌≡◌};
ghost use Rattle.model.specs.Turn as turns;

use calculus::answer::{Answer, Refusal};
use calculus::network::Network;
use calculus::number::SessionNumber;
use calculus::request::Request;
use calculus::state::Part;
use lookups::blank::blank_part;
use networks::node::node_answer;
use networks::route::route_answer;
use sessions::requests::{close, drop, open, send, step};

// The session whose part a line is about; any session's serves where it names none.
pub fn session_of(asked: Result<Request, Refusal>) -> SessionNumber
    ensures { result ≡ record { 0 = turns.session_of asked } }
{
    match asked {
        Ok(
            Request::Open { session, .. }
            | Request::Step { session, .. }
            | Request::Send { session, .. }
            | Request::Close(session)
            | Request::Drop { session, .. },
        ) => session,
        _ => SessionNumber(1),
    }
}

// What a request answers; it changes the part `t` of its session and what all sessions share but the network.
#[tactic(auto, unfolding(model::specs::Turn::requested_of, model::specs::Turn::part_with, model::specs::Turn::opened_with, model::specs::Turn::users_with, model::specs::Requests::close_move, model::specs::Requests::closing))]
fn request(
    opened: &mut bool,
    n: &Network,
    users: &mut [u16; 2048],
    t: &mut Part,
    q: Request,
) -> Result<Answer, Refusal>
    ensures answer { result ≡ turns.requested_of opened.old n.now users.old t.old q }
    ensures part { t.new ≡ turns.part_with n.now users.old t.old q }
    ensures opens { opened.new ≡ turns.opened_with opened.old n.now t.old q }
    ensures shared { users.new ≡ turns.users_with n.now users.old t.old q }
{
    match q {
        Request::Node { node, .. } => node_answer(*opened, n, node),
        Request::Route {
            at,
            destination,
            next,
        } => route_answer(*opened, n, at, destination, next),
        Request::Open { client, server, .. } => {
            let answer = open(n, t, client, server);
            *opened = answer.is_ok() || *opened;
            answer
        }
        Request::Step { item, .. } => step(n, users, t, item),
        Request::Send { sender, tag, .. } => send(t, sender, tag),
        Request::Close(_) => close(users, t, &blank_part()),
        Request::Show | Request::Net => Ok(Answer::Ok),
        Request::Drop { establishment, .. } => drop(users, t, establishment),
    }
}

// What a line answers; it changes the part `t` of its session and what all sessions share but the network, which a node or route
// call gives its part afterwards.
pub fn turn(
    opened: &mut bool,
    n: &Network,
    users: &mut [u16; 2048],
    t: &mut Part,
    asked: Result<Request, Refusal>,
) -> Result<Answer, Refusal>
    ensures answer { result ≡ turns.turn_of opened.old n.now users.old t.old asked }
    ensures part { t.new ≡ turns.part_of n.now users.old t.old asked }
    ensures opens { opened.new ≡ turns.opened_of opened.old n.now t.old asked }
    ensures shared { users.new ≡ turns.users_of n.now users.old t.old asked }
{
    request(opened, n, users, t, asked?)
}
