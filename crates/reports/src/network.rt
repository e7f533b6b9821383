// The network's report. The caller has made sure of the room: a node's line has at most 400 bytes and a route's at most 32, so all
// have at most 46,592.
ghost use Rattle.std.specs.Prelude.{map, ◌+◌, ◌≤◌, ◌<◌, length};
ghost use Rattle.forms.specs.Bytes.{joined};
ghost use Rattle.forms.specs.Text.{form_line};
ghost use Rattle.model.specs.NetworkText.{node_form, route_form, network_text};
ghost use Rattle.answers.specs.Put.{Adds};

use crate::table::{Entry, put_table};
use answers::put::Output;
use answers::report::{GivenNode, GivenRoute};
use calculus::network::{Network, Node};

// A node's line, if it was given.
impl Entry for Option<Node> {
    ghost text = { λ p x. joined (map form_line (node_form (1 + p) x)) };

    ghost PLACES = { 32 };

    ghost LONGEST = { 400 };

    fn put(&self, p: usize, out: &mut Output<'_>) {
        if let Some(node) = *self {
            let number = p as u8 + 1;
            out.write(&GivenNode { number, node });
        }
    }
}

// The line of the route at a place, if there is one.
impl Entry for Option<u8> {
    ghost text = { λ p next. joined (map form_line (route_form p next)) };

    ghost PLACES = { 1056 };

    ghost LONGEST = { 32 };

    fn put(&self, p: usize, out: &mut Output<'_>) {
        if let Some(next) = *self {
            let at = (p / 33 + 1) as u8;
            let destination = (p % 33) as u8;
            out.write(&GivenRoute {
                at,
                destination,
                next,
            });
        }
    }
}

// The nodes, rising, then the routes, by at, then by destination.
pub fn put_network(out: &mut Output<'_>, n: &Network)
    requires { out.old.at + 65536 ≤ length out.old.out.now }
    ensures added { Adds out.old (network_text n.now) out.new }
    ensures few { out.new.at ≤ out.old.at + 65536 }
{
    put_table(out, &n.nodes);
    put_table(out, &n.routes);
}
