// Two networks made one (document 02, #106): the join of two files.
#![tactic(auto)]

mod compare;
mod merge;
mod text;

ghost use Rattle.std.specs.Prelude.{◌≤◌, length};
ghost use Rattle.model.specs.Join as spec;
ghost use Rattle.joins.specs.Join.{file_of, JoinReplies};
ghost use Rattle.joins.specs.Merge.{Finds};

use crate::compare::same_text;
use crate::merge::{clash, merge};
use crate::text::NetworkText;
use answers::write::write;
use calculus::answer::{Answer, Refusal};
use simulator::call::call;
use simulator::calls::calls;
use tables::fresh::fresh;

// How many bytes of the lent output a join wrote, and whether it was refused.
#[derive(Clone, Copy)]
pub struct JoinReply {
    pub written: usize,
    pub status: Result<(), Refusal>,
}

// Reads a file on a fresh state and asks that for its network: a file as `(net)` writes it gives back its own bytes, and no other is a
// network's text. The scratch has room for the answers, `(ok)` to each of at most 1,088 lines, and for a call behind them. Where more is
// answered the calls end early: then the file is no network's text, and not that of what was read either.
fn find_network<'a>(file: Option<&'a [u8]>) -> Option<NetworkText<'a>>
    ensures { Finds (file_of file.entry) result }
{
    let text = file?;
    let mut scratch = [0u8; 70976];
    let given = calls(fresh(), text, &mut scratch);
    let state = given.state;
    let network = state.network;
    let reply = call(state, b"(net)", &mut scratch);
    let written = reply.written;
    if same_text(text, &scratch[0..written]) {
        return Some(NetworkText { text, network });
    }
    None
}

// Writes the refusal's line.
fn refuse(out: &mut [u8], refusal: Refusal) -> JoinReply
    requires { 65536 ≤ length out.old }
    ensures { JoinReplies out.old (spec.refused_join refusal) out.new result }
{
    let answer: Result<Answer, Refusal> = Err(refusal);
    let written = write(out, 0, &answer);
    JoinReply {
        written,
        status: Err(refusal),
    }
}

// Joins the texts of two networks.
fn join_networks(a: &NetworkText<'_>, b: &NetworkText<'_>, out: &mut [u8]) -> JoinReply
    requires { 65536 ≤ length out.old }
    ensures { JoinReplies out.old (spec.join_networks a.now.network b.now.network) out.new result }
{
    if clash(a, b) {
        return refuse(out, Refusal::Clash);
    }
    let written = merge(a, b, out);
    JoinReply {
        written,
        status: Ok(()),
    }
}

// Joins two files, each of which may be missing, into the front of `out`; the other bytes of `out` stay. Refusal 0 where `out` has
// fewer than 65,536 bytes, then 15, then 14.
#[tactic(auto, unfolding(model::specs::Join::join))]
pub fn join<'a>(a: Option<&'a [u8]>, b: Option<&'a [u8]>, out: &mut [u8]) -> JoinReply
    ensures { JoinReplies out.old (spec.join (file_of a.entry) (file_of b.entry) (length out.old)) out.new result }
{
    if out.len() < 65536 {
        return JoinReply {
            written: 0,
            status: Err(Refusal::Short),
        };
    }
    let Some(first) = find_network(a) else {
        return refuse(out, Refusal::Unsorted);
    };
    let Some(second) = find_network(b) else {
        return refuse(out, Refusal::Unsorted);
    };
    join_networks(&first, &second, out)
}
