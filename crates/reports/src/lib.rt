// The lines that answer a call, written into the lent output: a report's, or that of the one answer.
#![tactic(auto)]

mod network;
mod show;
mod table;

ghost use Rattle.std.specs.Prelude.{◌≡◌, ◌+◌, ◌≤◌, length};
ghost use Rattle.model.specs.Calls.{lines_text};
ghost use Rattle.model.specs.Turn as turns;
ghost use Rattle.answers.specs.Write.{Writes};
ghost use Rattle.answers.specs.Put.{Adds};

use crate::network::put_network;
use crate::show::put_shown;
use answers::put::Output;
use answers::room::has_room;
use calculus::answer::{Answer, Refusal};
use calculus::network::Network;
use calculus::request::{Report, Request};

// No call's lines have more bytes.
const ROOM: usize = 65536;

// The report that a line asks for, if it asks for one.
fn report_of(asked: Result<Request, Refusal>) -> Option<Report>
    ensures { result ≡ turns.report_of asked }
{
    match asked {
        Ok(Request::Show) => Some(Report::AllAssociations),
        Ok(Request::Net) => Some(Report::WholeNetwork),
        _ => None,
    }
}

// The lines of a report, or that of `answer`. The caller has made sure of the room.
fn put_lines(
    out: &mut Output<'_>,
    n: &Network,
    users: &[u16; 2048],
    answer: Result<Answer, Refusal>,
    report: Option<Report>,
)
    requires { out.old.at + 65536 ≤ length out.old.out.now }
    ensures added { Adds out.old (lines_text (turns.lines_as n.now users.now answer report)) out.new }
    ensures few { out.new.at ≤ out.old.at + 65536 }
{
    match report {
        None => out.write(&answer),
        Some(Report::AllAssociations) => put_shown(out, users),
        Some(Report::WholeNetwork) => put_network(out, n),
    }
}

// Writes the lines that answer what was read, a report's or that of `answer`, from `at` on, and answers the place behind them;
// where fewer than 65,536 bytes are left there, writes nothing and answers `at`.
pub fn write_lines(
    out: &mut [u8],
    at: usize,
    n: &Network,
    users: &[u16; 2048],
    asked: Result<Request, Refusal>,
    answer: Result<Answer, Refusal>,
) -> usize
    ensures { Writes 65536 out.old at (lines_text (turns.lines_as n.now users.now answer (turns.report_of asked))) out.new result }
{
    let mut output = Output { out, at };
    if has_room(output.out.len(), at, ROOM) {
        put_lines(&mut output, n, users, answer, report_of(asked));
    }
    output.at
}
