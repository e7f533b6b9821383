// One line, of a call or of a text of calls.
ghost use Rattle.std.specs.Prelude.{◌≡◌};
ghost use Rattle.model.specs.Calls.{refusal_in, lines_text};
ghost use Rattle.model.specs.Turn.{shared_with, lines_as, report_of};
ghost use Rattle.answers.specs.Write.{Writes};
ghost use Rattle.simulator.specs.Line.{line_turned};
ghost use Rattle.simulator.specs.Reply.{status_of};

use calculus::answer::Refusal;
use calculus::request::Request;
use calculus::state::{Part, State};
use networks::after::network_after;
use reports::write_lines;
use turns::turn;

// Answers a line that asks this: changes the part `t` of its session, and of the state what all sessions share, and writes its lines
// from `at` on. Gives the place behind them, and whether the line was refused. The state's own tables of the sessions stay.
pub fn answer_line(
    s: &mut State,
    t: &mut Part,
    asked: Result<Request, Refusal>,
    out: &mut [u8],
    at: usize,
) -> (usize, Result<(), Refusal>)
    ensures shared { s.new ≡ shared_with s.old (line_turned s.old t.old asked) }
    ensures part { t.new ≡ (line_turned s.old t.old asked).part }
    ensures lines { let x = line_turned s.old t.old asked in
        Writes 65536 out.old at (lines_text (lines_as s.old.network x.users x.answer (report_of asked))) out.new result.0 }
    ensures status { result.1 ≡ status_of (refusal_in (line_turned s.old t.old asked).answer) }
{
    let answer = turn(&mut s.opened, &s.network, &mut s.users, t, asked);
    let written = write_lines(out, at, &s.network, &s.users, asked, answer);
    network_after(&mut s.network, asked, answer);
    (written, answer.map(|_| ()))
}
