// One call: a line and a lent output.
ghost use Rattle.std.specs.Prelude.{◌≡◌, length};
ghost use Rattle.model.specs.Calls as calls;
ghost use Rattle.simulator.specs.Reply.{Replies};

use crate::line::answer_line;
use calculus::answer::Refusal;
use calculus::state::State;
use forms::read::read;
use tables::part::{load, store};
use turns::session_of;

// The state that a call leaves, how many bytes of the lent output it wrote, and whether it was refused.
#[derive(Clone, Copy)]
pub struct Reply {
    pub state: State,
    pub written: usize,
    pub status: Result<(), Refusal>,
}

// Answers `line`, the bytes before its newline, with lines at the front of `out`; the other bytes of `out` stay. Refusal 0
// where `out` has fewer than 65,536 bytes. A refused call leaves the state as it was.
#[tactic(auto, unfolding(model::specs::Calls::answered))]
pub fn call(s: State, line: &[u8], out: &mut [u8]) -> Reply
    ensures { Replies out.old (calls.answered s line.now (length out.old)) out.new result }
{
    if out.len() < 65536 {
        return Reply {
            state: s,
            written: 0,
            status: Err(Refusal::Short),
        };
    }
    let asked = read(line);
    let session = session_of(asked);
    let mut state = s;
    let mut part = load(&state, session);
    let (written, status) = answer_line(&mut state, &mut part, asked, out, 0);
    store(&mut state, session, &part);
    Reply {
        state,
        written,
        status,
    }
}
