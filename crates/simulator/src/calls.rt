// The calls of a text, one on each line, answered one after the other. The sessions' parts are taken out of the state once, and put
// back once: a call changes its part in place, and the shared tables in the state.
ghost use Rattle.std.specs.Prelude.{◌≡◌};
ghost use Rattle.model.specs.Batch.{is_last, next_call, answered_text};
ghost use Rattle.simulator.specs.Batch.{Answers};

use crate::line::answer_line;
use calculus::state::State;
use forms::line::Line;
use forms::read::read;
use lines::line_at;
use tables::part::{pack, unpack};
use turns::session_of;

// The state that the calls leave, how many bytes of the text they are, and how many bytes of the lent output they wrote.
#[derive(Clone, Copy)]
pub struct Answered {
    pub state: State,
    pub read: usize,
    pub written: usize,
}

fn is_last(l: Option<Line>) -> bool
    ensures { result ≡ is_last l }
{
    l.is_none_or(|line| line.stop == line.next)
}

// The line that is to be answered next; none where no newline follows, or where the output that is left has no room for a call.
fn next_call(text: &[u8], from: usize, room: usize) -> Option<Line>
    ensures { result ≡ next_call text.now from room }
{
    if room < 65536 {
        return None;
    }
    let line = line_at(text, from);
    if is_last(line) {
        return None;
    }
    line
}

// Answers the lines of `text` that end in a newline, while the output that is left has room for a call.
pub fn calls(s: State, text: &[u8], out: &mut [u8]) -> Answered
    ensures { Answers out.new result (answered_text s text.now out.old) }
{
    let mut state = s;
    let mut parts = unpack(&state);
    let mut from: usize = 0;
    let mut written: usize = 0;
    while let Some(line) = next_call(text, from, out.len() - written) {
        let asked = read(&text[from..line.stop]);
        let at = session_of(asked).0 as usize - 1;
        let part = &mut parts[at];
        let (behind, _) = answer_line(&mut state, part, asked, out, written);
        written = behind;
        from = line.next;
    }
    Answered {
        state: pack(state, &parts),
        read: from,
        written,
    }
}
