// Input that comes in pieces, answered as it comes. The bytes that came stand in a buffer that the caller lends; a round answers
// lines of them, and keeps at the buffer's front what stays of a line whose newline has not come.
#![tactic(auto)]

ghost use Rattle.std.specs.Prelude.{◌≤◌, min, ◌≡◌, ◌&&◌, eqb, length};
ghost use Rattle.model.specs.Stream.{has_line};
ghost use Rattle.pieces.specs.Keep.{Keeps};
ghost use Rattle.pieces.specs.Progress.{started, stream_at, ended, answered_into, advanced, Advances};

use calculus::state::State;
use lines::line_at;
use simulator::call::call;
use simulator::calls::calls;
use tables::fresh::fresh;

// So many bytes are too many for a form, whatever follows them in their line.
const TOO_LONG: usize = 401;

// How far the input is answered: the state; the bytes of the buffer from `from` to `to` came and are not read; whether more of
// the input is wanted, or it is over; how many bytes of the output the last round wrote.
#[derive(Clone, Copy)]
pub struct Progress {
    pub state: State,
    pub from: usize,
    pub to: usize,
    pub wants: bool,
    pub over: bool,
    pub written: usize,
}

// Moves the bytes from `from` up to `to` to the front and answers how many they are. Of a line that is too long already no
// more than shows it is kept.
fn keep(input: &mut [u8], from: usize, to: usize) -> usize
    requires { (from ≤ to) × (to ≤ length input.old) }
    ensures { Keeps input.old from to input.new result }
{
    let kept = TOO_LONG.min(to - from);
    input.copy_within(from..from + kept, 0);
    kept
}

fn has_line(text: &[u8]) -> bool
    ensures { result ≡ has_line text.now }
{
    line_at(text, 0).is_some_and(|line| line.stop < line.next)
}

// Answers lines of the bytes from `from` up to `to`, as many as the output has room for.
fn answer(p: Progress, input: &mut [u8], from: usize, to: usize, out: &mut [u8]) -> Progress
    requires { (from ≤ to) × (to ≤ length input.old) }
    ensures { Advances (answered_into (stream_at p.state from to input.old) to input.old out.old) input.new out.new result }
{
    let answered = calls(p.state, &input[from..to], out);
    let next = from + answered.read;
    let left = Progress {
        state: answered.state,
        from: next,
        to,
        wants: false,
        over: false,
        written: answered.written,
    };
    if has_line(&input[next..to]) {
        return left;
    }
    let kept = keep(input, next, to);
    Progress {
        from: 0,
        to: kept,
        wants: true,
        ..left
    }
}

// The end of the input: the bytes from `from` up to `to` are a line too, if there are any.
#[tactic(auto, using(crate::proofs::Rounds::finish_none))]
fn finish(p: Progress, input: &[u8], from: usize, to: usize, out: &mut [u8]) -> Progress
    requires { (from ≤ to) × (to ≤ length input.now) }
    ensures { Advances (ended (stream_at p.state from to input.now) input.now out.old) input.now out.new result }
{
    let over = Progress {
        state: p.state,
        from: 0,
        to: 0,
        wants: false,
        over: true,
        written: 0,
    };
    if from == to {
        return over;
    }
    let reply = call(p.state, &input[from..to], out);
    Progress {
        state: reply.state,
        written: reply.written,
        ..over
    }
}

fn is_end(wants: bool, got: usize) -> bool
    ensures { result ≡ (wants && eqb got 0) }
{
    wants && got == 0
}

// Nothing came yet.
pub fn start() -> Progress
    ensures { result ≡ started }
{
    Progress {
        state: fresh(),
        from: 0,
        to: 0,
        wants: true,
        over: false,
        written: 0,
    }
}

// A round: `got` bytes came behind those in the buffer, none at the end of the input. Answers what can be answered.
pub fn advance(p: Progress, input: &mut [u8], got: usize, out: &mut [u8]) -> Progress
    ensures { Advances (advanced p got input.old out.old) input.new out.new result }
{
    let to = p.to.min(input.len());
    let from = p.from.min(to);
    if is_end(p.wants, got) {
        return finish(p, input, from, to, out);
    }
    let filled = to + got.min(input.len() - to);
    answer(p, input, from, filled, out)
}
