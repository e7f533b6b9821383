// Calls with each line of the input twice: first with a lent output that is one byte too short, then with one that is just
// long enough. Both outputs are all dots before; of each call it writes what was returned, how many bytes stand before the
// first dot and how many dots there are, then those bytes.
#![tactic(auto)]

ghost use Rattle.std.specs.Prelude.{◌≤◌, length};

use calculus::answer::Refusal;
use calculus::state::State;
use inputs::read_full;
use lines::line_at;
use simulator::call::call;
use std::io::{self, Print};
use tables::fresh::fresh;

fn put_number(rt: &HostRuntime, n: u64) -> io::Result<()> {
    print!(rt; " {n}")
}

fn put_status(rt: &HostRuntime, status: Result<(), Refusal>) -> io::Result<()> {
    match status {
        Ok(()) => rt.write_all(b"answered"),
        Err(refusal) => {
            rt.write_all(b"refusal")?;
            put_number(rt, u8::from(refusal) as u64)
        }
    }
}

// How many bytes stand before the first dot.
fn first_dot(out: &[u8]) -> usize
    ensures { result ≤ length out.now }
{
    out.iter()
        .position(|byte| *byte == b'.')
        .unwrap_or(out.len())
}

fn count_dots(out: &[u8]) -> usize {
    let mut n: usize = 0;
    for byte in out {
        n = n.wrapping_add((*byte == b'.') as usize);
    }
    n
}

// The call, and the state that it leaves.
fn put_call(rt: &HostRuntime, state: State, line: &[u8], out: &mut [u8]) -> io::Result<State> {
    rt.write_all(line)?;
    rt.write_all(b" with")?;
    put_number(rt, out.len() as u64)?;
    rt.write_all(b" bytes: ")?;
    let reply = call(state, line, out);
    put_status(rt, reply.status)?;
    rt.write_all(b", written")?;
    put_number(rt, reply.written as u64)?;
    let n = first_dot(out);
    rt.write_all(b", before the dots")?;
    put_number(rt, n as u64)?;
    rt.write_all(b", dots")?;
    put_number(rt, count_dots(out) as u64)?;
    rt.write_all(b"\n")?;
    rt.write_all(&out[..n])?;
    Ok(reply.state)
}

// A call that changed the state though it was refused for its output would show in the call after it.
fn put_both(rt: &HostRuntime, state: State, line: &[u8]) -> io::Result<State> {
    let mut short = [b'.'; 65535];
    let mut enough = [b'.'; 65536];
    let left = put_call(rt, state, line, &mut short)?;
    put_call(rt, left, line, &mut enough)
}

// The lines of `text`, one after the other, from a fresh state.
fn put_lines(rt: &HostRuntime, text: &[u8]) -> io::Result<()> {
    let mut state = fresh();
    let mut from: usize = 0;
    while let Some(line) = line_at(text, from) {
        state = put_both(rt, state, &text[from..line.stop])?;
        from = line.next;
    }
    Ok(())
}

fn main(rt: HostRuntime) -> io::Result<()> {
    let mut input = [0u8; 8192];
    let n = read_full(&mut rt.stdin(), &mut input)?;
    put_lines(&rt, &input[..n])
}
