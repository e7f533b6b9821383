// The simulator as a program: a call on each line of standard input, the answers' lines on standard output. It reads and writes;
// what it makes of its input is `pieces`'.
#![tactic(auto)]

ghost use Rattle.std.specs.Prelude.{◌≤◌, length};

use pieces::{advance, start};
use std::io::{Print, Read};

// One read behind the first `at` bytes, which takes what there is: how many bytes came, 0 at the end of the input. A read that
// fails counts as the end; no signal interrupts one, since the program handles none.
fn read_more(rt: &HostRuntime, input: &mut [u8], at: usize) -> usize
    requires { at ≤ length input.old }
{
    rt.stdin().read(&mut input[at..]).unwrap_or(0)
}

// A proved loop has to end, and nothing says that the input does: so the rounds are counted, up to a number that no run comes to.
// A failed write ends the program, as the end of the input does.
fn run(rt: &HostRuntime, input: &mut [u8], out: &mut [u8]) {
    let mut progress = start();
    for _ in 0..u64::MAX {
        let got = if progress.wants {
            read_more(rt, input, progress.to)
        } else {
            0
        };
        progress = advance(progress, input, got, out);
        let written = rt.write_all(&out[..progress.written]);
        if written.is_err() || progress.over {
            return;
        }
    }
}

fn main(rt: HostRuntime) {
    let mut input = [0u8; 65536];
    let mut out = [0u8; 131072];
    run(&rt, &mut input, &mut out);
}
