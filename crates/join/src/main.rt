// Joins the networks of two files, whose names are its arguments, and writes the network of both, or why not. It reads and writes;
// what it makes of the files is `joins`'.
#![tactic(auto)]

ghost use Rattle.std.specs.Prelude.{◌≤◌, length, IfSome};

use inputs::read_full;
use joins::join;
use std::env::Env;
use std::fs::File;
use std::io::Print;

// Opens the file that argument i names; where that is missing, too long or no text, there is none.
fn open_file(rt: &HostRuntime, i: usize) -> Option<File> {
    let mut path = [0u8; 4096];
    let length = rt.arg(i, &mut path).ok()?;
    let name = str::from_utf8(&path[..length]).ok()?;
    File::open(rt, name).ok()
}

// Reads the file that argument i names: how many bytes it has, none where it can't be read. No network's text has more than 29,376 bytes, so a file that fills a buffer of 29,377 is
// refused as the whole file would be (`cut` in model/specs/Union.antt).
fn read_file(rt: &HostRuntime, i: usize, buffer: &mut [u8]) -> Option<usize>
    ensures { IfSome result (λ n. n ≤ length buffer.new) }
{
    let mut file = open_file(rt, i)?;
    read_full(&mut file, buffer).ok()
}

fn main(rt: HostRuntime) -> std::io::Result<()> {
    let mut a = [0u8; 29377];
    let mut b = [0u8; 29377];
    let mut out = [0u8; 65536];
    let first = read_file(&rt, 1, &mut a);
    let second = read_file(&rt, 2, &mut b);
    let reply = join(first.map(|n| &a[..n]), second.map(|n| &b[..n]), &mut out);
    rt.write_all(&out[..reply.written])
}
