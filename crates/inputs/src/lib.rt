// Input read into a lent buffer, for the programs.
#![tactic(auto)]

ghost use Rattle.std.specs.Io.KnownBytes.{Consumes, IsAtEnd};
ghost use Rattle.std.specs.Prelude.{◌-◌, ◌<◌, ◌≡◌, ◌≤◌, ℕ, List, drop, length, replicate, take, IfOk, OnErr};

use std::io::{self, Read};

// Reads until the buffer is full or the source ends: how many bytes came, which stand at its front. What a reader wrote behind
// what it counted stays.
#[tactic(auto, using(crate::proofs::Came::consumes_more, crate::proofs::Came::lost_by_failing))]
fn read_front<R: Read>(source: &mut R, buffer: &mut [u8]) -> io::Result<usize>
    ensures few { IfOk result (λ n. n ≤ length buffer.new) }
    ensures bytes { IfOk result (λ n. Consumes (R.remaining source.old) (R.remaining source.new) (take n buffer.new)) }
    ensures end { IfOk result (λ n. n < length buffer.new → IsAtEnd (R.remaining source.new)) }
    ensures lost { OnErr result ((bs : List ℕ) × (length bs < length buffer.old)
        × Consumes (R.remaining source.old) (R.remaining source.new) bs) }
{
    let mut size: usize = 0;
    while size < buffer.len() {
        let count = source.read(&mut buffer[size..])?;
        if count == 0 {
            break;
        }
        size += count;
    }
    Ok(size)
}

// Reads until the buffer is full or the source ends: how many bytes came. They stand at the buffer's front, behind them zeros;
// after a failed read the whole buffer is zeros, and what the source gave before is lost.
pub fn read_full<R: Read>(source: &mut R, buffer: &mut [u8]) -> io::Result<usize>
    ensures few { IfOk result (λ n. n ≤ length buffer.new) }
    ensures bytes { IfOk result (λ n. Consumes (R.remaining source.old) (R.remaining source.new) (take n buffer.new)) }
    ensures end { IfOk result (λ n. n < length buffer.new → IsAtEnd (R.remaining source.new)) }
    ensures behind { IfOk result (λ n. drop n buffer.new ≡ replicate (length buffer.old - n) 0) }
    ensures zeros { OnErr result (buffer.new ≡ replicate (length buffer.old) 0) }
    ensures lost { OnErr result ((bs : List ℕ) × (length bs < length buffer.old)
        × Consumes (R.remaining source.old) (R.remaining source.new) bs) }
{
    match read_front(source, buffer) {
        Ok(came) => {
            buffer[came..].fill(0);
            Ok(came)
        }
        Err(e) => {
            buffer.fill(0);
            Err(e)
        }
    }
}
