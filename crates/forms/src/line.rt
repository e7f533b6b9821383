// Input split into lines.
ghost use Rattle.std.specs.Prelude.{◌≡◌, eqb, position};
ghost use Rattle.forms.specs.Line as spec;

// A line ends before `stop`, and the next starts at `next`.
#[derive(Clone, Copy)]
pub struct Line {
    pub stop: usize,
    pub next: usize,
}

// Where the first newline of `rest` stands.
fn newline_at(rest: &[u8]) -> Option<usize>
    ensures { result ≡ position (λ c. eqb c 10) rest.now }
{
    rest.iter().position(|c| *c == b'\n')
}

// How many bytes of `rest` stand before its first newline, or before its end.
#[tactic(auto, using(crate::proofs::Splits::first_newline))]
fn line_length(rest: &[u8]) -> usize
    ensures { result ≡ spec.line_length rest.now }
{
    newline_at(rest).unwrap_or(rest.len())
}

// The line of `input` that starts at `from`; none where the input is at its end.
#[tactic(auto, using(crate::proofs::Splits::line_length_inside))]
pub fn next_line(input: &[u8], from: usize) -> Option<Line>
    ensures { result ≡ spec.next_line input.now from }
{
    if input.len() <= from {
        return None;
    }
    let stop = from + line_length(&input[from..]);
    let next = if stop < input.len() { stop + 1 } else { stop };
    Some(Line { stop, next })
}
