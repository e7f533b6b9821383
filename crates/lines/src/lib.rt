// A reader of lines: it holds the input and how far that is read. Whoever has an input and a place calls `line_at`.
#![tactic(auto)]

ghost use Rattle.std.specs.Prelude.{◌≡◌};
ghost use Rattle.forms.specs.Line as spec;
ghost use Rattle.lines.specs.Behind.{behind};

use forms::line::{Line, next_line};

#[derive(Clone, Copy)]
pub struct Reader<'a> {
    pub input: &'a [u8],
    pub at: usize,
}

// A reader that stands at a place of the input. A place behind the input is its end.
pub fn new<'a>(input: &'a [u8], at: usize) -> Reader<'a>
    ensures { (result.input ≡ input.entry) × (result.at ≡ at) }
{
    Reader { input, at }
}

// The line that starts where the reader stands.
pub fn line<'a>(r: Reader<'a>) -> Option<Line>
    ensures { result ≡ spec.next_line r.entry.input.now r.entry.at }
{
    next_line(r.input, r.at)
}

// Where a reader at `at` stands once its line is read.
fn behind_line(input: &[u8], at: usize) -> usize
    ensures { result ≡ behind input.now at }
{
    next_line(input, at).map_or(at, |line| line.next)
}

// The reader behind that line.
pub fn rest<'a>(r: Reader<'a>) -> Reader<'a>
    ensures { (result.input ≡ r.entry.input) × (result.at ≡ behind r.entry.input.now r.entry.at) }
{
    let at = behind_line(r.input, r.at);
    Reader { input: r.input, at }
}

// The line of `input` that starts at `at`, which a reader there gives.
pub fn line_at(input: &[u8], at: usize) -> Option<Line>
    ensures { result ≡ spec.next_line input.now at }
{
    line(new(input, at))
}
