// Lines written straight into the caller's slice, where there is room for them; and those of answers and refusals.
ghost use Rattle.std.specs.Prelude.{ℕ, List, ◌+◌, ◌≤◌, length};
ghost use Rattle.forms.specs.Answer.{made_by_default_line, answer_text};
ghost use Rattle.answers.specs.Write.{Writes, Written};
ghost use Rattle.answers.specs.Put.{Adds};

use crate::line::OutputLine;
use crate::put::Output;
use crate::room::{LONGEST, has_room};
use calculus::answer::{Answer, Refusal};
use calculus::number::ItemNumber;

impl<'a> Output<'a> {
    // Adds a line, or nothing where there is no room for the longest.
    pub fn write<L: OutputLine>(&mut self, line: &L)
        ensures { Written L.LONGEST self.old (L.text line.now) self.new }
    {
        if has_room(self.out.len(), self.at, L::LONGEST) {
            line.put(self);
        }
    }

    // The line of an item that a default route moved.
    #[tactic(auto, using(crate::proofs::Widths::width_number))]
    fn made_by_default(&mut self, item: ItemNumber)
        requires { self.old.at + 32 ≤ length self.old.out.now }
        ensures added { Adds self.old (made_by_default_line item.0) self.new }
        ensures few { self.new.at ≤ self.old.at + 32 }
    {
        self.word(b"(made ");
        self.number(item.0 as u64);
        self.word(b" default)\n");
    }
}

// Writes a line at `at` and answers the place behind it; where fewer bytes are left than the longest has, writes nothing and
// answers `at`.
pub fn write<L: OutputLine>(out: &mut [u8], at: usize, line: &L) -> usize
    ensures { Writes L.LONGEST out.old at (L.text line.now) out.new result }
{
    let mut output = Output { out, at };
    output.write(line);
    output.at
}

impl OutputLine for Result<Answer, Refusal> {
    ghost text = { answer_text };

    ghost LONGEST = { 32 };

    const LONGEST: usize = LONGEST;

    #[tactic(auto, using(crate::proofs::Widths::width_one, crate::proofs::Widths::width_two), unfolding(forms::specs::Answer::answer_text))]
    fn put(&self, out: &mut Output<'_>) {
        match *self {
            Ok(Answer::Ok) => out.word(b"(ok)\n"),
            Ok(Answer::Made(item)) => out.one(b"(made", item.0 as u64),
            Ok(Answer::MadeByDefault(item)) => out.made_by_default(item),
            Ok(Answer::MadeTwo(item, next)) => out.two(b"(made", item.0 as u64, next.0 as u64),
            Ok(Answer::Lost(loss)) => out.one(b"(lost", u8::from(loss) as u64),
            Ok(Answer::Denied) => out.word(b"(denied)\n"),
            Ok(Answer::Opened) => out.word(b"(opened)\n"),
            Ok(Answer::Delivered(tag)) => out.one(b"(delivered", tag as u64),
            Ok(Answer::Closed) => out.word(b"(closed)\n"),
            Err(refusal) => out.one(b"(no", u8::from(refusal) as u64),
        }
    }
}
