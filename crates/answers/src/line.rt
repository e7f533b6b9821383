// What a line is. The trait is the crate's own: others hand lines to `write`, which calls `put` where there is room.
ghost use Rattle.std.specs.Prelude.{ℕ, List, ◌+◌, ◌≤◌, length};
ghost use Rattle.answers.specs.Put.{Adds};

use crate::put::Output;

// A line, newline and all.
pub trait OutputLine {
    ghost text: { Self → List ℕ };

    ghost LONGEST: { ℕ };

    // No line of this kind has more bytes.
    const LONGEST: usize;

    // Adds the line where there is room for the longest.
    fn put(&self, out: &mut Output<'_>)
        requires { out.old.at + LONGEST ≤ length out.old.out.now }
        ensures added { Adds out.old (text self.now) out.new }
        ensures few { out.new.at ≤ out.old.at + LONGEST };
}
