// The lines of reports.
ghost use Rattle.std.specs.Prelude.{◌≡◌, ◌+◌, ◌≤◌, length};
ghost use Rattle.forms.specs.Text as form;
ghost use Rattle.forms.specs.Text.{kind_text, form_line};
ghost use Rattle.forms.specs.Request.{node_of};
ghost use Rattle.forms.specs.Answer.{direction_text, association_line, end_line};
ghost use Rattle.answers.specs.Put.{Adds};

use crate::line::OutputLine;
use crate::put::Output;
use crate::room::{LONGEST, LONGEST_NODE};
use calculus::answer::ShownAssociation;
use calculus::network::{Kind, Node};

// ---- show

// An association's direction.
fn direction_word(outward: bool) -> &'static [u8]
    ensures { result.now ≡ direction_text outward }
{
    if outward { b" out" } else { b" in" }
}

// An association's line.
impl OutputLine for ShownAssociation {
    ghost text = { association_line };

    ghost LONGEST = { 32 };

    const LONGEST: usize = LONGEST;

    #[tactic(auto, using(crate::proofs::Widths::width_byte, crate::proofs::Widths::width_three))]
    fn put(&self, out: &mut Output<'_>) {
        out.word(b"(assoc ");
        out.number(self.node as u64);
        out.word(direction_word(self.out));
        out.three(b"", self.peer as u64, self.spi.0 as u64, self.users as u64);
    }
}

// The last line of show's report.
#[derive(Clone, Copy)]
pub struct End;

impl OutputLine for End {
    ghost text = { λ _. end_line };

    ghost LONGEST = { 32 };

    const LONGEST: usize = LONGEST;

    fn put(&self, out: &mut Output<'_>) {
        out.word(b"(end)\n");
    }
}

// ---- the network

// A node's kind.
fn kind_word(kind: Kind) -> &'static [u8]
    ensures word { result.now ≡ kind_text kind }
    ensures long { length result.now ≡ 5 }
{
    match kind {
        Kind::Host => b" host",
        Kind::Gateway => b" gate",
    }
}

// The line that gives a node.
#[derive(Clone, Copy)]
pub struct GivenNode {
    pub number: u8,
    pub node: Node,
}

impl OutputLine for GivenNode {
    ghost text = { λ x. form_line (node_of x.number x.node.kind x.node.has x.node.needs) };

    ghost LONGEST = { 400 };

    const LONGEST: usize = LONGEST_NODE;

    #[tactic(auto, using(crate::proofs::Widths::width_byte))]
    fn put(&self, out: &mut Output<'_>) {
        out.word(b"(node ");
        out.number(self.number as u64);
        out.word(kind_word(self.node.kind));
        out.credentials(b" (has", &self.node.has);
        out.credentials(b" (needs", &self.node.needs);
        out.word(b")\n");
    }
}

// The line that gives a route.
#[derive(Clone, Copy)]
pub struct GivenRoute {
    pub at: u8,
    pub destination: u8,
    pub next: u8,
}

impl OutputLine for GivenRoute {
    ghost text = { λ x. form_line (form.route x.at x.destination x.next) };

    ghost LONGEST = { 32 };

    const LONGEST: usize = LONGEST;

    #[tactic(auto, using(crate::proofs::Widths::width_three), unfolding(forms::specs::Text::text, forms::specs::Text::list_text))]
    fn put(&self, out: &mut Output<'_>) {
        out.three(
            b"(route",
            self.at as u64,
            self.destination as u64,
            self.next as u64,
        );
    }
}
