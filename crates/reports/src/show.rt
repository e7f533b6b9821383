// Show's report. The caller has made sure of the room: an association's line has at most 29 bytes, so 2,048 of them have 59,392.
ghost use Rattle.std.specs.Prelude.{◌≡◌, map, ◌+◌, ◌≤◌, ◌<◌, length};
ghost use Rattle.forms.specs.Bytes.{joined};
ghost use Rattle.forms.specs.Answer.{association_line};
ghost use Rattle.model.specs.Row as row;
ghost use Rattle.model.specs.Requests as spec;
ghost use Rattle.answers.specs.Put.{Adds};

use crate::table::{Entry, put_table};
use answers::put::Output;
use answers::report::End;
use calculus::answer::ShownAssociation;
use calculus::number::Spi;

// The SPI of In(a, q), or of Out(a, q).
fn spi_of(outward: bool, a: u8, q: u8) -> Spi
    ensures { result ≡ row.spi_of outward a q }
{
    if outward {
        return Spi::between(q, a);
    }
    Spi::between(a, q)
}

// The line of the association whose users these are, if it stands.
impl Entry for u16 {
    ghost text = { λ p n. joined (map association_line (spec.association_at p n)) };

    ghost PLACES = { 2048 };

    ghost LONGEST = { 29 };

    fn put(&self, p: usize, out: &mut Output<'_>) {
        if 0 < *self {
            let a = (p / 64 + 1) as u8;
            let outward = 32 <= p % 64;
            let q = (p % 32 + 1) as u8;
            out.write(&ShownAssociation {
                node: a,
                out: outward,
                peer: q,
                spi: spi_of(outward, a, q),
                users: *self,
            });
        }
    }
}

// One line for each standing association, by node, then in before out, then by peer; then `(end)`.
pub fn put_shown(out: &mut Output<'_>, users: &[u16; 2048])
    requires { out.old.at + 65536 ≤ length out.old.out.now }
    ensures added { Adds out.old (joined (spec.shown_lines users.now)) out.new }
    ensures few { out.new.at ≤ out.old.at + 65536 }
{
    put_table(out, users);
    out.write(&End);
}
