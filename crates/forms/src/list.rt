// Numbers behind spaces, up to a closing bracket.
ghost use Rattle.std.specs.Prelude.{◌≡◌, drop};
ghost use Rattle.forms.specs.Held as held;

use crate::scan::{byte_at, read_number};

// What a list goes on with: a number behind a space, or its bracket; and the place behind it.
#[derive(Clone, Copy)]
pub enum Part {
    Number { value: u64, next: usize },
    Close { next: usize },
}

// A list read: how many numbers it has, and how many bytes it takes.
#[derive(Clone, Copy)]
pub struct ListRead {
    pub count: usize,
    pub used: usize,
}

// What the list goes on with at `at`.
#[tactic(auto, using(crate::proofs::Parts::byte_inside, crate::proofs::Parts::rest, crate::proofs::Parts::part_number, crate::proofs::Parts::part_broken, crate::proofs::Numbers::number_inside), unfolding(crate::specs::Held::part_at))]
fn read_part(s: &[u8], at: usize) -> Option<Part>
    ensures { result ≡ held.part_at at (drop at s.now) }
{
    if byte_at(s, at, b')') {
        return Some(Part::Close { next: at + 1 });
    }
    if byte_at(s, at, b' ') {
        let from = at + 1;
        let Some((value, used)) = read_number(&s[from..]) else {
            return None;
        };
        return Some(Part::Number {
            value,
            next: from + used,
        });
    }
    None
}

// The list at the front of `s`, of at most as many numbers as `into` has places; they are stored there.
#[tactic(auto, using(crate::proofs::Parts::byte_inside, crate::proofs::Parts::filling_number, crate::proofs::Parts::filling_close, crate::proofs::Parts::filling_broken, crate::proofs::Parts::filling_full, crate::proofs::Parts::filling_over))]
pub fn read_list(s: &[u8], into: &mut [u64]) -> Option<ListRead>
    ensures { held.Filled s.now into.old result into.new }
{
    let mut at = 0;
    for count in 0..into.len() {
        match read_part(s, at)? {
            Part::Number { value, next } => {
                into[count] = value;
                at = next;
            }
            Part::Close { next } => {
                return Some(ListRead { count, used: next });
            }
        }
    }
    if byte_at(s, at, b')') {
        return Some(ListRead {
            count: into.len(),
            used: at + 1,
        });
    }
    None
}
