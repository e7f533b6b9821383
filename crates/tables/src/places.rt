// A session's places in the tables of all: its part, copied out and in. `at` is the session's number less one.
ghost use Rattle.std.specs.Prelude.{◌≡◌, ◌+◌, ◌*◌, ◌<◌, ◌≤◌, take, drop, length};
ghost use Rattle.std.proofs.Math.Seq.{paste};
ghost use Rattle.model.specs.State as spec;
ghost use Rattle.model.proofs.Parts.{Sized, Whole};

use calculus::state::{Part, State};

// The `at`-th N elements of a table.
fn block<T: Copy, const N: usize>(table: &[T], at: usize) -> [T; N]
    requires some { 0 < N }
    requires inside { N * at + N ≤ length table.now }
    ensures { result ≡ take N (drop (N * at) table.now) }
{
    let mut part = [table[N * at]; N];
    part.copy_from_slice(&table[N * at..N * at + N]);
    part
}

// Puts N elements in the place of a table's `at`-th N.
fn put_block<T: Copy, const N: usize>(table: &mut [T], at: usize, part: &[T; N])
    requires { N * at + N ≤ length table.old }
    ensures put { table.new ≡ paste table.old (N * at) part.now N }
    ensures whole { length part.now ≡ N }
{
    table[N * at..N * at + N].copy_from_slice(part);
}

#[tactic(auto, unfolding(model::specs::State::load))]
pub fn load_at(s: &State, at: usize) -> Part
    requires { at < 8 }
    ensures { result ≡ spec.load s.now (at + 1) }
{
    Part {
        session: s.sessions[at],
        items: block(&s.items, at),
        rows: block(&s.rows, at),
    }
}

// The lengths, which the types give, are for loops over it.
#[tactic(auto, unfolding(model::specs::State::store))]
pub fn store_at(s: &mut State, at: usize, t: &Part)
    requires { at < 8 }
    ensures stored { s.new ≡ spec.store s.old (at + 1) t.now }
    ensures sized { Sized s.old }
    ensures whole { Whole t.now }
{
    s.sessions[at] = t.session;
    put_block(&mut s.items, at, &t.items);
    put_block(&mut s.rows, at, &t.rows);
}
