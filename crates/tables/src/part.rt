// A session's part, taken out of the tables and put back; and all of them.
ghost use Rattle.std.specs.Prelude.{◌≡◌};
ghost use Rattle.model.specs.Turn.{Parts, Held};
ghost use Rattle.tables.specs.Part.{loaded, stored};

use crate::places::{load_at, store_at};
use calculus::number::{SessionNumber, is_session};
use calculus::state::{Part, State};
use lookups::blank::blank_part;

// Session `u`'s part; a blank part where `u` is no session's number.
pub fn load(s: &State, u: SessionNumber) -> Part
    ensures { result ≡ loaded s.now u.0 }
{
    if is_session(u.0 as u64) {
        load_at(s, u.0 as usize - 1)
    } else {
        blank_part()
    }
}

// Puts `t` in the place of session `u`'s part; changes nothing where `u` is no session's number.
pub fn store(s: &mut State, u: SessionNumber, t: &Part)
    ensures { s.new ≡ stored s.old u.0 t.now }
{
    if is_session(u.0 as u64) {
        store_at(s, u.0 as usize - 1, t);
    }
}

// The parts of all sessions.
pub fn unpack(s: &State) -> [Part; 8]
    ensures { Parts s.now result }
{
    let mut parts = [load_at(s, 0); 8];
    for i in 1..8 {
        parts[i] = load_at(s, i);
    }
    parts
}

// The state with these parts, and with the tables that all sessions share as in `s`.
#[tactic(auto, using(crate::proofs::Packs::packed_more))]
pub fn pack(mut s: State, parts: &[Part; 8]) -> State
    ensures { Held result s.opened s.network parts.now s.users }
{
    for (i, part) in parts.iter().enumerate() {
        store_at(&mut s, i, part);
    }
    s
}
