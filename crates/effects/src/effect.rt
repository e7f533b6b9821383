// Effects, as the rules give them.
ghost use Rattle.std.specs.Prelude.{◌≡◌};
ghost use Rattle.model.specs.Rules as spec;

use calculus::answer::Loss;
use calculus::effect::{Effect, Outcome, Wait};
use calculus::packet::Item;
use calculus::session::Row;

// Nothing but the outcome.
pub fn only(outcome: Outcome) -> Effect
    ensures { result ≡ spec.only outcome }
{
    Effect {
        outcome,
        wait: None,
        added: None,
        begins: None,
    }
}

pub fn lost(l: Loss) -> Effect
    ensures { result ≡ spec.lost l }
{
    only(Outcome::Lost(l))
}

pub fn writes(i: Item) -> Effect
    ensures { result ≡ spec.writes i }
{
    only(Outcome::Wrote(i))
}

// Uses the wait up, if there is one, and writes the item.
pub fn writes_for(wait: Option<Wait>, i: Item) -> Effect
    ensures { result ≡ spec.writes_for wait i }
{
    Effect { wait, ..writes(i) }
}

// Adds the rows, the older first, and writes the item.
pub fn writes_rows(older: Row, newer: Row, i: Item) -> Effect
    ensures { result ≡ spec.writes_rows older newer i }
{
    Effect {
        added: Some((older, newer)),
        ..writes(i)
    }
}
