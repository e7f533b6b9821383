// An effect applied to a session's part.
ghost use Rattle.std.specs.Prelude.{◌≡◌, ◌+◌, ◌≤◌, length};
ghost use Rattle.std.proofs.lemmas.List.Edits.{sets};
ghost use Rattle.model.specs.Row as row;
ghost use Rattle.model.specs.State as spec;

use calculus::answer::Answer;
use calculus::effect::{Effect, Outcome};
use calculus::number::{ItemNumber, Unspent};
use calculus::packet::Slot;
use calculus::session::{Row, Session, Stage};
use items::places::{put_item, use_up};
use lookups::set::set_at;
use lookups::users::raise;

// Writes the outcome's items.
fn write(items: &mut [Option<Slot>; 16], last: Unspent, o: &Outcome)
    ensures { items.new ≡ spec.written items.old last o.now }
{
    match o {
        Outcome::Wrote(i) | Outcome::WroteByDefault(i) => put_item(items, last.first(), *i),
        Outcome::WroteTwo(i, j) => {
            put_item(items, last.first(), *i);
            put_item(items, last.second(), *j);
        }
        _ => {}
    }
}

// The last number once they are written.
fn last_after(last: Unspent, o: &Outcome) -> ItemNumber
    ensures { result ≡ record { 0 = last + spec.written_count o.now } }
{
    match o {
        Outcome::Wrote(_) | Outcome::WroteByDefault(_) => last.first(),
        Outcome::WroteTwo(..) => last.second(),
        _ => last.last(),
    }
}

// What a step with this outcome answers.
pub fn answer_of(last: Unspent, o: &Outcome) -> Answer
    ensures { result ≡ spec.answer_of last o.now }
{
    match o {
        Outcome::Wrote(_) => Answer::Made(last.first()),
        Outcome::WroteByDefault(_) => Answer::MadeByDefault(last.first()),
        Outcome::WroteTwo(..) => Answer::MadeTwo(last.first(), last.second()),
        Outcome::Lost(l) => Answer::Lost(*l),
        Outcome::Denied => Answer::Denied,
        Outcome::Opened => Answer::Opened,
        Outcome::Delivered(tag) => Answer::Delivered(*tag),
    }
}

fn stage_after(g: Stage, o: &Outcome) -> Stage
    ensures { result ≡ spec.stage_after g o.now }
{
    match o {
        Outcome::Denied => Stage::Denied,
        Outcome::Opened => Stage::Open,
        _ => g,
    }
}

// ---- rows: those that find a place are added

// How many rows are held once these are added.
fn held_after(held: u8, added: Option<(Row, Row)>) -> u8
    ensures { result ≡ held + length (spec.placed held added) }
{
    match added {
        Some(_) if held < 32 => (held + 2).min(32),
        _ => held,
    }
}

pub fn add_rows(rows: &mut [Row; 32], held: u8, added: Option<(Row, Row)>)
    ensures { rows.new ≡ sets rows.old held (spec.placed held added) }
{
    if let Some((older, newer)) = added {
        let at = held as usize;
        set_at(rows, at, older);
        set_at(rows, at + 1, newer);
    }
}

// The users once the rows are added.
pub fn users_after(users: &mut [u16; 2048], held: u8, added: Option<(Row, Row)>)
    ensures { users.new ≡ row.raised users.old (spec.placed held added) }
{
    if let Some((older, newer)) = added {
        if held < 32 {
            raise(users, older);
        }
        if held < 31 {
            raise(users, newer);
        }
    }
}

// ---- the whole part

// The item at `at` and the wait are used up, and the outcome's items written.
#[tactic(auto, unfolding(model::specs::State::items_after))]
pub fn apply_to_items(items: &mut [Option<Slot>; 16], last: Unspent, at: usize, f: &Effect)
    ensures { items.new ≡ spec.items_after items.old last at f.now }
{
    set_at(items, at, None);
    use_up(items, f.wait);
    write(items, last, &f.outcome);
}

// The session, whose last number is `last`, once the effect is had.
#[tactic(auto, unfolding(model::specs::State::session_after))]
pub fn session_after(s: Session, last: Unspent, f: &Effect) -> Session
    ensures { result ≡ spec.session_after (record s { last = record { 0 = last } }) f.now }
{
    Session {
        stage: stage_after(s.stage, &f.outcome),
        begun: f.begins.unwrap_or(s.begun),
        rows: held_after(s.rows, f.added),
        last: last_after(last, &f.outcome),
        ..s
    }
}
