// What stands in a place that holds nothing.
ghost use Rattle.std.specs.Prelude.{◌≡◌};
ghost use Rattle.model.specs.State as spec;

use calculus::number::ItemNumber;
use calculus::session::{Peers, Row, Session, Stage};
use calculus::state::Part;

pub fn blank_row() -> Row
    ensures { result ≡ spec.blank_row }
{
    Row {
        node: 0,
        out: false,
        source: 0,
        destination: 0,
        peers: Peers { first: 0 },
        establishment: 0,
    }
}

// A session that is not in use, and was issued numbers up to `last`.
pub fn unused(last: ItemNumber) -> Session
    ensures { result ≡ record spec.blank_session { last = last } }
{
    Session {
        stage: Stage::Unused,
        client: 0,
        server: 0,
        begun: 0,
        rows: 0,
        last,
    }
}

// The part of a session that was never open.
pub fn blank_part() -> Part
    ensures { result ≡ spec.blank_part }
{
    let row = blank_row();
    Part {
        session: unused(ItemNumber(0)),
        items: [None; 16],
        rows: [row; 32],
    }
}
