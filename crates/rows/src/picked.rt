// The rows of one establishment, or the others, picked out of a session's.
ghost use Rattle.std.specs.Prelude.{◌≡◌, ◌<◌, Bool, take};
ghost use Rattle.calculus.specs.declared.session.Row.{Row};
ghost use Rattle.model.specs.Row.{is_of, is_other};
ghost use Rattle.rows.specs.Picked as spec;

use calculus::session::Row;
use calculus::state::Part;
use lookups::rows::{first, held};

// Rows, the oldest first: the first `held` of the places.
#[derive(Clone, Copy)]
pub struct Rows {
    pub places: [Row; 32],
    pub held: u8,
}

impl Rows {
    // The rows that are held.
    pub fn as_slice(&self) -> &[Row]
        ensures { result.now ≡ take self.now.held self.now.places }
    {
        first(&self.places, self.held)
    }

    fn push(&mut self, r: Row)
        requires { self.old.held < 32 }
        ensures { self.new ≡ spec.with_row self.old r }
    {
        self.places[self.held as usize] = r;
        self.held += 1;
    }
}

// The session's rows that pass `test`, over its first places and in their order.
fn picked<F: Fn(&Row) -> bool>(t: &Part, test: F) -> Rows
    requires { F.IsAlwaysCallable test }
    ensures { (p : Row → Bool) → spec.TestsAs F.Fn test p → result ≡ spec.picked_of p t.now }
{
    let mut found = Rows {
        places: t.rows,
        held: 0,
    };
    for row in held(t) {
        if test(row) {
            found.push(*row);
        }
    }
    found
}

// The session's rows that establishment `e` added.
pub fn rows_of(t: &Part, e: u8) -> Rows
    ensures { result ≡ spec.picked_of (is_of e) t.now }
{
    picked(t, |r| r.establishment == e)
}

// The session's rows that another establishment added.
pub fn other_rows(t: &Part, e: u8) -> Rows
    ensures { result ≡ spec.picked_of (is_other e) t.now }
{
    picked(t, |r| r.establishment != e)
}
