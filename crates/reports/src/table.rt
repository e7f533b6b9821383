// The lines of a table's entries, in the table's order. The caller has made sure of the room.
ghost use Rattle.std.specs.Prelude.{ℕ, List, ◌+◌, ◌*◌, ◌≤◌, ◌<◌, length};
ghost use Rattle.calculus.specs.Table.{entries_from};
ghost use Rattle.answers.specs.Put.{Adds};

use answers::put::Output;

// An entry of a table: a line, or none.
pub trait Entry {
    // what the entry at this place adds
    ghost text: { ℕ → Self → List ℕ };

    // its table has no more places
    ghost PLACES: { ℕ };

    // no line has more bytes
    ghost LONGEST: { ℕ };

    // Adds the line of the entry at this place, if it has one. Any line is written where 400 bytes are left.
    fn put(&self, place: usize, out: &mut Output<'_>)
        requires inside { place < PLACES }
        requires room { out.old.at + 400 ≤ length out.old.out.now }
        ensures added { Adds out.old (text place self.now) out.new }
        ensures few { out.new.at ≤ out.old.at + LONGEST };
}

// The lines of all entries.
pub fn put_table<E: Entry>(out: &mut Output<'_>, table: &[E])
    requires inside { length table.now ≤ E.PLACES }
    requires room { out.old.at + (E.LONGEST * length table.now + 400) ≤ length out.old.out.now }
    ensures added { Adds out.old (entries_from E.text 0 table.now) out.new }
    ensures few { out.new.at ≤ out.old.at + E.LONGEST * length table.now }
{
    for (place, entry) in table.iter().enumerate() {
        entry.put(place, out);
    }
}
