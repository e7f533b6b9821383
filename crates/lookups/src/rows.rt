// The rows that a session holds.
ghost use Rattle.std.specs.Prelude.{◌≡◌, ◌≤◌, length, take};
ghost use Rattle.model.specs.Row as spec;

use calculus::session::Row;
use calculus::state::Part;

// The first `n` of the rows, or all 32.
#[tactic(auto, using(std::proofs::lemmas::List::take_all))]
pub fn first(rows: &[Row; 32], n: u8) -> &[Row]
    ensures is { result.now ≡ take n rows.now }
    ensures few { length result.now ≤ 32 }
{
    let n = n as usize;
    if n < 32 { &rows[..n] } else { rows }
}

// The rows that the session holds; the oldest stands first.
pub fn held(t: &Part) -> &[Row]
    ensures is { result.now ≡ spec.held t.now }
    ensures few { length result.now ≤ 32 }
{
    first(&t.rows, t.session.rows)
}
