// Match, the association that a row names, and the rows of a tunnel's end.
ghost use Rattle.std.specs.Prelude.{◌≡◌, cond, reverse};
ghost use Rattle.std.specs.List.{find};
ghost use Rattle.model.specs.Row as spec;

use calculus::packet::Packet;
use calculus::session::{Peers, Row};
use items::packet::concerns;

// Whether the row is at `a` in this direction, its filter is the packet's, and it is not skipped.
fn fits(out: bool, a: u8, p: Packet, r: &Row) -> bool
    ensures { result ≡ spec.fits out a p r.now }
{
    r.out == out
        && r.node == a
        && r.source == p.source
        && r.destination == p.destination
        && !concerns(p.payload, r.establishment)
}

// The peers that `q` names, a row's peer or what a header is from: none by 0, which is no node.
pub fn named(q: u8) -> Option<Peers>
    ensures { result ≡ spec.named q }
{
    if q == 0 {
        return None;
    }
    Some(Peers { first: q })
}

// The newest of the rows that fits, which stand in order of age.
fn newest_fit(rows: &[Row], out: bool, a: u8, p: Packet) -> Option<Row>
    ensures { result ≡ find (spec.fits out a p) (reverse rows.now) }
{
    rows.iter().rev().copied().find(|r| fits(out, a, p, r))
}

// Match: the peers of the newest of the rows that fits; none where no row does.
pub fn newest(rows: &[Row], out: bool, a: u8, p: Packet) -> Option<Peers>
    ensures { result ≡ spec.newest rows.now out a p }
{
    newest_fit(rows, out, a, p).and_then(|r| named(r.peers.first))
}

// Whether the row names In(a, q), or Out(a, q).
fn names(out: bool, a: u8, q: u8, r: &Row) -> bool
    ensures { result ≡ spec.names out a q r.now }
{
    r.out == out && r.node == a && r.peers.first == q
}

// Whether an in row at `a` has the peer `q`.
#[tactic(auto, unfolding(model::specs::Row::admits))]
pub fn admits(rows: &[Row], a: u8, q: u8) -> bool
    ensures { result ≡ spec.admits rows.now a q }
{
    rows.iter().any(|r| names(false, a, q, r))
}

// A row at `a` for packets out of it or into it, with the filter (from, to), peer `q`, of establishment `e`.
pub fn row(out: bool, a: u8, from: u8, to: u8, q: u8, e: u8) -> Row
    ensures { result ≡ cond out (spec.out_row a from to q e) (spec.in_row a from to q e) }
{
    Row {
        node: a,
        out,
        source: from,
        destination: to,
        peers: Peers { first: q },
        establishment: e,
    }
}
