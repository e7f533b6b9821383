// A node's form, from behind its word.
ghost use Rattle.std.specs.Prelude.{◌≡◌, drop};
ghost use Rattle.forms.specs.Bytes.{bytes};
ghost use Rattle.forms.specs.Read as spec;
ghost use Rattle.forms.specs.Request.{asked};
ghost use Rattle.forms.specs.Held as held;

use crate::fields::node;
use crate::list::read_list;
use crate::scan::{byte_at, read_number, starts};
use calculus::answer::Refusal;
use calculus::network::Kind;
use calculus::number::within;
use calculus::request::Request;

// A list of credentials read: their set, where all are in range and rising, and how many bytes the list takes.
#[derive(Clone, Copy)]
pub struct Credentials {
    pub set: Option<[bool; 64]>,
    pub used: usize,
}

// The set of the credentials `ns`, where they are in range and rising.
#[tactic(auto, using(crate::proofs::Tallies::taking_more, crate::proofs::Tallies::taking_stops, crate::proofs::Tallies::taking_all))]
fn set_of(ns: &[u64]) -> Option<[bool; 64]>
    ensures { result ≡ held.set_of ns.now }
{
    let mut set = [false; 64];
    let mut least = 0;
    for i in 0..ns.len() {
        let n = ns[i];
        if !within(n, least, 63) {
            return None;
        }
        set[n as usize] = true;
        least = n + 1;
    }
    Some(set)
}

// The credentials at the front of `s`: 400 bytes hold fewer than 200.
#[tactic(auto, using(crate::proofs::Held::filled_few, crate::proofs::Held::gathered_list, crate::proofs::Held::gathered_broken))]
fn read_credentials(s: &[u8]) -> Option<Credentials>
    ensures { result ≡ held.gathered (spec.list 10 200 0 s.now) }
{
    let mut ns = [0u64; 200];
    let list = read_list(s, &mut ns)?;
    Some(Credentials {
        set: set_of(&ns[..list.count]),
        used: list.used,
    })
}

// The request for a node; refusal 2 where its number or a set is out of range.
fn node_of(
    n: u64,
    kind: Kind,
    has: Option<[bool; 64]>,
    needs: Option<[bool; 64]>,
) -> Result<Request, Refusal>
    ensures { result ≡ held.node_asked n kind has needs }
{
    Ok(Request::Node {
        node: node(n)?,
        kind,
        has: has.ok_or(Refusal::Range)?,
        needs: needs.ok_or(Refusal::Range)?,
    })
}

// Whether a closing bracket at `at` ends `s`.
#[tactic(auto, using(crate::proofs::Parts::byte_inside, crate::proofs::Tallies::ends_here))]
fn ends_at(s: &[u8], at: usize) -> bool
    ensures { result ≡ spec.is_text (bytes ")") (drop at s.now) }
{
    byte_at(s, at, b')') && at + 1 == s.len()
}

// From behind `(needs`, to the end. A set that is out of range is refused only here: refusal 1 comes before 2.
#[tactic(auto, using(crate::proofs::Tallies::needs_read))]
fn needs_at(s: &[u8], n: u64, kind: Kind, has: Option<[bool; 64]>) -> Result<Request, Refusal>
    ensures { result ≡ held.needs_asked n kind has s.now }
{
    let needs = read_credentials(s).ok_or(Refusal::Unreadable)?;
    if ends_at(s, needs.used) {
        return node_of(n, kind, has, needs.set);
    }
    Err(Refusal::Unreadable)
}

// From behind `(has`, to the end.
#[tactic(auto, using(crate::proofs::Tallies::has_read, crate::proofs::Tallies::has_else, crate::proofs::Tallies::gathered_inside, crate::proofs::Words::starts_inside, crate::proofs::Parts::rest))]
fn has_at(s: &[u8], n: u64, kind: Kind) -> Result<Request, Refusal>
    ensures { result ≡ asked (spec.has_at 10 200 n kind s.now) }
{
    let has = read_credentials(s).ok_or(Refusal::Unreadable)?;
    let rest = &s[has.used..];
    if starts(rest, b" (needs") {
        return needs_at(&rest[7..], n, kind, has.set);
    }
    Err(Refusal::Unreadable)
}

// From behind the node's number, to the end.
#[tactic(auto, using(crate::proofs::Words::starts_inside, crate::proofs::Parts::rest), unfolding(crate::specs::Read::kind_at))]
fn kind_at(s: &[u8], n: u64) -> Result<Request, Refusal>
    ensures { result ≡ asked (spec.kind_at 10 200 n s.now) }
{
    if starts(s, b" host (has") {
        return has_at(&s[10..], n, Kind::Host);
    }
    if starts(s, b" gate (has") {
        return has_at(&s[10..], n, Kind::Gateway);
    }
    Err(Refusal::Unreadable)
}

// From behind `(node `, to the end.
#[tactic(auto, using(crate::proofs::Numbers::number_inside, crate::proofs::Parts::rest), unfolding(crate::specs::Read::node_at))]
pub fn node_at(s: &[u8]) -> Result<Request, Refusal>
    ensures { result ≡ asked (spec.node_at 10 200 s.now) }
{
    let (n, used) = read_number(s).ok_or(Refusal::Unreadable)?;
    kind_at(&s[used..], n)
}
