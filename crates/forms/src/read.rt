// A line read as a form.
ghost use Rattle.std.specs.Prelude.{◌≡◌};
ghost use Rattle.forms.specs.Read as spec;
ghost use Rattle.forms.specs.Request.{asked};

use crate::fields::{bare_at, close_at, drop_at, open_at, route_at, send_at, step_at};
use crate::node::node_at;
use crate::scan::starts;
use calculus::answer::Refusal;
use calculus::request::Request;

// A form other than a node's.
#[tactic(auto, using(crate::proofs::Words::starts_inside, crate::proofs::Parts::rest), unfolding(crate::specs::Read::plain_form))]
fn read_plain(s: &[u8]) -> Result<Request, Refusal>
    ensures { result ≡ asked (spec.plain_form 10 s.now) }
{
    if starts(s, b"(route") {
        return route_at(&s[6..]);
    }
    if starts(s, b"(open") {
        return open_at(&s[5..]);
    }
    if starts(s, b"(step") {
        return step_at(&s[5..]);
    }
    if starts(s, b"(send") {
        return send_at(&s[5..]);
    }
    if starts(s, b"(close") {
        return close_at(&s[6..]);
    }
    if starts(s, b"(show") {
        return bare_at(&s[5..], Request::Show);
    }
    if starts(s, b"(net") {
        return bare_at(&s[4..], Request::Net);
    }
    if starts(s, b"(drop") {
        return drop_at(&s[5..]);
    }
    Err(Refusal::Unreadable)
}

// What a line of any length asks.
#[tactic(auto, using(crate::proofs::Words::starts_inside, crate::proofs::Parts::rest), unfolding(crate::specs::Read::form_of))]
fn read_form(s: &[u8]) -> Result<Request, Refusal>
    ensures { result ≡ asked (spec.form_of 10 200 s.now) }
{
    if starts(s, b"(node ") {
        return node_at(&s[6..]);
    }
    read_plain(s)
}

// What `line`, the bytes before its newline, asks; refusal 1 where it is no form, 2 where a number is out of range.
#[tactic(auto, unfolding(crate::specs::Read::read))]
pub fn read(line: &[u8]) -> Result<Request, Refusal>
    ensures { result ≡ asked (spec.read line.now) }
{
    if line.len() <= 400 {
        return read_form(line);
    }
    Err(Refusal::Unreadable)
}
