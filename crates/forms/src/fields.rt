// The forms of up to three numbers, from behind their word.
ghost use Rattle.std.specs.Prelude.{◌≡◌, cond, Ok, Err};
ghost use Rattle.calculus.specs.Number.{is_node, is_destination, is_establishment, is_tag};
ghost use Rattle.calculus.specs.declared.answer.Refusal.TheVariants.{Range};
ghost use Rattle.forms.specs.Read as spec;
ghost use Rattle.forms.specs.Request.{asked};
ghost use Rattle.forms.specs.Held.{fields_in, bare_asked};

use crate::list::read_list;
use calculus::answer::Refusal;
use calculus::number::{
    ItemNumber, SessionNumber, is_destination, is_establishment, is_node, is_tag,
};
use calculus::request::{Request, Sender};

// The numbers that `s` is, to its end, where there are `count`: the first so many of the three.
#[tactic(auto, using(crate::proofs::Held::fields_broken))]
pub fn read_fields(s: &[u8], count: usize) -> Option<[u64; 3]>
    ensures { fields_in count result ≡ spec.fields 10 count s.now }
{
    let mut values = [0u64; 3];
    let list = read_list(s, &mut values)?;
    if list.count == count && list.used == s.len() {
        Some(values)
    } else {
        None
    }
}

// A node's number, or refusal 2. So for the others.
pub fn node(n: u64) -> Result<u8, Refusal>
    ensures { result ≡ cond (is_node n) (Ok n) (Err Range) }
{
    if is_node(n) {
        Ok(n as u8)
    } else {
        Err(Refusal::Range)
    }
}

fn destination(n: u64) -> Result<u8, Refusal>
    ensures { result ≡ cond (is_destination n) (Ok n) (Err Range) }
{
    if is_destination(n) {
        Ok(n as u8)
    } else {
        Err(Refusal::Range)
    }
}

fn establishment(n: u64) -> Result<u8, Refusal>
    ensures { result ≡ cond (is_establishment n) (Ok n) (Err Range) }
{
    if is_establishment(n) {
        Ok(n as u8)
    } else {
        Err(Refusal::Range)
    }
}

fn tag(n: u64) -> Result<u32, Refusal>
    ensures { result ≡ cond (is_tag n) (Ok n) (Err Range) }
{
    if is_tag(n) {
        Ok(n as u32)
    } else {
        Err(Refusal::Range)
    }
}

// What stands behind `(route` asks; refusal 1 where it is not three numbers to the end, 2 where one is out of range. So for the others.
pub fn route_at(s: &[u8]) -> Result<Request, Refusal>
    ensures { result ≡ asked (spec.form_with spec.route_with (spec.fields 10 3 s.now)) }
{
    let f = read_fields(s, 3).ok_or(Refusal::Unreadable)?;
    Ok(Request::Route {
        at: node(f[0])?,
        destination: destination(f[1])?,
        next: node(f[2])?,
    })
}

// What stands behind `(open` asks.
pub fn open_at(s: &[u8]) -> Result<Request, Refusal>
    ensures { result ≡ asked (spec.form_with spec.open_with (spec.fields 10 3 s.now)) }
{
    let f = read_fields(s, 3).ok_or(Refusal::Unreadable)?;
    Ok(Request::Open {
        session: SessionNumber::try_from(f[0])?,
        client: node(f[1])?,
        server: node(f[2])?,
    })
}

// What stands behind `(step` asks.
pub fn step_at(s: &[u8]) -> Result<Request, Refusal>
    ensures { result ≡ asked (spec.form_with spec.step_with (spec.fields 10 2 s.now)) }
{
    let f = read_fields(s, 2).ok_or(Refusal::Unreadable)?;
    Ok(Request::Step {
        session: SessionNumber::try_from(f[0])?,
        item: ItemNumber::try_from(f[1])?,
    })
}

// What stands behind `(send` asks.
pub fn send_at(s: &[u8]) -> Result<Request, Refusal>
    ensures { result ≡ asked (spec.form_with spec.send_with (spec.fields 10 3 s.now)) }
{
    let f = read_fields(s, 3).ok_or(Refusal::Unreadable)?;
    Ok(Request::Send {
        session: SessionNumber::try_from(f[0])?,
        sender: Sender::try_from(f[1])?,
        tag: tag(f[2])?,
    })
}

// What stands behind `(close` asks.
pub fn close_at(s: &[u8]) -> Result<Request, Refusal>
    ensures { result ≡ asked (spec.form_with spec.close_with (spec.fields 10 1 s.now)) }
{
    let f = read_fields(s, 1).ok_or(Refusal::Unreadable)?;
    Ok(Request::Close(SessionNumber::try_from(f[0])?))
}

// What stands behind `(drop` asks.
pub fn drop_at(s: &[u8]) -> Result<Request, Refusal>
    ensures { result ≡ asked (spec.form_with spec.take_down_with (spec.fields 10 2 s.now)) }
{
    let f = read_fields(s, 2).ok_or(Refusal::Unreadable)?;
    Ok(Request::Drop {
        session: SessionNumber::try_from(f[0])?,
        establishment: establishment(f[1])?,
    })
}

// What stands behind the word of a form that has no numbers and asks `request`.
pub fn bare_at(s: &[u8], request: Request) -> Result<Request, Refusal>
    ensures { result ≡ bare_asked request (spec.fields 10 0 s.now) }
{
    read_fields(s, 0).ok_or(Refusal::Unreadable)?;
    Ok(request)
}
