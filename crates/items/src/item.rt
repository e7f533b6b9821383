// What an item is: a wait or a packet with Data; and the establishment that it names.
ghost use Rattle.std.specs.Prelude.{◌≡◌};
ghost use Rattle.model.specs.Item as spec;

use crate::packet::{has_data, has_establishment};
use calculus::effect::Wait;
use calculus::packet::Item;

// The wait that the item is.
pub fn wait_in(i: Item) -> Option<Wait>
    ensures { result ≡ spec.wait_in i }
{
    match i {
        Item::Dwait(a) => Some(Wait::Discovery(a)),
        Item::Ewait(a, e) => Some(Wait::Establishment(a, e)),
        _ => None,
    }
}

// Whether the item is a dwait or an ewait.
pub fn is_wait(i: Item) -> bool
    ensures { result ≡ spec.is_wait i }
{
    wait_in(i).is_some()
}

pub fn is_that_wait(w: Wait, i: Item) -> bool
    ensures { result ≡ spec.is_that_wait w i }
{
    wait_in(i) == Some(w)
}

pub fn is_data_item(i: Item) -> bool
    ensures { result ≡ spec.is_data_item i }
{
    match i {
        Item::Wire(_, p) | Item::Out(_, p) | Item::Up(_, p) => has_data(p),
        _ => false,
    }
}

// Whether the item names establishment `e`.
pub fn names_establishment(i: Item, e: u8) -> bool
    ensures { result ≡ spec.names_establishment e i }
{
    match i {
        Item::Wire(_, p) | Item::Out(_, p) | Item::Up(_, p) => has_establishment(p, e),
        Item::Est(_, _, f) | Item::Auth(_, _, f, _) | Item::Grant(_, _, f, _) => f == e,
        Item::Ack(_, f) => f == e,
        Item::Ewait(_, f) => f == e,
        Item::Dwait(_) => false,
    }
}
