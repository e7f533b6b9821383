// Session numbers, item numbers and SPIs: three spaces, so three types.
ghost use Rattle.std.specs.Prelude.{◌≡◌, ◌+◌, ◌-◌};
ghost use Rattle.calculus.specs.Number as spec;

use crate::answer::Refusal;
use std::marker::Model;

// Whether `n` is `low` to `high`.
pub fn within(n: u64, low: u64, high: u64) -> bool
    ensures { result ≡ spec.within low high n }
{
    (low..=high).contains(&n)
}

// Whether `n` is a node's number.
pub fn is_node(n: u64) -> bool
    ensures { result ≡ spec.is_node n }
{
    within(n, 1, 32)
}

// Whether `n` is a route's destination: a node's number, or 0 for the default.
pub fn is_destination(n: u64) -> bool
    ensures { result ≡ spec.is_destination n }
{
    within(n, 0, 32)
}

// Whether `n` is a session's number.
pub fn is_session(n: u64) -> bool
    ensures { result ≡ spec.is_session n }
{
    within(n, 1, 8)
}

// Whether `n` is an item's number.
pub fn is_item(n: u64) -> bool
    ensures { result ≡ spec.is_item n }
{
    within(n, 1, 1000000)
}

// Whether `n` is an establishment's number.
pub fn is_establishment(n: u64) -> bool
    ensures { result ≡ spec.is_establishment n }
{
    within(n, 1, 8)
}

// Whether `n` is the tag of a Data.
pub fn is_tag(n: u64) -> bool
    ensures { result ≡ spec.is_tag n }
{
    within(n, 0, 4294967295)
}

// `n` − 1, and 0 of 0.
pub fn pred(n: u8) -> u8
    ensures { result ≡ n - 1 }
{
    n.saturating_sub(1)
}

// A set-up session, 1 to 8.
#[derive(Clone, Copy, PartialEq, Eq)]
pub struct SessionNumber(pub u8);

// A session's number, or refusal 2.
impl TryFrom<u64> for SessionNumber {
    type Error = Refusal;

    fn try_from(n: u64) -> Result<SessionNumber, Refusal>
        ensures { result ≡ spec.session_number n }
    {
        if is_session(n) {
            Ok(SessionNumber(n as u8))
        } else {
            Err(Refusal::Range)
        }
    }
}

// An item of one session, 1 to 1,000,000; 0 is no item's.
#[derive(Clone, Copy, PartialEq, Eq)]
pub struct ItemNumber(pub u32);

// An item's number, or refusal 2.
impl TryFrom<u64> for ItemNumber {
    type Error = Refusal;

    fn try_from(n: u64) -> Result<ItemNumber, Refusal>
        ensures { result ≡ spec.item_number n }
    {
        if is_item(n) {
            Ok(ItemNumber(n as u32))
        } else {
            Err(Refusal::Range)
        }
    }
}

// The last number of a session that has two more to give: 999,998 at most.
#[derive(Clone, Copy)]
pub struct Unspent(u32);

impl Model for Unspent {
    ghost use Rattle.std.specs.Prelude.{ℕ, ◌≤◌};

    ghost Value = { ℕ };

    ghost view = { λ a. a.0 };

    ghost invariant = { λ a. a.0 ≤ 999998 };

    ghost inverse = { λ n. record { 0 = n } };
}

impl Unspent {
    // None where the last number is above 999,998.
    pub fn of(last: ItemNumber) -> Option<Unspent>
        ensures { result ≡ spec.unspent last.0 }
    {
        if 999998 < last.0 {
            return None;
        }
        Some(Unspent(last.0))
    }

    pub fn last(self) -> ItemNumber
        ensures { result ≡ record { 0 = self } }
    {
        ItemNumber(self.0)
    }

    // The number after the last.
    pub fn first(self) -> ItemNumber
        ensures { result ≡ record { 0 = self + 1 } }
    {
        ItemNumber(self.0 + 1)
    }

    // The number after that.
    pub fn second(self) -> ItemNumber
        ensures { result ≡ record { 0 = self + 2 } }
    {
        ItemNumber(self.0 + 2)
    }
}

// A security parameters index. 0 to 255 are reserved.
#[derive(Clone, Copy, PartialEq, Eq)]
pub struct Spi(pub u16);

impl Spi {
    pub const FIRST: u16 = 256;

    pub const STRIDE: u16 = 32;

    // The SPI of what `node` receives from `peer`; the reserved SPI 0 unless both are 1 to 32.
    pub fn between(node: u8, peer: u8) -> Spi
        ensures { result ≡ spec.spi node peer }
    {
        if is_node(node as u64) && is_node(peer as u64) {
            Spi(Spi::FIRST + Spi::STRIDE * (node as u16 - 1) + (peer as u16 - 1))
        } else {
            Spi(0)
        }
    }
}
