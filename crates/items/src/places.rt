// The sixteen places that hold a session's items.
ghost use Rattle.std.specs.Prelude.{◌≡◌, count_by, is_none, leb, ltb, position};
ghost use Rattle.std.specs.List.{list_any};
ghost use Rattle.model.specs.Item as spec;
ghost use Rattle.model.specs.State as state;

use crate::item::{is_data_item, is_that_wait, names_establishment};
use calculus::effect::Wait;
use calculus::number::ItemNumber;
use calculus::packet::{Item, Slot};
use lookups::set::set_at;

// ---- one place

fn is_numbered(s: Option<Slot>, k: ItemNumber) -> bool
    ensures { result ≡ state.is_numbered k.0 s }
{
    s.is_some_and(|s| s.number.0 == k.0)
}

fn holds_wait(s: Option<Slot>, w: Wait) -> bool
    ensures { result ≡ spec.of_item (spec.is_that_wait w) s }
{
    s.is_some_and(|s| is_that_wait(w, s.item))
}

fn holds_data(s: Option<Slot>) -> bool
    ensures { result ≡ spec.of_item spec.is_data_item s }
{
    s.is_some_and(|s| is_data_item(s.item))
}

fn holds_name(s: Option<Slot>, e: u8) -> bool
    ensures { result ≡ spec.of_item (spec.names_establishment e) s }
{
    s.is_some_and(|s| names_establishment(s.item, e))
}

// ---- sixteen places

// The first free place.
pub fn vacancy(items: &[Option<Slot>; 16]) -> Option<usize>
    ensures { result ≡ position is_none items.now }
{
    items.iter().position(|s| s.is_none())
}

// The first place with the number `k`.
fn place_of(items: &[Option<Slot>; 16], k: ItemNumber) -> Option<usize>
    ensures { result ≡ position (state.is_numbered k.0) items.now }
{
    items.iter().position(|s| is_numbered(*s, k))
}

// The first place with the wait.
pub fn wait_place(items: &[Option<Slot>; 16], w: Wait) -> Option<usize>
    ensures { result ≡ position (spec.of_item (spec.is_that_wait w)) items.now }
{
    items.iter().position(|s| holds_wait(*s, w))
}

// How many places hold a packet with Data.
fn data_items(items: &[Option<Slot>; 16]) -> usize
    ensures { result ≡ count_by (spec.of_item spec.is_data_item) items.now }
{
    items.iter().filter(|s| holds_data(**s)).count()
}

// Whether 12 or more are packets with Data.
#[tactic(auto, using(crate::proofs::Counts::count_tally))]
pub fn is_full(items: &[Option<Slot>; 16]) -> bool
    ensures { result ≡ leb 12 (spec.how_many_items spec.is_data_item items.now) }
{
    12 <= data_items(items)
}

fn any_names(items: &[Option<Slot>; 16], e: u8) -> bool
    ensures { result ≡ list_any (spec.of_item (spec.names_establishment e)) items.now }
{
    items.iter().any(|s| holds_name(*s, e))
}

// Whether an item names establishment `e`.
#[tactic(auto, using(crate::proofs::Counts::any_tally))]
pub fn is_busy(items: &[Option<Slot>; 16], e: u8) -> bool
    ensures { result ≡ ltb 0 (spec.how_many_items (spec.names_establishment e) items.now) }
{
    any_names(items, e)
}

// The pending item number `k`, with its place.
#[tactic(auto, using(crate::proofs::Counts::place_below), unfolding(model::specs::State::found_item))]
pub fn find(items: &[Option<Slot>; 16], k: ItemNumber) -> Option<(usize, Slot)>
    ensures { result ≡ state.found_item k.0 items.now }
{
    let at = place_of(items, k)?;
    let slot = items[at]?;
    Some((at, slot))
}

// The wait is used up, if there is one.
#[tactic(auto, unfolding(model::specs::State::use_up))]
pub fn use_up(items: &mut [Option<Slot>; 16], w: Option<Wait>)
    ensures { items.new ≡ state.use_up items.old w }
{
    if let Some(wait) = w
        && let Some(at) = wait_place(items, wait)
    {
        set_at(items, at, None);
    }
}

// Item `i`, with the number `n`, goes to the first free place, if there is one.
#[tactic(auto, unfolding(model::specs::State::put_item))]
pub fn put_item(items: &mut [Option<Slot>; 16], n: ItemNumber, i: Item)
    ensures { items.new ≡ state.put_item items.old n.0 i }
{
    if let Some(at) = vacancy(items) {
        set_at(items, at, Some(Slot { number: n, item: i }));
    }
}
