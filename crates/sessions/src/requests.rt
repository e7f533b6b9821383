// A session's requests. Each is a function of the network, and changes the users and the session's own part in place; its refusals
// stand in the documents' order, and a refused request leaves both as they were.
ghost use Rattle.std.specs.Prelude.{◌≡◌, false, not, ◌&&◌, ◌||◌};
ghost use Rattle.model.specs.Network as network;
ghost use Rattle.model.specs.Row.{stands};
ghost use Rattle.model.specs.Requests as spec;
ghost use Rattle.model.specs.Turn.{answer_in, part_after, users_after};

use calculus::answer::{Answer, Refusal};
use calculus::network::Network;
use calculus::number::{ItemNumber, Unspent};
use calculus::packet::{Item, Payload, Slot};
use calculus::request::Sender;
use calculus::session::{Session, Stage};
use calculus::state::Part;
use effects::moves::stepped;
use items::item::is_wait;
use items::packet::bare;
use items::places::{find, is_busy, is_full, put_item};
use lookups::blank::unused;
use lookups::network::{given, is_gateway};
use lookups::rows::held;
use lookups::users::lower;
use rows::picked::{other_rows, rows_of};
use rules::rule::rule;

fn is_unused(t: &Part) -> bool
    ensures { result ≡ spec.unused t.now }
{
    t.session.stage == Stage::Unused
}

// ---- open

// open u c d, where `t` is u's part: refusals 6, 4, 8, 9, 10.
#[tactic(auto, unfolding(model::specs::Requests::open_move, model::specs::Requests::opening, model::specs::Requests::checked))]
pub fn open(n: &Network, t: &mut Part, c: u8, d: u8) -> Result<Answer, Refusal>
    ensures answer { result ≡ answer_in (spec.open_move n.now c d t.old) }
    ensures part { t.new ≡ part_after t.old (spec.open_move n.now c d t.old) }
{
    if !is_unused(t) {
        return Err(Refusal::Taken);
    }
    if !(given(n, c) && given(n, d)) {
        return Err(Refusal::Unknown);
    }
    if c == d {
        return Err(Refusal::Same);
    }
    if is_gateway(n, c) || is_gateway(n, d) {
        return Err(Refusal::Gateway);
    }
    let last = Unspent::of(t.session.last).ok_or(Refusal::Spent)?;
    t.session = Session {
        stage: Stage::SettingUp,
        client: c,
        server: d,
        last: last.first(),
        ..t.session
    };
    put_item(
        &mut t.items,
        last.first(),
        Item::Wire(c, bare(c, d, Payload::Disc(c))),
    );
    Ok(Answer::Made(last.first()))
}

// ---- step

// A step of the item that was found in its place, or of none: refusals 7, 11, 12, 10.
#[tactic(auto, unfolding(model::specs::Requests::step_at, model::specs::Requests::checked))]
fn step_at(
    n: &Network,
    users: &mut [u16; 2048],
    t: &mut Part,
    found: Option<(usize, Slot)>,
) -> Result<Answer, Refusal>
    ensures answer { result ≡ answer_in (spec.step_at n.now (stands users.old false) t.old found) }
    ensures part { t.new ≡ part_after t.old (spec.step_at n.now (stands users.old false) t.old found) }
    ensures shared { users.new ≡ users_after users.old (spec.step_at n.now (stands users.old false) t.old found) }
{
    if is_unused(t) {
        return Err(Refusal::Idle);
    }
    let Some((at, slot)) = found else {
        return Err(Refusal::NoItem);
    };
    if is_wait(slot.item) {
        return Err(Refusal::Waiting);
    }
    let effect = rule(n, users, t, slot.item);
    stepped(users, t, at, &effect)
}

// step u k, where `t` is u's part.
#[tactic(auto, unfolding(model::specs::Requests::step_move))]
pub fn step(
    n: &Network,
    users: &mut [u16; 2048],
    t: &mut Part,
    k: ItemNumber,
) -> Result<Answer, Refusal>
    ensures answer { result ≡ answer_in (spec.step_move n.now (stands users.old false) k.0 t.old) }
    ensures part { t.new ≡ part_after t.old (spec.step_move n.now (stands users.old false) k.0 t.old) }
    ensures shared { users.new ≡ users_after users.old (spec.step_move n.now (stands users.old false) k.0 t.old) }
{
    let found = find(&t.items, k);
    step_at(n, users, t, found)
}

// ---- send

fn data_item(s: &Session, w: Sender, tag: u32) -> Item
    ensures { result ≡ spec.data_item s.now w tag }
{
    match w {
        Sender::Client => Item::Out(s.client, bare(s.client, s.server, Payload::Data(tag))),
        Sender::Server => Item::Out(s.server, bare(s.server, s.client, Payload::Data(tag))),
    }
}

// send u w tag, where `t` is u's part: refusals 7, 13, 10.
#[tactic(auto, unfolding(model::specs::Requests::send_move, model::specs::Requests::sending, model::specs::Requests::checked))]
pub fn send(t: &mut Part, w: Sender, tag: u32) -> Result<Answer, Refusal>
    ensures answer { result ≡ answer_in (spec.send_move w tag t.old) }
    ensures part { t.new ≡ part_after t.old (spec.send_move w tag t.old) }
{
    if is_unused(t) {
        return Err(Refusal::Idle);
    }
    if is_full(&t.items) {
        return Err(Refusal::Full);
    }
    let last = Unspent::of(t.session.last).ok_or(Refusal::Spent)?;
    let item = data_item(&t.session, w, tag);
    t.session.last = last.first();
    put_item(&mut t.items, last.first(), item);
    Ok(Answer::Made(last.first()))
}

// ---- close

// The part, unused, with the places of `blank` in place of its own.
fn empty(t: &mut Part, blank: &Part)
    ensures { t.new ≡ spec.emptied blank.now t.old }
{
    let last = t.session.last;
    *t = *blank;
    t.session = unused(last);
}

// close u, where `t` is u's part: refusal 7. It leaves the places of `blank`, which the caller has ready.
#[tactic(auto, unfolding(model::specs::Requests::checked))]
pub fn close(users: &mut [u16; 2048], t: &mut Part, blank: &Part) -> Result<Answer, Refusal>
    ensures answer { result ≡ answer_in (spec.close_to (spec.emptied blank.now t.old) t.old) }
    ensures part { t.new ≡ part_after t.old (spec.close_to (spec.emptied blank.now t.old) t.old) }
    ensures shared { users.new ≡ users_after users.old (spec.close_to (spec.emptied blank.now t.old) t.old) }
{
    if is_unused(t) {
        return Err(Refusal::Idle);
    }
    lower(users, held(t));
    empty(t, blank);
    Ok(Answer::Closed)
}

// ---- drop

// The rows of establishment `e` go.
#[tactic(auto, unfolding(model::specs::Requests::dropping))]
fn drop_rows(t: &mut Part, e: u8)
    ensures { t.new ≡ spec.dropping e t.old }
{
    let kept = other_rows(t, e);
    let rows = kept.places;
    t.rows = rows;
    t.session.rows = kept.held;
}

// drop u e, where `t` is u's part: refusals 7, 16, 17.
#[tactic(auto, using(model::proofs::Lists::take_those), unfolding(model::specs::Requests::drop_move, model::specs::Requests::checked))]
pub fn drop(users: &mut [u16; 2048], t: &mut Part, e: u8) -> Result<Answer, Refusal>
    ensures answer { result ≡ answer_in (spec.drop_move e t.old) }
    ensures part { t.new ≡ part_after t.old (spec.drop_move e t.old) }
    ensures shared { users.new ≡ users_after users.old (spec.drop_move e t.old) }
{
    if is_unused(t) {
        return Err(Refusal::Idle);
    }
    if is_busy(&t.items, e) {
        return Err(Refusal::Busy);
    }
    let gone = rows_of(t, e);
    if gone.held == 0 {
        return Err(Refusal::NoSuchTunnel);
    }
    lower(users, gone.as_slice());
    drop_rows(t, e);
    Ok(Answer::Closed)
}
