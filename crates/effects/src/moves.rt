// What a step leaves of a session's part: all of it where numbers are spent, or what the effect leaves.
ghost use Rattle.std.specs.Prelude.{◌≡◌};
ghost use Rattle.model.specs.Turn.{answer_in, part_after, users_after};
ghost use Rattle.effects.specs.Stepped.{stepped_unless_spent};

use crate::apply::{add_rows, answer_of, apply_to_items, session_after, users_after};
use calculus::answer::{Answer, Refusal};
use calculus::effect::Effect;
use calculus::number::Unspent;
use calculus::state::Part;

// The item at `at` has the effect `f`; refusal 10 where numbers are spent.
#[tactic(auto, unfolding(model::specs::Requests::checked, model::specs::Requests::stepped, model::specs::State::applied))]
pub fn stepped(
    users: &mut [u16; 2048],
    t: &mut Part,
    at: usize,
    f: &Effect,
) -> Result<Answer, Refusal>
    ensures answer { result ≡ answer_in (stepped_unless_spent t.old at f.now) }
    ensures part { t.new ≡ part_after t.old (stepped_unless_spent t.old at f.now) }
    ensures shared { users.new ≡ users_after users.old (stepped_unless_spent t.old at f.now) }
{
    let last = Unspent::of(t.session.last).ok_or(Refusal::Spent)?;
    users_after(users, t.session.rows, f.added);
    apply_to_items(&mut t.items, last, at, f);
    add_rows(&mut t.rows, t.session.rows, f.added);
    t.session = session_after(t.session, last, f);
    Ok(answer_of(last, &f.outcome))
}
