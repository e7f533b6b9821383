// What a node call answers.
ghost use Rattle.std.specs.Prelude.{◌≡◌};
ghost use Rattle.calculus.specs.declared.answer.Answer.{Answer};
ghost use Rattle.model.specs.Requests as spec;

use calculus::answer::{Answer, Refusal};
use calculus::network::Network;
use lookups::network::given;

// node a: refusals 5, 3.
#[tactic(auto, unfolding(model::specs::Requests::checked))]
pub fn node_answer(opened: bool, n: &Network, a: u8) -> Result<Answer, Refusal>
    ensures { result ≡ spec.checked (spec.node_checks opened n.now a) Answer.Ok }
{
    if opened {
        return Err(Refusal::Late);
    }
    if given(n, a) {
        return Err(Refusal::Double);
    }
    Ok(Answer::Ok)
}
