// Texts compared.
ghost use Rattle.std.specs.Prelude.{◌≡◌};
ghost use Rattle.model.specs.Join as spec;

// Whether the texts are the same bytes.
#[tactic(auto, using(crate::proofs::Matches::same_text_is))]
pub fn same_text(a: &[u8], b: &[u8]) -> bool
    ensures { result ≡ spec.same_text a.now b.now }
{
    a == b
}
