// Whether a library has a place for one more vector.
ghost use Rattle.std.specs.Prelude.{◌≡◌, not, [], ◌∷◌, eqb};
ghost use Rattle.refusal.specs.declared.Refusal.TheVariants.{Length, Full};
ghost use Rattle.refusal.specs.First.{◌⇒◌, first};
ghost use Rattle.limits.specs.Limits.{max_vectors};

use limits::MAX_VECTORS;
use refusal::Refusal;

// The lengths of the new buffers come first, and then the limit.
#[tactic(auto, using(std::proofs::lemmas::Bool::Decides::nat_tests), unfolding(refusal::specs::First::first))]
pub(crate) fn check_place(exact: bool, n: usize) -> Result<(), Refusal>
    ensures { result ≡ first ((not exact ⇒ Length) ∷ (eqb n max_vectors ⇒ Full) ∷ []) }
{
    let inexact = !exact;
    let full = n == MAX_VECTORS;
    if inexact {
        return Err(Refusal::Length);
    }
    if full {
        return Err(Refusal::Full);
    }
    Ok(())
}
