//! Whether bodies are where others are.

ghost use Rattle.std.specs.Prelude.{◌≡◌, true, false};

use fixed_num::BodyState;

/// Whether these are the same bodies.
pub fn are_same(some: &[BodyState], others: &[BodyState]) -> bool
    ensures same { result ≡ true → some.now ≡ others.now }
    ensures other { result ≡ false → some.now ≡ others.now → ⊥ }
{
    if some.len() != others.len() {
        return false;
    }
    for i in 0..some.len() {
        if !is_same(&some[i], &others[i]) {
            return false;
        }
    }
    true
}

/// Whether two bodies are the same.
#[tactic(auto, using(crate::proofs::StandingLemmas::same_body))]
fn is_same(one: &BodyState, other: &BodyState) -> bool
    ensures same { result ≡ true → one.now ≡ other.now }
    ensures other { result ≡ false → one.now ≡ other.now → ⊥ }
{
    if one.x.micro() != other.x.micro() {
        return false;
    }
    if one.v.micro() != other.v.micro() {
        return false;
    }
    if one.f.micro() != other.f.micro() {
        return false;
    }
    true
}
