//! Laws of components: each is the contract of a function that does nothing.

ghost use Rattle.std.specs.Prelude.{◌≡◌, ◌<◌, ◌^◌, ℕ, false, length, map, All};
ghost use Rattle.fixed_num.specs.Bodies.{stopped};
ghost use Rattle.cm_model.specs.Components.{write_runs};
ghost use Rattle.hw_component.specs.Hardware.{Hardware, CanBeMade, after_step};

use cm_document::Checked;

/// Each component of a valid description can be made, and has a number of 32 bits.
#[tactic(auto, using(crate::proofs::MakingLemmas::valid_can_be_made, cm_document::proofs::ValidParts::few_components))]
pub fn described_components_can_be_made(checked: &Checked)
    ensures each { All CanBeMade checked.now.components }
    ensures few { length checked.now.components < 2 ^ 32 }
{
    checked.description();
}

/// The commands of a component that is not active move nothing: in a step each of its joints stands still.
#[tactic(auto, using(crate::proofs::JointLemmas::not_active))]
pub fn commands_move_active_components_alone()
    ensures { (h : Hardware) (dt_us : ℕ) → write_runs h.life ≡ false
        → (after_step h dt_us).bodies ≡ map stopped h.bodies }
{}
