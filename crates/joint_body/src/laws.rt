//! Laws of bodies in the field's words: each is the contract of a function that does nothing.

ghost use Rattle.std.specs.Prelude.{ℕ, ◌≡◌, ◌≤◌, ◌-ℤ◌, pos};
ghost use Rattle.fixed_num.specs.Arithmetic.{IsWithin};
ghost use Rattle.fixed_num.specs.Bodies.{stopped};
ghost use Rattle.joint_body.specs.Simulated.{Simulated, KeepsState, after, approaching, reach};
ghost use Rattle.fixed_num.specs.declared.value.JointMode.{JointMode};
ghost use Rattle.fixed_num.specs.declared.value.Value.{Value};

use crate::body::Body;
use fixed_num::{Fx, JointMode, Value};

/// A body whose position is commanded goes at most as far as its highest velocity takes it in the time, and is at its
/// command as soon as that is no farther away.
#[tactic(auto, using(crate::proofs::BodyLemmas::approach_arrives), unfolding(fixed_num::specs::Bodies::stepped))]
pub fn a_position_is_approached(body: &Body, command: Fx, dt_us: u32)
    ensures near { IsWithin (reach body.now dt_us) ((approaching body.now command dt_us).x -ℤ body.now.state.x) }
    ensures arrives { IsWithin (reach body.now dt_us) (command -ℤ body.now.state.x)
        → (approaching body.now command dt_us).x ≡ command }
{
    body.state().x.micro();
    command.micro();
}

/// After a step no velocity passes the highest, however the joint is driven: also where a position is commanded, since
/// the velocity is then the rate at which the body went.
pub fn no_velocity_passes_the_limit(body: &Body, mode: JointMode, command: Value, dt_us: u32)
    requires { 1 ≤ dt_us }
    ensures { IsWithin body.now.plant.vmax (after body.now mode command dt_us).v }
{
    body.state().x.micro();
}

/// A joint that nobody commands stands still where it is: its interface holds nothing, or none is claimed.
#[tactic(auto, unfolding(fixed_num::specs::Bodies::stepped))]
pub fn an_uncommanded_joint_stands_still(body: &Body, mode: JointMode, command: Value, dt_us: u32)
    ensures unset { after body.now mode Value.Unset dt_us ≡ stopped body.now.state }
    ensures unclaimed { after body.now JointMode.Idle command dt_us ≡ stopped body.now.state }
{}

/// Every step keeps a body in the range of numbers: position, velocity and effort alike.
pub fn every_state_stays_in_range()
    ensures { (body : Simulated) (mode : JointMode) (command : Value) (dt_us : ℕ) → KeepsState body mode command dt_us }
{}
