//! What requests keep that are decided between two cycles: done or refused, each leaves a steady state.

ghost use Rattle.std.specs.Prelude.{◌≡◌, ℕ, List};
ghost use Rattle.cm_document.specs.Picks.{picked_names};
ghost use Rattle.cm_document.specs.declared.call.Pick.{Pick};
ghost use Rattle.cm_document.specs.declared.call.SwitchRequest.{SwitchRequest};
ghost use Rattle.cm_document.specs.declared.life.Life.{Life};
ghost use Rattle.cm_model.specs.BestEffort.{best};
ghost use Rattle.cm_model.specs.Boundary.{concluded, boundary, begin_effect};
ghost use Rattle.cm_model.specs.Commit.{scene_of};
ghost use Rattle.cm_model.specs.Order.{Places};
ghost use Rattle.cm_model.specs.Sound.{CanRunTogether};
ghost use Rattle.cm_model.specs.State.{State};
ghost use Rattle.cm_model.specs.Steady.{IsSteady};
ghost use Rattle.cm_model.specs.Switches.{done};
ghost use Rattle.cm_model.specs.declared.cause.Dropped.{Dropped};
ghost use Rattle.cm_model.specs.declared.request.Request.TheVariants as request;
ghost use Rattle.switch_plan.specs.Laws.{CanBeDone, strict_set};

/// A hardware request keeps a state steady: a component that an active controller uses stays available.
pub fn hardware_requests_keep_a_state_steady()
    ensures { (s : State) (component : List ℕ) (target : Life) → IsSteady s
        → IsSteady (concluded s (request.Hardware component target)).state }
{}

/// In a steady state the set that a switch leads to can run together, be it a strict one that can be done or a best
/// effort.
pub fn switches_lead_to_controllers_that_can_run_together()
    ensures strict { (s : State) (off on : List Pick) → IsSteady s → CanBeDone (scene_of s) off on
        → CanRunTogether s.description s.lives
        (strict_set (scene_of s) (picked_names off) (picked_names on)) }
    ensures best { (s : State) (off on : List Pick) (dropped : List Dropped) (set again : Places) → IsSteady s
        → best (scene_of s) off on ≡ done dropped set again → CanRunTogether s.description s.lives set }
{}

/// So a switch keeps a state steady.
pub fn switches_keep_a_state_steady()
    ensures { (s : State) (r : SwitchRequest) → IsSteady s → IsSteady (concluded s (request.Switch r)).state }
{}

/// And so does the begin of a cycle: all that waited is decided, one request after the other, and mail goes aloft.
pub fn begins_keep_a_state_steady()
    ensures requests { (s : State) → IsSteady s → IsSteady (boundary s) }
    ensures mail { (s : State) → IsSteady s → IsSteady (begin_effect s) }
{}
