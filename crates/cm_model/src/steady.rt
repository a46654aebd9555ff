//! Laws of what each step keeps, on the way to the law that every legal history is sound: each is the contract of a
//! function that does nothing.

ghost use Rattle.std.specs.Prelude.{◌≡◌, ℕ, List, length};
ghost use Rattle.cm_document.specs.declared.call.Mail.{Mail};
ghost use Rattle.cm_document.specs.declared.life.Life.{Life};
ghost use Rattle.cm_model.specs.Boundary.{request_effect, close_effect};
ghost use Rattle.cm_model.specs.Commit.{commit};
ghost use Rattle.cm_model.specs.Console.{unless_refused, place_of, configure_reply, cleanup_reply, unload_reply};
ghost use Rattle.cm_model.specs.Console.{configure_effect, cleanup_effect, unload_effect, rate_effect, send_effect};
ghost use Rattle.cm_model.specs.Cycle.{moved, begun};
ghost use Rattle.cm_model.specs.Machine.{load_refusals, load_effect};
ghost use Rattle.cm_model.specs.Order.{Places};
ghost use Rattle.cm_model.specs.Sound.{CanRunTogether};
ghost use Rattle.cm_model.specs.State.{State, active};
ghost use Rattle.cm_model.specs.Steady.{AreLoaded, AreConfigured, IsInOrder, IsSteady};
ghost use Rattle.cm_model.specs.declared.reply.Reply.{Reply};
ghost use Rattle.cm_model.specs.declared.reply.Reply.TheVariants as reply;
ghost use Rattle.cm_model.specs.declared.request.Request.{Request};

/// After a commit exactly the members of its set are active, where each of them is loaded and configured.
pub fn a_commit_makes_its_set_the_active_one()
    ensures { (s : State) (set again : Places) → IsInOrder s → AreLoaded s.loaded set → AreConfigured s.loaded set
        → active (commit s set again) ≡ set }
{}

/// A commit of controllers that can run together leaves a steady state, whichever ran before.
pub fn a_commit_leaves_a_steady_state()
    ensures { (s : State) (set again : Places) → IsInOrder s → AreLoaded s.loaded set → AreConfigured s.loaded set
        → CanRunTogether s.description s.lives set → IsSteady (commit s set again) }
{}

/// Components may move without a loss of what holds whichever controllers are active; and where the active ones can
/// still run together, a steady state stays steady.
pub fn moves_of_components_keep_a_state_in_order()
    ensures in_order { (s : State) (lives : List Life) → IsInOrder s → length lives ≡ length s.lives
        → IsInOrder (moved s lives) }
    ensures steady { (s : State) (lives : List Life) → IsInOrder s → length lives ≡ length s.lives
        → CanRunTogether s.description lives (active s) → IsSteady (moved s lives) }
{}

/// The calls that load, configure, clean up and unload a controller leave a steady state steady.
pub fn calls_on_lives_keep_a_state_steady()
    ensures load { (s : State) (name : List ℕ) → IsSteady s
        → IsSteady (load_effect s name (unless_refused (load_refusals s (place_of s name)) (reply.Serial s.loads))) }
    ensures configure { (s : State) (name : List ℕ) → IsSteady s
        → IsSteady (configure_effect s name (configure_reply s name)) }
    ensures cleanup { (s : State) (name : List ℕ) → IsSteady s
        → IsSteady (cleanup_effect s name (cleanup_reply s name)) }
    ensures unload { (s : State) (name : List ℕ) → IsSteady s → IsSteady (unload_effect s name (unload_reply s name)) }
{}

/// So do a new rate and mail that is sent.
pub fn rates_and_mail_keep_a_state_steady()
    ensures rate { (s : State) (name : List ℕ) (hz : ℕ) (r : Reply) → IsSteady s → IsSteady (rate_effect s name hz r) }
    ensures send { (s : State) (name : List ℕ) (mail : Mail) (r : Reply) → IsSteady s
        → IsSteady (send_effect s name mail r) }
{}

/// And so do a request that comes to wait, the close, and the mail that goes aloft at a begin.
pub fn requests_and_the_close_keep_a_state_steady()
    ensures request { (s : State) (asked : Request) (answer : Reply) → IsSteady s
        → IsSteady (request_effect s asked answer) }
    ensures close { (s : State) → IsSteady s → IsSteady (close_effect s) }
    ensures begin { (s : State) → IsSteady s → IsSteady (begun s) }
{}
