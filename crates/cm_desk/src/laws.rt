//! Laws of the histories of a desk: what calls of sessions leave of the cycle that is aloft and of the loop, what a
//! landing tells, and what is counted. Each is the contract of a function that does nothing.

ghost use Rattle.std.specs.Prelude.{◌≡◌, ℕ, List, length, Some};
ghost use Rattle.cm_document.specs.declared.call.Call.{Call};
ghost use Rattle.cm_document.specs.declared.description.Description.{Description};
ghost use Rattle.cm_model.specs.Cycle.{cycle};
ghost use Rattle.cm_model.specs.Histories.{decided_in};
ghost use Rattle.cm_model.specs.Machine.{IsLegal, LegalFrom, state_after};
ghost use Rattle.cm_model.specs.Sessions.{IsConsole};
ghost use Rattle.cm_model.specs.State.{State, boot};
ghost use Rattle.cm_model.specs.declared.blanks.Blanks.{Blanks};
ghost use Rattle.cm_model.specs.declared.entry.Entry.{Entry};
ghost use Rattle.cm_model.specs.declared.reply.Reply.{Reply};
ghost use Rattle.rt_flight.specs.Flights.{FlightFacts};
ghost use Rattle.cm_desk.specs.Desk.{History, Grows, IsAloftAlike, IsOut, MayLand, begun_of, now_of};
ghost use Rattle.cm_desk.specs.Desk.{GoesOnWithoutLoop, StandsAlike};

/// A call of a session leaves the cycle that is aloft: a flight that is out stays out, and one that may land may land
/// after it.
pub fn console_calls_leave_the_cycle_that_is_aloft()
    ensures alike { (old new : History) (who : ℕ) (call : Call) (r : Reply) → IsConsole call
        → Grows old new who call r → IsAloftAlike old new }
    ensures out { (old new : History) (f : FlightFacts) → IsAloftAlike old new → IsOut old f → IsOut new f }
    ensures lands { (old new : History) (f : FlightFacts) → IsAloftAlike old new → MayLand old f → MayLand new f }
{}

/// Entries of other callers leave the loop as it stood, however many they are: the same cycle is aloft, as many have
/// ended, and the loop is open or closed as it was.
pub fn entries_of_others_leave_the_loop_as_it_stood()
    ensures { (old new : History)
        → LegalFrom new.opening new.made → GoesOnWithoutLoop old new → StandsAlike old new }
{}

/// A landing tells what the cycle of the state tells that its begin left, whatever was called in between.
pub fn a_landing_tells_of_the_state_that_its_begin_left()
    ensures { (h : History) (begun : State) → LegalFrom h.opening h.made → begun_of h ≡ Some begun
        → (cycle (now_of h)).happened ≡ (cycle begun).happened }
{}

/// After a legal history from boot as many requests are decided as the history tells decisions.
pub fn as_many_requests_are_decided_as_a_history_tells()
    ensures { (d : Description) (blanks : Blanks) (sessions : ℕ) (history : List Entry)
        → IsLegal d blanks sessions history
        → length (state_after (boot d blanks sessions) history).outcomes ≡ decided_in history }
{}
