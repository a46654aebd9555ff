//! The consoles of a manager: that of one session, and that of the loop.

ghost use Rattle.std.specs.Prelude.{◌≡◌, IfOk, OnErr, MatchOption};
ghost use Rattle.cm_document.specs.declared.call.Call.TheVariants as call;
ghost use Rattle.cm_model.specs.Ports.{Console, LoopConsole, CanBeCalled, Makes, MakesNone, MakesOpen};
ghost use Rattle.cm_model.specs.Ports.{MakesWhere, IsNotYet, CanBegin, CanClose, Begins, Lands, Closes};

use crate::cause::Outcome;
use crate::reply::Reply;
use cm_document::Call;
use fixed_num::Memory;

/// One session's console.
pub trait Port {
    // What no call changes: plain data, the number of the session among them, and the state in which the history behind
    // it begins.
    ghost Ground: { Type 0 };

    ghost footing: { Self → Ground };

    // What it tells of itself.
    ghost tells: { Self → Console };

    /// Makes a call of the session, with its reply. Want of memory makes none.
    fn call(&mut self, call: Call) -> Result<Reply, Memory>
        requires { CanBeCalled call }
        ensures made { IfOk result (λ reply. Makes (tells self.old) (tells self.new) call reply) }
        ensures kept { OnErr result (MakesNone (tells self.old) (tells self.new)) }
        ensures still { footing self.new ≡ footing self.old };

    /// What became of the request of a ticket. Where it is not decided, None, and nothing is made.
    fn told(&mut self, ticket: u32) -> Result<Option<Outcome>, Memory>
        ensures made { IfOk result
            (λ outcome. MatchOption outcome
            (IsNotYet (tells self.old) (tells self.new) (call.Told ticket))
            (λ o. MakesOpen (tells self.old) (tells self.new) (call.Told ticket) (Reply.Outcome o))) }
        ensures kept { OnErr result (MakesNone (tells self.old) (tells self.new)) }
        ensures still { footing self.new ≡ footing self.old };

    /// Whether so many cycles have ended or the loop is closed. Where not, nothing is made.
    fn reached(&mut self, cycles: u64) -> Result<bool, Memory>
        ensures made { IfOk result
            (λ reached. MakesWhere reached (tells self.old) (tells self.new) (call.Await cycles) Reply.Done) }
        ensures kept { OnErr result (MakesNone (tells self.old) (tells self.new)) }
        ensures still { footing self.new ≡ footing self.old };
}

/// The loop's console.
pub trait LoopPort {
    /// A cycle that has begun and not ended.
    type Flight;

    // What no call changes: plain data, with the number of the loop as a caller.
    ghost Ground: { Type 0 };

    ghost footing: { Self → Ground };

    // What it tells of itself.
    ghost tells: { Self → LoopConsole };

    // It is the flight that is out: a fact of what the console has made so far, which may speak of all states that look
    // alike to it.
    ghost is_out: { Self → Self.Flight → Type 0 };

    // A flight may be computed, and is computed.
    ghost may_be_computed: { Self.Flight → Type 0 };

    ghost is_computed: { Self.Flight → Type 0 };

    /// Begins the next cycle. Want of memory changes nothing.
    fn begin(&mut self) -> Result<Self::Flight, Memory>
        requires { CanBegin (tells self.old) }
        ensures begun { IfOk result (λ flight. Begins (tells self.old) (tells self.new)
            × is_out self.new flight × may_be_computed flight) }
        ensures kept { OnErr result (tells self.new ≡ tells self.old) }
        ensures still { footing self.new ≡ footing self.old };

    /// Computes the cycle. Nothing is told of it before it lands.
    fn compute(&mut self, flight: &mut Self::Flight)
        requires { is_out self.old flight.old × may_be_computed flight.old }
        ensures computed { is_out self.new flight.new × is_computed flight.new }
        ensures kept { tells self.new ≡ tells self.old }
        ensures still { footing self.new ≡ footing self.old };

    /// Ends the cycle that was computed. It takes no memory.
    fn land(&mut self, flight: Self::Flight)
        requires out { is_out self.old flight }
        requires computed { is_computed flight }
        ensures landed { Lands (tells self.old) (tells self.new) }
        ensures still { footing self.new ≡ footing self.old };

    /// Closes the loop. It takes no memory.
    fn close(&mut self)
        requires { CanClose (tells self.old) }
        ensures closed { Closes (tells self.old) (tells self.new) }
        ensures still { footing self.new ≡ footing self.old };
}
