//! A console of a session and one of the loop, over a board.

ghost use Rattle.std.specs.Prelude.{◌≡◌, ◌+◌, ◌<◌, ◌^◌, ◌++◌, ◌∷◌, [], OnOk, OnErr};

use crate::board::Board;
use cm_document::Call;
use cm_model::{Entry, LoopPort, Outcome, Port, Reply, Why};
use cm_storage::KeptCall;
use fixed_num::Memory;
use sequence::{Boxed, SharedList};
use std::alloc::Global;

/// A session's console. The first load of all sessions is given a serial, and each later one finds it loaded. A switch
/// and a move of a component are given a ticket, which the next begin decides, or the close. Every other call is done.
/// It tells nothing of the history behind it.
#[derive(Drop)]
pub(crate) struct Console<'a> {
    alloc: Global,
    board: &'a Board,
    who: u32,
    pub made: Vec<Entry>,
    /// How often it answered that something is not so yet.
    waited: u64,
    /// For so many entries it has memory.
    room: usize,
}

impl<'a> Console<'a> {
    /// That of the session of this number.
    pub fn new(alloc: Global, board: &'a Board, who: u32, room: usize) -> Console<'a>
        ensures { result.made.items ≡ [] }
    {
        Console {
            alloc,
            board,
            who,
            made: Vec::new(alloc),
            waited: 0,
            room,
        }
    }

    /// One entry more, where there is memory.
    fn note(&mut self, call: Call, reply: Reply) -> Result<(), Memory>
        ensures ok { OnOk result (self.new.made.items
            ≡ self.old.made.items ++ record { who = self.old.who; call = call; reply = reply } ∷ []) }
        ensures err { OnErr result (self.new.made.items ≡ self.old.made.items) }
        ensures who { self.new.who ≡ self.old.who }
        ensures waited { self.new.waited ≡ self.old.waited }
    {
        if self.made.len() >= self.room {
            return Err(Memory);
        }
        let entry = Entry {
            who: self.who,
            call: KeptCall::of(self.alloc, call)?,
            reply,
        };
        self.made.push(entry)?;
        self.board.count();
        Ok(())
    }
}

/// What a call is given.
#[derive(Clone, Copy)]
enum Answer {
    Serial,
    Ticket(u32),
    Refusal(Why),
    Nothing,
}

/// What this call is given.
fn answer_to(board: &Board, call: &Call) -> Answer {
    match call {
        Call::Load(_) if board.loads_first() => Answer::Serial,
        Call::Load(_) => Answer::Refusal(Why::Loaded),
        Call::Switch(_) | Call::Hardware { .. } => ticket_of(board),
        _ => Answer::Nothing,
    }
}

/// The ticket of a request, where it is given one.
fn ticket_of(board: &Board) -> Answer {
    if board.is_closed() {
        return Answer::Refusal(Why::LoopEnded);
    }
    match board.ask() {
        Some(ticket) => Answer::Ticket(ticket),
        None => Answer::Refusal(Why::QueueFull),
    }
}

impl<'a> Port for Console<'a> {
    ghost use Rattle.std.specs.Prelude.{ℕ};
    ghost use Rattle.rows_callers.specs.Consoles.{console};

    ghost Ground = { ℕ };

    ghost footing = { λ c. c.who };

    ghost tells = { λ c. console c.who c.made.items c.waited };

    fn call(&mut self, call: Call) -> Result<Reply, Memory> {
        match answer_to(self.board, &call) {
            Answer::Serial => {
                self.note(call, Reply::Serial(0))?;
                Ok(Reply::Serial(0))
            }
            Answer::Ticket(ticket) => {
                self.note(call, Reply::Queued(ticket))?;
                Ok(Reply::Queued(ticket))
            }
            Answer::Refusal(why) => {
                self.note(call, Reply::Not(why))?;
                Ok(Reply::Not(why))
            }
            Answer::Nothing => {
                self.note(call, Reply::Done)?;
                Ok(Reply::Done)
            }
        }
    }

    fn told(&mut self, ticket: u32) -> Result<Option<Outcome>, Memory> {
        if !self.board.is_decided(ticket) {
            self.waited = self.waited.saturating_add(1);
            return Ok(None);
        }
        let told = Outcome::Done {
            dropped: SharedList::none(),
        };
        let kept = Boxed::new(self.alloc, told)?;
        self.note(Call::Told(ticket), Reply::Outcome(kept))?;
        Ok(Some(Outcome::Done {
            dropped: SharedList::none(),
        }))
    }

    fn reached(&mut self, cycles: u64) -> Result<bool, Memory> {
        if !self.board.is_reached(cycles) {
            self.waited = self.waited.saturating_add(1);
            return Ok(false);
        }
        self.note(Call::Await(cycles), Reply::Done)?;
        Ok(true)
    }
}

/// The loop's console, of which a begin may be refused memory.
#[derive(Drop)]
pub(crate) struct LoopEnd<'a> {
    pub board: &'a Board,
    pub ended: u64,
    pub left: u64,
    pub is_out: bool,
    pub is_closed: bool,
    /// So many begins there is memory for.
    room: u64,
    ghost few: { ended + left < 2 ^ 64 },
}

/// A cycle that is out.
#[derive(Drop)]
pub(crate) struct Flight {
    cycle: u64,
    is_computed: bool,
}

impl<'a> LoopEnd<'a> {
    ghost use Rattle.std.specs.Prelude.{false};

    /// That of a loop of so many cycles, before the first.
    pub fn new(board: &'a Board, cycles: u64, room: u64) -> LoopEnd<'a>
        ensures left { result.left ≡ cycles }
        ensures ended { result.ended ≡ 0 }
        ensures home { result.is_out ≡ false }
        ensures not_closed { result.is_closed ≡ false }
    {
        LoopEnd {
            board,
            ended: 0,
            left: cycles,
            is_out: false,
            is_closed: false,
            room,
        }
    }
}

impl<'a> LoopPort for LoopEnd<'a> {
    ghost use Rattle.std.specs.Prelude.{ℕ, ◌≤◌, true, false};
    ghost use Rattle.rows_callers.specs.Consoles.{loop_console};

    type Flight = Flight;

    ghost Ground = { ℕ };

    ghost footing = { λ _. 0 };

    ghost tells = { λ c. loop_console c.ended c.left c.is_out c.is_closed };

    ghost is_out = { λ c f. (c.is_out ≡ true) × (c.is_closed ≡ false) × (f.cycle ≡ c.ended) × (1 ≤ c.left) };

    ghost may_be_computed = { λ f. f.is_computed ≡ false };

    ghost is_computed = { λ f. f.is_computed ≡ true };

    #[tactic(auto, using(crate::proofs::ConsoleLemmas::begins))]
    fn begin(&mut self) -> Result<Flight, Memory> {
        if self.ended >= self.room {
            return Err(Memory);
        }
        self.board.begin();
        self.is_out = true;
        Ok(Flight {
            cycle: self.ended,
            is_computed: false,
        })
    }

    fn compute(&mut self, flight: &mut Flight) {
        flight.is_computed = true;
    }

    #[tactic(auto, using(crate::proofs::ConsoleLemmas::lands))]
    fn land(&mut self, flight: Flight) {
        drop(flight);
        self.left -= 1;
        self.ended += 1;
        self.is_out = false;
        self.board.end();
    }

    #[tactic(auto, using(crate::proofs::ConsoleLemmas::closes))]
    fn close(&mut self) {
        self.is_closed = true;
        self.board.close();
    }
}
