//! Live runs of two documents in each order that the gate can force: what they print is what their turns print.

use crate::jobs::running::{ARM, told_of};
use pages_cases::pages::{Teller, hold_told, joined};
use pages_runs::runs::BY_TURNS;
use std::alloc::Global;
use std::sync::Wait;
use std::test::Fail;
use std::thread::Threads;

#[test]
fn each_order_that_session_a_begins_prints_what_its_turns_print(
    rt: HostRuntime,
) -> Result<(), Fail> {
    hold_orders(&rt, rt.alloc(), &BY_A)
}

#[test]
fn each_order_that_session_b_begins_prints_what_its_turns_print(
    rt: HostRuntime,
) -> Result<(), Fail> {
    hold_orders(&rt, rt.alloc(), &BY_B)
}

#[test]
fn each_order_that_computation_and_call_begin_prints_what_its_turns_print(
    rt: HostRuntime,
) -> Result<(), Fail> {
    hold_orders(&rt, rt.alloc(), &BY_COMPUTATION_AND_CALL)
}

#[test]
fn each_order_that_computation_and_landing_begin_prints_what_its_turns_print(
    rt: HostRuntime,
) -> Result<(), Fail> {
    hold_orders(&rt, rt.alloc(), &BY_COMPUTATION_AND_LANDING)
}

#[test]
fn each_order_of_a_first_ticket_and_a_late_wait_prints_what_its_turns_print(
    rt: HostRuntime,
) -> Result<(), Fail> {
    hold_orders(&rt, rt.alloc(), &TICKET_AND_LATE_WAIT)
}

#[test]
fn each_order_of_a_later_ticket_and_a_late_wait_prints_what_its_turns_print(
    rt: HostRuntime,
) -> Result<(), Fail> {
    hold_orders(&rt, rt.alloc(), &LATER_TICKET_AND_LATE_WAIT)
}

#[test]
fn each_order_of_a_ticket_and_an_early_wait_prints_what_its_turns_print(
    rt: HostRuntime,
) -> Result<(), Fail> {
    hold_orders(&rt, rt.alloc(), &TICKET_AND_EARLY_WAIT)
}

#[test]
fn each_order_of_a_ticket_that_the_close_decides_prints_what_its_turns_print(
    rt: HostRuntime,
) -> Result<(), Fail> {
    hold_orders(&rt, rt.alloc(), &LATE_TICKET_AND_LATE_WAIT)?;
    hold_orders(&rt, rt.alloc(), &LATE_TICKET_AND_EARLY_WAIT)
}

/// What the next in an order does: the marks that its thread comes by, and its turn in a schedule. It comes behind a
/// mark, or at any place. Where entries could come in either order between two marks, these stand in one move.
#[derive(Clone, Copy)]
struct Move {
    behind: &'static str,
    marks: &'static str,
    turn: &'static str,
}

/// Orders of moves. All are behind the first begin, before which the loop comes by no mark. Those of one caller keep
/// their order.
#[derive(Clone, Copy)]
struct Orders {
    script: &'static str,
    /// The marks that each begins with.
    first: &'static str,
    a: &'static [Move],
    b: &'static [Move],
    looping: &'static [Move],
    /// The marks behind all moves: that of the close, and those of what comes behind it.
    last: &'static str,
    /// How many there are.
    count: u32,
}

/// The start of a computation has no turn of its own.
const COMPUTING_0: Move = Move {
    behind: "",
    marks: ", computing 0",
    turn: "",
};

const LANDING_0: Move = Move {
    behind: "",
    marks: ", computed 0, landed 0",
    turn: "end\n",
};

const BEGIN_1: Move = Move {
    behind: "",
    marks: ", paused 0, begun 1",
    turn: "begin\n",
};

const COMPUTING_1: Move = Move {
    behind: "",
    marks: ", computing 1",
    turn: "",
};

const LANDING_1: Move = Move {
    behind: "",
    marks: ", computed 1, landed 1",
    turn: "end\n",
};

/// A call of session a, whose number is that of its line; the same of session b.
const A_0: Move = Move {
    behind: "",
    marks: ", before 0 0, answered 0 0",
    turn: "step a\n",
};

const A_1: Move = Move {
    behind: "",
    marks: ", before 0 1, answered 0 1",
    turn: "step a\n",
};

const B_0: Move = Move {
    behind: "",
    marks: ", before 1 0, answered 1 0",
    turn: "step b\n",
};

const B_1: Move = Move {
    behind: "",
    marks: ", before 1 1, answered 1 1",
    turn: "step b\n",
};

/// Two calls of each session and five moves of the loop have `9! / (2! 2! 5!) = 756` orders. Session a begins
/// `8! / (1! 2! 5!) = 168` of them: one call of its own follows, with two of the other and all moves of the loop.
const BY_A: Orders = Orders {
    script: "cycles = 2
--- script ---
session a
load fwd
configure fwd
session b
list controllers
rate fwd 50
",
    first: "begun 0, before 0 0",
    a: &[A_0, A_1],
    b: &[B_0, B_1],
    looping: &[COMPUTING_0, LANDING_0, BEGIN_1, COMPUTING_1, LANDING_1],
    last: ", paused 1",
    count: 168,
};

/// As many, since each session has two calls.
const BY_B: Orders = Orders {
    first: "begun 0, before 1 0",
    ..BY_A
};

/// The loop begins `8! / (2! 2! 4!) = 420`. In `7! / (1! 2! 4!) = 105` of them a call of session a follows, and in as
/// many one of session b.
const BY_COMPUTATION_AND_CALL: Orders = Orders {
    first: "begun 0, computing 0, before",
    count: 210,
    ..BY_A
};

/// In the `7! / (2! 2! 3!) = 210` others the landing follows.
const BY_COMPUTATION_AND_LANDING: Orders = Orders {
    first: "begun 0, computing 0, computed 0",
    count: 210,
    ..BY_A
};

/// The second begin, if it is to decide the ticket of the request: it comes behind that.
const DECIDING_BEGIN: Move = Move {
    behind: "answered 0 0",
    ..BEGIN_1
};

/// A Told comes by no mark of its own. Its session has its ticket at the mark of the answer, and goes on where that
/// stands once more. It has been told at the mark before its next line.
const TOLD: Move = Move {
    behind: "begun 1",
    marks: ", answered 0 0, before 0 1",
    turn: "step a\n",
};

/// The request behind the second begin, so that the close decides its ticket.
const LATE_REQUEST: Move = Move {
    behind: "begun 1",
    ..A_0
};

/// A wait that begins when it is over.
const LATE_WAIT: Move = Move {
    behind: "landed 0",
    ..B_0
};

/// The session comes to its wait before it is over. From then on it comes by that mark again and again, and is not
/// held. How often it looks in vain can't be forced.
const EARLY_WAIT: Move = Move {
    behind: "",
    marks: ", before 1 0",
    turn: "",
};

/// The landing for which it waits, and then its answer.
const AWAITED_LANDING: Move = Move {
    behind: "before 1 0",
    marks: ", computed 0, landed 0, answered 1 0",
    turn: "end\nstep b\n",
};

const BEHIND_THE_WAIT: Move = Move {
    behind: "answered 1 0",
    ..B_1
};

/// If the request comes first, the Told and the list have `4! / (2! 2!) = 6` places among the two moves behind the
/// second begin. The two lines of session b have `7! / (2! 5!) = 21` among the 5 moves behind the first landing. That
/// is `6 * 21 = 126`.
const TICKET_AND_LATE_WAIT: Orders = Orders {
    script: "cycles = 2
--- script ---
session a
switch strict +nosuch
list components
session b
await 1
list controllers
",
    first: "begun 0, before 0 0",
    a: &[A_0, TOLD, A_1],
    b: &[LATE_WAIT, B_1],
    looping: &[
        COMPUTING_0,
        LANDING_0,
        DECIDING_BEGIN,
        COMPUTING_1,
        LANDING_1,
    ],
    last: ", paused 1",
    count: 126,
};

/// Else the request comes before the first landing or behind it. If it comes behind it, the lines of session b have
/// `8! / (2! 6!) = 28` places among 6 moves. That is `6 * (21 + 28) = 294`.
const LATER_TICKET_AND_LATE_WAIT: Orders = Orders {
    first: "begun 0, computing 0",
    count: 294,
    ..TICKET_AND_LATE_WAIT
};

/// The request comes before the computation, or before the landing, or behind it. The wait begins before the landing,
/// where it has 3 places, or 3, or 2. The list of session b comes behind the landing, where it has 6, or 6, or 7. That
/// is `6 * (3 * 6 + 3 * 6 + 2 * 7) = 300`.
const TICKET_AND_EARLY_WAIT: Orders = Orders {
    first: "begun 0",
    b: &[EARLY_WAIT, BEHIND_THE_WAIT],
    looping: &[
        COMPUTING_0,
        AWAITED_LANDING,
        DECIDING_BEGIN,
        COMPUTING_1,
        LANDING_1,
    ],
    count: 300,
    ..TICKET_AND_LATE_WAIT
};

/// The request has 3 places among the computation and the landing behind the second begin. The lines of session b have
/// `6! / (2! 4!) = 15` among the 4 moves of others behind the first landing. That is `3 * 15 = 45`. What session a does
/// behind the close comes last: a call of the other beside the close can't be forced.
const LATE_TICKET_AND_LATE_WAIT: Orders = Orders {
    first: "begun 0",
    a: &[LATE_REQUEST],
    looping: &[COMPUTING_0, LANDING_0, BEGIN_1, COMPUTING_1, LANDING_1],
    last: ", paused 1, answered 0 0, before 0 1, before 0 1, answered 0 1",
    count: 45,
    ..TICKET_AND_LATE_WAIT
};

/// The wait has 2 places before the first landing, and the list of session b 5 behind it. That is `3 * 2 * 5 = 30`.
const LATE_TICKET_AND_EARLY_WAIT: Orders = Orders {
    b: &[EARLY_WAIT, BEHIND_THE_WAIT],
    looping: &[
        COMPUTING_0,
        AWAITED_LANDING,
        BEGIN_1,
        COMPUTING_1,
        LANDING_1,
    ],
    count: 30,
    ..LATE_TICKET_AND_LATE_WAIT
};

impl Orders {
    /// How many moves an order has.
    fn moves(&self) -> usize {
        let of_sessions = self.a.len().saturating_add(self.b.len());
        of_sessions.saturating_add(self.looping.len())
    }

    /// So many numbers have as many digits as an order has moves, to the base of three.
    fn numbers(&self) -> u32 {
        let mut numbers: u32 = 1;
        for _ in 0..self.moves() {
            numbers = numbers.saturating_mul(3);
        }
        numbers
    }
}

/// An order: the marks of a live run, and the turns of a schedule.
#[derive(Drop)]
struct Order {
    marks: String,
    turns: String,
}

impl Order {
    /// The first begin alone.
    fn begun(alloc: Global) -> Result<Order, Fail> {
        Ok(Order {
            marks: String::from_str(alloc, "order: begun 0")?,
            turns: String::from_str(alloc, "schedule\nbegin\n")?,
        })
    }

    /// Whether the move may be next, which is then made.
    fn goes_on(&mut self, next: &Move) -> Result<bool, Fail> {
        if !self.marks.as_str().contains(next.behind) {
            return Ok(false);
        }
        self.marks.push_str(next.marks)?;
        self.turns.push_str(next.turn)?;
        Ok(true)
    }
}

/// The order of a number, whose digits are the callers that are next, from the lowest on. None if a caller comes more
/// often or less often than it has moves, or a move comes where it can't, or the order begins otherwise.
fn order_of(alloc: Global, orders: &Orders, number: u32) -> Result<Option<Order>, Fail> {
    let mut order = Order::begun(alloc)?;
    let (mut a, mut b, mut looping) = (orders.a.iter(), orders.b.iter(), orders.looping.iter());
    let mut rest = number;
    for _ in 0..orders.moves() {
        let next = match rest % 3 {
            0 => a.next(),
            1 => b.next(),
            _ => looping.next(),
        };
        let Some(next) = next else {
            return Ok(None);
        };
        if !order.goes_on(next)? {
            return Ok(None);
        }
        rest /= 3;
    }
    if !order.marks.as_str().contains(orders.first) {
        return Ok(None);
    }
    order.marks.push_str(orders.last)?;
    Ok(Some(order))
}

/// Fails unless there are as many orders as are said, and a live run in each of them prints what its turns print.
fn hold_orders<R: Threads + Wait + Sync>(
    rt: &R,
    alloc: Global,
    orders: &Orders,
) -> Result<(), Fail> {
    let mut count: u32 = 0;
    for number in 0..orders.numbers() {
        if let Some(order) = order_of(alloc, orders, number)? {
            hold_order(rt, alloc, orders.script, &order)?;
            count = count.saturating_add(1);
        }
    }
    if count != orders.count {
        return Err(Fail::new("more or fewer orders"));
    }
    Ok(())
}

/// Fails if a live run in this order prints something else than the turns of its schedule.
fn hold_order<R: Threads + Wait + Sync>(
    rt: &R,
    alloc: Global,
    script: &str,
    order: &Order,
) -> Result<(), Fail> {
    let held = joined(alloc, script, order.marks.as_str())?;
    let turns = joined(alloc, script, order.turns.as_str())?;
    let scheduled = joined(alloc, ARM, turns.as_str())?;
    let want = BY_TURNS.told(alloc, scheduled.as_str())?;
    let told = told_of(rt, alloc, held.as_str())?;
    hold_told(alloc, held.as_str(), told.as_str(), want.as_str())
}
