//! Cycles that are made through the console of the loop, with calls of sessions between them.

ghost use Rattle.std.specs.Prelude.{◌<◌, ◌^◌, length};
ghost use Rattle.std.specs.List.{All};
ghost use Rattle.cm_desk.specs.Calls.Answers.{MayCall};
ghost use Rattle.cm_model.specs.Controllers.{IsBlank};

use crate::lines::{CANNOT, push_history, push_last};
use crate::looping::{across, can_begin, can_close, make_cycle};
use cm_desk::Desk;
use cm_document::{Call, Checked};
use cm_model::LoopPort;
use cm_stock::Stock;
use ctl_trait::Controller;
use desk_turns::DeskLoop;
use pages_calls::calls::call_of;
use pages_calls::described::checked_description;
use pages_calls::replies::push_reply;
use pages_calls::robots::SEVEN;
use pages_calls::stocks::few_blanks;
use pages_cases::pages::{halves, hold_told};
use std::alloc::Global;
use std::test::Fail;

/// How many sessions the desk has.
const SESSIONS: u32 = 2;

#[test]
fn the_loop_makes_its_cycles_through_its_console(rt: HostRuntime) -> Result<(), Fail> {
    let alloc = rt.alloc();
    let robot = SEVEN.replace(alloc, "cycles = 6", "cycles = 2")?;
    play(
        alloc,
        checked_description(alloc, robot.as_str())?,
        few_blanks(alloc, 1)?,
        TWO_CYCLES,
    )
}

/// Two cycles: in the first the switch is decided, in the second a joint follows the value that was sent, which is 10
/// ms at a speed of 1 a second. Then there is none left, and the loop closes once.
const TWO_CYCLES: &str = "\
0 load fwd => ok 0
0 configure fwd => ok
0 switch strict +fwd => queued 0
1 switch strict +traj2 => queued 1
cycle => run 0 unset
0 send fwd 0.5 => ok
cycle => run 0 0.500000
1 unload fwd => active
cycle => cannot
close => none
close => cannot
cycle => cannot
history => 0 load fwd: ok 0 / 0 configure fwd: ok / 0 switch strict +fwd: queued 0 / \
1 switch strict +traj2: queued 1 / 2 begin 0: 0 done; 1 refused traj2 unknown / \
2 end 0: run 0 unset; joint 0.000000 0.000000 0.000000 / 0 send fwd 0.500000: ok / 2 begin 1: none / \
2 end 1: run 0 0.500000; joint 0.010000 1.000000 0.000000 / 1 unload fwd: active / 2 close: none";

/// The calls of a case on a desk at boot, each with what is told of it.
fn play<C: Controller + Send>(
    alloc: Global,
    checked: Checked,
    blanks: Vec<C>,
    case: &str,
) -> Result<(), Fail>
    requires blank { All (λ b. IsBlank (C.meaning b)) blanks.items }
    requires few { length blanks.items < 2 ^ 32 }
{
    let desk = Desk::boot(alloc, checked, Stock::make(blanks), SESSIONS)?;
    let mut looping = across(DeskLoop::over(alloc, desk));
    let held = hold_lines(alloc, &mut looping, case);
    drop(looping);
    held
}

fn hold_lines<C: Controller>(
    alloc: Global,
    looping: &mut DeskLoop<C>,
    case: &str,
) -> Result<(), Fail> {
    for line in case.lines() {
        hold_line(alloc, looping, line)?;
    }
    Ok(())
}

fn hold_line<C: Controller>(
    alloc: Global,
    looping: &mut DeskLoop<C>,
    line: &str,
) -> Result<(), Fail> {
    let (call, want) = halves(line, " => ")?;
    let mut told = String::new(alloc);
    make(alloc, looping, call, &mut told)?;
    hold_told(alloc, call, told.as_str(), want)
}

/// A `cycle` of the loop, its `close`, the `history`, or else a session's call behind its number.
fn make<C: Controller>(
    alloc: Global,
    looping: &mut DeskLoop<C>,
    call: &str,
    told: &mut String,
) -> Result<(), Fail> {
    match call {
        "cycle" => cycle(looping, told),
        "close" => close(looping, told),
        "history" => push_history(alloc, told, looping.desk().history()),
        _ => ask(alloc, looping, call, told),
    }
}

/// A cycle, of which the reply of its end is told.
fn cycle<C: Controller>(looping: &mut DeskLoop<C>, told: &mut String) -> Result<(), Fail> {
    if !can_begin(looping) {
        told.push_str(CANNOT)?;
        return Ok(());
    }
    make_cycle(looping)?;
    push_last(told, true, looping.desk().history())
}

fn close<C: Controller>(looping: &mut DeskLoop<C>, told: &mut String) -> Result<(), Fail> {
    if !can_close(looping) {
        told.push_str(CANNOT)?;
        return Ok(());
    }
    looping.close();
    push_last(told, true, looping.desk().history())
}

/// `WHO CALL`.
fn ask<C: Controller>(
    alloc: Global,
    looping: &mut DeskLoop<C>,
    line: &str,
    told: &mut String,
) -> Result<(), Fail> {
    let (who, call) = halves(line, " ")?;
    let who = who.parse()?;
    if who >= looping.desk().sessions() {
        return Err(Fail::new("no such session"));
    }
    let (verb, rest) = halves(call, " ")?;
    let call = call_of(alloc, verb, rest)?;
    call_desk(looping, who, call, told)
}

fn call_desk<C: Controller>(
    looping: &mut DeskLoop<C>,
    who: u32,
    call: Call,
    told: &mut String,
) -> Result<(), Fail>
    requires { MayCall looping.old.desk who call }
{
    let (reply, given) = looping.call(who, call)?;
    drop(given);
    let pushed = push_reply(told, &reply);
    drop(reply);
    pushed
}
