//! Loan boards, act by act: what stands at each place in the end.

ghost use Rattle.std.specs.Prelude.{◌<◌, length};

use crate::acts::{push_value, value_of};
use loan_board::{Board, Loan};
use pages_calls::described::checked_description;
use pages_cases::largest::AT_ALL_LIMITS;
use pages_cases::pages::{Teller, halves, hold, hold_lines, push_parted};
use std::alloc::Global;
use std::test::Fail;

/// A state interface, two command interfaces and a reference.
const DESCRIPTION: &str = r#"version = 1
update_rate = 100
cycles = 1
[[component]]
name = "arm"
kind = "system"
[[component.joint]]
name = "j1"
vmax = 1
command = ["position", "velocity"]
state = ["position"]
[[controller]]
name = "pid"
type = "pid"
claims = ["j1/velocity"]
reads = ["j1/position"]
"#;

/// Tells the places of a board after some acts: `on P`, `off P`, `set P VALUE`, `claim P SERIAL`, `release P`. An act
/// whose condition is not met is a fault of the case.
#[derive(Clone, Copy)]
struct Acts;

impl Teller for Acts {
    fn told(&self, alloc: Global, text: &str) -> Result<String, Fail> {
        let mut board = board_of(alloc, DESCRIPTION)?;
        if !text.starts_with("nothing") {
            carry_out_all(&mut board, text.trim_end())?;
        }
        places_of(alloc, &board)
    }
}

/// Tells how many state interfaces the board of a description has, and how many commands and references.
#[derive(Clone, Copy)]
struct Sides;

impl Teller for Sides {
    fn told(&self, alloc: Global, text: &str) -> Result<String, Fail> {
        let board = board_of(alloc, text)?;
        let commands = board.loans().iter().filter(|loan| loan.is_command).count();
        let states = board.loans().len().saturating_sub(commands);
        Ok(format!(in alloc; "{states} states, {commands} commands")?)
    }
}

/// The board of a described robot.
fn board_of(alloc: Global, text: &str) -> Result<Board, Fail> {
    Ok(Board::make(alloc, &checked_description(alloc, text)?)?)
}

fn carry_out_all(board: &mut Board, acts: &str) -> Result<(), Fail> {
    for act in acts.split(", ") {
        carry_out(board, act)?;
    }
    Ok(())
}

fn carry_out(board: &mut Board, act: &str) -> Result<(), Fail> {
    let (verb, rest) = halves(act, " ")?;
    let (place, rest) = rest.split_once(" ").unwrap_or((rest, ""));
    let place: u32 = place.parse()?;
    if place as usize >= board.loans().len() {
        return Err(Fail::new("no such place"));
    }
    match verb {
        "set" => set(board, place, rest),
        "claim" => claim(board, place, rest),
        "release" => release(board, place),
        "on" => make_available(board, place, true),
        "off" => make_available(board, place, false),
        _ => Err(Fail::new("no such act")),
    }
}

fn set(board: &mut Board, place: u32, word: &str) -> Result<(), Fail>
    requires { place < length board.old }
{
    board.set(place, value_of(word)?);
    Ok(())
}

fn claim(board: &mut Board, place: u32, serial: &str) -> Result<(), Fail>
    requires { place < length board.old }
{
    let serial = serial.parse()?;
    let is_command = board.loans()[place as usize].is_command;
    if !is_command || !board.available(place) || board.owner(place).is_some() {
        return Err(Fail::new("it cannot be claimed"));
    }
    board.claim(place, serial);
    Ok(())
}

fn release(board: &mut Board, place: u32) -> Result<(), Fail>
    requires { place < length board.old }
{
    if board.owner(place).is_none() {
        return Err(Fail::new("nobody claims it"));
    }
    board.release(place);
    Ok(())
}

fn make_available(board: &mut Board, place: u32, yes: bool) -> Result<(), Fail>
    requires { place < length board.old }
{
    if board.owner(place).is_some() {
        return Err(Fail::new("it is claimed"));
    }
    board.set_available(place, yes);
    Ok(())
}

/// The places, with commas between them.
fn places_of(alloc: Global, board: &Board) -> Result<String, Fail> {
    let mut told = String::new(alloc);
    for loan in board.loans() {
        push_loan(&mut told, loan)?;
    }
    Ok(told)
}

/// A place: its side, what it holds, `off` where it is not available, else its owner or `free`.
fn push_loan(told: &mut String, loan: &Loan) -> Result<(), Fail> {
    push_parted(
        told,
        ", ",
        if loan.is_command { "command" } else { "state" },
    )?;
    push_value(told, &loan.value.get())?;
    match loan.owner {
        Some(serial) => write!(told, " {serial}")?,
        None => told.push_str(if loan.is_available { " free" } else { " off" })?,
    }
    Ok(())
}

#[test]
fn boards_keep_what_was_done_at_each_place(rt: HostRuntime) -> Result<(), Fail> {
    let alloc = rt.alloc();
    hold_lines(alloc, &Acts, "", ACTS)?;
    hold(alloc, &Sides, AT_ALL_LIMITS, "=> 96 states, 192 commands")
}

/// Values that come and go, claims of neighbours, releases, and interfaces that are no longer available.
const ACTS: &str = "\
nothing => state unset off, command unset off, command unset off, command unset off
on 0, set 0 0.25 => state 0.250000 free, command unset off, command unset off, command unset off
on 1, on 2, set 1 -0.5, set 2 7, set 1 unset => state unset off, \
    command unset free, command 7.000000 free, command unset off
on 1, claim 1 7, set 1 -0.5 => state unset off, command -0.500000 7, command unset off, command unset off
on 1, claim 1 7, set 1 2, release 1 => state unset off, command unset free, command unset off, command unset off
on 1, on 2, claim 1 0, claim 2 1, set 1 1, set 2 2, release 1 => state unset off, \
    command unset free, command 2.000000 1, command unset off
on 3, claim 3 4294967295, release 3, claim 3 5, set 3 0 => state unset off, \
    command unset off, command unset off, command 0.000000 5
on 0, set 0 1, on 3, set 3 9, off 3 => state 1.000000 free, command unset off, command unset off, command unset off
on 2, set 2 4, on 2 => state unset off, command unset off, command 4.000000 free, command unset off
set 2 4, off 1 => state unset off, command unset off, command 4.000000 off, command unset off";
