//! Whole documents, each with how its run ends and what is printed.

use crate::operators::{OPERATORS, TWO_OPERATORS};
use crate::pages::{DESCRIPTIONS, LENGTHS, NOTHING, OF_FIRST, SCRIPTS, SEPARATORS};
use crate::turns::{AFTER_TURNS, IDLE_TURNS, TURNS};
use pages_cases::pages::hold;
use pages_runs::documents::{FIRST, ROBOT};
use pages_runs::runs::{BY_TURNS, OF_PROGRAM, in_steps_of};
use std::alloc::Global;
use std::test::Fail;

#[test]
fn each_document_is_printed_or_refused(rt: HostRuntime) -> Result<(), Fail> {
    let alloc = rt.alloc();
    hold(alloc, &OF_PROGRAM, "", DESCRIPTIONS)?;
    hold(alloc, &OF_PROGRAM, "", SEPARATORS)?;
    hold(alloc, &OF_PROGRAM, "", SCRIPTS)?;
    hold(alloc, &OF_PROGRAM, "", LENGTHS)?;
    hold(alloc, &OF_PROGRAM, "", OPERATORS)?;
    hold(alloc, &OF_PROGRAM, ROBOT, TWO_OPERATORS)
}

#[test]
fn the_turns_of_a_schedule_come_before_the_rest(rt: HostRuntime) -> Result<(), Fail> {
    hold(rt.alloc(), &BY_TURNS, ROBOT, TURNS)?;
    hold(rt.alloc(), &BY_TURNS, ROBOT, IDLE_TURNS)?;
    hold(rt.alloc(), &BY_TURNS, ROBOT, AFTER_TURNS)
}

#[test]
fn a_document_is_read_in_any_pieces(rt: HostRuntime) -> Result<(), Fail> {
    hold_in_steps_of(rt.alloc(), 1)?;
    hold_in_steps_of(rt.alloc(), 7)?;
    hold_in_steps_of(rt.alloc(), 1000)
}

fn hold_in_steps_of(alloc: Global, step: usize) -> Result<(), Fail> {
    hold(alloc, &in_steps_of(step), FIRST, OF_FIRST)?;
    hold(alloc, &in_steps_of(step), "", NOTHING)
}
