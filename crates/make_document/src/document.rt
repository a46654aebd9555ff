//! A made document, line by line.

ghost use Rattle.std.specs.Prelude.{◌≡◌, ◌+◌, ◌*◌, ◌≤◌, ◌^◌, ◌++◌, IfOk, OnOk, codes, decimal, string_bytes};
ghost use Rattle.make_document.specs.declared.TheConstants.{CYCLES_A_ROUND};
ghost use Rattle.make_document.specs.Made.{made, robot_text, robot_lines, joint_name, joint_lines};
ghost use Rattle.make_document.specs.Made.{controller_name, controller_lines};
ghost use Rattle.make_document.specs.Made.{script_lines, opening_lines, line_each, first_switch, started, of_each};
ghost use Rattle.make_document.specs.Made.{rounds_lines, round_lines, send_line, switch_line, await_line};

use crate::{CYCLES_A_ROUND, JOINTS, VALUE_STEP};
use fixed_num::Memory;
use std::alloc::Global;

/// The made document of so many rounds.
pub fn make_document(alloc: Global, rounds: u32) -> Result<Vec<u8>, Memory>
    ensures { IfOk result (λ bytes. bytes.items ≡ made rounds) }
{
    let mut text = String::new(alloc);
    push_robot(&mut text, rounds)?;
    text.push_str("--- script ---\n")?;
    push_script(&mut text, rounds)?;
    Ok(text.into_bytes())
}

/// Appends the description, whose cycles last for so many rounds.
fn push_robot(text: &mut String, rounds: u32) -> Result<(), Memory>
    ensures { OnOk result (string_bytes text.new ≡ string_bytes text.old ++ robot_text rounds) }
{
    text.push_str("version = 1\nupdate_rate = 100\ncycles = ")?;
    push_cycles(text, rounds)?;
    push_robot_lines(text)
}

/// Appends how many cycles so many rounds last, and the end of the line.
fn push_cycles(text: &mut String, rounds: u32) -> Result<(), Memory>
    ensures { OnOk result
        (string_bytes text.new ≡ string_bytes text.old ++ (decimal (CYCLES_A_ROUND * rounds) ++ codes "\n")) }
{
    let cycles = CYCLES_A_ROUND * (rounds as u64);
    write!(text, "{cycles}\n")?;
    Ok(())
}

/// Appends the component with its joints, and the controllers.
fn push_robot_lines(text: &mut String) -> Result<(), Memory>
    ensures { OnOk result (string_bytes text.new ≡ string_bytes text.old ++ robot_lines) }
{
    text.push_str("[[component]]\nname = \"sys\"\nkind = \"system\"\n")?;
    push_joints(text)?;
    push_controllers(text)
}

#[tactic(auto, unfolding(crate::specs::Made::of_each))]
fn push_joints(text: &mut String) -> Result<(), Memory>
    ensures { OnOk result (string_bytes text.new ≡ string_bytes text.old ++ of_each joint_lines) }
{
    for i in 0..JOINTS {
        push_joint(text, i)?;
    }
    Ok(())
}

fn push_joint(text: &mut String, i: u64) -> Result<(), Memory>
    ensures { OnOk result (string_bytes text.new ≡ string_bytes text.old ++ joint_lines i) }
{
    text.push_str("[[component.joint]]\nname = \"")?;
    push_joint_name(text, i)?;
    text.push_str("\"\nvmax = 1\ncommand = [\"position\"]\nstate = [\"position\"]\n")?;
    Ok(())
}

#[tactic(auto, unfolding(crate::specs::Made::of_each))]
fn push_controllers(text: &mut String) -> Result<(), Memory>
    ensures { OnOk result (string_bytes text.new ≡ string_bytes text.old ++ of_each controller_lines) }
{
    for i in 0..JOINTS {
        push_controller(text, i)?;
    }
    Ok(())
}

fn push_controller(text: &mut String, i: u64) -> Result<(), Memory>
    ensures { OnOk result (string_bytes text.new ≡ string_bytes text.old ++ controller_lines i) }
{
    text.push_str("[[controller]]\nname = \"")?;
    push_controller_name(text, i)?;
    text.push_str("\"\ntype = \"forward\"\nclaims = [\"")?;
    push_joint_name(text, i)?;
    text.push_str("/position\"]\n")?;
    Ok(())
}

fn push_joint_name(text: &mut String, i: u64) -> Result<(), Memory>
    ensures { OnOk result (string_bytes text.new ≡ string_bytes text.old ++ joint_name i) }
{
    write!(text, "j{i}")?;
    Ok(())
}

fn push_controller_name(text: &mut String, i: u64) -> Result<(), Memory>
    ensures { OnOk result (string_bytes text.new ≡ string_bytes text.old ++ controller_name i) }
{
    write!(text, "f{i}")?;
    Ok(())
}

/// Appends the script: what it begins with, and then its rounds.
fn push_script(text: &mut String, rounds: u32) -> Result<(), Memory>
    ensures { OnOk result (string_bytes text.new ≡ string_bytes text.old ++ script_lines rounds) }
{
    push_opening(text)?;
    push_rounds(text, rounds)
}

/// Appends the session's line, and those that load, configure and start all controllers.
#[tactic(auto, using(crate::proofs::TextLemmas::opening_text))]
fn push_opening(text: &mut String) -> Result<(), Memory>
    ensures { OnOk result (string_bytes text.new ≡ string_bytes text.old ++ opening_lines) }
{
    text.push_str("session a\n")?;
    push_line_each(text, "load")?;
    push_line_each(text, "configure")?;
    push_first_switch(text)
}

/// Appends a line for each controller, of this verb.
#[tactic(auto, unfolding(crate::specs::Made::of_each))]
fn push_line_each(text: &mut String, verb: &str) -> Result<(), Memory>
    ensures { OnOk result (string_bytes text.new ≡ string_bytes text.old ++ of_each (line_each verb.now)) }
{
    for i in 0..JOINTS {
        write!(text, "{verb} f{i}\n")?;
    }
    Ok(())
}

/// Appends the switch that starts all controllers.
#[tactic(auto, unfolding(crate::specs::Made::first_switch))]
fn push_first_switch(text: &mut String) -> Result<(), Memory>
    ensures { OnOk result (string_bytes text.new ≡ string_bytes text.old ++ first_switch) }
{
    text.push_str("switch strict")?;
    push_started(text)?;
    text.push_str("\n")?;
    Ok(())
}

/// Appends the names of all controllers, each as one to start.
#[tactic(auto, unfolding(crate::specs::Made::of_each))]
fn push_started(text: &mut String) -> Result<(), Memory>
    ensures { OnOk result (string_bytes text.new ≡ string_bytes text.old ++ of_each started) }
{
    for i in 0..JOINTS {
        write!(text, " +f{i}")?;
    }
    Ok(())
}

/// Appends so many rounds, of which the first has the number 1.
fn push_rounds(text: &mut String, rounds: u32) -> Result<(), Memory>
    ensures { OnOk result (string_bytes text.new ≡ string_bytes text.old ++ rounds_lines rounds) }
{
    for done in 0..rounds {
        push_round(text, (done as u64) + 1)?;
    }
    Ok(())
}

/// Appends a round: a value is sent to one controller, the next one is stopped and started again, and the cycles are
/// awaited.
fn push_round(text: &mut String, k: u64) -> Result<(), Memory>
    requires { k ≤ 2 ^ 32 }
    ensures { OnOk result (string_bytes text.new ≡ string_bytes text.old ++ round_lines k) }
{
    push_send(text, k)?;
    let restarted = (k + 1) % JOINTS;
    push_switch(text, "-", restarted)?;
    push_switch(text, "+", restarted)?;
    push_await(text, k)
}

fn push_send(text: &mut String, k: u64) -> Result<(), Memory>
    requires { k ≤ 2 ^ 32 }
    ensures { OnOk result (string_bytes text.new ≡ string_bytes text.old ++ send_line k) }
{
    let sent_to = k % JOINTS;
    let value = VALUE_STEP * k % 100;
    let (tenths, hundredths) = (value / 10, value % 10);
    write!(text, "send f{sent_to} 0.{tenths}{hundredths}\n")?;
    Ok(())
}

/// Appends a switch of one controller, by its sign.
fn push_switch(text: &mut String, sign: &str, i: u64) -> Result<(), Memory>
    ensures { OnOk result (string_bytes text.new ≡ string_bytes text.old ++ switch_line sign.now i) }
{
    write!(text, "switch strict {sign}f{i}\n")?;
    Ok(())
}

fn push_await(text: &mut String, k: u64) -> Result<(), Memory>
    requires { k ≤ 2 ^ 32 }
    ensures { OnOk result (string_bytes text.new ≡ string_bytes text.old ++ await_line k) }
{
    let cycles = CYCLES_A_ROUND * k;
    write!(text, "await {cycles}\n")?;
    Ok(())
}
