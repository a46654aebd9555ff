//! Pages of acts on components, and how they are tried.

use crate::failures::FAILURES;
use crate::modes::MODES;
use crate::moves::MOVES;
use crate::steps::STEPS;
use cm_document::{Checked, Life};
use cm_storage::Done;
use fixed_num::{BodyState, Fx, Value};
use hw_component::{Component, ModeFault};
use pages_calls::calls::life_of;
use pages_calls::described::checked_description;
use pages_cases::acts::{Player, hold_acts};
use pages_cases::pages::{joined, push_parted};
use std::alloc::Global;
use std::fmt::Display;
use std::test::Fail;

#[test]
fn components_act_as_their_rules_say(rt: HostRuntime) -> Result<(), Fail> {
    let alloc = rt.alloc();
    hold_acts::<Rig>(alloc, TOP, MOVES)?;
    hold_acts::<Rig>(alloc, TOP, FAILURES)?;
    hold_acts::<Rig>(alloc, TOP, MODES)?;
    hold_acts::<Rig>(alloc, TOP, STEPS)
}

/// What stands before the lines of a component.
const TOP: &str = r#"version = 1
update_rate = 100
cycles = 1
[[component]]
name = "c"
"#;

/// How long a step takes: ten milliseconds.
const STEP_US: u32 = 10_000;

/// A component, with a place for each of its state interfaces.
#[derive(Drop)]
struct Rig {
    component: Component,
    states: Vec<Value>,
}

impl Player for Rig {
    /// The component of a case, its head the lines of a component as in a description, without its name.
    fn begin(alloc: Global, before: &str, head: &str) -> Result<Rig, Fail> {
        let text = joined(alloc, before, head)?;
        Rig::make(alloc, &checked_description(alloc, text.as_str())?)
    }

    fn told(&mut self, alloc: Global, act: &str) -> Result<String, Fail> {
        let mut told = String::new(alloc);
        let (verb, rest) = act.split_once(" ").unwrap_or((act, ""));
        match verb {
            "read" => self.read(&mut told, rest)?,
            "write" => self.write(alloc, &mut told, rest)?,
            "step" => self.step(&mut told)?,
            "claim" => self.claim(alloc, &mut told, rest)?,
            "move" => self.go(&mut told, rest)?,
            _ => write!(told, "{}", self.component.life())?,
        }
        Ok(told)
    }
}

impl Rig {
    /// The first component of a description; its places hold nothing.
    fn make(alloc: Global, checked: &Checked) -> Result<Rig, Fail> {
        hw_component::laws::described_components_can_be_made(checked);
        let described = checked.description().components.as_slice();
        let first = described.first().ok_or("no component")?;
        let component = Component::make(alloc, first)?;
        let states = vec![in alloc; Value::Unset; component.state_interfaces().len()]?;
        Ok(Rig { component, states })
    }

    /// `read N`: how the read ends, and what the places hold then.
    fn read(&mut self, told: &mut String, rest: &str) -> Result<(), Fail> {
        let cycle = rest.parse()?;
        if self.states.len() != self.component.state_interfaces().len() {
            return Err(Fail::new("no place for each state interface"));
        }
        match self.component.life() {
            Life::Inactive | Life::Active => {
                let done = self.component.read(cycle, &mut self.states);
                push_read(told, done, &self.states)
            }
            _ => Ok(told.push_str("not read")?),
        }
    }

    /// `write N VALUES`: how the write ends.
    fn write(&mut self, alloc: Global, told: &mut String, rest: &str) -> Result<(), Fail> {
        let (cycle, values) = rest.split_once(" ").unwrap_or((rest, ""));
        let cycle = cycle.parse()?;
        let values = values_of(alloc, values)?;
        told.push_str(self.written(cycle, values.as_slice()))?;
        Ok(())
    }

    fn written(&mut self, cycle: u64, values: &[Value]) -> &'static str {
        if values.len() != self.component.command_interfaces().len() {
            return "no value for each command interface";
        }
        match self.component.life() {
            Life::Active => done_word(self.component.write(cycle, values)),
            _ => "not written",
        }
    }

    /// `step`: the bodies after it.
    fn step(&mut self, told: &mut String) -> Result<(), Fail> {
        self.component.step(STEP_US);
        let joints = u32::try_from(self.component.description().joints.as_slice().len())?;
        for joint in 0..joints {
            push_body(told, "; ", &self.component.body(joint))?;
        }
        Ok(())
    }

    /// `claim NUMBERS`: prepared, and performed where nothing is at odds.
    fn claim(&mut self, alloc: Global, told: &mut String, rest: &str) -> Result<(), Fail> {
        let claims = numbers_of(alloc, rest)?;
        push_end(told, self.claimed(claims.as_slice()))
    }

    fn claimed(&mut self, claims: &[u32]) -> Result<(), ModeFault> {
        self.component.prepare(claims)?;
        self.component.perform(claims);
        Ok(())
    }

    /// `move STATE`: whether it moved, and its state then.
    fn go(&mut self, told: &mut String, rest: &str) -> Result<(), Fail> {
        push_end(told, self.component.to_state(life_of(rest)?))?;
        write!(told, " {}", self.component.life())?;
        Ok(())
    }
}

fn done_word(done: Done) -> &'static str {
    match done {
        Done::Ok => "ok",
        Done::Error => "error",
    }
}

/// Appends `ok`, or the fault.
pub(crate) fn push_end<F: Display + Drop>(
    told: &mut String,
    end: Result<(), F>,
) -> Result<(), Fail> {
    match end {
        Ok(()) => told.push_str("ok")?,
        Err(fault) => write!(told, "{fault}")?,
    }
    Ok(())
}

/// Appends how a read ended, and what the places hold.
fn push_read(told: &mut String, done: Done, states: &[Value]) -> Result<(), Fail> {
    told.push_str(done_word(done))?;
    push_values(told, states)
}

/// Appends where a body is, behind a sign where something stands before it.
pub(crate) fn push_body(told: &mut String, sign: &str, body: &BodyState) -> Result<(), Fail> {
    push_parted(told, sign, "")?;
    write!(told, "{} {} {}", body.x, body.v, body.f)?;
    Ok(())
}

fn push_values(told: &mut String, values: &[Value]) -> Result<(), Fail> {
    for value in values {
        push_value(told, value)?;
    }
    Ok(())
}

/// Appends a value behind a space.
pub(crate) fn push_value(told: &mut String, value: &Value) -> Result<(), Fail> {
    match value {
        Value::Unset => told.push_str(" unset")?,
        Value::Num(number) => write!(told, " {number}")?,
    }
    Ok(())
}

/// Whole numbers with spaces between them, or `none`.
pub(crate) fn numbers_of(alloc: Global, words: &str) -> Result<Vec<u32>, Fail> {
    let mut numbers = Vec::new(alloc);
    for word in words.split_whitespace() {
        if word != "none" {
            numbers.push(number_of(word)?)?;
        }
    }
    Ok(numbers)
}

fn number_of(word: &str) -> Result<u32, Fail> {
    Ok(word.parse()?)
}

fn values_of(alloc: Global, words: &str) -> Result<Vec<Value>, Fail> {
    let mut values = Vec::new(alloc);
    for word in words.split_whitespace() {
        values.push(value_of(word)?)?;
    }
    Ok(values)
}

/// `unset`, or a number.
pub(crate) fn value_of(word: &str) -> Result<Value, Fail> {
    match word {
        "unset" => Ok(Value::Unset),
        _ => Ok(Value::Num(Fx::read(word.as_bytes())?)),
    }
}
