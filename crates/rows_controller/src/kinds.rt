//! Controllers, call by call: each case is the parameters of a controller and the calls that its box gets, a line
//! each; what must be told is the answer to each call.

ghost use Rattle.cm_model.specs.Controllers.{IsBlank};

mod computing;
mod pages;
pub(crate) mod parameters;
mod shaping;
mod tried;

use crate::kinds::computing::{BROADCASTERS, LIMITS, LINES, PIDS, TRAJECTORIES};
use crate::kinds::pages::{FORWARDS, LIFECYCLE, MOCKS, PASSTHROUGHS};
use crate::kinds::parameters::params_of;
use crate::kinds::shaping::{DIFFERENTIALS, LIMITERS, STANDING, TRANSMISSIONS};
use crate::kinds::tried::Tried;
use cm_document::{Mail, Params, Point2};
use cm_model::Tick;
use ctl_bcast::Broadcaster;
use ctl_forward::{Forward, Passthrough};
use ctl_mock::Mock;
use ctl_pid::PidCtl;
use ctl_shape::{DifferentialCtl, LimiterCtl, TransmissionCtl};
use ctl_trait::Controller;
use ctl_traj::TrajCtl;
use fixed_num::{Fx, Value};
use pages_cases::pages::{Teller, hold, push_parted};
use pages_cases::words::number;
use sequence::Seq;
use std::alloc::Global;
use std::test::Fail;

#[test]
fn each_kind_does_what_its_row_says(rt: HostRuntime) -> Result<(), Fail> {
    let alloc = rt.alloc();
    hold(alloc, &Forwards, "", FORWARDS)?;
    hold(alloc, &Forwards, "", LIFECYCLE)?;
    hold(alloc, &Passthroughs, "", PASSTHROUGHS)?;
    hold(alloc, &Mocks, "", MOCKS)
}

#[test]
fn each_kind_that_computes_does_what_its_row_says(rt: HostRuntime) -> Result<(), Fail> {
    let alloc = rt.alloc();
    hold(alloc, &Pids, "", PIDS)?;
    hold(alloc, &Pids, "", LIMITS)?;
    hold(alloc, &Trajectories, "", TRAJECTORIES)?;
    hold(alloc, &Trajectories, "", LINES)?;
    hold(alloc, &Broadcasters, "", BROADCASTERS)
}

#[test]
fn each_kind_that_shapes_a_command_does_what_its_row_says(rt: HostRuntime) -> Result<(), Fail> {
    let alloc = rt.alloc();
    hold(alloc, &Transmissions, "", TRANSMISSIONS)?;
    hold(alloc, &Differentials, "", DIFFERENTIALS)?;
    hold(alloc, &Limiters, "", LIMITERS)?;
    hold(alloc, &Limiters, "", STANDING)
}

/// A kind of controller, of which each case plays with a blank. Other bodies hold it as a `C` alone: one that makes a
/// `PidCtl` and hands it on gets no proof.
trait Kind: Controller + Sized {
    fn blank() -> Self
        ensures { IsBlank (Self.meaning result) };
}

impl Kind for Forward {
    fn blank() -> Forward {
        Forward::blank()
    }
}

impl Kind for Passthrough {
    fn blank() -> Passthrough {
        Passthrough::blank()
    }
}

impl Kind for PidCtl {
    fn blank() -> PidCtl {
        PidCtl::blank()
    }
}

impl Kind for TrajCtl {
    fn blank() -> TrajCtl {
        TrajCtl::blank()
    }
}

impl Kind for Broadcaster {
    fn blank() -> Broadcaster {
        Broadcaster::blank()
    }
}

impl Kind for Mock {
    fn blank() -> Mock {
        Mock::blank()
    }
}

impl Kind for TransmissionCtl {
    fn blank() -> TransmissionCtl {
        TransmissionCtl::blank()
    }
}

impl Kind for DifferentialCtl {
    fn blank() -> DifferentialCtl {
        DifferentialCtl::blank()
    }
}

impl Kind for LimiterCtl {
    fn blank() -> LimiterCtl {
        LimiterCtl::blank()
    }
}

/// Tells the answers of a forward to the calls of a case.
struct Forwards;

impl Teller for Forwards {
    fn told(&self, alloc: Global, text: &str) -> Result<String, Fail> {
        play::<Forward>(alloc, text)
    }
}

/// Tells the answers of a passthrough to the calls of a case.
struct Passthroughs;

impl Teller for Passthroughs {
    fn told(&self, alloc: Global, text: &str) -> Result<String, Fail> {
        play::<Passthrough>(alloc, text)
    }
}

/// Tells the answers of a pid to the calls of a case.
struct Pids;

impl Teller for Pids {
    fn told(&self, alloc: Global, text: &str) -> Result<String, Fail> {
        play::<PidCtl>(alloc, text)
    }
}

/// Tells the answers of a trajectory to the calls of a case.
struct Trajectories;

impl Teller for Trajectories {
    fn told(&self, alloc: Global, text: &str) -> Result<String, Fail> {
        play::<TrajCtl>(alloc, text)
    }
}

/// Tells the answers of a broadcaster to the calls of a case.
struct Broadcasters;

impl Teller for Broadcasters {
    fn told(&self, alloc: Global, text: &str) -> Result<String, Fail> {
        play::<Broadcaster>(alloc, text)
    }
}

/// Tells the answers of a mock to the calls of a case.
struct Mocks;

impl Teller for Mocks {
    fn told(&self, alloc: Global, text: &str) -> Result<String, Fail> {
        play::<Mock>(alloc, text)
    }
}

/// Tells the answers of a transmission to the calls of a case.
struct Transmissions;

impl Teller for Transmissions {
    fn told(&self, alloc: Global, text: &str) -> Result<String, Fail> {
        play::<TransmissionCtl>(alloc, text)
    }
}

/// Tells the answers of a differential to the calls of a case.
struct Differentials;

impl Teller for Differentials {
    fn told(&self, alloc: Global, text: &str) -> Result<String, Fail> {
        play::<DifferentialCtl>(alloc, text)
    }
}

/// Tells the answers of a limiter to the calls of a case.
struct Limiters;

impl Teller for Limiters {
    fn told(&self, alloc: Global, text: &str) -> Result<String, Fail> {
        play::<LimiterCtl>(alloc, text)
    }
}

/// The answers of a blank to the calls of a case, a line for each.
fn play<C: Kind>(alloc: Global, case: &str) -> Result<String, Fail> {
    let (params, calls) = halves_of(case);
    let params = params_of(alloc, params)?;
    let mut tried = Tried::new(C::blank(), Vec::new(alloc));
    answers(alloc, &mut tried, &params, calls)
}

fn answers<C: Controller>(
    alloc: Global,
    tried: &mut Tried<C>,
    params: &Params,
    calls: &str,
) -> Result<String, Fail> {
    let mut told = String::new(alloc);
    for call in calls.lines() {
        push_parted(&mut told, "\n", "")?;
        answer(alloc, tried, params, call, &mut told)?;
    }
    Ok(told)
}

/// The first line of a case, and the others.
fn halves_of(case: &str) -> (&str, &str) {
    case.split_once("\n").unwrap_or((case, ""))
}

/// Appends the answer to one call.
fn answer<C: Controller>(
    alloc: Global,
    tried: &mut Tried<C>,
    params: &Params,
    call: &str,
    told: &mut String,
) -> Result<(), Fail> {
    let (name, given) = call.split_once(" ").unwrap_or((call, ""));
    if name == "update" {
        return updated(alloc, tried, given, told);
    }
    let answer = match name {
        "configure" => configured(alloc, tried, params, given)?,
        "activate" => activated(alloc, tried, given)?,
        "send" => tried.take(mail_of(alloc, given)?),
        _ => answer_at_once(tried, name, given)?,
    };
    told.push_str(answer)?;
    Ok(())
}

/// The answer to a call that takes no memory.
fn answer_at_once<C: Controller>(
    tried: &mut Tried<C>,
    name: &str,
    given: &str,
) -> Result<&'static str, Fail> {
    match name {
        "ready" => Ok(yes_or_no(tried.ready(given.parse()?))),
        "deactivate" => Ok(tried.deactivate()),
        "cleanup" => Ok(tried.cleanup()),
        _ => Err(Fail::new("an unknown call")),
    }
}

/// It is configured by the parameters that are given, or else by those of the case.
fn configured<C: Controller>(
    alloc: Global,
    tried: &mut Tried<C>,
    params: &Params,
    given: &str,
) -> Result<&'static str, Fail> {
    if given.is_empty() {
        return tried.configure(alloc, params);
    }
    tried.configure(alloc, &params_of(alloc, given)?)
}

fn yes_or_no(ready: bool) -> &'static str {
    if ready { "yes" } else { "no" }
}

/// `chained STATES` or `STATES`.
fn activated<C: Controller>(
    alloc: Global,
    tried: &mut Tried<C>,
    given: &str,
) -> Result<&'static str, Fail> {
    let (chained, states) = match given.strip_prefix("chained") {
        Some(states) => (true, states.trim_start()),
        None => (false, given),
    };
    let states = numbers(alloc, states)?;
    Ok(tried.activate(states.as_slice(), chained))
}

/// What an update is given.
#[derive(Drop)]
struct Given {
    tick: Tick,
    states: Vec<Fx>,
    refs: Vec<Value>,
}

/// `CYCLE, at TIME, for TIME, states STATES, refs REFS`; the answer has what the claims hold then.
fn updated<C: Controller>(
    alloc: Global,
    tried: &mut Tried<C>,
    given: &str,
    told: &mut String,
) -> Result<(), Fail> {
    let given = given_of(alloc, given)?;
    let answer = tried.update(given.tick, given.states.as_slice(), given.refs.as_slice());
    told.push_str(answer)?;
    if answer == "ok" || answer == "error" {
        push_values(told, tried.outs())?;
    }
    Ok(())
}

fn given_of(alloc: Global, text: &str) -> Result<Given, Fail> {
    let (cycle, parts) = text.split_once(", ").unwrap_or((text, ""));
    let mut given = Given {
        tick: Tick {
            cycle: cycle.parse()?,
            time_us: 0,
            dt_us: 10_000,
        },
        states: Vec::new(alloc),
        refs: Vec::new(alloc),
    };
    for part in parts.split(", ") {
        add_part(alloc, &mut given, part)?;
    }
    Ok(given)
}

fn add_part(alloc: Global, given: &mut Given, part: &str) -> Result<(), Fail> {
    let (name, words) = part.split_once(" ").unwrap_or((part, ""));
    match name {
        "at" => given.tick.time_us = words.parse()?,
        "for" => given.tick.dt_us = words.parse()?,
        "states" => given.states = numbers(alloc, words)?,
        "refs" => given.refs = values(alloc, words)?,
        _ => {}
    }
    Ok(())
}

fn push_values(told: &mut String, values: &[Value]) -> Result<(), Fail> {
    for value in values {
        push_value(told, value)?;
    }
    Ok(())
}

fn push_value(told: &mut String, value: &Value) -> Result<(), Fail> {
    match value {
        Value::Unset => told.push_str(" unset")?,
        Value::Num(number) => write!(told, " {number}")?,
    }
    Ok(())
}

/// A plain list, or points `@TIME VALUES, @TIME VALUES`.
fn mail_of(alloc: Global, given: &str) -> Result<Mail, Fail> {
    if !given.starts_with("@") {
        return Ok(Mail::Values(Seq::from_vec(numbers(alloc, given)?)));
    }
    let mut points = Vec::new(alloc);
    for point in given.split(", ") {
        points.push(point_of(alloc, point)?)?;
    }
    Ok(Mail::Points(Seq::from_vec(points)))
}

fn point_of(alloc: Global, point: &str) -> Result<Point2, Fail> {
    let (time, values) = point.split_once(" ").unwrap_or((point, ""));
    Ok(Point2 {
        at_us: time.trim_start_matches('@').parse()?,
        values: Seq::from_vec(numbers(alloc, values)?),
    })
}

/// Words that stand for numbers.
fn numbers(alloc: Global, text: &str) -> Result<Vec<Fx>, Fail> {
    let mut numbers = Vec::new(alloc);
    for word in text.split_ascii_whitespace() {
        numbers.push(number(word, 0)?)?;
    }
    Ok(numbers)
}

/// Words that stand for values.
fn values(alloc: Global, text: &str) -> Result<Vec<Value>, Fail> {
    let mut values = Vec::new(alloc);
    for word in text.split_ascii_whitespace() {
        values.push(value_of(word)?)?;
    }
    Ok(values)
}

/// The value of a word: a number, or `unset`.
pub(crate) fn value_of(word: &str) -> Result<Value, Fail> {
    match word {
        "unset" => Ok(Value::Unset),
        _ => Ok(Value::Num(number(word, 0)?)),
    }
}
