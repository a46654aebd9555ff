//! The parameters of a case, by its first line.

use cm_document::{Cycles, Params};
use iface_names::Kind;
use pages_cases::words::{number, word};
use std::alloc::Global;
use std::test::Fail;

/// The parameters of `KIND NUMBERS` or `mock CLAIMS, refuses, not ready CYCLES, fails CYCLES`.
pub(crate) fn params_of(alloc: Global, text: &str) -> Result<Params, Fail> {
    let (kind, given) = text.split_once(" ").unwrap_or((text, ""));
    match kind {
        "forward" => Ok(Params::Forward {
            outs: given.parse()?,
        }),
        "passthrough" => Ok(Params::Passthrough {
            outs: given.parse()?,
        }),
        "trajectory" => Ok(Params::Trajectory {
            outs: given.parse()?,
        }),
        "broadcaster" => Ok(Params::Broadcaster {
            ins: given.parse()?,
        }),
        "pid" => pid_of(given),
        "mock" => mock_of(alloc, given),
        "transmission" => transmission_of(given),
        "differential" => differential_of(given),
        "limiter" => limiter_of(given),
        _ => Err(Fail::new("an unknown kind")),
    }
}

/// The parameters of a pid: its three gains and its two limits.
fn pid_of(given: &str) -> Result<Params, Fail> {
    Ok(Params::Pid {
        kp: number(given, 0)?,
        ki: number(given, 1)?,
        kd: number(given, 2)?,
        imax: number(given, 3)?,
        omax: number(given, 4)?,
    })
}

/// The parameters of a mock.
fn mock_of(alloc: Global, given: &str) -> Result<Params, Fail> {
    let (outs, parts) = given.split_once(", ").unwrap_or((given, ""));
    let not_ready = wholes(alloc, behind(parts, "not ready "))?;
    let fail_update = wholes(alloc, behind(parts, "fails "))?;
    Ok(Params::Mock {
        outs: outs.parse()?,
        refuse_config: parts.contains("refuses"),
        not_ready: Cycles::of(alloc, not_ready)?,
        fail_update: Cycles::of(alloc, fail_update)?,
    })
}

/// The parameters of a transmission: what it carries, its reduction and its offset.
fn transmission_of(given: &str) -> Result<Params, Fail> {
    Ok(Params::Transmission {
        kind: carried(given)?,
        reduction: number(given, 1)?,
        offset: number(given, 2)?,
    })
}

/// The parameters of a differential: what it carries, its two reductions and its two offsets.
fn differential_of(given: &str) -> Result<Params, Fail> {
    Ok(Params::Differential {
        kind: carried(given)?,
        reduction1: number(given, 1)?,
        reduction2: number(given, 2)?,
        offset1: number(given, 3)?,
        offset2: number(given, 4)?,
    })
}

/// What it carries: the kind that is the first word.
pub(crate) fn carried(given: &str) -> Result<Kind, Fail> {
    match Kind::read(word(given, 0).as_bytes()) {
        Some(kind) => Ok(kind),
        None => Err(Fail::new("no kind")),
    }
}

/// The parameters of a limiter: its two ends, its speed and its acceleration.
fn limiter_of(given: &str) -> Result<Params, Fail> {
    Ok(Params::Limiter {
        min: number(given, 0)?,
        max: number(given, 1)?,
        vmax: number(given, 2)?,
        amax: number(given, 3)?,
    })
}

/// What stands behind these words in a part that begins with them.
fn behind<'a>(parts: &'a str, words: &str) -> &'a str {
    for part in parts.split(", ") {
        if let Some(rest) = part.strip_prefix(words) {
            return rest;
        }
    }
    ""
}

/// Words that stand for whole numbers.
fn wholes(alloc: Global, text: &str) -> Result<Vec<u64>, Fail> {
    let mut wholes = Vec::new(alloc);
    for word in text.split_ascii_whitespace() {
        wholes.push(whole_of(word)?)?;
    }
    Ok(wholes)
}

fn whole_of(word: &str) -> Result<u64, Fail> {
    Ok(word.parse()?)
}
