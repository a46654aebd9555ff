//! Stocks, of which blanks are taken by their kind: boxes of several kinds, and controllers of one kind without boxes.

ghost use Rattle.std.specs.Prelude.{◌≡◌, ◌+◌, ◌<◌, ◌^◌, length, OnOk};
ghost use Rattle.std.specs.List.{All};
ghost use Rattle.cm_model.specs.Controllers.{IsBlank};

use cm_document::{CONTROLLER_KINDS, CtlKind, meaning_of};
use cm_stock::Stock;
use ctl_forward::{Forward, Passthrough};
use ctl_mock::Mock;
use ctl_trait::Controller;
use pages_cases::pages::{Teller, hold, push_parted};
use std::alloc::Global;
use std::test::Fail;

/// Two forwards, a passthrough and a mock.
const SEVERAL: &str = "\
forward
forward
forward
mock
mock
pid
passthrough
=> forward
forward
none left
mock
none left
none left
passthrough

mock
passthrough
passthrough
trajectory
broadcaster
transmission
differential
limiter
forward
=> mock
passthrough
none left
none left
none left
none left
none left
none left
forward";

/// Two mocks.
const MOCKS: &str = "\
forward
mock
mock
mock
=> none left
mock
mock
none left";

#[test]
fn blanks_are_taken_by_their_kind(rt: HostRuntime) -> Result<(), Fail> {
    let alloc = rt.alloc();
    hold(alloc, &OfSeveral, "", SEVERAL)?;
    hold(alloc, &OfMocks, "", MOCKS)
}

/// Tells what is taken of two forwards, a passthrough and a mock.
struct OfSeveral;

impl Teller for OfSeveral {
    fn told(&self, alloc: Global, text: &str) -> Result<String, Fail> {
        let mut blanks: Vec<Box<dyn Controller + Send>> = Vec::new(alloc);
        add(&mut blanks, Box::new(alloc, Forward::blank())?)?;
        add(&mut blanks, Box::new(alloc, Forward::blank())?)?;
        add(&mut blanks, Box::new(alloc, Passthrough::blank())?)?;
        add(&mut blanks, Box::new(alloc, Mock::blank())?)?;
        all_taken(alloc, blanks, text)
    }
}

/// Tells what is taken of two mocks.
struct OfMocks;

impl Teller for OfMocks {
    fn told(&self, alloc: Global, text: &str) -> Result<String, Fail> {
        let mut blanks: Vec<Mock> = Vec::new(alloc);
        add(&mut blanks, Mock::blank())?;
        add(&mut blanks, Mock::blank())?;
        all_taken(alloc, blanks, text)
    }
}

/// One blank more.
fn add<C: Controller>(blanks: &mut Vec<C>, blank: C) -> Result<(), Fail>
    requires blank { IsBlank (C.meaning blank) }
    requires blanks { All (λ c. IsBlank (C.meaning c)) blanks.old.items }
    ensures blanks { All (λ c. IsBlank (C.meaning c)) blanks.new.items }
    ensures one { OnOk result (length blanks.new.items ≡ length blanks.old.items + 1) }
{
    blanks.push(blank)?;
    Ok(())
}

/// What is taken of these blanks, a line for each kind that is asked for.
fn all_taken<C: Controller>(alloc: Global, blanks: Vec<C>, kinds: &str) -> Result<String, Fail>
    requires blank { All (λ c. IsBlank (C.meaning c)) blanks.items }
    requires few { length blanks.items < 2 ^ 32 }
{
    let mut stock = Stock::make(blanks);
    lines_of(alloc, &mut stock, kinds)
}

fn lines_of<C: Controller>(
    alloc: Global,
    stock: &mut Stock<C>,
    kinds: &str,
) -> Result<String, Fail> {
    let mut told = String::new(alloc);
    for kind in kinds.lines() {
        push_parted(&mut told, "\n", taken(stock, kind_named(kind)?))?;
    }
    Ok(told)
}

/// The kind of the blank that is taken.
fn taken<C: Controller>(stock: &mut Stock<C>, kind: CtlKind) -> &'static str {
    match stock.take(kind) {
        Some(ctl) => ctl.kind().word(),
        None => "none left",
    }
}

fn kind_named(word: &str) -> Result<CtlKind, Fail> {
    match meaning_of(&CONTROLLER_KINDS, word.as_bytes()) {
        Some(kind) => Ok(kind),
        None => Err(Fail::new("an unknown kind")),
    }
}
