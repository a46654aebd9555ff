//! Made documents: small ones whole, the largest one by its first and last lines, its length and its checksum, and what
//! is read of them.

use crate::scripts::CountsOfScript;
use make_document::make_document;
use pages_calls::described::checked_description;
use pages_cases::largest::Summed;
use pages_cases::pages::{Teller, halves, hold, hold_lines, joined};
use std::alloc::Global;
use std::str;
use std::test::Fail;

#[test]
fn made_documents_are_as_written(rt: HostRuntime) -> Result<(), Fail> {
    let alloc = rt.alloc();
    hold(alloc, &Makes, "", SMALL)?;
    hold(alloc, &Ends, "", ENDS)?;
    hold_lines(alloc, &Summed { teller: Makes }, "", LARGEST)
}

#[test]
fn made_documents_are_read(rt: HostRuntime) -> Result<(), Fail> {
    hold_lines(rt.alloc(), &Reads, "", SIZES)
}

/// Tells the made document of as many rounds as a text says.
#[derive(Clone, Copy)]
struct Makes;

impl Teller for Makes {
    fn told(&self, alloc: Global, text: &str) -> Result<String, Fail> {
        let rounds = text.trim().parse()?;
        let bytes = make_document(alloc, rounds)?;
        without_end(alloc, bytes.as_slice())
    }
}

/// A text without the end of its last line.
fn without_end(alloc: Global, bytes: &[u8]) -> Result<String, Fail> {
    let text = str::from_utf8(bytes)?;
    Ok(String::from_str(alloc, text.strip_suffix("\n").unwrap_or(text))?)
}

/// Tells its lines before the component, and those behind the 999th round.
#[derive(Clone, Copy)]
struct Ends;

impl Teller for Ends {
    fn told(&self, alloc: Global, text: &str) -> Result<String, Fail> {
        let made = Makes.told(alloc, text)?;
        ends_of(alloc, made.as_str())
    }
}

fn ends_of(alloc: Global, made: &str) -> Result<String, Fail> {
    let (first, _) = halves(made, "[[component]]\n")?;
    let (_, last) = halves(made, "await 9990\n")?;
    joined(alloc, first, last)
}

/// Tells that its description is valid, and how many sessions and calls are read of its script.
#[derive(Clone, Copy)]
struct Reads;

impl Teller for Reads {
    fn told(&self, alloc: Global, text: &str) -> Result<String, Fail> {
        let made = Makes.told(alloc, text)?;
        read_in_words(alloc, made.as_str())
    }
}

fn read_in_words(alloc: Global, made: &str) -> Result<String, Fail> {
    let (description, script) = halves(made, "--- script ---\n")?;
    hold_valid(alloc, description)?;
    let counted = CountsOfScript.told(alloc, script)?;
    joined(alloc, "valid, ", counted.as_str())
}

/// Fails where a description is not read or not valid.
fn hold_valid(alloc: Global, description: &str) -> Result<(), Fail> {
    drop(checked_description(alloc, description)?);
    Ok(())
}

/// One round, and two.
const SMALL: &str = r#"1
=> version = 1
update_rate = 100
cycles = 10
[[component]]
name = "sys"
kind = "system"
<0..8 * [[component.joint]]
name = "j#"
vmax = 1
command = ["position"]
state = ["position"]
>\
<0..8 * [[controller]]
name = "f#"
type = "forward"
claims = ["j#/position"]
>\
--- script ---
session a
<0..8 * load f#
>\
<0..8 * configure f#
>\
switch strict +f0 +f1 +f2 +f3 +f4 +f5 +f6 +f7
send f1 0.37
switch strict -f2
switch strict +f2
await 10

2
=> version = 1
update_rate = 100
cycles = 20
[[component]]
name = "sys"
kind = "system"
<0..8 * [[component.joint]]
name = "j#"
vmax = 1
command = ["position"]
state = ["position"]
>\
<0..8 * [[controller]]
name = "f#"
type = "forward"
claims = ["j#/position"]
>\
--- script ---
session a
load f0
load f1
load f2
load f3
load f4
load f5
load f6
load f7
configure f0
configure f1
configure f2
configure f3
configure f4
configure f5
configure f6
configure f7
switch strict +f0 +f1 +f2 +f3 +f4 +f5 +f6 +f7
send f1 0.37
switch strict -f2
switch strict +f2
await 10
send f2 0.74
switch strict -f3
switch strict +f3
await 20"#;

/// The ends of the largest: 1,000 leaves nothing by 8, and 37 times 1,000 nothing by 100.
const ENDS: &str = r"1000
=> version = 1
update_rate = 100
cycles = 10000
send f0 0.00
switch strict -f1
switch strict +f1
await 10000";

/// The largest that may be asked for, without the end of its last line: 1,559 bytes before the rounds, 56 a round, and
/// the digits of what each awaits, 2 of nine rounds, 3 of 90, 4 of 900 and 5 of the last.
const LARGEST: &str = "1000 => 5 bytes: 61451 a67f836b";

/// What is read, and of how many sessions and calls.
const SIZES: &str = r"0 => valid, 1 and 17
1 => valid, 1 and 21
1000 => valid, 1 and 4017";
