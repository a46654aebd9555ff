//! Scripts as they print: the text of what was read.

use super::read_every_form;
use pages_cases::pages::{Teller, joined};
use script_text::print_script;
use std::alloc::Global;
use std::str;
use std::test::Fail;

/// Tells the text that a script prints, where every form is accepted.
#[derive(Clone, Copy)]
pub(crate) struct Prints;

impl Teller for Prints {
    fn told(&self, alloc: Global, text: &str) -> Result<String, Fail> {
        let printed = printed_of(alloc, text)?;
        without_end(alloc, printed.as_slice())
    }
}

/// What a script of this text prints.
fn printed_of(alloc: Global, text: &str) -> Result<Vec<u8>, Fail> {
    let script = read_every_form(alloc, text)??;
    let printed = print_script(alloc, &script);
    drop(script);
    Ok(printed?)
}

/// A text without the end of its last line.
fn without_end(alloc: Global, printed: &[u8]) -> Result<String, Fail> {
    let printed = str::from_utf8(printed)?;
    match printed.strip_suffix("\n") {
        Some(lines) => joined(alloc, lines, ""),
        None => joined(alloc, printed, ", without an end"),
    }
}

/// A load; calls of every form, of which most stand as they print, with a session that makes none and with turns; a
/// schedule without turns, which is left out; and nothing.
pub(crate) const PRINTED: &str = r"session a
load mk
=> session a
load mk

session a
load c
configure c
cleanup c
unload c
rate c 10000
switch strict +c -d +@e
switch best
hw arm inactive
await 007
list controllers
list interfaces
list components
session quiet
session b
send c 0.5 -0.000001
send c @20000 0.1 @999999999 -1000000000
schedule
step b
begin
step a
end
=> session a
load c
configure c
cleanup c
unload c
rate c 10000
switch strict -d +c +@e
switch best
hw arm inactive
await 7
list controllers
list interfaces
list components
session quiet
session b
send c 0.500000 -0.000001
send c @20000 0.100000 @999999999 -1000000000.000000
schedule
step b
begin
step a
end

session a
schedule
=> session a

# nothing
=> , without an end";
