//! Names and interfaces: which texts are some, and how they print.

use iface_names::{IfaceName, Name};
use pages_cases::pages::{Teller, hold_lines, joined};
use pages_cases::words::between_bars;
use std::alloc::Global;
use std::fmt::Display;
use std::test::Fail;

/// Tells the name that a text between bars is, or why it is none.
#[derive(Clone, Copy)]
struct Names;

impl Teller for Names {
    fn told(&self, alloc: Global, row: &str) -> Result<String, Fail> {
        match Name::read(alloc, between_bars(row).as_bytes()) {
            Ok(name) => printed(alloc, &name),
            Err(fault) => printed(alloc, &fault),
        }
    }
}

fn printed<T: Display>(alloc: Global, shown: &T) -> Result<String, Fail> {
    Ok(format!(in alloc; "{shown}")?)
}

/// Tells the parts of the interface that a text between bars is, or why it is none, and whether it prints as that text.
#[derive(Clone, Copy)]
struct Interfaces;

impl Teller for Interfaces {
    fn told(&self, alloc: Global, row: &str) -> Result<String, Fail> {
        let text = between_bars(row);
        match IfaceName::read(alloc, text.as_bytes()) {
            Ok(interface) => shown(alloc, text, &interface),
            Err(fault) => printed(alloc, &fault),
        }
    }
}

fn shown(alloc: Global, text: &str, interface: &IfaceName) -> Result<String, Fail> {
    let printed = printed(alloc, interface)?;
    if printed.as_str() != text || interface.clone()? != *interface {
        return joined(alloc, "prints as ", printed.as_str());
    }
    parts(alloc, interface)
}

fn parts(alloc: Global, interface: &IfaceName) -> Result<String, Fail> {
    match interface {
        IfaceName::Joint { joint, kind } => Ok(format!(in alloc; "{kind} of {joint}")?),
        IfaceName::Reference {
            controller,
            joint,
            kind,
        } => Ok(format!(in alloc; "{kind} of {joint} at {controller}")?),
    }
}

#[test]
fn names_and_interfaces(rt: HostRuntime) -> Result<(), Fail> {
    let alloc = rt.alloc();
    hold_lines(alloc, &Names, "", NAMES)?;
    hold_lines(alloc, &Interfaces, "", INTERFACES)?;
    hold_lines(alloc, &Interfaces, "", NONE)
}

/// A letter, and then letters, digits and `_`, 64 bytes at most.
const NAMES: &str = "\
|a| => a
|z| => z
|A| => A
|Z| => Z
|aB| => aB
|a0| => a0
|a9| => a9
|a_| => a_
|Z_9| => Z_9
|(0..64 * a)| => (0..64 * a)
|(0..65 * a)| => not a name
|| => not a name
|_a| => not a name
|0a| => not a name
|9a| => not a name
|@a| => not a name
|[a| => not a name
|`a| => not a name
|{a| => not a name
|a/| => not a name
|a:| => not a name
|a-b| => not a name
|a b| => not a name
|é| => not a name";

const INTERFACES: &str = "\
|j1/position| => position of j1
|Elbow_2/velocity| => velocity of Elbow_2
|position/effort| => effort of position
|pid/j1/position| => position of j1 at pid
|j1/j1/velocity| => velocity of j1 at j1
|a/b/effort| => effort of b at a";

const NONE: &str = "\
|| => not a name
|/| => not a name
|//| => not a name
|j1| => not a name
|position| => not a name
|j1/| => not a name
|/position| => not a name
|j1/torque| => not a name
|j1/Position| => not a name
|j1/position | => not a name
|1j/position| => not a name
|j-1/position| => not a name
|position/j1| => not a name
|j1/position/| => not a name
|/j1/position| => not a name
|pid//position| => not a name
|pid/j1/| => not a name
|pid/j1/torque| => not a name
|p-d/j1/position| => not a name
|pid/1/position| => not a name
|pid/position/j1| => not a name
|a/b/c/position| => not a name
|a/b/position/| => not a name
|///| => not a name";
