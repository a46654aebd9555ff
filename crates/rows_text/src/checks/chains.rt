//! Chains of controllers, and the loops among them.

use crate::pages::Teller;
use chain_order::first_loop;
use cm_document::Description;
use desc_text::read_description;
use std::alloc::Global;
use std::test::Fail;

/// Tells the first controller of a loop, by its place; or that there is none.
#[derive(Clone, Copy)]
pub(crate) struct Loops;

impl Teller for Loops {
    fn told(&self, alloc: Global, text: &str) -> Result<String, Fail> {
        match loop_of(alloc, text)? {
            Some(place) => Ok(format!(in alloc; "{place}")?),
            None => Ok(String::from_str(alloc, "no loop")?),
        }
    }
}

/// The place of the first controller of a loop, if there is one.
fn loop_of(alloc: Global, text: &str) -> Result<Option<u32>, Fail> {
    let description = read_description(alloc, text.as_bytes())?;
    let found = loop_in(alloc, &description);
    drop(description);
    found
}

fn loop_in(alloc: Global, description: &Description) -> Result<Option<u32>, Fail> {
    if description.controllers.as_slice().len() > 64 {
        return Err(Fail::new("too many controllers"));
    }
    Ok(first_loop(alloc, description)?)
}

/// No controllers; a chain of five on a joint; one that claims its own reference; two that claim each other's; a loop
/// of three behind one that leads into it; a pid beneath a trajectory; a pid and a passthrough that claim each
/// other's reference behind one that claims neither; and two that claim one interface of a component, with one that
/// claims a reference which it does not export. Then rows of as many controllers as there may be, each of which
/// claims three references of the next.
pub(crate) const CHAINS: &str = r#"=> no loop

[[controller]]
name = "a"
type = "passthrough"
claims = ["b/j1/position"]
[[controller]]
name = "b"
type = "passthrough"
claims = ["c/j1/position"]
[[controller]]
name = "c"
type = "passthrough"
claims = ["d/j1/position"]
[[controller]]
name = "d"
type = "passthrough"
claims = ["e/j1/position"]
[[controller]]
name = "e"
type = "passthrough"
claims = ["j1/position"]
=> no loop

[[controller]]
name = "p"
type = "passthrough"
claims = ["p/j1/position"]
=> 0

[[controller]]
name = "p"
type = "passthrough"
claims = ["q/j1/position"]
[[controller]]
name = "q"
type = "passthrough"
claims = ["p/j1/position"]
=> 0

[[controller]]
name = "a"
type = "passthrough"
claims = ["b/j1/position"]
[[controller]]
name = "b"
type = "passthrough"
claims = ["c/j1/position"]
[[controller]]
name = "c"
type = "passthrough"
claims = ["d/j1/position"]
[[controller]]
name = "d"
type = "passthrough"
claims = ["b/j1/position"]
=> 1

[[controller]]
name = "tr"
type = "trajectory"
claims = ["pid/j1/position"]
reads = ["j1/position"]
[[controller]]
name = "pid"
type = "pid"
claims = ["j1/effort"]
reads = ["j1/position"]
=> no loop

[[controller]]
name = "f"
type = "forward"
claims = ["j1/velocity"]
[[controller]]
name = "pid"
type = "pid"
claims = ["p/j1/position"]
reads = ["j1/position"]
[[controller]]
name = "p"
type = "passthrough"
claims = ["pid/j1/position"]
=> 1

[[controller]]
name = "p"
type = "passthrough"
claims = ["j1/position"]
[[controller]]
name = "q"
type = "passthrough"
claims = ["j1/position"]
[[controller]]
name = "f"
type = "forward"
claims = ["f/j1/position"]
=> no loop

<0..63 * [[controller]]
name = "c#"
type = "passthrough"
claims = ["c#'/j1/position", "c#'/j1/velocity", "c#'/j1/effort"]
>[[controller]]
name = "c63"
type = "passthrough"
claims = ["j1/position"]
=> no loop

<0..63 * [[controller]]
name = "c#"
type = "passthrough"
claims = ["c#'/j1/position", "c#'/j1/velocity", "c#'/j1/effort"]
>[[controller]]
name = "c63"
type = "passthrough"
claims = ["c0/j1/position"]
=> 0

<0..63 * [[controller]]
name = "c#"
type = "passthrough"
claims = ["c#'/j1/position", "c#'/j1/velocity", "c#'/j1/effort"]
>[[controller]]
name = "c63"
type = "passthrough"
claims = ["c62/j1/position"]
=> 62

<0..63 * [[controller]]
name = "c#"
type = "passthrough"
claims = ["c#'/j1/position", "c#'/j1/velocity", "c#'/j1/effort"]
>[[controller]]
name = "c63"
type = "passthrough"
claims = ["c63/j1/position"]
=> 63"#;
