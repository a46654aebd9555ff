//! The largest description, for tests of calls that take one; and how long answers are compared, by how many bytes they
//! have and by their checksum Adler-32.

use crate::pages::Teller;
use std::alloc::{AllocError, Global};
use std::test::Fail;

/// All limits of the checks at once: 16 components of two joints each, with every kind of command and state; and 64
/// controllers, which export 96 references, claim 192 interfaces and read 256, and of which each has 8 fallbacks.
pub const AT_ALL_LIMITS: &str = r#"version = 1
update_rate = 10000
cycles = 100000
<0..16 * [[component]]
name = "c#"
kind = "system"
[[component.joint]]
name = "l#"
vmax = 1
command = ["position", "velocity", "effort"]
state = ["position", "velocity", "effort"]
[[component.joint]]
name = "r#"
vmax = 1
command = ["position", "velocity", "effort"]
state = ["position", "velocity", "effort"]
>\
<0..3 * [[controller]]
name = "p#"
type = "passthrough"
fallback = [(0..8 * "b#", )]
claims = [(0..16 * "l#/position", "r#/position", )]
[[controller]]
name = "f#"
type = "forward"
fallback = [(0..8 * "b#", )]
claims = [(0..16 * "l#/position", "r#/position", )]
>\
<0..8 * [[controller]]
name = "b#"
type = "broadcaster"
fallback = [(0..8 * "m#", )]
reads = [(0..16 * "l#/position", "r#/position", )]
>\
<0..50 * [[controller]]
name = "m#"
type = "mock"
fallback = [(0..8 * "b#", )]
>\
"#;

/// How many bytes these are, and their checksum Adler-32.
pub fn count_and_checksum(alloc: Global, bytes: &[u8]) -> Result<String, AllocError> {
    let (mut sum, mut sums) = (1u64, 0u64);
    for byte in bytes {
        sum = sum.wrapping_add(u64::from(*byte)) % 65_521;
        sums = sums.wrapping_add(sum) % 65_521;
    }
    format!(in alloc; "{} {sums:04x}{sum:04x}", bytes.len())
}

/// Tells how long a text is, and how long that is which another tells of it, with its checksum.
#[derive(Clone, Copy)]
pub struct Summed<T> {
    pub teller: T,
}

impl<T: Teller> Teller for Summed<T> {
    fn told(&self, alloc: Global, text: &str) -> Result<String, Fail> {
        let told = self.teller.told(alloc, text)?;
        let sum = count_and_checksum(alloc, told.as_bytes())?;
        Ok(format!(in alloc; "{} bytes: {sum}", text.len())?)
    }
}
