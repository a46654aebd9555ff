//! A whole read and a whole write at the largest sizes. The bytes are compared by how many they are and by their
//! checksum Adler-32, which `scripts/largest_answers` makes without this program.

use outside_io::{MemSink, MemSource, read_whole, write_whole};
use pages_cases::largest::count_and_checksum;
use pages_cases::pages::hold_told;
use std::alloc::Global;
use std::test::Fail;

/// The longest document.
const LONGEST: usize = 1_048_576;

#[test]
fn the_largest_read(rt: HostRuntime) -> Result<(), Fail> {
    let alloc = rt.alloc();
    let read = read_back(alloc)?;
    hold_bytes(alloc, read.as_slice(), BYTES)
}

/// Many bytes, through a source.
fn read_back(alloc: Global) -> Result<Vec<u8>, Fail> {
    let mut source = MemSource::make(many_bytes(alloc)?, LONGEST, Vec::new(alloc));
    Ok(read_whole(alloc, &mut source, LONGEST)?)
}

fn many_bytes(alloc: Global) -> Result<Vec<u8>, Fail> {
    let mut bytes = Vec::new(alloc);
    for number in 0..LONGEST {
        bytes.push((number % 251) as u8)?;
    }
    Ok(bytes)
}

#[test]
fn the_largest_write(rt: HostRuntime) -> Result<(), Fail> {
    let alloc = rt.alloc();
    let mut sink = MemSink::make(alloc, 4 * LONGEST, 1000, Vec::new(alloc))?;
    for _ in 0..4096 {
        write_whole(&mut sink, &[b'x'; 1024])?;
    }
    hold_bytes(alloc, sink.bytes(), TAKEN)
}

/// Fails where these are other bytes than it is told.
fn hold_bytes(alloc: Global, bytes: &[u8], told: &str) -> Result<(), Fail> {
    let sum = count_and_checksum(alloc, bytes)?;
    hold_told(alloc, "the bytes", sum.as_str(), told)
}

/// What was read, and what was taken.
const BYTES: &str = "1048576 fac95782";

const TAKEN: &str = "4194304 d634c210";
