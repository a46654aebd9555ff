//! How the faults of the edge print.

use outside_io::{Failed, ReadFault};
use std::test::Fail;

#[test]
fn each_fault_prints_as_its_line(rt: HostRuntime) -> Result<(), Fail> {
    let printed = format!(in rt.alloc();
        "{}, {}, {}, {}",
        Failed,
        ReadFault::Failed,
        ReadFault::TooLong,
        ReadFault::Memory
    )?;
    assert!(rt; printed.as_str() == PRINTED);
    Ok(())
}

const PRINTED: &str =
    "the read or write failed, a read failed, there are too many bytes, out of memory";
