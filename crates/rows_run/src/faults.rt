//! How the faults of a trace print. No status carries them.

use std::test::Fail;
use trace_text::OutFault;

#[test]
fn each_fault_prints_as_its_line(rt: HostRuntime) -> Result<(), Fail> {
    let printed = format!(in rt.alloc(); "{}, {}", OutFault::Failed, OutFault::Memory)?;
    assert!(rt; printed.as_str() == "write fault, out of memory");
    Ok(())
}
