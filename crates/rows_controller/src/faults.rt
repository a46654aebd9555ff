//! How the faults of controllers print. No status carries them.

use ctl_trait::CfgFault;
use std::test::Fail;

#[test]
fn each_fault_prints_as_its_line(rt: HostRuntime) -> Result<(), Fail> {
    let printed = format!(in rt.alloc(); "{}, {}", CfgFault::Refused, CfgFault::Memory)?;
    assert!(rt; printed.as_str() == "refused, out of memory");
    Ok(())
}
