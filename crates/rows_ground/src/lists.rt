//! A list: it grows at its end, and a clone of it is its own.

use sequence::Seq;
use std::test::Fail;

#[test]
fn grows(rt: HostRuntime) -> Result<(), Fail> {
    let mut list = Seq::new(rt.alloc());
    assert!(rt; list.as_slice().is_empty());
    list.push(7u32)?;
    list.push(9u32)?;
    assert!(rt; list.as_slice() == [7, 9].as_slice());
    assert!(rt; list.into_vec().as_slice() == [7, 9].as_slice());
    Ok(())
}

#[test]
fn is_cloned(rt: HostRuntime) -> Result<(), Fail> {
    let mut list = Seq::new(rt.alloc());
    list.push(7u32)?;
    let same = list.clone()?;
    assert!(rt; same == list);
    list.push(7u32)?;
    assert!(rt; same != list);
    Ok(())
}
