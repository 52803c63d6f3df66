//! One round trip through a list and a box.
use super::*;
use std::test::Fail;

#[test]
fn what_goes_in_comes_out(rt: HostRuntime) -> Result<(), Fail> {
    let list = List::of(vec![in rt.alloc(); 3u8, 4]?);
    assert_eq!(rt; list.items(), [3, 4].as_slice());
    assert_eq!(rt; list.into_vec().as_slice(), [3, 4].as_slice());
    let boxed = Boxed::new(rt.alloc(), 7u8)?;
    assert_eq!(rt; *boxed.get(), 7);
    assert_eq!(rt; boxed.into_inner(), 7);
    Ok(())
}
