//! A stack over the growth of its segments.
use super::*;
use std::test::Fail;

const PUSHES: u32 = 3000;

#[test]
fn items_stay_over_growth_and_come_back_last_first(rt: HostRuntime) -> Result<(), Fail> {
    let mut stack = SegStack::new(rt.alloc());
    assert_eq!(rt; stack.top(), None);
    stack.reserve()?;
    stack.push(7);
    assert_eq!(rt; stack.get(0), Some(&7));
    'fill: for number in 0..PUSHES {
        stack.reserve()?;
        stack.push(number);
    }
    assert_eq!(rt; stack.len(), 3001);
    assert_eq!(rt; stack.get(0), Some(&7));
    assert_eq!(rt; stack.get(1023), Some(&1022));
    assert_eq!(rt; stack.get(1024), Some(&1023));
    assert_eq!(rt; stack.get(3001), None);
    stack.cut(1025);
    assert_eq!(rt; stack.pop(), Some(1023));
    assert_eq!(rt; stack.pop(), Some(1022));
    assert_eq!(rt; stack.top(), Some(&1021));
    Ok(())
}
