// Which instructions are in order, and how deep their stacks are.
use crate::first::{FirstOp, deepest_stack, is_well_formed};
use std::test::Fail;

#[test]
fn two_and_three_are_added(rt: HostRuntime) -> Result<(), Fail> {
    let sum = [
        FirstOp::Push(2),
        FirstOp::Push(3),
        FirstOp::Add,
        FirstOp::Print,
        FirstOp::Ret,
    ];
    assert!(rt; is_well_formed(sum.as_slice()));
    assert_eq!(rt; deepest_stack(sum.as_slice()), 2);
    Ok(())
}

#[test]
fn a_ret_stands_last_at_the_empty_stack(rt: HostRuntime) -> Result<(), Fail> {
    assert!(rt; !is_well_formed(&[FirstOp::Push(2), FirstOp::Ret]));
    assert!(rt; !is_well_formed(&[FirstOp::Push(2), FirstOp::Add, FirstOp::Ret]));
    assert!(rt; !is_well_formed(&[FirstOp::Ret, FirstOp::Ret]));
    assert!(rt; !is_well_formed(&[]));
    Ok(())
}
