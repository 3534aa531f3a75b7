//! Operators, fed by hand.

use crate::rows::{binary, given, kinds, number, three};
use dfx_value::EvalFault;
use op_basic::{FilterOp, LimitOp, PassOp};
use operator_poll::{OpRefused, Operator, Queue};
use scalar_exprs::{Expr, Op};
use std::test::Fail;

#[test]
fn a_filter_gives_what_its_test_keeps(rt: HostRuntime) -> Result<(), Fail> {
    let alloc = rt.alloc();
    let test = binary(alloc, Op::Ne, Expr::Column(0), number(2))?;
    let mut filter = FilterOp::new(alloc, test, kinds(alloc)?);
    assert_eq!(rt; filter.wants(), Some(0));
    filter.accept(alloc, 0, three(alloc, [1, 2, 3])?)?;
    assert_eq!(rt; filter.wants(), None);
    assert_eq!(rt;
        given(alloc, filter.give(alloc, 1))?.as_slice(),
        [1].as_slice()
    );
    assert_eq!(rt;
        given(alloc, filter.give(alloc, 8))?.as_slice(),
        [3].as_slice()
    );
    assert!(rt; matches!(filter.give(alloc, 8), Ok(None)));
    filter.end(alloc, 0)?;
    assert!(rt; filter.complete());
    Ok(())
}

/// 100 divided by a number is above 20 for 2, and has no value for 0.
#[test]
fn a_fault_behind_a_row(rt: HostRuntime) -> Result<(), Fail> {
    let alloc = rt.alloc();
    let quotient = binary(alloc, Op::Div, number(100), Expr::Column(0))?;
    let test = binary(alloc, Op::Gt, quotient, number(20))?;
    let mut filter = FilterOp::new(alloc, test, kinds(alloc)?);
    filter.accept(alloc, 0, three(alloc, [2, 0, 4])?)?;
    assert_eq!(rt;
        given(alloc, filter.give(alloc, 1))?.as_slice(),
        [2].as_slice()
    );
    let refused = filter.give(alloc, 1);
    assert!(rt; matches!(refused, Err(OpRefused::Fault(EvalFault::DivideByZero))));
    Ok(())
}

/// The cut of the next two items has the fault.
#[test]
fn a_fault_in_the_cut(rt: HostRuntime) -> Result<(), Fail> {
    let alloc = rt.alloc();
    let quotient = binary(alloc, Op::Div, number(100), Expr::Column(0))?;
    let test = binary(alloc, Op::Gt, quotient, number(20))?;
    let mut filter = FilterOp::new(alloc, test, kinds(alloc)?);
    filter.accept(alloc, 0, three(alloc, [2, 0, 4])?)?;
    let refused = filter.give(alloc, 2);
    assert!(rt; matches!(refused, Err(OpRefused::Fault(EvalFault::DivideByZero))));
    Ok(())
}

#[test]
fn a_limit_over_two_batches(rt: HostRuntime) -> Result<(), Fail> {
    let alloc = rt.alloc();
    let mut limit = LimitOp::new(alloc, 1, Some(3), kinds(alloc)?);
    limit.accept(alloc, 0, three(alloc, [1, 2, 3])?)?;
    assert!(rt; !limit.complete());
    assert_eq!(rt;
        given(alloc, limit.give(alloc, 8))?.as_slice(),
        [2, 3].as_slice()
    );
    assert_eq!(rt; limit.wants(), Some(0));
    limit.accept(alloc, 0, three(alloc, [4, 5, 6])?)?;
    assert!(rt; limit.complete());
    assert_eq!(rt;
        given(alloc, limit.give(alloc, 8))?.as_slice(),
        [4].as_slice()
    );
    assert_eq!(rt; limit.wants(), None);
    assert!(rt; matches!(limit.give(alloc, 8), Ok(None)));
    Ok(())
}

#[test]
fn a_pass_gives_what_it_takes(rt: HostRuntime) -> Result<(), Fail> {
    let alloc = rt.alloc();
    let mut pass = PassOp::new(alloc, kinds(alloc)?);
    pass.accept(alloc, 0, three(alloc, [1, 2, 3])?)?;
    assert_eq!(rt;
        given(alloc, pass.give(alloc, 2))?.as_slice(),
        [1, 2].as_slice()
    );
    assert_eq!(rt;
        given(alloc, pass.give(alloc, 2))?.as_slice(),
        [3].as_slice()
    );
    assert!(rt; matches!(pass.give(alloc, 2), Ok(None)));
    Ok(())
}

#[test]
fn a_cut_of_two_batches(rt: HostRuntime) -> Result<(), Fail> {
    let alloc = rt.alloc();
    let mut queue = Queue::new(alloc, kinds(alloc)?);
    queue.push(three(alloc, [1, 2, 3])?)?;
    queue.push(three(alloc, [4, 5, 6])?)?;
    queue.fail(Some(EvalFault::Overflow));
    assert_eq!(rt;
        given(alloc, queue.give(alloc, 4))?.as_slice(),
        [1, 2, 3, 4].as_slice()
    );
    assert_eq!(rt;
        given(alloc, queue.give(alloc, 2))?.as_slice(),
        [5, 6].as_slice()
    );
    assert!(rt;
        matches!(
            queue.give(alloc, 2),
            Err(OpRefused::Fault(EvalFault::Overflow))
        )
    );
    Ok(())
}
