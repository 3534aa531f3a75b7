//! That joins are lowered with ample memory. proofs/LoweredExamples.antt has worked bodies.

use dfx_value::{JoinKind, Kind, Op};
use join_lowering::{Side, lower_join};
use logical_plan::Logical;
use scalar_exprs::Expr;
use sqlite_items::{Boxed, Items};
use std::alloc::Global;
use std::test::Fail;

/// A table of two whole numbers.
fn side(alloc: Global, table: u32) -> Result<Side, Fail> {
    let kinds = Items::from_slice(alloc, &[Kind::Int, Kind::Int])?;
    Ok(Side {
        body: Logical::Scan { table, kinds },
        width: 2,
    })
}

fn binary(alloc: Global, op: Op, left: Expr, right: Expr) -> Result<Expr, Fail> {
    let left = Boxed::new(alloc, left)?;
    Ok(Expr::Binary(op, left, Boxed::new(alloc, right)?))
}

/// The FULL join of two such tables on a test.
fn joined(alloc: Global, test: Expr) -> Result<Option<Logical>, Fail> {
    let left = side(alloc, 0)?;
    let right = side(alloc, 1)?;
    Ok(lower_join(alloc, JoinKind::Full, left, right, test)?)
}

#[test]
fn a_key_of_columns(rt: HostRuntime) -> Result<(), Fail> {
    let alloc = rt.alloc();
    let key = binary(alloc, Op::Eq, Expr::Column(0), Expr::Column(3))?;
    let rest = binary(alloc, Op::Lt, Expr::Column(1), Expr::Column(2))?;
    let body = joined(alloc, binary(alloc, Op::And, key, rest)?)?;
    assert!(rt;
        matches!(
            body,
            Some(Logical::Join {
                kind: JoinKind::Full,
                rest: Some(_),
                ..
            })
        ),
        "a join with a rest"
    );
    Ok(())
}

#[test]
fn a_key_that_is_appended(rt: HostRuntime) -> Result<(), Fail> {
    let alloc = rt.alloc();
    let sum = binary(alloc, Op::Add, Expr::Column(0), Expr::Column(1))?;
    let key = binary(alloc, Op::Eq, sum, Expr::Column(3))?;
    let rest = binary(alloc, Op::Lt, Expr::Column(1), Expr::Column(2))?;
    let body = joined(alloc, binary(alloc, Op::And, key, rest)?)?;
    assert!(rt;
        matches!(body, Some(Logical::Project { .. })),
        "a Project above"
    );
    Ok(())
}

#[test]
fn no_key(rt: HostRuntime) -> Result<(), Fail> {
    let test = binary(rt.alloc(), Op::Lt, Expr::Column(1), Expr::Column(2))?;
    assert!(rt; joined(rt.alloc(), test)?.is_none(), "none");
    Ok(())
}
