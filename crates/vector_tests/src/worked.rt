//! The rows (6, 2) and (6, 0), worked by hand.

ghost use Rattle.std.specs.Prelude.{◌≡◌, ◌∷◌, [], true, Some, IfOk};
ghost use Rattle.dfx_value.specs.Kinds.{are_of};
ghost use Rattle.scalar_exprs.specs.Kinds.{constants_fit, kind_of};
ghost use Rattle.dfx_value.specs.declared.kind.Kind.TheVariants as kind;

use crate::rows::{binary, case, int, number};
use column_batch::{Batch, Builder, Cell};
use dfx_value::{EvalFault, Kind, Row, Value};
use scalar_exprs::{Expr, Op};
use scalar_vector::{eval_batch, eval_column};
use std::alloc::Global;
use std::test::Fail;

fn pair(alloc: Global, left: i64, right: i64) -> Result<Row, Fail>
    ensures { IfOk result (λ row. are_of (kind.Int ∷ kind.Int ∷ []) row ≡ true) }
{
    let cells = vec![in alloc; int(left), int(right)]?;
    Ok(Row { cells })
}

fn two(alloc: Global) -> Result<Batch, Fail>
    ensures { IfOk result (λ batch. batch.kinds ≡ kind.Int ∷ kind.Int ∷ []) }
{
    let mut builder = Builder::new(alloc, &[Kind::Int, Kind::Int])?;
    builder.push(pair(alloc, 6, 2)?)?;
    builder.push(pair(alloc, 6, 0)?)?;
    Ok(builder.finish(alloc)?)
}

fn ratio(alloc: Global) -> Result<Expr, Fail> {
    binary(alloc, Op::Div, Expr::Column(0), Expr::Column(1))
}

#[test]
fn a_ratio_where_the_divisor_is_not_zero(rt: HostRuntime) -> Result<(), Fail> {
    let alloc = rt.alloc();
    let batch = two(alloc)?;
    let test = binary(alloc, Op::Ne, Expr::Column(1), number(0))?;
    let null = Expr::Const(Value::Null, Kind::Int);
    let expr = case(alloc, test, ratio(alloc)?, null)?;
    let part = eval_batch(alloc, &expr, &[Kind::Int, Kind::Int], &batch)?;
    assert_eq!(rt; part.vector.len(), 2);
    assert!(rt; part.fault.is_none());
    if part.vector.len() == 2 {
        assert!(rt; matches!(part.vector.get(0), Cell::Int(3)));
        assert!(rt; matches!(part.vector.get(1), Cell::Null));
    }
    Ok(())
}

#[test]
fn a_ratio_up_to_the_zero(rt: HostRuntime) -> Result<(), Fail> {
    let alloc = rt.alloc();
    let batch = two(alloc)?;
    let expr = ratio(alloc)?;
    let part = eval_batch(alloc, &expr, &[Kind::Int, Kind::Int], &batch)?;
    assert_eq!(rt; part.vector.len(), 1);
    assert!(rt; matches!(part.fault, Some(EvalFault::DivideByZero)));
    if part.vector.len() == 1 {
        assert!(rt; matches!(part.vector.get(0), Cell::Int(3)));
    }
    Ok(())
}

#[tactic(auto, using(crate::proofs::SumKinds::sum_kind, crate::proofs::SumKinds::sum_fits))]
fn sum(alloc: Global) -> Result<Expr, Fail>
    ensures kind { IfOk result (λ e. kind_of (kind.Int ∷ kind.Int ∷ []) e ≡ Some kind.Int) }
    ensures constants { IfOk result (λ e. constants_fit e ≡ true) }
{
    binary(alloc, Op::Add, Expr::Column(0), Expr::Column(1))
}

#[test]
fn a_column_of_a_sum(rt: HostRuntime) -> Result<(), Fail> {
    let alloc = rt.alloc();
    let batch = two(alloc)?;
    let kinds = [Kind::Int, Kind::Int];
    let expr = sum(alloc)?;
    let sums = eval_column(alloc, &expr, Kind::Int, &kinds, &batch)?;
    assert!(rt; sums.fault.is_none());
    assert!(rt; matches!(sums.column.kind(), Kind::Int));
    assert!(rt; sums.column.len() == 2);
    assert!(rt; matches!(sums.column.cell(0), Cell::Int(8)));
    assert!(rt; matches!(sums.column.cell(1), Cell::Int(6)));
    Ok(())
}
