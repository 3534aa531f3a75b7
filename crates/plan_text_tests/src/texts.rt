//! That the text of a plan is made with ample memory. proofs/NodeTextExamples.antt and ExprTextExamples.antt have worked texts.

use dfx_value::{JoinKind, Op, Text};
use physical_plan::Plan;
use plan_text::plan_text;
use scalar_exprs::Expr;
use sqlite_items::{Boxed, Items};
use std::alloc::Global;
use std::test::Fail;

fn scan(alloc: Global, table: u32) -> Result<Boxed<Plan>, Fail> {
    Ok(Boxed::new(
        alloc,
        Plan::Scan {
            table,
            kinds: Items::new(alloc),
            files: 1,
            partitions: 1,
        },
    )?)
}

/// The first column is less than the second.
fn less(alloc: Global) -> Result<Expr, Fail> {
    let left = Boxed::new(alloc, Expr::Column(0))?;
    let right = Boxed::new(alloc, Expr::Column(1))?;
    Ok(Expr::Binary(Op::Lt, left, right))
}

/// A join of two scans by a pair of columns, with a rest.
fn joined(alloc: Global) -> Result<Plan, Fail> {
    Ok(Plan::HashJoin {
        kind: JoinKind::Left,
        left: scan(alloc, 0)?,
        right: scan(alloc, 1)?,
        keys: Items::from_slice(alloc, &[(0, 1)])?,
        rest: Some(less(alloc)?),
    })
}

#[test]
fn a_join(rt: HostRuntime) -> Result<(), Fail> {
    let alloc = rt.alloc();
    let mut tables = Vec::new(alloc);
    tables.push(Text::from_string(String::from_str(alloc, "t")?))?;
    tables.push(Text::from_string(String::from_str(alloc, "Orders 2")?))?;
    let found = plan_text(alloc, &joined(alloc)?, &tables)?;
    let want = "\
HashJoin LEFT keys=[#0=#1] rest=(#0 < #1)
  Scan t partitions=1 files=1
  Scan Orders 2 partitions=1 files=1
";
    assert_eq!(rt; std::str::from_utf8(found.as_slice()), Ok(want));
    Ok(())
}
