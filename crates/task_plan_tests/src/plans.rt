//! That tasks are made with ample memory, over every node of which they are made, and that other nodes are refused.

use dfx_value::{Kind, Value};
use physical_plan::Plan;
use plan_props::Partitioning;
use scalar_exprs::Expr;
use sqlite_items::{Boxed, Items};
use std::alloc::Global;
use std::test::Fail;
use task_plans::{PlanRefused, StationPlan, TaskPlan, is_built, task_plans};

/// Five files in two partitions.
fn scan(alloc: Global) -> Result<Plan, Fail> {
    Ok(Plan::Scan {
        table: 0,
        kinds: Items::from_slice(alloc, &[Kind::Int])?,
        files: 5,
        partitions: 2,
    })
}

/// Its rows in three partitions, filtered.
fn filtered(alloc: Global) -> Result<Plan, Fail> {
    let dealt = Plan::Repartition {
        input: Boxed::new(alloc, scan(alloc)?)?,
        to: Partitioning::RoundRobin(3),
    };
    Ok(Plan::Filter {
        input: Boxed::new(alloc, dealt)?,
        test: Expr::Const(Value::Bool(true), Kind::Bool),
    })
}

/// These and a column of the table, in one partition.
fn gathered(alloc: Global) -> Result<Plan, Fail> {
    let mut items = Items::new(alloc);
    items.push(Expr::Column(0))?;
    let projected = Plan::Project {
        input: Boxed::new(alloc, scan(alloc)?)?,
        items,
    };
    let mut inputs = Items::new(alloc);
    inputs.push(filtered(alloc)?)?;
    inputs.push(projected)?;
    Ok(Plan::Coalesce {
        input: Boxed::new(alloc, Plan::UnionAll { inputs })?,
    })
}

/// How many files the first station of a task reads, where it is a scan.
fn files_of(task: &TaskPlan) -> usize {
    match task.stations.get(0) {
        Some(StationPlan::Scan(_, files)) => files.len(),
        _ => 0,
    }
}

/// How many stations the tasks of such a plan have, from the root's on, and how many files the last one reads.
fn counts(alloc: Global) -> Result<(Vec<usize>, usize), Fail> {
    let tasks = task_plans(alloc, &gathered(alloc)?)?;
    let mut counts = Vec::new(alloc);
    let mut files = 0;
    for task in tasks.as_slice() {
        counts.push(task.stations.len())?;
        files = files_of(task);
    }
    Ok((counts, files))
}

#[test]
fn tasks(rt: HostRuntime) -> Result<(), Fail> {
    let (stations, files) = counts(rt.alloc())?;
    // The root; three filters over channels and two projections over scans; two scans.
    assert_eq!(rt; stations.as_slice(), [1, 2, 2, 2, 2, 2, 1, 1].as_slice());
    assert_eq!(rt; files, 2);
    Ok(())
}

#[test]
fn refused(rt: HostRuntime) -> Result<(), Fail> {
    let limited = Plan::Limit {
        input: Boxed::new(rt.alloc(), scan(rt.alloc())?)?,
        skip: 0,
        fetch: Some(1),
    };
    assert!(rt; !is_built(&limited));
    let answer = task_plans(rt.alloc(), &limited);
    assert!(rt; matches!(answer, Err(PlanRefused::NotBuilt)));
    Ok(())
}
