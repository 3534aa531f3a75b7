//! That plans are copied, described and laid out with ample memory. proofs/DeclaredExamples.antt and proofs/ShapeExamples.antt have
//! worked examples of what comes out.
use crate::needs::ascending;
use dfx_value::{AggCall, Kind};
use physical_plan::{
    Plan, copy_exprs, copy_plan, copy_rest, left_keys, partitions, props, right_keys,
};
use plan_props::Partitioning;
use plan_shape::{shape, stages};
use scalar_exprs::Expr;
use sqlite_items::{Boxed, Items};
use std::alloc::Global;
use std::test::Fail;

fn scan(alloc: Global) -> Result<Plan, Fail> {
    Ok(Plan::Scan {
        table: 0,
        kinds: Items::from_slice(alloc, &[Kind::Int, Kind::Text])?,
        files: 1,
        partitions: 1,
    })
}

fn first_phase(alloc: Global) -> Result<Plan, Fail> {
    let dealt = Plan::Repartition {
        input: Boxed::new(alloc, scan(alloc)?)?,
        to: Partitioning::RoundRobin(2),
    };
    Ok(Plan::PartialGroup {
        input: Boxed::new(alloc, dealt)?,
        keys: Items::from_slice(alloc, &[0])?,
        calls: Items::from_slice(alloc, &[AggCall::CountAll])?,
    })
}

/// Groups of one file, in two partitions.
fn second_phase(alloc: Global) -> Result<Plan, Fail> {
    let hashed = Plan::Repartition {
        input: Boxed::new(alloc, first_phase(alloc)?)?,
        to: Partitioning::Hash(Items::from_slice(alloc, &[0])?, 2),
    };
    Ok(Plan::FinalGroup {
        input: Boxed::new(alloc, hashed)?,
        keys: Items::from_slice(alloc, &[0])?,
        calls: Items::from_slice(alloc, &[AggCall::CountAll])?,
    })
}

/// These in order.
fn grouping(alloc: Global) -> Result<Plan, Fail> {
    let sorted = Plan::Sort {
        input: Boxed::new(alloc, second_phase(alloc)?)?,
        keys: Items::from_slice(alloc, &[ascending(0)])?,
    };
    Ok(Plan::Merge {
        input: Boxed::new(alloc, sorted)?,
        keys: Items::from_slice(alloc, &[ascending(0)])?,
    })
}

fn copied(alloc: Global) -> Result<Plan, Fail> {
    Ok(copy_plan(alloc, &grouping(alloc)?)?)
}

/// How many tasks, stages' tasks and keys of the order a plan has.
fn counts(alloc: Global, plan: &Plan) -> Result<(usize, usize, usize), Fail> {
    let tasks = shape(alloc, plan)?.tasks().len();
    let places = stages(alloc, plan)?.len();
    Ok((tasks, places, props(alloc, plan)?.ordering.len()))
}

#[test]
fn plans(rt: HostRuntime) -> Result<(), Fail> {
    let plan = copied(rt.alloc())?;
    assert_eq!(rt; partitions(&plan), 1);
    let (tasks, places, keys) = counts(rt.alloc(), &plan)?;
    assert_eq!(rt; (tasks, places, keys), (6, 6, 1));
    Ok(())
}

#[test]
fn parts(rt: HostRuntime) -> Result<(), Fail> {
    let alloc = rt.alloc();
    let keys = [(0, 3), (1, 2)];
    assert_eq!(rt; left_keys(alloc, &keys)?.len(), 2);
    assert_eq!(rt; right_keys(alloc, &keys)?.len(), 2);
    assert_eq!(rt; copy_exprs(alloc, &[Expr::Column(7)])?.len(), 1);
    assert!(rt; copy_rest(alloc, &Some(Expr::Column(8)))?.is_some());
    Ok(())
}
