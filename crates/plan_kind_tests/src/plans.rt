//! That kinds are answered with ample memory, over every node. proofs/KindExamples.antt has worked examples of what they are.

use dfx_value::{AggCall, JoinKind, Kind, SortKey, Value};
use physical_plan::Plan;
use plan_kinds::{KindsRefused, kinds_of, same_kinds};
use plan_props::Partitioning;
use scalar_exprs::Expr;
use sqlite_items::{Boxed, Items};
use std::alloc::Global;
use std::test::Fail;

const BY_FIRST: SortKey = SortKey {
    column: 0,
    descending: false,
    nulls_first: false,
};

/// A whole number and a text, in two partitions.
fn scan(alloc: Global) -> Result<Plan, Fail> {
    Ok(Plan::Scan {
        table: 0,
        kinds: Items::from_slice(alloc, &[Kind::Int, Kind::Text])?,
        files: 2,
        partitions: 2,
    })
}

/// COUNT(*), SUM, MIN and AVG by the text.
fn first_phase(alloc: Global, input: Plan) -> Result<Plan, Fail> {
    Ok(Plan::PartialGroup {
        input: Boxed::new(alloc, input)?,
        keys: Items::from_slice(alloc, &[1])?,
        calls: calls(alloc)?,
    })
}

fn second_phase(alloc: Global, input: Plan) -> Result<Plan, Fail> {
    Ok(Plan::FinalGroup {
        input: Boxed::new(alloc, input)?,
        keys: Items::from_slice(alloc, &[0])?,
        calls: calls(alloc)?,
    })
}

fn calls(alloc: Global) -> Result<Items<AggCall>, Fail> {
    Ok(Items::from_slice(
        alloc,
        &[
            AggCall::CountAll,
            AggCall::Sum(0),
            AggCall::Min(1),
            AggCall::Avg(0),
        ],
    )?)
}

/// A hash exchange between both phases, on a filtered input.
fn grouped(alloc: Global) -> Result<Plan, Fail> {
    let filtered = Plan::Filter {
        input: Boxed::new(alloc, scan(alloc)?)?,
        test: Expr::Const(Value::Bool(true), Kind::Bool),
    };
    let hashed = Plan::Repartition {
        input: Boxed::new(alloc, first_phase(alloc, filtered)?)?,
        to: Partitioning::Hash(Items::from_slice(alloc, &[0])?, 2),
    };
    second_phase(alloc, hashed)
}

fn boxed_scan(alloc: Global) -> Result<Boxed<Plan>, Fail> {
    Ok(Boxed::new(alloc, scan(alloc)?)?)
}

/// A table joined to itself.
fn paired(alloc: Global) -> Result<Plan, Fail> {
    Ok(Plan::HashJoin {
        kind: JoinKind::Left,
        left: boxed_scan(alloc)?,
        right: boxed_scan(alloc)?,
        keys: Items::from_slice(alloc, &[(0, 0)])?,
        rest: None,
    })
}

fn number_and_text(alloc: Global) -> Result<Items<Expr>, Fail> {
    let mut items = Items::new(alloc);
    items.push(Expr::Column(0))?;
    items.push(Expr::Column(3))?;
    Ok(items)
}

/// The number and the text of a join.
fn chosen(alloc: Global) -> Result<Plan, Fail> {
    Ok(Plan::Project {
        input: Boxed::new(alloc, paired(alloc)?)?,
        items: number_and_text(alloc)?,
    })
}

fn sorted(alloc: Global) -> Result<Plan, Fail> {
    Ok(Plan::Sort {
        input: Boxed::new(alloc, chosen(alloc)?)?,
        keys: Items::from_slice(alloc, &[BY_FIRST])?,
    })
}

/// The number and the text of a join, in order.
fn joined(alloc: Global) -> Result<Plan, Fail> {
    Ok(Plan::Merge {
        input: Boxed::new(alloc, sorted(alloc)?)?,
        keys: Items::from_slice(alloc, &[BY_FIRST])?,
    })
}

fn scan_and_join(alloc: Global) -> Result<Items<Plan>, Fail> {
    let mut inputs = Items::new(alloc);
    inputs.push(scan(alloc)?)?;
    inputs.push(joined(alloc)?)?;
    Ok(inputs)
}

fn gathered(alloc: Global) -> Result<Plan, Fail> {
    let inputs = scan_and_join(alloc)?;
    Ok(Plan::Coalesce {
        input: Boxed::new(alloc, Plan::UnionAll { inputs })?,
    })
}

/// Three rows of a table and of such a join.
fn united(alloc: Global) -> Result<Plan, Fail> {
    Ok(Plan::Limit {
        input: Boxed::new(alloc, gathered(alloc)?)?,
        skip: 0,
        fetch: Some(3),
    })
}

fn wide(scale: u8) -> Kind {
    Kind::Dec {
        precision: 38,
        scale,
    }
}

#[test]
fn first_phases(rt: HostRuntime) -> Result<(), Fail> {
    let alloc = rt.alloc();
    let states = kinds_of(alloc, &first_phase(alloc, scan(alloc)?)?)?;
    let wanted = [
        Kind::Text,
        Kind::Int,
        Kind::Bool,
        Kind::Int,
        wide(0),
        wide(0),
        Kind::Bool,
        Kind::Text,
        Kind::Int,
        wide(0),
        wide(0),
        Kind::Bool,
    ];
    assert!(rt; same_kinds(states.as_slice(), &wanted));
    Ok(())
}

#[test]
fn both_phases(rt: HostRuntime) -> Result<(), Fail> {
    let alloc = rt.alloc();
    let answers = kinds_of(alloc, &grouped(alloc)?)?;
    let wanted = [Kind::Text, Kind::Int, wide(0), Kind::Text, wide(4)];
    assert!(rt; same_kinds(answers.as_slice(), &wanted));
    Ok(())
}

#[test]
fn others(rt: HostRuntime) -> Result<(), Fail> {
    let alloc = rt.alloc();
    let kinds = kinds_of(alloc, &united(alloc)?)?;
    assert!(rt; same_kinds(kinds.as_slice(), &[Kind::Int, Kind::Text]));
    Ok(())
}

#[test]
fn refused(rt: HostRuntime) -> Result<(), Fail> {
    let alloc = rt.alloc();
    let unphased = second_phase(alloc, scan(alloc)?)?;
    assert!(rt; matches!(kinds_of(alloc, &unphased), Err(KindsRefused::NoKind)));
    Ok(())
}
