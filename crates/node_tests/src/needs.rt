//! That needs are tested with ample memory. proofs/NeedExamples.antt has worked examples of what satisfies them.
use dfx_value::SortKey;
use plan_props::{
    Distribution, Partitioning, Props, partition_count, satisfies_distribution, satisfies_order,
};
use sqlite_items::Items;
use std::alloc::Global;
use std::test::Fail;

pub const fn ascending(column: u32) -> SortKey {
    SortKey {
        column,
        descending: false,
        nulls_first: false,
    }
}

/// Rows that are hashed by a column into four partitions, each in the order of another.
fn declared(alloc: Global) -> Result<Props, Fail> {
    Ok(Props {
        partitioning: Partitioning::Hash(Items::from_slice(alloc, &[2])?, 4),
        ordering: Items::from_slice(alloc, &[ascending(0)])?,
        same: Items::from_slice(alloc, &[(2, 1)])?,
        constants: Items::new(alloc),
    })
}

#[test]
fn needs(rt: HostRuntime) -> Result<(), Fail> {
    let alloc = rt.alloc();
    let props = declared(alloc)?;
    assert_eq!(rt; partition_count(&props.partitioning), 4);
    let need = Distribution::JoinHash(Items::from_slice(alloc, &[1])?, 4);
    assert!(rt; satisfies_distribution(alloc, &props, &need)?);
    assert!(rt; satisfies_order(alloc, &props, &[ascending(0)])?);
    Ok(())
}
