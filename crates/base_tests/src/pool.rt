//! Reservations of one limit.
use fair_pool::{Exhausted, Pool};
use std::test::Fail;

// The requests of the worked examples, in order: consumer, bytes, and what refuses them.
#[test]
fn shares_are_fair_and_keep_the_limit(rt: HostRuntime) -> Result<(), Fail> {
    let mut pool = Pool::new(rt.alloc(), 1000, &[false, true, true])?;
    let fair = Exhausted {
        requested: 101,
        held: 300,
        share: 400,
    };
    let left = Exhausted {
        requested: 101,
        held: 0,
        share: 100,
    };
    assert_eq!(rt; pool.try_grow(0, 200), Ok(()));
    assert_eq!(rt; pool.try_grow(1, 300), Ok(()));
    assert_eq!(rt; pool.try_grow(1, 101), Err(fair));
    assert_eq!(rt; pool.try_grow(1, 100), Ok(()));
    assert_eq!(rt; pool.try_grow(0, 300), Ok(()));
    assert_eq!(rt; pool.try_grow(2, 101), Err(left));
    assert_eq!(rt; pool.share(2), 100);
    assert_eq!(rt; pool.try_grow(2, 100), Ok(()));
    let held = pool.held(1);
    if held >= 400 {
        pool.shrink(1, 400);
    }
    assert_eq!(rt; pool.held(1), 0);
    Ok(())
}
