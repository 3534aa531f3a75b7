//! Lists of numbers.

ghost use Rattle.std.specs.Prelude.{◌≡◌, ◌+◌, IfOk};
ghost use Rattle.physical_plan.specs.Numbers.{numbers_from as so_many};

use dfx_value::NoMemory;
use sqlite_items::Items;
use std::alloc::Global;

/// The sum, where it fits.
pub(crate) fn sum_of(left: u32, right: u32) -> Result<u32, NoMemory>
    ensures { IfOk result (λ n. n ≡ left + right) }
{
    match left.checked_add(right) {
        Some(sum) => Ok(sum),
        None => Err(NoMemory),
    }
}

/// The number, where it fits.
pub(crate) fn small(count: usize) -> Result<u32, NoMemory>
    ensures { IfOk result (λ n. n ≡ count) }
{
    match u32::try_from(count) {
        Ok(small) => Ok(small),
        Err(_) => Err(NoMemory),
    }
}

/// So many numbers from one on, ascending.
#[tactic(auto, using(crate::proofs::Steps::numbers_step, crate::proofs::Steps::numbers_end))]
pub(crate) fn numbers_from(alloc: Global, first: u32, count: u32) -> Result<Items<u32>, NoMemory>
    ensures { IfOk result (λ v. v ≡ so_many first count) }
{
    let mut all = Items::new(alloc);
    for at in 0..count {
        all.push(sum_of(first, at)?)?;
    }
    Ok(all)
}
