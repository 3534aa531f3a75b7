//! AND and OR of truths of which some are unknown.

ghost use Rattle.std.specs.Prelude.{◌≡◌, true, IfOk, Ok};
ghost use Rattle.dfx_value.specs.declared.value.Value.TheVariants as value;
ghost use Rattle.scalar_exprs.specs.Functions as spec;
ghost use Rattle.scalar_vector.specs.Fronts.{front};
ghost use Rattle.scalar_vector.specs.Items as item;
ghost use Rattle.scalar_vector.specs.Items.{items_of};
ghost use Rattle.scalar_vector.specs.Lanes.{is_connective};
ghost use Rattle.scalar_vector.specs.Vectors.{front_of};
ghost use Rattle.scalar_vector.specs.Woven.{zipped};
ghost use Rattle.value_columns.specs.Columns.{or_null};

use crate::items::Items;
use crate::vector::{Part, Vector};
use dfx_value::{NoMemory, Op};
use scalar_exprs::{and_3, or_3};
use std::alloc::Global;
use value_columns::Masked;

/// AND or OR of two truths.
#[inline]
#[tactic(auto, using(crate::proofs::ItemSteps::connected_truths))]
fn connected(op: Op, left: Option<bool>, right: Option<bool>) -> Option<bool>
    requires { is_connective op ≡ true }
    ensures { spec.operated op (or_null value.Bool left) (or_null value.Bool right)
        ≡ Ok (or_null value.Bool result) }
{
    match op {
        Op::And => and_3(left, right),
        _ => or_3(left, right),
    }
}

/// AND or OR of each two.
pub fn connect_items(
    alloc: Global,
    op: Op,
    left: &Items<'_, bool>,
    right: &Items<'_, bool>,
) -> Result<Part, NoMemory>
    requires { is_connective op ≡ true }
    ensures { IfOk result (λ p. front_of p ≡ front (zipped (spec.operated op)
        (item.truths (items_of left.now)) (item.truths (items_of right.now)))) }
{
    let count = left.len().min(right.len());
    let mut truths = Masked::with_capacity(alloc, count)?;
    for at in 0..count {
        truths.push_item(connected(op, left.get(at), right.get(at)), false)?;
    }
    Ok(Part {
        vector: Vector::Truths(truths),
        fault: None,
    })
}
