//! The arms of CASE and the parts of COALESCE, put together.

ghost use Rattle.std.specs.Prelude.{◌≡◌, IfOk, map};
ghost use Rattle.scalar_vector.specs.Woven as spec;
ghost use Rattle.scalar_vector.specs.Vectors.{front_of, level_of, values_of};

use crate::items::weave_items;
use crate::vector::{Part, Vector, earlier};
use dfx_value::{EvalFault, NoMemory};
use std::alloc::Global;

/// One arm: the marks of the rows that it was asked for, the fault of its test, and its results on
/// the marked rows.
#[derive(Drop)]
pub struct Level {
    pub marks: Vec<bool>,
    pub ended: Option<EvalFault>,
    pub taken: Part,
}

/// The values of marked rows and of the others in the rows' order, up to the first that is missing.
fn weave_values(alloc: Global, marks: &[bool], taken: &Part, rest: &Part) -> Result<Part, NoMemory>
    ensures { IfOk result (λ p. front_of p
        ≡ spec.woven marks.now (values_of taken.now.vector) taken.now.fault
        (values_of rest.now.vector) rest.now.fault) }
{
    let mut values = Vec::with_capacity(alloc, marks.len())?;
    let mut from_taken: usize = 0;
    let mut from_rest: usize = 0;
    for mark in marks {
        if *mark {
            if from_taken == taken.vector.len() {
                return Ok(Part {
                    vector: Vector::Made(values),
                    fault: taken.fault,
                });
            }
            values.push(taken.vector.copy_at(alloc, from_taken)?)?;
            from_taken += 1;
        } else {
            if from_rest == rest.vector.len() {
                return Ok(Part {
                    vector: Vector::Made(values),
                    fault: rest.fault,
                });
            }
            values.push(rest.vector.copy_at(alloc, from_rest)?)?;
            from_rest += 1;
        }
    }
    Ok(Part {
        vector: Vector::Made(values),
        fault: None,
    })
}

/// The same, of whole numbers and of truths as items.
fn weave(alloc: Global, marks: &[bool], taken: &Part, rest: &Part) -> Result<Part, NoMemory>
    ensures { IfOk result (λ p. front_of p
        ≡ spec.woven marks.now (values_of taken.now.vector) taken.now.fault
        (values_of rest.now.vector) rest.now.fault) }
{
    if let (Some(ones), Some(others)) = (taken.vector.int_items(), rest.vector.int_items()) {
        let (items, fault) = weave_items(alloc, marks, &ones, taken.fault, &others, rest.fault)?;
        return Ok(Part {
            vector: Vector::Ints(items),
            fault,
        });
    }
    if let (Some(ones), Some(others)) = (taken.vector.truth_items(), rest.vector.truth_items()) {
        let (items, fault) = weave_items(alloc, marks, &ones, taken.fault, &others, rest.fault)?;
        return Ok(Part {
            vector: Vector::Truths(items),
            fault,
        });
    }
    weave_values(alloc, marks, taken, rest)
}

/// The rows of an arm, where the unmarked ones have this part.
fn join(alloc: Global, level: &Level, rest: Part) -> Result<Part, NoMemory>
    ensures { IfOk result (λ p. front_of p ≡ spec.joined (level_of level.now) (front_of rest)) }
{
    let woven = weave(alloc, &level.marks, &level.taken, &rest)?;
    Ok(Part {
        vector: woven.vector,
        fault: earlier(woven.fault, level.ended),
    })
}

/// The rows of all arms, where those that no arm took have this part.
pub fn rebuild(alloc: Global, levels: Vec<Level>, rest: Part) -> Result<Part, NoMemory>
    ensures { IfOk result (λ p. front_of p
        ≡ spec.rebuilt (map level_of levels.items) (front_of rest)) }
{
    let mut levels = levels;
    let mut rest = rest;
    while let Some(level) = levels.pop() {
        rest = join(alloc, &level, rest)?;
    }
    Ok(rest)
}
