//! Batches that wait to be given.

ghost use Rattle.std.specs.Prelude.{◌≡◌, ◌++◌, ◌<◌, ◌≤◌, ◌^◌, ◌+◌, [], List, length, drop, take, All, OnOk, IfOk, IfSome, Ok, None, Some, Err};
ghost use Rattle.dfx_value.specs.Items.{of_rows, Cells};
ghost use Rattle.operator_poll.specs.declared.refused.OpRefused.TheVariants.{Spill};
ghost use Rattle.operator_poll.specs.Polls.{IsCut, count};
ghost use Rattle.operator_poll.specs.Waiting.{as_far, faulted, all_rows, given_rows};
ghost use Rattle.operator_poll.specs.Batched.{IsPart};
ghost use Rattle.dfx_value.specs.declared.kind.Kind.{Kind};
ghost use Rattle.tree_laws.specs.OperatorKinds.{is_empty};

use crate::refused::OpRefused;
use column_batch::{Batch, Builder};
use dfx_value::{EvalFault, Kind, NoMemory};
use std::alloc::Global;
use std::collections::VecDeque;
use std::marker::Model;

/// Rows that wait to be given, with a fault behind them where there is one. What is put behind a
/// fault doesn't matter, and is left out.
#[derive(Drop)]
pub struct Queue {
    kinds: Vec<Kind>,
    batches: VecDeque<Batch>,
    fault: Option<EvalFault>,
}

impl Model for Queue {
    ghost use Rattle.std.specs.Prelude.{◌++◌, All};
    ghost use Rattle.dfx_value.specs.Items.{of_rows};
    ghost use Rattle.operator_poll.specs.Waiting.{Waiting, all_rows, faulted};
    ghost use Rattle.operator_poll.specs.Batched.{IsPart};

    ghost Value = { Waiting };

    ghost view = { λ q. record {
      kinds = q.kinds.items;
      items = of_rows (all_rows q.batches.items) ++ faulted q.fault;
    } };

    ghost invariant = { λ q. All (IsPart q.kinds.items) q.batches.items };
}

/// How many rows a batch has, where there is one.
fn count_of(given: &Option<Batch>) -> u32
    ensures { result ≡ count given.now }
{
    match given {
        Some(batch) => batch.rows(),
        None => 0,
    }
}

/// The first batch, or its first `most` rows where it has more.
fn take_front(
    alloc: Global,
    batches: &mut VecDeque<Batch>,
    most: u32,
) -> Result<Option<Batch>, NoMemory>
    requires { 0 < most }
    ensures rows { IfOk result (λ given.
        all_rows batches.old.items ≡ given_rows given ++ all_rows batches.new.items) }
    ensures few { IfOk result (λ given. count given ≤ most) }
    ensures none { result ≡ Ok None → batches.new.items ≡ [] }
    ensures part { (kinds : List Kind) → All (IsPart kinds) batches.old.items
        → IfOk result (λ given. IfSome given (IsPart kinds)) }
    ensures parts { (kinds : List Kind) → All (IsPart kinds) batches.old.items
        → All (IsPart kinds) batches.new.items }
{
    let Some(front) = batches.pop_front() else {
        return Ok(None);
    };
    let count = front.rows();
    if count <= most {
        return Ok(Some(front));
    }
    let part = front.slice(alloc, 0, most)?;
    let rest = front.slice(alloc, most, count)?;
    batches.push_front(rest)?;
    Ok(Some(part))
}

/// Puts the rows of batches to a builder, at most `most` of them.
fn put_rows(
    alloc: Global,
    builder: &mut Builder,
    batches: &mut VecDeque<Batch>,
    most: u32,
) -> Result<(), NoMemory>
    requires parts { All (IsPart builder.old.kinds) batches.old.items }
    requires room { length builder.old.rows + most < 2 ^ 32 }
    ensures kinds { builder.new.kinds ≡ builder.old.kinds }
    ensures rows { OnOk result (builder.new.rows
        ≡ builder.old.rows ++ take most (all_rows batches.old.items)) }
    ensures rest { OnOk result (all_rows batches.new.items
        ≡ drop most (all_rows batches.old.items)) }
    ensures parts { All (IsPart builder.old.kinds) batches.new.items }
{
    let mut missing = most;
    while missing > 0 {
        let Some(part) = take_front(alloc, batches, missing)? else {
            return Ok(());
        };
        builder.extend(&part)?;
        missing -= part.rows();
    }
    Ok(())
}

/// A batch with the rows of others behind it, at most `most` of them.
fn extended(
    alloc: Global,
    first: &Batch,
    batches: &mut VecDeque<Batch>,
    most: u32,
) -> Result<Batch, NoMemory>
    requires parts { All (IsPart first.now.kinds) batches.old.items }
    requires room { length first.now.rows + most < 2 ^ 32 }
    ensures kinds { IfOk result (λ whole. whole.kinds ≡ first.now.kinds) }
    ensures rows { IfOk result (λ whole. whole.rows
        ≡ first.now.rows ++ take most (all_rows batches.old.items)) }
    ensures rest { OnOk result (all_rows batches.new.items
        ≡ drop most (all_rows batches.old.items)) }
    ensures parts { All (IsPart first.now.kinds) batches.new.items }
{
    let mut builder = Builder::alike(alloc, first)?;
    builder.extend(first)?;
    put_rows(alloc, &mut builder, batches, most)?;
    builder.finish(alloc)
}

/// The first `most` rows of batches of one list of kinds, or all that there are.
fn take_rows(
    alloc: Global,
    batches: &mut VecDeque<Batch>,
    kinds: &[Kind],
    most: u32,
) -> Result<Option<Batch>, NoMemory>
    requires some { 0 < most }
    requires parts { All (IsPart kinds.now) batches.old.items }
    ensures rows { IfOk result
        (λ given. given_rows given ≡ take most (all_rows batches.old.items)) }
    ensures rest { OnOk result (all_rows batches.new.items
        ≡ drop most (all_rows batches.old.items)) }
    ensures part { IfOk result (λ given. IfSome given (IsPart kinds.now)) }
    ensures parts { All (IsPart kinds.now) batches.new.items }
{
    let Some(first) = take_front(alloc, batches, most)? else {
        return Ok(None);
    };
    let missing = most - first.rows();
    if missing == 0 || batches.is_empty() {
        return Ok(Some(first));
    }
    Ok(Some(extended(alloc, &first, batches, missing)?))
}

/// What is given of rows with a fault behind them: the fault, where fewer than `most` rows are left.
fn cut(
    given: Option<Batch>,
    fault: Option<EvalFault>,
    most: u32,
) -> Result<Option<Batch>, OpRefused>
    requires { 0 < most }
    ensures cut { (rows : List Cells) → given_rows given ≡ take most rows
        → IfSome given (λ batch. 0 < length batch.rows)
        → IsCut (take most (of_rows rows ++ faulted fault)) result }
    ensures same { IfOk result (λ batch. batch ≡ given) }
    ensures calm { ¬ (result ≡ Err Spill) }
{
    match fault {
        None => Ok(given),
        Some(fault) => {
            if count_of(&given) < most {
                Err(OpRefused::Fault(fault))
            } else {
                Ok(given)
            }
        }
    }
}

impl Queue {
    /// A queue for rows of these kinds, with none.
    pub fn new(alloc: Global, kinds: Vec<Kind>) -> Queue
        ensures kinds { result.kinds ≡ kinds.items }
        ensures items { result.items ≡ [] }
    {
        Queue {
            kinds,
            batches: VecDeque::new(alloc),
            fault: None,
        }
    }

    /// The kinds of its rows.
    pub fn kinds(&self) -> &[Kind]
        ensures { result.now ≡ self.now.kinds }
    {
        &self.kinds
    }

    /// No item waits.
    pub fn is_empty(&self) -> bool
        ensures { result ≡ is_empty self.now.items }
    {
        self.batches.is_empty() && self.fault.is_none()
    }

    /// Puts the rows of a batch at the end. Where there is no memory for them, none is put.
    pub fn push(&mut self, batch: Batch) -> Result<(), NoMemory>
        requires { batch.kinds ≡ self.old.kinds }

        ensures ok { OnOk result (self.new.items ≡ as_far (self.old.items ++ of_rows batch.rows)) }
        ensures same { self.new.kinds ≡ self.old.kinds }
    {
        match self.fault {
            Some(_) => return Ok(()),
            None => {}
        }
        if batch.rows() == 0 {
            return Ok(());
        }
        Ok(self.batches.push_back(batch)?)
    }

    /// Puts a fault at the end, where there is one.
    pub fn fail(&mut self, fault: Option<EvalFault>)
        ensures items { self.new.items ≡ as_far (self.old.items ++ faulted fault) }
        ensures same { self.new.kinds ≡ self.old.kinds }
    {
        match self.fault {
            Some(_) => {}
            None => self.fault = fault,
        }
    }

    /// The rows of the next items, at most `most`; none where no item waits. Where a fault is among
    /// these items, it is the answer.
    pub fn give(&mut self, alloc: Global, most: u32) -> Result<Option<Batch>, OpRefused>
        requires { 0 < most }

        ensures cut { IsCut (take most self.old.items) result }
        ensures rest { IfOk result (λ given. self.new.items ≡ drop (count given) self.old.items) }
        ensures kinds { IfOk result (λ given.
            IfSome given (λ batch. batch.kinds ≡ self.old.kinds)) }
        ensures same { self.new.kinds ≡ self.old.kinds }
        ensures calm { ¬ (result ≡ Err Spill) }
    {
        let given = take_rows(alloc, &mut self.batches, &self.kinds, most)?;
        cut(given, self.fault, most)
    }
}
