//! The values of an expression on rows, up to the first row on which it has none.

ghost use Rattle.std.specs.Prelude.{◌≡◌, ◌<◌, IfOk, length, map, None, slice_index_or};
ghost use Rattle.dfx_value.specs.Rows.{cell};
ghost use Rattle.dfx_value.specs.declared.kind.Kind.TheVariants as cell_kind;
ghost use Rattle.scalar_exprs.specs.Truth.{is_true};
ghost use Rattle.scalar_exprs.specs.declared.expr.Expr.TheVariants.{Coalesce};
ghost use Rattle.scalar_vector.specs.Arms.{part_level, left_by, Surrounds};
ghost use Rattle.scalar_vector.specs.Fronts.{evals, evaluated, row_at};
ghost use Rattle.scalar_vector.specs.Vectors.{front_of, level_of, values_of, places_of, open_places};
ghost use Rattle.value_columns.specs.Cells.{value_of};

use crate::binary::operate_parts;
use crate::items::{Items, gather_items};
use crate::level::{Level, rebuild};
use crate::places::{Places, split};
use crate::unary::{Unary, apply_part};
use crate::vector::{Part, Vector};
use column_batch::{Batch, Cell, own};
use dfx_value::{EvalFault, Kind, NoMemory, Value, copy_value};
use scalar_exprs::Expr;
use std::alloc::Global;

/// A look at the cell of a row and a column; NULL where there is no such row.
#[inline]
fn cell_of(batch: &Batch, column: u32, at: u32) -> Cell<'_>
    requires { column < length batch.now.kinds }
    ensures { value_of result ≡ cell (row_at batch.now.rows at) column }
{
    if at < batch.rows() {
        batch.cell(at, column)
    } else {
        Cell::Null
    }
}

/// The cells of a column at places.
#[tactic(auto, using(crate::proofs::Loops::map_steps))]
fn gather(
    alloc: Global,
    batch: &Batch,
    column: u32,
    places: Places<'_>,
) -> Result<Vec<Value>, NoMemory>
    requires column { column < length batch.now.kinds }
    ensures { IfOk result (λ v. v.items
        ≡ map (λ p. cell (row_at batch.now.rows p) column) (places_of places.entry)) }
{
    let mut values = Vec::with_capacity(alloc, places.len())?;
    for at in 0..places.len() {
        values.push(own(alloc, cell_of(batch, column, places.get(at)))?)?;
    }
    Ok(values)
}

/// The cells of a column at places, of whole numbers and of truths as items.
fn gather_column(
    alloc: Global,
    kind: Kind,
    batch: &Batch,
    column: u32,
    places: Places<'_>,
) -> Result<Vector, NoMemory>
    requires column { column < length batch.now.kinds }
    requires kind { kind ≡ slice_index_or batch.now.kinds column cell_kind.Bool }
    ensures { IfOk result (λ v. values_of v
        ≡ map (λ p. cell (row_at batch.now.rows p) column) (places_of places.entry)) }
{
    match kind {
        Kind::Int => {
            let (numbers, nulls) = batch.ints(column);
            Ok(Vector::Ints(gather_items(alloc, &Items::Many(numbers, nulls), places)?))
        }
        Kind::Bool => {
            let (bits, nulls) = batch.truths(column);
            Ok(Vector::Truths(gather_items(alloc, &Items::Many(bits, nulls), places)?))
        }
        _ => Ok(Vector::Made(gather(alloc, batch, column, places)?)),
    }
}

/// The cells of a column at places: those of the first rows as they stand.
#[tactic(auto, using(crate::proofs::Batches::shown_cells))]
fn show(
    alloc: Global,
    kind: Kind,
    batch: &Batch,
    column: u32,
    places: Places<'_>,
) -> Result<Vector, NoMemory>
    requires column { column < length batch.now.kinds }
    requires kind { kind ≡ slice_index_or batch.now.kinds column cell_kind.Bool }
    ensures { IfOk result (λ v. values_of v
        ≡ map (λ p. cell (row_at batch.now.rows p) column) (places_of places.entry)) }
{
    match places {
        Places::First(count) if count <= batch.rows() => {
            Ok(Vector::Shown(batch.column(alloc, column)?, count as usize))
        }
        _ => gather_column(alloc, kind, batch, column, places),
    }
}

/// A column on rows; NULL where there is no such column.
#[tactic(auto, using(crate::proofs::Batches::no_column))]
fn column_values(
    alloc: Global,
    kinds: &[Kind],
    batch: &Batch,
    column: u32,
    places: Places<'_>,
) -> Result<Vector, NoMemory>
    requires { kinds.now ≡ batch.now.kinds }
    ensures { IfOk result (λ v. values_of v
        ≡ map (λ p. cell (row_at batch.now.rows p) column) (places_of places.entry)) }
{
    let _ = batch.rows();
    if (column as usize) < kinds.len() {
        show(alloc, kinds[column as usize], batch, column, places)
    } else {
        Ok(Vector::Constant(Value::Null, places.len()))
    }
}

/// A part of COALESCE on rows, and the rows on which it is NULL.
#[cycle(eval)]
fn eval_present(
    alloc: Global,
    part: &Expr,
    kinds: &[Kind],
    batch: &Batch,
    places: Places<'_>,
) -> Result<(Level, Vec<u32>), NoMemory>
    requires { kinds.now ≡ batch.now.kinds }
    ensures level { IfOk result (λ r. level_of r.0
        ≡ part_level batch.now.rows (places_of places.entry) part.now) }
    ensures left { IfOk result (λ r. r.1.items
        ≡ left_by (part_level batch.now.rows (places_of places.entry) part.now)
        (places_of places.entry)) }
{
    let values = eval_part(alloc, part, kinds, batch, places)?;
    let marks = values.vector.present(alloc)?;
    let (_, left) = split(alloc, places, &marks)?;
    let taken = Part {
        vector: values.vector.select(alloc, &marks)?,
        fault: None,
    };
    Ok((
        Level {
            marks,
            ended: values.fault,
            taken,
        },
        left,
    ))
}

/// Each arm is asked for on the rows that none before it took. The rows that none took are left.
#[cycle(eval)]
fn eval_arms(
    alloc: Global,
    arms: &[(Expr, Expr)],
    kinds: &[Kind],
    batch: &Batch,
    places: Places<'_>,
) -> Result<(Vec<Level>, Option<Vec<u32>>), NoMemory>
    requires { kinds.now ≡ batch.now.kinds }
    ensures { IfOk result (λ r. Surrounds batch.now.rows (places_of places.entry) arms.now
        (map level_of r.0.items) (open_places (places_of places.entry) r.1)) }
{
    let mut levels = Vec::new(alloc);
    let mut left = None;
    for arm in arms {
        let among = places.among(&left);
        let tests = eval_part(alloc, &arm.0, kinds, batch, among)?;
        let marks = tests.vector.truths(alloc)?;
        let (chosen, rest) = split(alloc, among, &marks)?;
        let taken = eval_part(alloc, &arm.1, kinds, batch, Places::Chosen(&chosen))?;
        levels.push(Level {
            marks,
            ended: tests.fault,
            taken,
        })?;
        left = Some(rest);
    }
    Ok((levels, left))
}

/// Each part is asked for on the rows on which those before it are NULL.
#[cycle(eval)]
fn eval_coalesce(
    alloc: Global,
    parts: &[Expr],
    kinds: &[Kind],
    batch: &Batch,
    places: Places<'_>,
) -> Result<Part, NoMemory>
    requires { kinds.now ≡ batch.now.kinds }
    ensures { IfOk result (λ p. front_of p
        ≡ evals batch.now.rows (places_of places.entry) (Coalesce parts.now)) }
{
    let mut levels = Vec::new(alloc);
    let mut left = None;
    for part in parts {
        let (level, rest) = eval_present(alloc, part, kinds, batch, places.among(&left))?;
        levels.push(level)?;
        left = Some(rest);
    }
    let rest = Part {
        vector: Vector::Constant(Value::Null, places.among(&left).len()),
        fault: None,
    };
    rebuild(alloc, levels, rest)
}

#[cycle(eval)]
#[tactic(auto, using(crate::proofs::Evals::levels))]
fn eval_part(
    alloc: Global,
    expr: &Expr,
    kinds: &[Kind],
    batch: &Batch,
    places: Places<'_>,
) -> Result<Part, NoMemory>
    requires { kinds.now ≡ batch.now.kinds }
    ensures { IfOk result (λ p. front_of p
        ≡ evals batch.now.rows (places_of places.entry) expr.now) }
{
    match expr {
        Expr::Column(column) => Ok(Part {
            vector: column_values(alloc, kinds, batch, *column, places)?,
            fault: None,
        }),
        Expr::Const(value, _) => Ok(Part {
            vector: Vector::Constant(copy_value(alloc, value)?, places.len()),
            fault: None,
        }),
        Expr::Not(inner) => {
            let part = eval_part(alloc, inner.get(), kinds, batch, places)?;
            apply_part(alloc, Unary::Not, &part)
        }
        Expr::Neg(inner) => {
            let part = eval_part(alloc, inner.get(), kinds, batch, places)?;
            apply_part(alloc, Unary::Neg, &part)
        }
        Expr::IsNull(inner) => {
            let part = eval_part(alloc, inner.get(), kinds, batch, places)?;
            apply_part(alloc, Unary::IsNull, &part)
        }
        Expr::Binary(op, left, right) => {
            let left = eval_part(alloc, left.get(), kinds, batch, places)?;
            let right = eval_part(
                alloc,
                right.get(),
                kinds,
                batch,
                places.front(left.vector.len()),
            )?;
            operate_parts(alloc, *op, &left, &right)
        }
        Expr::Case(arms, other) => {
            let (levels, left) = eval_arms(alloc, arms.as_slice(), kinds, batch, places)?;
            let rest = eval_part(alloc, other.get(), kinds, batch, places.among(&left))?;
            rebuild(alloc, levels, rest)
        }
        Expr::Coalesce(parts) => eval_coalesce(alloc, parts.as_slice(), kinds, batch, places),
        Expr::Cast(inner, kind) => {
            let part = eval_part(alloc, inner.get(), kinds, batch, places)?;
            apply_part(alloc, Unary::Cast(*kind), &part)
        }
        Expr::Abs(inner) => {
            let part = eval_part(alloc, inner.get(), kinds, batch, places)?;
            apply_part(alloc, Unary::Abs, &part)
        }
        Expr::Length(inner) => {
            let part = eval_part(alloc, inner.get(), kinds, batch, places)?;
            apply_part(alloc, Unary::Length, &part)
        }
    }
}

/// An expression on the rows of a batch: the values before the first row with a fault, and the
/// fault.
pub fn eval_batch(
    alloc: Global,
    expr: &Expr,
    kinds: &[Kind],
    batch: &Batch,
) -> Result<Part, NoMemory>
    requires { kinds.now ≡ batch.now.kinds }
    ensures { IfOk result (λ p. front_of p ≡ evaluated batch.now.rows expr.now) }
{
    eval_part(alloc, expr, kinds, batch, Places::First(batch.rows()))
}

/// Which of the rows a test keeps, up to the first row with a fault, and that fault.
#[derive(Debug, Drop)]
pub struct Tests {
    pub keep: Vec<bool>,
    pub fault: Option<EvalFault>,
}

/// A test on the rows of a batch.
pub fn eval_tests(
    alloc: Global,
    expr: &Expr,
    kinds: &[Kind],
    batch: &Batch,
) -> Result<Tests, NoMemory>
    requires { kinds.now ≡ batch.now.kinds }
    ensures keep { IfOk result (λ t. t.keep.items
        ≡ map is_true (evaluated batch.now.rows expr.now).values) }
    ensures fault { IfOk result (λ t. t.fault ≡ (evaluated batch.now.rows expr.now).fault) }

    // Without a fault there is an answer for each row.
    ensures whole { IfOk result (λ t. t.fault ≡ None
        → length t.keep.items ≡ length batch.now.rows) }
{
    let tests = eval_batch(alloc, expr, kinds, batch)?;
    Ok(Tests {
        keep: tests.vector.truths(alloc)?,
        fault: tests.fault,
    })
}
