//! The kinds of the columns that the two phases of a grouping give.

ghost use Rattle.std.specs.Prelude.{◌≡◌, ◌≤◌, ◌++◌, length, drop, slice_get, true, Some, IfOk, IfErr, OnOk, OnSome};
ghost use Rattle.scalar_exprs.specs.Kinds as kind_spec;
ghost use Rattle.logical_plan.specs.Body as body;
ghost use Rattle.physical_plan.specs.Properties as declared;
ghost use Rattle.plan_kinds.specs.Phases as spec;
ghost use Rattle.plan_kinds.specs.Kinds as plan;

use crate::refused::KindsRefused;
use dfx_value::{AggCall, Kind, NoMemory};
use scalar_exprs::{agg_kind, call_kind, same, widest};
use std::alloc::Global;

fn column_kind(columns: &[Kind], column: u32) -> Option<Kind>
    ensures { result ≡ slice_get columns.now column }
{
    match columns.get(column as usize) {
        Some(kind) => Some(*kind),
        None => None,
    }
}

fn append_keys(kinds: &mut Vec<Kind>, columns: &[Kind], keys: &[u32]) -> Result<(), KindsRefused>
    ensures there { OnOk result (spec.has_columns columns.now keys.now ≡ true) }
    ensures ok { OnOk result
        (kinds.new.items ≡ kinds.old.items ++ body.key_kinds columns.now keys.now) }
    ensures refused { IfErr result
        (λ e. plan.Fails e (spec.has_columns columns.now keys.now)) }
{
    for key in keys {
        match column_kind(columns, *key) {
            Some(kind) => kinds.push(kind)?,
            None => return Err(KindsRefused::NoKind),
        }
    }
    Ok(())
}

// ---- the first phase

pub(crate) fn append(kinds: &mut Vec<Kind>, more: &[Kind]) -> Result<(), NoMemory>
    ensures { OnOk result (kinds.new.items ≡ kinds.old.items ++ more.now) }
{
    for kind in more {
        kinds.push(*kind)?;
    }
    Ok(())
}

fn scale_of(kind: Option<Kind>) -> u8
    ensures { result ≡ kind_spec.scale_of kind }
{
    match kind {
        Some(
            Kind::Dec {
                precision: _,
                scale,
            },
        ) => scale,
        _ => 0,
    }
}

fn kind_or_text(kind: Option<Kind>) -> Kind
    ensures { result ≡ body.kind_or_text kind }
{
    match kind {
        Some(kind) => kind,
        None => Kind::Text,
    }
}

fn argument_kind(call: AggCall, columns: &[Kind]) -> Option<Kind>
    ensures { result ≡ kind_spec.argument_kind call columns.now }
{
    match call {
        AggCall::CountAll => None,
        AggCall::Count(column)
        | AggCall::Sum(column)
        | AggCall::Min(column)
        | AggCall::Max(column)
        | AggCall::Avg(column) => column_kind(columns, column),
    }
}

/// The state columns of a call, whose argument has this kind.
fn append_state(
    kinds: &mut Vec<Kind>,
    call: AggCall,
    argument: Option<Kind>,
) -> Result<(), NoMemory>
    ensures { OnOk result (kinds.new.items ≡ kinds.old.items ++ spec.state_kinds call argument) }
{
    match call {
        AggCall::CountAll | AggCall::Count(_) => append(kinds, &[Kind::Int, Kind::Bool]),
        AggCall::Sum(_) | AggCall::Avg(_) => {
            let total = widest(scale_of(argument));
            append(kinds, &[Kind::Int, total, total, Kind::Bool])
        }
        AggCall::Min(_) | AggCall::Max(_) => append(kinds, &[kind_or_text(argument)]),
    }
}

fn append_states(
    kinds: &mut Vec<Kind>,
    columns: &[Kind],
    calls: &[AggCall],
) -> Result<(), KindsRefused>
    ensures fit { OnOk result (spec.calls_fit columns.now calls.now ≡ true) }
    ensures ok { OnOk result
        (kinds.new.items ≡ kinds.old.items ++ spec.states_kinds calls.now columns.now) }
    ensures refused { IfErr result (λ e. plan.Fails e (spec.calls_fit columns.now calls.now)) }
{
    for call in calls {
        if call_kind(*call, columns).is_none() {
            return Err(KindsRefused::NoKind);
        }
        append_state(kinds, *call, argument_kind(*call, columns))?;
    }
    Ok(())
}

/// The kinds of the rows of a first phase over columns of these kinds: the keys, then the state columns of the calls.
///
/// NoKind comes exactly where a key isn't one of the columns, or a call has no kind over them.
pub fn partial_kinds(
    alloc: Global,
    columns: &[Kind],
    keys: &[u32],
    calls: &[AggCall],
) -> Result<Vec<Kind>, KindsRefused>
    ensures gives { IfOk result
        (λ kinds. plan.partial_kinds keys.now calls.now columns.now ≡ Some kinds.items) }
    ensures refused { IfErr result
        (λ e. plan.Refuses e (plan.partial_kinds keys.now calls.now columns.now)) }
{
    let mut kinds = Vec::new(alloc);
    append_keys(&mut kinds, columns, keys)?;
    append_states(&mut kinds, columns, calls)?;
    Ok(kinds)
}

// ---- the second phase

/// Whether the first kinds are these.
fn begins(wanted: &[Kind], kinds: &[Kind]) -> bool
    ensures { result ≡ spec.begins wanted.now kinds.now }
{
    let mut left = kinds;
    for kind in wanted {
        match left.split_first() {
            Some((found, behind)) => {
                if !same(*kind, *found) {
                    return false;
                }
                left = behind;
            }
            None => return false,
        }
    }
    true
}

fn counted_kind(states: &[Kind]) -> Option<Kind>
    ensures { result ≡ spec.counted_kind states.now }
{
    if begins(&[Kind::Int, Kind::Bool], states) {
        Some(Kind::Int)
    } else {
        None
    }
}

fn summed_kind(states: &[Kind]) -> Option<Kind>
    ensures { result ≡ spec.summed_kind states.now }
{
    let total = agg_kind(AggCall::Sum(0), column_kind(states, 1)?)?;
    if begins(&[Kind::Int, total, total, Kind::Bool], states) {
        Some(total)
    } else {
        None
    }
}

/// The kind of a call's answer, from the kinds of its state columns and of those behind them.
fn answer_kind(call: AggCall, states: &[Kind]) -> Option<Kind>
    ensures value { result ≡ spec.answer_kind call states.now }
    ensures wide { OnSome result (declared.state_width call ≤ length states.now) }
{
    match call {
        AggCall::CountAll | AggCall::Count(_) => counted_kind(states),
        AggCall::Sum(_) => summed_kind(states),
        AggCall::Min(_) | AggCall::Max(_) => column_kind(states, 0),
        AggCall::Avg(_) => agg_kind(call, summed_kind(states)?),
    }
}

fn state_width(call: AggCall) -> usize
    ensures { result ≡ declared.state_width call }
{
    match call {
        AggCall::CountAll | AggCall::Count(_) => 2,
        AggCall::Sum(_) | AggCall::Avg(_) => 4,
        AggCall::Min(_) | AggCall::Max(_) => 1,
    }
}

/// The answers of all calls, whose state columns these are.
fn append_answers(
    kinds: &mut Vec<Kind>,
    calls: &[AggCall],
    states: &[Kind],
) -> Result<(), KindsRefused>
    ensures ok { OnOk result
        (plan.side_by_side (Some kinds.old.items) (spec.answer_kinds calls.now states.now)
        ≡ Some kinds.new.items) }
    ensures refused { IfErr result
        (λ e. plan.Refuses e (spec.answer_kinds calls.now states.now)) }
{
    let mut left = states;
    for call in calls {
        match answer_kind(*call, left) {
            Some(kind) => kinds.push(kind)?,
            None => return Err(KindsRefused::NoKind),
        }
        left = &left[state_width(*call)..];
    }
    if left.is_empty() {
        Ok(())
    } else {
        Err(KindsRefused::NoKind)
    }
}

/// The kinds of the rows of a second phase over first-phase rows of these kinds: the keys, then the answers of the calls.
///
/// NoKind comes exactly where a key isn't one of the columns, or those behind the keys aren't the state columns of the calls.
pub fn final_kinds(
    alloc: Global,
    columns: &[Kind],
    keys: &[u32],
    calls: &[AggCall],
) -> Result<Vec<Kind>, KindsRefused>
    ensures gives { IfOk result
        (λ kinds. plan.final_kinds keys.now calls.now columns.now ≡ Some kinds.items) }
    ensures refused { IfErr result
        (λ e. plan.Refuses e (plan.final_kinds keys.now calls.now columns.now)) }
{
    let mut kinds = Vec::new(alloc);
    append_keys(&mut kinds, columns, keys)?;
    let states = columns.get(keys.len()..).unwrap_or(&[]);
    append_answers(&mut kinds, calls, states)?;
    Ok(kinds)
}
