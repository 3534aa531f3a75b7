//! Aggregate calls over columns of their own.

ghost use Rattle.std.specs.Prelude.{◌≡◌, IfOk, option_map, map};
ghost use Rattle.logical_build.specs.Calls as spec;

use crate::number::as_u32;
use dfx_value::{AggCall, NoMemory};
use sql_grammar::ast::{ExprAst, FnAst, NodeAst};
use sqlite_items::Items;
use std::alloc::Global;

/// An aggregate of a column.
fn of_column(function: FnAst, column: u32) -> AggCall
    ensures { result ≡ spec.of_column function column }
{
    match function {
        FnAst::Sum => AggCall::Sum(column),
        FnAst::Min => AggCall::Min(column),
        FnAst::Max => AggCall::Max(column),
        FnAst::Avg => AggCall::Avg(column),
        _ => AggCall::Count(column),
    }
}

/// The function and the argument of a call; COUNT(*) has none.
pub fn argument(call: &ExprAst) -> Option<(FnAst, &ExprAst)>
    ensures { option_map (λ a. (a.0, a.1.now)) result ≡ spec.argument call.now }
{
    match &call.node {
        NodeAst::Call(function, arguments) => match arguments.as_slice().first() {
            Some(argument) => Some((*function, argument)),
            None => None,
        },
        _ => None,
    }
}

/// The calls over columns of their own, from `first` on.
pub fn numbered(alloc: Global, first: usize, calls: &[ExprAst]) -> Result<Items<AggCall>, NoMemory>
    ensures { IfOk result (λ all. all ≡ spec.numbered first (map spec.argument calls.now)) }
{
    let mut numbered = Items::new(alloc);
    let mut column = as_u32(first)?;
    for call in calls {
        match argument(call) {
            None => numbered.push(AggCall::CountAll)?,
            Some((function, _)) => {
                numbered.push(of_column(function, column))?;
                match column.checked_add(1) {
                    Some(next) => column = next,
                    None => return Err(NoMemory),
                }
            }
        }
    }
    Ok(numbered)
}
