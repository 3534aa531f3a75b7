//! The columns that a select gives.

ghost use Rattle.std.specs.Prelude.{◌≡◌, IfOk};
ghost use Rattle.logical_build.specs.Outputs as spec;

use dfx_value::{Kind, NoMemory, Seq, Text};
use logical_plan::Logical;
use scalar_exprs::Expr;
use sqlite_items::{Boxed, Items};
use std::alloc::Global;

/// A column of the answer.
#[derive(Debug, Drop)]
pub struct Output {
    pub name: Text,
    pub expr: Expr,
    pub kind: Kind,
}

/// Columns of an answer, as lists of their parts.
#[derive(Debug, Drop)]
struct Lists {
    names: Seq<Text>,
    exprs: Items<Expr>,
    kinds: Seq<Kind>,
}

/// The names, the expressions and the kinds, each in order.
fn taken_apart(alloc: Global, outputs: Seq<Output>) -> Result<Lists, NoMemory>
    ensures names { IfOk result (λ l. l.names ≡ spec.names outputs) }
    ensures exprs { IfOk result (λ l. l.exprs ≡ spec.exprs outputs) }
    ensures kinds { IfOk result (λ l. l.kinds ≡ spec.kinds outputs) }
{
    let outputs = outputs.into_vec();
    let mut names = Vec::with_capacity(alloc, outputs.len())?;
    let mut exprs = Items::new(alloc);
    let mut kinds = Vec::with_capacity(alloc, outputs.len())?;
    for output in outputs {
        let Output { name, expr, kind } = output;
        names.push(name)?;
        exprs.push(expr)?;
        kinds.push(kind)?;
    }
    Ok(Lists {
        names: Seq::from_vec(names),
        exprs,
        kinds: Seq::from_vec(kinds),
    })
}

/// A Distinct where it is written.
fn distinct_if(alloc: Global, distinct: bool, body: Logical) -> Result<Logical, NoMemory>
    ensures { IfOk result (λ b. b ≡ spec.distinct_if distinct body) }
{
    if distinct {
        Ok(Logical::Distinct {
            input: Boxed::new(alloc, body)?,
        })
    } else {
        Ok(body)
    }
}

/// The names, the kinds and the body of outputs over a body: a Project of them, and a Distinct on top where it is
/// written.
pub fn project(
    alloc: Global,
    distinct: bool,
    outputs: Seq<Output>,
    body: Logical,
) -> Result<(Seq<Text>, Seq<Kind>, Logical), NoMemory>
    ensures names { IfOk result (λ p. p.0 ≡ spec.names outputs) }
    ensures kinds { IfOk result (λ p. p.1 ≡ spec.kinds outputs) }
    ensures body { IfOk result (λ p. p.2 ≡ spec.projected_body distinct outputs body) }
{
    let lists = taken_apart(alloc, outputs)?;
    let projected = Logical::Project {
        input: Boxed::new(alloc, body)?,
        items: lists.exprs,
    };
    let body = distinct_if(alloc, distinct, projected)?;
    Ok((lists.names, lists.kinds, body))
}
