//! Selects united.

ghost use Rattle.std.specs.Prelude.{◌≡◌, ◌∷◌, IfOk};
ghost use Rattle.typed_exprs.specs.Answer.{Gives};
ghost use Rattle.sql_binder.specs.Unions as spec;

use crate::selected::Selected;
use dfx_value::{Kind, NoMemory, Seq};
use expr_binder::{Refusal, Unbound, Why};
use logical_build::{all_unified, with_kinds};
use logical_plan::Logical;
use sqlite_items::Items;
use std::alloc::Global;

fn unified_with(
    alloc: Global,
    kinds: &[Kind],
    place: u32,
    selected: &Selected,
) -> Result<Seq<Kind>, Unbound>
    ensures { Gives result (spec.unified_with kinds.now (place, selected.now)) }
{
    match all_unified(alloc, kinds, selected.kinds.as_slice())? {
        Some(kinds) => Ok(kinds),
        None => Err(Unbound::from(Refusal::new(Why::KindMismatch, place))),
    }
}

fn copied(alloc: Global, kinds: &[Kind]) -> Result<Seq<Kind>, NoMemory>
    ensures { IfOk result (λ copy. copy ≡ kinds.now) }
{
    Ok(Seq::from_vec(Vec::from_slice(alloc, kinds)?))
}

/// The kinds of the first select, unified with those of each later one at its place.
fn common_kinds(
    alloc: Global,
    first: &[Kind],
    later: &[(u32, Selected)],
) -> Result<Seq<Kind>, Unbound>
    ensures { Gives result (spec.common_kinds first.now later.now) }
{
    let mut kinds = copied(alloc, first)?;
    for (place, selected) in later {
        kinds = unified_with(alloc, kinds.as_slice(), *place, selected)?;
    }
    Ok(kinds)
}

/// The bodies of the later selects.
fn later_bodies(
    alloc: Global,
    unified: &[Kind],
    later: Vec<(u32, Selected)>,
) -> Result<Items<Logical>, NoMemory>
    ensures { IfOk result (λ inputs. inputs ≡ spec.bodies unified.now later.items) }
{
    let mut inputs = Items::new(alloc);
    for (_, selected) in later {
        let Selected {
            columns: _,
            names: _,
            kinds,
            body,
        } = selected;
        inputs.push(with_kinds(alloc, unified, kinds.as_slice(), body)?)?;
    }
    Ok(inputs)
}

/// Behind the first input, those of the later selects.
fn bodies(
    alloc: Global,
    unified: &[Kind],
    first: Logical,
    later: Vec<(u32, Selected)>,
) -> Result<Items<Logical>, NoMemory>
    ensures { IfOk result (λ inputs. inputs ≡ first ∷ spec.bodies unified.now later.items) }
{
    let mut inputs = Items::new(alloc);
    inputs.push(first)?;
    inputs.append(later_bodies(alloc, unified, later)?)?;
    Ok(inputs)
}

/// The kinds of a union, and its body.
fn union_body(
    alloc: Global,
    kinds: &[Kind],
    body: Logical,
    later: Vec<(u32, Selected)>,
) -> Result<(Seq<Kind>, Logical), Unbound>
    ensures { Gives result (spec.union_body kinds.now body later.items) }
{
    let unified = common_kinds(alloc, kinds, later.as_slice())?;
    let first = with_kinds(alloc, unified.as_slice(), kinds, body)?;
    let inputs = bodies(alloc, unified.as_slice(), first, later)?;
    Ok((unified, Logical::UnionAll { inputs }))
}

fn united_with(
    alloc: Global,
    first: Selected,
    later: Vec<(u32, Selected)>,
) -> Result<Selected, Unbound>
    ensures { Gives result (spec.united_with first later.items) }
{
    if later.len() == 0 {
        return Ok(first);
    }
    let Selected {
        columns: _,
        names,
        kinds,
        body,
    } = first;
    let (kinds, body) = union_body(alloc, kinds.as_slice(), body, later)?;
    Ok(Selected {
        columns: Seq::from_vec(Vec::new(alloc)),
        names,
        kinds,
        body,
    })
}

/// One select is itself; several have the names of the first, and kinds that all of them unify to.
pub fn united(alloc: Global, parts: Vec<(u32, Selected)>) -> Result<Selected, Unbound>
    ensures { Gives result (spec.united parts.items) }
{
    let mut parts = parts;
    if parts.len() == 0 {
        return Err(Unbound::from(Refusal::new(Why::Unsupported, 0)));
    }
    let (_, first) = parts.remove(0);
    united_with(alloc, first, parts)
}
