//! Where the items of a select stand.

ghost use Rattle.std.specs.Prelude.{◌≡◌, ◌<◌, IfOk, IfSome, Some, None, length, slice_index_or};
ghost use Rattle.std.specs.Option.{option_copied};
ghost use Rattle.sql_binder.specs.Firsts as spec;
ghost use Rattle.sql_binder.specs.Items.{key_from};

use dfx_value::NoMemory;
use expr_binder::{Column, Grouping, column_of};
use sql_grammar::ast::{ExprAst, NodeAst};
use std::alloc::Global;
use std::marker::Model;

/// The one column of which an expression is the name.
fn column_named(columns: &[Column], expr: &ExprAst) -> Option<usize>
    ensures number { result ≡ spec.column_named columns.now expr.now }
    ensures within { IfSome result (λ k. k < length columns.now) }
{
    match &expr.node {
        NodeAst::Name(alias, name) => match column_of(columns, 0, alias, name) {
            Ok(number) => Some(number),
            Err(_) => None,
        },
        _ => None,
    }
}

/// For each column the first key that is its name. The name of each key is looked up once.
fn first_keys(
    alloc: Global,
    columns: &[Column],
    keys: &[ExprAst],
) -> Result<Vec<Option<usize>>, NoMemory>
    ensures { IfOk result (λ firsts. firsts.items ≡ spec.firsts_from columns.now 0 keys.now) }
{
    let mut firsts = vec![in alloc; None; columns.len()]?;
    for at in (0..keys.len()).rev() {
        if let Some(number) = column_named(columns, &keys[at]) {
            firsts[number] = Some(at);
        }
    }
    Ok(firsts)
}

fn first_at(firsts: &[Option<usize>], number: usize) -> Option<usize>
    ensures { result ≡ slice_index_or firsts.now number None }
{
    match firsts.get(number) {
        Some(first) => *first,
        None => None,
    }
}

/// Where the items of a select stand: over its columns, or over groups.
#[derive(Drop)]
pub struct Scope<'a> {
    columns: &'a [Column],
    groups: Option<Grouping<'a>>,
    /// Over groups, for each column the first key that is its name.
    firsts: Vec<Option<usize>>,
}

impl<'a> Model for Scope<'a> {
    ghost use Rattle.std.specs.Prelude.{◌≡◌, IfSome};
    ghost use Rattle.std.specs.Coded.{codes};
    ghost use Rattle.sql_grammar.specs.contracts.ast.ExprAst as tree;
    ghost use Rattle.sql_binder.specs.Firsts.{Stand, firsts_from};

    ghost Value = { Stand };

    ghost coded = { Prim.hlevel (codes, tree.the_row.coded) };

    ghost view = { λ s. record { columns = s.columns.now; over = s.groups } };

    ghost invariant = { λ s. IfSome s.groups
        (λ g. s.firsts.items ≡ firsts_from s.columns.now 0 g.keys) };
}

impl<'a> Scope<'a> {
    /// Over the columns themselves.
    pub fn of_columns(alloc: Global, columns: &'a [Column]) -> Scope<'a>
        ensures { result ≡ record { columns = columns.now; over = None } }
    {
        Scope {
            columns,
            groups: None,
            firsts: Vec::new(alloc),
        }
    }

    /// Over groups.
    pub fn of_groups(
        alloc: Global,
        columns: &'a [Column],
        groups: Grouping<'a>,
    ) -> Result<Scope<'a>, NoMemory>
        ensures { IfOk result
            (λ s. s ≡ record { columns = columns.now; over = Some groups.entry }) }
    {
        let firsts = first_keys(alloc, columns, groups.keys)?;
        Ok(Scope {
            columns,
            groups: Some(groups),
            firsts,
        })
    }

    pub fn columns(&self) -> &'a [Column]
        ensures { result.now ≡ self.now.columns }
    {
        self.columns
    }

    pub fn groups(&self) -> Option<&Grouping<'a>>
        ensures { option_copied result ≡ self.now.over }
    {
        self.groups.as_ref()
    }

    /// Over groups, the first key that is this column.
    pub fn key_of_column(&self, number: usize) -> Option<usize>
        requires { number < length self.now.columns }
        ensures { IfSome self.now.over (λ g. result ≡ key_from self.now.columns number 0 g.keys) }
    {
        first_at(&self.firsts, number)
    }
}
