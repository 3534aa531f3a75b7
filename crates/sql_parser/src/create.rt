//! Declarations of tables.
ghost use Rattle.std.specs.Prelude.{◌≡◌, [], option_map};
ghost use Rattle.expr_parser.specs.Cursors.{Parses, ParsesAs, Reads, lim};
ghost use Rattle.sql_grammar.specs.Grammar.{one};
ghost use Rattle.sql_grammar.specs.Reader.{maybe, over, too_many, up_to};
ghost use Rattle.sql_grammar.specs.Reading as spec;
ghost use Rattle.sql_grammar.specs.Trees as tree;
ghost use Rattle.sql_grammar.specs.declared.class.Class.TheVariants as class;

use dfx_value::{Kind, Seq, Text};
use expr_parser::cursor::{Cursor, Seen};
use expr_parser::halt::{Halt, Refusal};
use expr_parser::kind::type_name;
use expr_parser::list::{Element, enclosed};
use expr_parser::sets::{FORMS, NAMES};
use sql_grammar::ast::TableAst;
use sql_grammar::class::Class;
use std::alloc::Global;

/// A column of a declaration: its name and its kind.
#[derive(Clone, Copy, Drop)]
struct Column;

impl Element for Column {
    type Item = (Text, Kind);

    ghost reader = { λ _. spec.column };

    #[tactic(auto, unfolding(sql_grammar::specs::Reading::column))]
    fn read(&self, alloc: Global, cursor: &mut Cursor<'_>) -> Result<(Text, Kind), Halt> {
        let name = cursor.take(&NAMES)?;
        let kind = type_name(alloc, cursor)?;
        Ok((name.text(alloc)?, kind))
    }
}

/// The columns in their parentheses, where there are any.
#[tactic(auto, unfolding(sql_grammar::specs::Reading::columns_of))]
fn columns_of(alloc: Global, cursor: &mut Cursor<'_>) -> Result<Option<Seq<(Text, Kind)>>, Halt>
    ensures { Parses (maybe (one class.Open) (spec.columns_of lim.more))
        cursor.old result cursor.new }
{
    if !cursor.starts(&[Class::Open]) {
        return Ok(None);
    }
    let found = enclosed(alloc, cursor, &Column, &NAMES)?;
    Ok(Some(Seq::from_vec(found)))
}

/// An option of a table: its key and its value.
#[derive(Clone, Copy, Drop)]
struct Setting;

impl Element for Setting {
    type Item = (Text, Text);

    ghost reader = { λ _. spec.setting };

    #[tactic(auto, unfolding(sql_grammar::specs::Reading::setting))]
    fn read(&self, alloc: Global, cursor: &mut Cursor<'_>) -> Result<(Text, Text), Halt> {
        let key = cursor.take(&[Class::Str])?;
        let value = cursor.take(&[Class::Str])?;
        let key = key.text(alloc)?;
        Ok((key, value.text(alloc)?))
    }
}

/// OPTIONS, where there are any.
#[tactic(auto, unfolding(sql_grammar::specs::Reading::settings))]
fn settings(alloc: Global, cursor: &mut Cursor<'_>) -> Result<Option<Seq<(Text, Text)>>, Halt>
    ensures { Parses (maybe (one class.Options) (spec.settings lim.more))
        cursor.old result cursor.new }
{
    if !cursor.starts(&[Class::Options]) {
        return Ok(None);
    }
    cursor.take(&[Class::Options])?;
    let found = enclosed(alloc, cursor, &Setting, &[Class::Str])?;
    Ok(Some(Seq::from_vec(found)))
}

#[tactic(auto, unfolding(sql_grammar::specs::Reading::header_row))]
fn header_row<'a>(cursor: &mut Cursor<'a>) -> Result<Option<&'a Seen<'a>>, Refusal>
    ensures { Reads (option_map (λ t. t.now)) (maybe (one class.With) spec.header_row)
        cursor.old result cursor.new }
{
    if !cursor.starts(&[Class::With]) {
        return Ok(None);
    }
    cursor.take(&[Class::With])?;
    cursor.take(&[Class::Header])?;
    Ok(Some(cursor.take(&[Class::Row])?))
}

fn or_empty<T>(alloc: Global, found: Option<Seq<T>>) -> Seq<T>
    ensures { result ≡ tree.or_empty found }
{
    match found {
        Some(found) => found,
        None => Seq::from_vec(Vec::new(alloc)),
    }
}

fn is_arrow(class: Class) -> bool
    ensures { result ≡ tree.is_arrow class }
{
    match class {
        Class::Arrow => true,
        _ => false,
    }
}

/// A table's declaration.
#[tactic(auto, unfolding(sql_grammar::specs::Reading::create))]
fn create(alloc: Global, cursor: &mut Cursor<'_>) -> Result<TableAst, Halt>
    ensures { Parses (spec.create lim.more) cursor.old result cursor.new }
{
    let word = cursor.take(&[Class::Create])?;
    cursor.take(&[Class::External])?;
    cursor.take(&[Class::Table])?;
    let name = cursor.take(&NAMES)?;
    let columns = columns_of(alloc, cursor)?;
    cursor.take(&[Class::Stored])?;
    cursor.take(&[Class::As])?;
    let form = cursor.take(&FORMS)?;
    header_row(cursor)?;
    cursor.take(&[Class::Location])?;
    let path = cursor.take(&[Class::Str])?;
    let options = settings(alloc, cursor)?;
    let name = name.text(alloc)?;
    Ok(TableAst {
        name,
        columns: or_empty(alloc, columns),
        arrow: is_arrow(form.class()),
        location: path.text(alloc)?,
        options: or_empty(alloc, options),
        place: word.place(),
    })
}

#[tactic(auto, unfolding(sql_grammar::specs::Reading::declared))]
fn declared(
    alloc: Global,
    cursor: &mut Cursor<'_>,
    mut tables: Vec<TableAst>,
) -> Result<Vec<TableAst>, Halt>
    ensures { ParsesAs (λ t. t.items) (spec.declared lim.more tables.items)
        cursor.old result cursor.new }
{
    let table = create(alloc, cursor)?;
    cursor.take(&[Class::Semicolon])?;
    tables.push(table)?;
    Ok(tables)
}

/// The tables that a script declares, 64 at most.
pub fn tables_of(alloc: Global, cursor: &mut Cursor<'_>) -> Result<Vec<TableAst>, Halt>
    ensures { ParsesAs (λ t. t.items)
        (up_to (one class.Create) (spec.declared lim.more) (over too_many (one class.Create)) 64 [])
        cursor.old result cursor.new }
{
    let mut tables = Vec::new(alloc);
    for _turn in 0..64usize {
        if !cursor.starts(&[Class::Create]) {
            return Ok(tables);
        }
        tables = declared(alloc, cursor, tables)?;
    }
    if !cursor.starts(&[Class::Create]) {
        return Ok(tables);
    }
    Err(Refusal::TooMany.into())
}
