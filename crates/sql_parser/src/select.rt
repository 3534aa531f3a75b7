//! Selects and what they read.
ghost use Rattle.std.specs.Prelude.{◌≡◌, ◌<◌, [], IfOk, option_map};
ghost use Rattle.expr_parser.specs.Cursors.{Parses, Reads, at_depth, below};
ghost use Rattle.sql_grammar.specs.Grammar.{one};
ghost use Rattle.sql_grammar.specs.Reader.{inside, maybe, turns};
ghost use Rattle.sql_grammar.specs.Reading as spec;
ghost use Rattle.sql_grammar.specs.Reading.{called_first, join_first};
ghost use Rattle.sql_grammar.specs.Trees as tree;
ghost use Rattle.sql_grammar.specs.declared.class.Class.TheVariants as class;

use dfx_value::{JoinKind, NoMemory, Text};
use expr_parser::cursor::{Cursor, Seen};
use expr_parser::expr::whole_expr;
use expr_parser::halt::{Halt, Refusal};
use expr_parser::list::{Element, listed};
use expr_parser::sets::{CALLED_FIRST, EXPR_FIRST, ITEM_FIRST, JOIN_FIRST, NAMES, SIDES};
use sql_grammar::ast::{ExprAst, FromAst, ItemAst, JoinAst, SelectAst};
use sql_grammar::class::Class;
use sqlite_items::Items;
use std::alloc::Global;

/// How many tables a query may name.
const TABLES: usize = 64;

/// `[AS] name`
#[tactic(auto, unfolding(sql_grammar::specs::Reading::called))]
fn called<'a>(cursor: &mut Cursor<'a>) -> Result<&'a Seen<'a>, Refusal>
    ensures { Reads (λ t. t.now) spec.called cursor.old result cursor.new }
{
    if cursor.starts(&[Class::As]) {
        cursor.take(&[Class::As])?;
        return cursor.take(&NAMES);
    }
    cursor.take(&NAMES)
}

fn maybe_called<'a>(cursor: &mut Cursor<'a>) -> Result<Option<&'a Seen<'a>>, Refusal>
    ensures { Reads (option_map (λ t. t.now)) (maybe called_first spec.called)
        cursor.old result cursor.new }
{
    if cursor.starts(&CALLED_FIRST) {
        let name = called(cursor)?;
        return Ok(Some(name));
    }
    Ok(None)
}

fn text_of(alloc: Global, name: Option<&Seen<'_>>) -> Result<Option<Text>, NoMemory>
    ensures { IfOk result (λ t. t ≡ tree.text_of (option_map (λ t. t.now) name.entry)) }
{
    match name {
        Some(token) => Ok(Some(token.text(alloc)?)),
        None => Ok(None),
    }
}

/// A missing alias is the table's name.
fn alias_or(alloc: Global, alias: Option<&Seen<'_>>, table: &Seen<'_>) -> Result<Text, NoMemory>
    ensures { IfOk result (λ t.
        t ≡ tree.alias_or (option_map (λ t. t.now) alias.entry) table.now.text) }
{
    match alias {
        Some(token) => token.text(alloc),
        None => table.text(alloc),
    }
}

#[tactic(auto, unfolding(sql_grammar::specs::Reading::all_item))]
fn all_item(cursor: &mut Cursor<'_>, depth: usize) -> Result<ItemAst, Refusal>
    ensures { Reads (λ i. i) (at_depth spec.all_item depth) cursor.old result cursor.new }
{
    let star = cursor.take(&[Class::Star])?;
    Ok(ItemAst::All {
        place: star.place(),
    })
}

#[tactic(auto, unfolding(sql_grammar::specs::Reading::all_of_item))]
fn all_of_item(alloc: Global, cursor: &mut Cursor<'_>, depth: usize) -> Result<ItemAst, Halt>
    ensures { Parses (at_depth spec.all_of_item depth) cursor.old result cursor.new }
{
    let table = cursor.take(&NAMES)?;
    cursor.take(&[Class::Dot])?;
    cursor.take(&[Class::Star])?;
    Ok(ItemAst::AllOf {
        name: table.text(alloc)?,
        place: table.place(),
    })
}

#[tactic(auto, unfolding(sql_grammar::specs::Reading::one_item))]
fn one_item(alloc: Global, cursor: &mut Cursor<'_>, depth: usize) -> Result<ItemAst, Halt>
    ensures { Parses (at_depth spec.one_item depth) cursor.old result cursor.new }
{
    let expr = whole_expr(alloc, cursor, depth)?;
    let name = maybe_called(cursor)?;
    Ok(ItemAst::One {
        expr,
        name: text_of(alloc, name)?,
    })
}

/// An item of a select list, with room for so many levels.
#[derive(Clone, Copy, Drop)]
struct SelectItem {
    depth: usize,
}

impl Element for SelectItem {
    type Item = ItemAst;

    ghost reader = { λ i. at_depth spec.select_item i.depth };

    #[tactic(auto, unfolding(sql_grammar::specs::Reading::select_item, sql_grammar::specs::Reading::named_item))]
    fn read(&self, alloc: Global, cursor: &mut Cursor<'_>) -> Result<ItemAst, Halt> {
        if cursor.starts(&[Class::Star]) {
            return Ok(all_item(cursor, self.depth)?);
        }
        if cursor.all_of_ahead() {
            return all_of_item(alloc, cursor, self.depth);
        }
        one_item(alloc, cursor, self.depth)
    }
}

#[tactic(auto, unfolding(sql_grammar::specs::Reading::table_name))]
fn table_name(alloc: Global, cursor: &mut Cursor<'_>, depth: usize) -> Result<FromAst, Halt>
    ensures { Parses (at_depth spec.table_name depth) cursor.old result cursor.new }
{
    cursor.pay(TABLES, 1, &NAMES)?;
    let table = cursor.take(&NAMES)?;
    let alias = maybe_called(cursor)?;
    let name = table.text(alloc)?;
    Ok(FromAst::Named {
        table: name,
        alias: alias_or(alloc, alias, table)?,
        place: table.place(),
    })
}

/// The selects of a derived table, with room for a level less.
#[cycle(select)]
fn nested_union(
    alloc: Global,
    cursor: &mut Cursor<'_>,
    depth: usize,
) -> Result<Items<SelectAst>, Halt>
    requires { 0 < depth }
    ensures { Parses (below depth).union cursor.old result cursor.new }
{
    union_of(alloc, cursor, depth - 1)
}

#[cycle(select)]
#[tactic(auto, unfolding(sql_grammar::specs::Reading::nested))]
fn nested(
    alloc: Global,
    cursor: &mut Cursor<'_>,
    depth: usize,
) -> Result<(u32, Items<SelectAst>), Halt>
    ensures { Parses (inside (one class.Open) depth (at_depth spec.nested depth))
        cursor.old result cursor.new }
{
    if depth == 0 {
        return Err(cursor.no_room(&[Class::Open]).into());
    }
    let open = cursor.take(&[Class::Open])?;
    let parts = nested_union(alloc, cursor, depth)?;
    cursor.take(&[Class::Close])?;
    Ok((open.place(), parts))
}

#[cycle(select)]
#[tactic(auto, unfolding(sql_grammar::specs::Reading::derived_table))]
fn derived_table(alloc: Global, cursor: &mut Cursor<'_>, depth: usize) -> Result<FromAst, Halt>
    ensures { Parses (at_depth spec.derived_table depth) cursor.old result cursor.new }
{
    let (place, parts) = nested(alloc, cursor, depth)?;
    let alias = called(cursor)?;
    Ok(FromAst::Derived {
        parts,
        alias: alias.text(alloc)?,
        place,
    })
}

#[cycle(select)]
#[tactic(auto, unfolding(sql_grammar::specs::Reading::from_of))]
fn from_of(alloc: Global, cursor: &mut Cursor<'_>, depth: usize) -> Result<FromAst, Halt>
    ensures { Parses (at_depth spec.from_of depth) cursor.old result cursor.new }
{
    if cursor.starts(&[Class::Open]) {
        return derived_table(alloc, cursor, depth);
    }
    table_name(alloc, cursor, depth)
}

fn side_of(class: Class) -> JoinKind
    ensures { result ≡ tree.side_of class }
{
    match class {
        Class::Left => JoinKind::Left,
        Class::Right => JoinKind::Right,
        _ => JoinKind::Full,
    }
}

#[tactic(auto, unfolding(sql_grammar::specs::Reading::join_words, sql_grammar::specs::Reading::inner_join, sql_grammar::specs::Reading::outer_join, sql_grammar::specs::Reading::plain_join))]
fn join_words(cursor: &mut Cursor<'_>, depth: usize) -> Result<JoinKind, Refusal>
    ensures { Reads (λ k. k) (at_depth spec.join_words depth) cursor.old result cursor.new }
{
    if cursor.starts(&[Class::Inner]) {
        cursor.take(&[Class::Inner])?;
        cursor.take(&[Class::Join])?;
        return Ok(JoinKind::Inner);
    }
    if cursor.starts(&SIDES) {
        let side = cursor.take(&SIDES)?;
        cursor.maybe(&[Class::Outer])?;
        cursor.take(&[Class::Join])?;
        return Ok(side_of(side.class()));
    }
    cursor.take(&[Class::Join])?;
    Ok(JoinKind::Inner)
}

#[tactic(auto, unfolding(sql_grammar::specs::Trees::join_ast))]
fn join_ast(kind: JoinKind, right: FromAst, on: ExprAst) -> JoinAst
    ensures { result ≡ tree.join_ast kind right on }
{
    JoinAst { kind, right, on }
}

#[cycle(select)]
#[tactic(auto, unfolding(sql_grammar::specs::Reading::join_of))]
fn join_of(
    alloc: Global,
    cursor: &mut Cursor<'_>,
    depth: usize,
    mut joins: Items<JoinAst>,
) -> Result<Items<JoinAst>, Halt>
    ensures { Parses (at_depth spec.join_of depth joins) cursor.old result cursor.new }
{
    let kind = join_words(cursor, depth)?;
    let right = from_of(alloc, cursor, depth)?;
    cursor.take(&[Class::On])?;
    let on = whole_expr(alloc, cursor, depth)?;
    joins.push(join_ast(kind, right, on))?;
    Ok(joins)
}

#[cycle(select)]
fn joins_of(alloc: Global, cursor: &mut Cursor<'_>, depth: usize) -> Result<Items<JoinAst>, Halt>
    ensures { Parses (turns join_first (at_depth spec.join_of depth) [])
        cursor.old result cursor.new }
{
    let mut joins = Items::new(alloc);
    for _turn in 0..cursor.left() {
        if !cursor.starts(&JOIN_FIRST) {
            return Ok(joins);
        }
        joins = join_of(alloc, cursor, depth, joins)?;
    }
    Ok(joins)
}

/// WHERE and HAVING.
#[tactic(auto, unfolding(sql_grammar::specs::Reading::where_of))]
fn where_of(alloc: Global, cursor: &mut Cursor<'_>, depth: usize) -> Result<Option<ExprAst>, Halt>
    ensures { Parses (maybe (one class.Where) (at_depth spec.where_of depth))
        cursor.old result cursor.new }
{
    if !cursor.starts(&[Class::Where]) {
        return Ok(None);
    }
    cursor.take(&[Class::Where])?;
    Ok(Some(whole_expr(alloc, cursor, depth)?))
}

#[tactic(auto, unfolding(sql_grammar::specs::Reading::having_of))]
fn having_of(alloc: Global, cursor: &mut Cursor<'_>, depth: usize) -> Result<Option<ExprAst>, Halt>
    ensures { Parses (maybe (one class.Having) (at_depth spec.having_of depth))
        cursor.old result cursor.new }
{
    if !cursor.starts(&[Class::Having]) {
        return Ok(None);
    }
    cursor.take(&[Class::Having])?;
    Ok(Some(whole_expr(alloc, cursor, depth)?))
}

/// An expression of GROUP BY, with room for so many levels.
#[derive(Clone, Copy, Drop)]
struct GroupKey {
    depth: usize,
}

impl Element for GroupKey {
    type Item = ExprAst;

    ghost reader = { λ k. at_depth spec.whole_expr k.depth };

    fn read(&self, alloc: Global, cursor: &mut Cursor<'_>) -> Result<ExprAst, Halt> {
        whole_expr(alloc, cursor, self.depth)
    }
}

#[tactic(auto, unfolding(sql_grammar::specs::Reading::group_by))]
fn group_by(
    alloc: Global,
    cursor: &mut Cursor<'_>,
    depth: usize,
) -> Result<Option<Items<ExprAst>>, Halt>
    ensures { Parses (maybe (one class.Group) (at_depth spec.group_by depth))
        cursor.old result cursor.new }
{
    if !cursor.starts(&[Class::Group]) {
        return Ok(None);
    }
    cursor.take(&[Class::Group])?;
    cursor.take(&[Class::By])?;
    let found = listed(alloc, cursor, &GroupKey { depth }, &EXPR_FIRST)?;
    Ok(Some(Items::from_vec(found)))
}

/// What a select is made of, without its place.
#[derive(Drop)]
struct Parts {
    items: Items<ItemAst>,
    first: FromAst,
    joins: Items<JoinAst>,
    test: Option<ExprAst>,
    groups: Option<Items<ExprAst>>,
    having: Option<ExprAst>,
}

fn or_none(alloc: Global, groups: Option<Items<ExprAst>>) -> Items<ExprAst>
    ensures { result ≡ tree.or_empty groups }
{
    match groups {
        Some(groups) => groups,
        None => Items::new(alloc),
    }
}

#[tactic(auto, unfolding(sql_grammar::specs::Trees::select_of))]
fn select_of(alloc: Global, word: &Seen<'_>, distinct: Option<&Seen<'_>>, parts: Parts) -> SelectAst
    ensures { result ≡ tree.select_of word.now (option_map (λ t. t.now) distinct.entry)
        parts.items parts.first parts.joins parts.test parts.groups parts.having }
{
    let Parts {
        items,
        first,
        joins,
        test,
        groups,
        having,
    } = parts;
    SelectAst {
        distinct: distinct.is_some(),
        items,
        first,
        joins,
        test,
        groups: or_none(alloc, groups),
        having,
        place: word.place(),
    }
}

#[cycle(select)]
#[tactic(auto, unfolding(sql_grammar::specs::Reading::select))]
fn select(alloc: Global, cursor: &mut Cursor<'_>, depth: usize) -> Result<SelectAst, Halt>
    ensures { Parses (at_depth spec.select depth) cursor.old result cursor.new }
{
    let word = cursor.take(&[Class::Select])?;
    let distinct = cursor.maybe(&[Class::Distinct])?;
    let items = Items::from_vec(listed(alloc, cursor, &SelectItem { depth }, &ITEM_FIRST)?);
    cursor.take(&[Class::From])?;
    let first = from_of(alloc, cursor, depth)?;
    let joins = joins_of(alloc, cursor, depth)?;
    let test = where_of(alloc, cursor, depth)?;
    let groups = group_by(alloc, cursor, depth)?;
    let having = having_of(alloc, cursor, depth)?;
    Ok(select_of(
        alloc,
        word,
        distinct,
        Parts {
            items,
            first,
            joins,
            test,
            groups,
            having,
        },
    ))
}

#[cycle(select)]
#[tactic(auto, unfolding(sql_grammar::specs::Reading::united))]
fn united(
    alloc: Global,
    cursor: &mut Cursor<'_>,
    depth: usize,
    mut parts: Items<SelectAst>,
) -> Result<Items<SelectAst>, Halt>
    ensures { Parses (at_depth spec.united depth parts) cursor.old result cursor.new }
{
    cursor.take(&[Class::Union])?;
    cursor.take(&[Class::All])?;
    let next = select(alloc, cursor, depth)?;
    parts.push(next)?;
    Ok(parts)
}

#[cycle(select)]
fn more_parts(
    alloc: Global,
    cursor: &mut Cursor<'_>,
    depth: usize,
    mut parts: Items<SelectAst>,
) -> Result<Items<SelectAst>, Halt>
    ensures { Parses (turns (one class.Union) (at_depth spec.united depth) parts)
        cursor.old result cursor.new }
{
    for _turn in 0..cursor.left() {
        if !cursor.starts(&[Class::Union]) {
            return Ok(parts);
        }
        parts = united(alloc, cursor, depth, parts)?;
    }
    Ok(parts)
}

/// Selects to be united, with room for so many levels.
#[cycle(select)]
#[tactic(auto, unfolding(sql_grammar::specs::Reading::union_of))]
pub fn union_of(
    alloc: Global,
    cursor: &mut Cursor<'_>,
    depth: usize,
) -> Result<Items<SelectAst>, Halt>
    ensures { Parses (at_depth spec.union_of depth) cursor.old result cursor.new }
{
    let first = select(alloc, cursor, depth)?;
    let mut parts = Items::new(alloc);
    parts.push(first)?;
    more_parts(alloc, cursor, depth, parts)
}
