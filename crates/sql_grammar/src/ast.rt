//! The trees of scripts.

use dfx_value::{JoinKind, Kind, Op, Seq, Text};
use sqlite_items::{Boxed, Items};

/// A script: its tables, and the query as selects to be united, with an order and limits.
#[derive(Drop)]
pub struct Script {
    pub tables: Seq<TableAst>,
    pub parts: Items<SelectAst>,
    pub order: Seq<KeyAst>,
    pub limit: Option<NumberAst>,
    pub offset: Option<NumberAst>,
}

/// A table over files; `arrow` tells Arrow from CSV.
#[derive(Drop)]
pub struct TableAst {
    pub name: Text,
    pub columns: Seq<(Text, Kind)>,
    pub arrow: bool,
    pub location: Text,
    pub options: Seq<(Text, Text)>,
    /// The place of CREATE.
    pub place: u32,
}

/// One select.
#[derive(Drop)]
#[cycle(select)]
pub struct SelectAst {
    pub distinct: bool,
    pub items: Items<ItemAst>,
    pub first: FromAst,
    pub joins: Items<JoinAst>,
    pub test: Option<ExprAst>,
    pub groups: Items<ExprAst>,
    pub having: Option<ExprAst>,
    /// The place of SELECT.
    pub place: u32,
}

/// An item of a select list: `*`, `name.*`, or an expression with its name where one is given.
#[derive(Drop)]
pub enum ItemAst {
    All { place: u32 },
    AllOf { name: Text, place: u32 },
    One { expr: ExprAst, name: Option<Text> },
}

/// What a select reads: a table, or a derived one. A missing alias is the table's name.
#[derive(Drop)]
#[cycle(select)]
pub enum FromAst {
    Named {
        table: Text,
        alias: Text,
        /// The place of the table's name.
        place: u32,
    },
    Derived {
        parts: Items<SelectAst>,
        alias: Text,
        /// The place of `(`.
        place: u32,
    },
}

/// A join with what stands to its right.
#[derive(Drop)]
#[cycle(select)]
pub struct JoinAst {
    pub kind: JoinKind,
    pub right: FromAst,
    pub on: ExprAst,
}

/// A key of ORDER BY. NULLs come last where it ascends and first where it descends, unless written.
#[derive(Drop)]
pub struct KeyAst {
    pub expr: ExprAst,
    pub descending: bool,
    pub nulls_first: bool,
}

/// A number as written.
#[derive(Drop)]
pub struct NumberAst {
    pub text: Text,
    pub place: u32,
}

/// An expression, with the place of its node: that of its first token, or of its operator.
#[derive(Drop)]
#[cycle(expr)]
pub struct ExprAst {
    pub place: u32,
    pub node: NodeAst,
}

/// What an expression is. IN, BETWEEN and the NOT forms are read as the nodes that they stand for.
#[derive(Drop)]
#[cycle(expr)]
pub enum NodeAst {
    Number(Text),
    Str(Text),
    Null,
    Truth(bool),
    /// A column, with the table's alias before it where one is written.
    Name(Option<Text>, Text),
    Call(FnAst, Items<ExprAst>),
    /// COUNT(*)
    CountAll,
    Not(Boxed<ExprAst>),
    Neg(Boxed<ExprAst>),
    IsNull(Boxed<ExprAst>),
    Binary(Op, Boxed<ExprAst>, Boxed<ExprAst>),
    /// The tests with their results, and the result of ELSE.
    Case(Items<(ExprAst, ExprAst)>, Option<Boxed<ExprAst>>),
    Cast(Boxed<ExprAst>, Kind),
}

/// A function or an aggregate.
#[derive(Clone, Copy, Debug, Drop)]
pub enum FnAst {
    Coalesce,
    Abs,
    Length,
    Count,
    Sum,
    Min,
    Max,
    Avg,
}
