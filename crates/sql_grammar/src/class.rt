//! What the grammar sees of tokens.

ghost use Rattle.std.specs.Prelude.{◌≡◌, nat_eq};
ghost use Rattle.sql_grammar.specs.Class as spec;
ghost use Rattle.sql_grammar.specs.Class.{rank};

/// What the grammar sees of a token: its symbol, or its word, or another name, number or text.
#[derive(Clone, Copy, Debug, Drop)]
pub enum Class {
    Name,
    Quoted,
    Number,
    Str,
    External,
    Stored,
    Csv,
    Arrow,
    Header,
    Row,
    Location,
    Options,
    IntType,
    TextType,
    BoolType,
    DecimalType,
    Abs,
    Length,
    Count,
    Sum,
    Min,
    Max,
    Avg,
    Create,
    Table,
    As,
    With,
    Union,
    All,
    Order,
    By,
    Limit,
    Offset,
    Asc,
    Desc,
    Nulls,
    First,
    Last,
    Select,
    Distinct,
    From,
    Where,
    Group,
    Having,
    Inner,
    Left,
    Right,
    Full,
    Outer,
    Join,
    On,
    Or,
    And,
    Not,
    Is,
    Null,
    In,
    Between,
    True,
    False,
    Case,
    When,
    Then,
    Else,
    End,
    Cast,
    Coalesce,
    Open,
    Close,
    Comma,
    Semicolon,
    Dot,
    Star,
    Plus,
    Minus,
    Slash,
    Percent,
    Equal,
    Unequal,
    Less,
    AtMost,
    Greater,
    AtLeast,
    Bars,
}

/// Whether two classes are one.
pub fn same(a: Class, b: Class) -> bool
    ensures { result ≡ nat_eq (rank a) (rank b) }
{
    a as u8 == b as u8
}

/// Whether a class is one of these.
pub fn among(class: Class, classes: &[Class]) -> bool
    ensures { result ≡ spec.among class classes.now }
{
    for one in classes {
        if same(class, *one) {
            return true;
        }
    }
    false
}
