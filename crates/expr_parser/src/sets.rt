//! What phrases begin with.
use sql_grammar::class::Class;

pub const COMPARING: [Class; 6] = [
    Class::Equal,
    Class::Unequal,
    Class::Less,
    Class::AtMost,
    Class::Greater,
    Class::AtLeast,
];

pub const CONSTANTS: [Class; 5] = [
    Class::Number,
    Class::Str,
    Class::Null,
    Class::True,
    Class::False,
];

pub const TESTS: [Class; 3] = [Class::Not, Class::In, Class::Between];

pub const NAMES: [Class; 21] = [
    Class::Name,
    Class::Quoted,
    Class::External,
    Class::Stored,
    Class::Csv,
    Class::Arrow,
    Class::Header,
    Class::Row,
    Class::Location,
    Class::Options,
    Class::IntType,
    Class::TextType,
    Class::BoolType,
    Class::DecimalType,
    Class::Abs,
    Class::Length,
    Class::Count,
    Class::Sum,
    Class::Min,
    Class::Max,
    Class::Avg,
];

pub const EXPR_FIRST: [Class; 32] = [
    Class::Not,
    Class::Minus,
    Class::Open,
    Class::Case,
    Class::Cast,
    Class::Coalesce,
    Class::Number,
    Class::Str,
    Class::Null,
    Class::True,
    Class::False,
    Class::Name,
    Class::Quoted,
    Class::External,
    Class::Stored,
    Class::Csv,
    Class::Arrow,
    Class::Header,
    Class::Row,
    Class::Location,
    Class::Options,
    Class::IntType,
    Class::TextType,
    Class::BoolType,
    Class::DecimalType,
    Class::Abs,
    Class::Length,
    Class::Count,
    Class::Sum,
    Class::Min,
    Class::Max,
    Class::Avg,
];

pub const ITEM_FIRST: [Class; 33] = [
    Class::Star,
    Class::Not,
    Class::Minus,
    Class::Open,
    Class::Case,
    Class::Cast,
    Class::Coalesce,
    Class::Number,
    Class::Str,
    Class::Null,
    Class::True,
    Class::False,
    Class::Name,
    Class::Quoted,
    Class::External,
    Class::Stored,
    Class::Csv,
    Class::Arrow,
    Class::Header,
    Class::Row,
    Class::Location,
    Class::Options,
    Class::IntType,
    Class::TextType,
    Class::BoolType,
    Class::DecimalType,
    Class::Abs,
    Class::Length,
    Class::Count,
    Class::Sum,
    Class::Min,
    Class::Max,
    Class::Avg,
];

pub const CALLED_FIRST: [Class; 22] = [
    Class::As,
    Class::Name,
    Class::Quoted,
    Class::External,
    Class::Stored,
    Class::Csv,
    Class::Arrow,
    Class::Header,
    Class::Row,
    Class::Location,
    Class::Options,
    Class::IntType,
    Class::TextType,
    Class::BoolType,
    Class::DecimalType,
    Class::Abs,
    Class::Length,
    Class::Count,
    Class::Sum,
    Class::Min,
    Class::Max,
    Class::Avg,
];

pub const SIDES: [Class; 3] = [Class::Left, Class::Right, Class::Full];

pub const JOIN_FIRST: [Class; 5] = [
    Class::Inner,
    Class::Left,
    Class::Right,
    Class::Full,
    Class::Join,
];

pub const SIMPLE_TYPES: [Class; 3] = [Class::IntType, Class::TextType, Class::BoolType];

pub const FORMS: [Class; 2] = [Class::Csv, Class::Arrow];
