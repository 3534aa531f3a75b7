//! Levels of binary operators.
ghost use Rattle.std.specs.Prelude.{◌≡◌};
ghost use Rattle.expr_parser.specs.Cursors as spec;

use sql_grammar::class::Class;

/// A level of binary operators that group to the left.
#[derive(Clone, Copy, Debug, Drop)]
pub enum Level {
    Product,
    Sum,
    And,
    Or,
}

const MULTIPLICATIVE: [Class; 3] = [Class::Star, Class::Slash, Class::Percent];

const ADDITIVE: [Class; 3] = [Class::Plus, Class::Minus, Class::Bars];

const AND: [Class; 1] = [Class::And];

const OR: [Class; 1] = [Class::Or];

impl Level {
    /// Its operators.
    pub fn operators(self) -> &'static [Class]
        ensures { result.now ≡ spec.operators self }
    {
        match self {
            Level::Product => &MULTIPLICATIVE,
            Level::Sum => &ADDITIVE,
            Level::And => &AND,
            Level::Or => &OR,
        }
    }
}
