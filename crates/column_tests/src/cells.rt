//! Cells of a number and of a text.

ghost use Rattle.std.specs.Prelude.{◌≡◌, true};
ghost use Rattle.dfx_value.specs.Kinds.{is_of};
ghost use Rattle.dfx_value.specs.declared.kind.Kind.TheVariants as kind;

use dfx_value::{Text, Value};

pub fn int(number: i64) -> Value
    ensures { is_of kind.Int result ≡ true }
{
    Value::Int(number)
}

pub fn int_or_null(number: Option<i64>) -> Value
    ensures { is_of kind.Int result ≡ true }
{
    match number {
        Some(number) => int(number),
        None => Value::Null,
    }
}

#[tactic(auto, using(dfx_value::proofs::ParseLemmas::utf8_tests))]
pub fn text(text: String) -> Value
    ensures { is_of kind.Text result ≡ true }
{
    Value::Text(Text::from_string(text))
}
