//! The texts of constants, kinds and operators.

ghost use Rattle.std.specs.Prelude.{◌≡◌, ◌++◌, OnOk};
ghost use Rattle.std.specs.Char.{encode_utf8};
ghost use Rattle.std.specs.String.{string_bytes};
ghost use Rattle.plan_text.specs.ExprText as spec;

use dfx_value::{Kind, NoMemory, Op, Value, push_value};
use std::fmt::Write;

/// Appends a character, and a quote twice.
#[tactic(auto, using(crate::proofs::Quotes::quote_twice, crate::proofs::Quotes::other_once))]
fn push_character(text: &mut String, character: char) -> Result<(), NoMemory>
    ensures { OnOk result (string_bytes text.new
        ≡ string_bytes text.old ++ spec.doubled (encode_utf8 character)) }
{
    if character == '\'' {
        Ok(text.push_str("''")?)
    } else {
        Ok(text.push(character)?)
    }
}

/// Appends a text, and each quote twice.
fn push_doubled(text: &mut String, value: &str) -> Result<(), NoMemory>
    ensures { OnOk result (string_bytes text.new
        ≡ string_bytes text.old ++ spec.doubled value.now) }
{
    for character in value.chars() {
        push_character(text, character)?;
    }
    Ok(())
}

/// Appends a text as SQL writes it.
fn push_quoted(text: &mut String, value: &str) -> Result<(), NoMemory>
    ensures { OnOk result (string_bytes text.new ≡ string_bytes text.old ++ spec.quoted value.now) }
{
    text.push('\'')?;
    push_doubled(text, value)?;
    Ok(text.push('\'')?)
}

/// Appends the text of a constant.
pub fn push_constant(text: &mut String, value: &Value) -> Result<(), NoMemory>
    ensures { OnOk result (string_bytes text.new
        ≡ string_bytes text.old ++ spec.constant_text value.now) }
{
    match value {
        Value::Null => Ok(text.push_str("NULL")?),
        Value::Text(value) => push_quoted(text, value.as_str()),
        Value::Bool(_) | Value::Int(_) | Value::Dec(_) => push_value(text, value),
    }
}

fn push_decimal_kind(text: &mut String, precision: u8, scale: u8) -> Result<(), NoMemory>
    ensures { OnOk result (string_bytes text.new
        ≡ string_bytes text.old ++ spec.decimal_kind precision scale) }
{
    Ok(write!(text, "DECIMAL({precision},{scale})")?)
}

/// Appends the name of a kind.
pub fn push_kind(text: &mut String, kind: Kind) -> Result<(), NoMemory>
    ensures { OnOk result (string_bytes text.new ≡ string_bytes text.old ++ spec.kind_text kind) }
{
    match kind {
        Kind::Bool => text.push_str("BOOLEAN")?,
        Kind::Int => text.push_str("BIGINT")?,
        Kind::Dec { precision, scale } => push_decimal_kind(text, precision, scale)?,
        Kind::Text => text.push_str("VARCHAR")?,
    }
    Ok(())
}

/// Appends an operator as SQL writes it.
pub fn push_op(text: &mut String, op: Op) -> Result<(), NoMemory>
    ensures { OnOk result (string_bytes text.new ≡ string_bytes text.old ++ spec.op_text op) }
{
    match op {
        Op::Add => text.push_str("+")?,
        Op::Sub => text.push_str("-")?,
        Op::Mul => text.push_str("*")?,
        Op::Div => text.push_str("/")?,
        Op::Rem => text.push_str("%")?,
        Op::Concat => text.push_str("||")?,
        Op::Eq => text.push_str("=")?,
        Op::Ne => text.push_str("<>")?,
        Op::Lt => text.push_str("<")?,
        Op::Le => text.push_str("<=")?,
        Op::Gt => text.push_str(">")?,
        Op::Ge => text.push_str(">=")?,
        Op::And => text.push_str("AND")?,
        Op::Or => text.push_str("OR")?,
    }
    Ok(())
}

/// Appends a column: a number sign and its number.
pub fn push_column(text: &mut String, column: u32) -> Result<(), NoMemory>
    ensures { OnOk result (string_bytes text.new
        ≡ string_bytes text.old ++ spec.column_text column) }
{
    Ok(write!(text, "#{column}")?)
}
