//! Names of types.
ghost use Rattle.std.specs.Prelude.{◌≡◌, ◌≤◌, ◌<◌, IfSome, IfOk, length};
ghost use Rattle.expr_parser.specs.Cursors.{Parses, Reads, first_text};
ghost use Rattle.sql_grammar.specs.Reading as spec;
ghost use Rattle.sql_grammar.specs.Trees as tree;

use crate::cursor::Cursor;
use crate::halt::{Halt, Refusal};
use crate::sets::SIMPLE_TYPES;
use dfx_value::{Kind, NoMemory};
use sql_grammar::class::Class;
use std::alloc::Global;

fn kind_of(class: Class) -> Kind
    ensures { result ≡ tree.kind_of class }
{
    match class {
        Class::IntType => Kind::Int,
        Class::TextType => Kind::Text,
        _ => Kind::Bool,
    }
}

#[tactic(auto, unfolding(sql_grammar::specs::Reading::simple_type))]
fn simple_type(cursor: &mut Cursor<'_>) -> Result<Kind, Refusal>
    ensures { Reads (λ k. k) spec.simple_type cursor.old result cursor.new }
{
    let token = cursor.take(&SIMPLE_TYPES)?;
    Ok(kind_of(token.class()))
}

/// The number that digits write, where it is at most 38.
fn small(text: &[u8]) -> Option<u32>
    ensures value { result ≡ tree.small 0 text.now }
    ensures within { IfSome result (λ n. n ≤ 38) }
{
    let mut number: u32 = 0;
    for byte in text {
        if *byte < b'0' || *byte > b'9' {
            return None;
        }
        let next = number * 10 + (*byte - b'0') as u32;
        if next > 38 {
            return None;
        }
        number = next;
    }
    Some(number)
}

/// The number that the next token writes, where it is at most 38.
fn next_small(alloc: Global, cursor: &Cursor<'_>) -> Result<Option<u32>, NoMemory>
    requires { 0 < length cursor.now.tokens }
    ensures value { IfOk result (λ n. n ≡ tree.small 0 (first_text cursor.now.tokens)) }
    ensures within { IfOk result (λ n. IfSome n (λ k. k ≤ 38)) }
{
    let text = cursor.next_text(alloc)?;
    Ok(small(text.bytes()))
}

/// A whole number from the least to the most.
#[tactic(auto, unfolding(sql_grammar::specs::Reading::number_from, sql_grammar::specs::Reader::matching))]
fn number_from(alloc: Global, cursor: &mut Cursor<'_>, least: u8, most: u8) -> Result<u8, Halt>
    requires { most ≤ 38 }
    ensures value { Parses (spec.number_from least most) cursor.old result cursor.new }
    ensures within { IfOk result (λ n. n ≤ most) }
{
    if !cursor.starts(&[Class::Number]) {
        return Err(Refusal::Unexpected.into());
    }
    match next_small(alloc, cursor)? {
        Some(number) => {
            if number < least as u32 || number > most as u32 {
                return Err(Refusal::Unexpected.into());
            }
            cursor.take(&[Class::Number])?;
            Ok(number as u8)
        }
        None => Err(Refusal::Unexpected.into()),
    }
}

#[tactic(auto, unfolding(sql_grammar::specs::Reading::decimal))]
fn decimal(alloc: Global, cursor: &mut Cursor<'_>) -> Result<Kind, Halt>
    ensures { Parses spec.decimal cursor.old result cursor.new }
{
    cursor.take(&[Class::DecimalType])?;
    cursor.take(&[Class::Open])?;
    let precision = number_from(alloc, cursor, 1, 38)?;
    cursor.take(&[Class::Comma])?;
    let scale = number_from(alloc, cursor, 0, precision)?;
    cursor.take(&[Class::Close])?;
    Ok(Kind::Dec { precision, scale })
}

/// The name of a type.
#[tactic(auto, unfolding(sql_grammar::specs::Reading::type_name))]
pub fn type_name(alloc: Global, cursor: &mut Cursor<'_>) -> Result<Kind, Halt>
    ensures { Parses spec.type_name cursor.old result cursor.new }
{
    if cursor.starts(&SIMPLE_TYPES) {
        return Ok(simple_type(cursor)?);
    }
    decimal(alloc, cursor)
}
