//! Lists: elements with commas between them, 256 at most.
ghost use Rattle.std.specs.Prelude.{◌≡◌};
ghost use Rattle.expr_parser.specs.Cursors.{ParsesAs, Stops, lim};
ghost use Rattle.sql_grammar.specs.Reader.{Reader};
ghost use Rattle.sql_grammar.specs.Reading as spec;

use crate::cursor::Cursor;
use crate::halt::{Halt, Refusal};
use sql_grammar::class::Class;
use std::alloc::Global;

/// How many elements may follow the first of a list.
pub const MORE: usize = 255;

/// Reads the elements of a list.
pub trait Element {
    type Item: Drop;

    ghost use Rattle.expr_parser.specs.Cursors.{Parses};
    ghost use Rattle.sql_grammar.specs.Reader.{Reader};

    /// What reads an element of the grammar.
    ghost reader: { Self → Reader Self.Item };

    /// Reads the element before which the cursor stands.
    fn read(&self, alloc: Global, cursor: &mut Cursor<'_>) -> Result<Self::Item, Halt>
        ensures { Parses (reader self.now) cursor.old result cursor.new };
}

/// Reads an element behind those that were found.
fn add<E: Element>(
    alloc: Global,
    cursor: &mut Cursor<'_>,
    element: &E,
    mut found: Vec<E::Item>,
) -> Result<Vec<E::Item>, Halt>
    ensures { ParsesAs (λ f. f.items) (spec.item_of (E.reader element.now) found.items)
        cursor.old result cursor.new }
{
    let next = element.read(alloc, cursor)?;
    found.push(next)?;
    Ok(found)
}

/// Reads a comma and an element.
fn next<E: Element>(
    alloc: Global,
    cursor: &mut Cursor<'_>,
    element: &E,
    found: Vec<E::Item>,
) -> Result<Vec<E::Item>, Halt>
    ensures { ParsesAs (λ f. f.items)
        (spec.behind (spec.item_of (E.reader element.now)) found.items)
        cursor.old result cursor.new }
{
    cursor.take(&[Class::Comma])?;
    add(alloc, cursor, element, found)
}

/// Why a comma is refused at the element behind it, where there are as many as a list may have.
pub fn past(cursor: &mut Cursor<'_>, first: &[Class]) -> Refusal
    ensures { Stops (spec.full first.now) cursor.old result cursor.new }
{
    match cursor.take(&[Class::Comma]) {
        Ok(_comma) => cursor.no_more(first),
        Err(why) => why,
    }
}

/// Reads the elements behind the first ones, each of which begins with one of these classes.
fn more<E: Element>(
    alloc: Global,
    cursor: &mut Cursor<'_>,
    element: &E,
    first: &[Class],
    mut found: Vec<E::Item>,
) -> Result<Vec<E::Item>, Halt>
    ensures { ParsesAs (λ f. f.items)
        (spec.listing first.now (spec.item_of (E.reader element.now)) lim.more found.items)
        cursor.old result cursor.new }
{
    for _turn in 0..MORE {
        if !cursor.starts(&[Class::Comma]) {
            return Ok(found);
        }
        found = next(alloc, cursor, element, found)?;
    }
    if !cursor.starts(&[Class::Comma]) {
        return Ok(found);
    }
    Err(past(cursor, first).into())
}

/// Reads a list of elements that begin with these classes.
///
/// TooMany at the first token of the 257th element.
pub fn listed<E: Element>(
    alloc: Global,
    cursor: &mut Cursor<'_>,
    element: &E,
    first: &[Class],
) -> Result<Vec<E::Item>, Halt>
    ensures { ParsesAs (λ f. f.items) (spec.listed first.now lim.more (E.reader element.now))
        cursor.old result cursor.new }
{
    let found = add(alloc, cursor, element, Vec::new(alloc))?;
    more(alloc, cursor, element, first, found)
}

/// Reads a list in its parentheses.
pub fn enclosed<E: Element>(
    alloc: Global,
    cursor: &mut Cursor<'_>,
    element: &E,
    first: &[Class],
) -> Result<Vec<E::Item>, Halt>
    ensures { ParsesAs (λ f. f.items) (spec.enclosed first.now lim.more (E.reader element.now))
        cursor.old result cursor.new }
{
    cursor.take(&[Class::Open])?;
    let found = listed(alloc, cursor, element, first)?;
    cursor.take(&[Class::Close])?;
    Ok(found)
}
