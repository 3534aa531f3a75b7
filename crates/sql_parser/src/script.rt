//! Scripts: tables, a union of selects, an order and limits.
ghost use Rattle.std.specs.Prelude.{◌≡◌, ◌<◌, ◌≤◌, ◌^◌, ℕ, IfOk, All, Err, length, map, option_map};
ghost use Rattle.sql_lexer.specs.Parts.{IsToken};
ghost use Rattle.expr_parser.specs.Cursors.{Parses, Reads, at_depth};
ghost use Rattle.sql_grammar.specs.Grammar.{ScriptAt, Spells, SpellsWithin, one};
ghost use Rattle.sql_grammar.specs.Reader.{maybe, only};
ghost use Rattle.sql_grammar.specs.Reading as spec;
ghost use Rattle.sql_grammar.specs.Parsed.{Answers, answer, parsed, read, tokens_of};
ghost use Rattle.sql_grammar.specs.Refusals.{Gives, IsPassed, IsRefused};
ghost use Rattle.sql_grammar.specs.Trees as tree;
ghost use Rattle.sql_grammar.specs.TokenClasses.{seen};
ghost use Rattle.sql_grammar.specs.declared.ast.Script as ast;
ghost use Rattle.sql_grammar.specs.declared.class.Class.TheVariants as class;
ghost use Rattle.sql_grammar.specs.declared.refused.SyntaxRefused.TheVariants.{
  TooDeep,
  TooMany,
  Unexpected,
};

use crate::create::tables_of;
use crate::select::union_of;
use dfx_value::{NoMemory, Seq};
use expr_parser::cursor::{Cursor, Seen};
use expr_parser::expr::whole_expr;
use expr_parser::halt::{Halt, Refusal};
use expr_parser::list::{Element, listed};
use expr_parser::sets::EXPR_FIRST;
use sql_grammar::SyntaxRefused;
use sql_grammar::ast::{KeyAst, NumberAst, Script};
use sql_grammar::class::{Class, same};
use sql_lexer::Token;
use std::alloc::Global;

/// How many levels may be nested.
const LEVELS: usize = 64;

fn is_descending(direction: Option<&Seen<'_>>) -> bool
    ensures { result ≡ tree.is_descending (option_map (λ t. t.now) direction.entry) }
{
    match direction {
        Some(token) => same(token.class(), Class::Desc),
        None => false,
    }
}

fn nulls_first(direction: Option<&Seen<'_>>, nulls: Option<&Seen<'_>>) -> bool
    ensures { result ≡ tree.nulls_first
        (option_map (λ t. t.now) direction.entry) (option_map (λ t. t.now) nulls.entry) }
{
    match nulls {
        Some(token) => same(token.class(), Class::First),
        None => is_descending(direction),
    }
}

#[tactic(auto, unfolding(sql_grammar::specs::Reading::nulls_order))]
fn nulls_order<'a>(cursor: &mut Cursor<'a>, depth: usize) -> Result<Option<&'a Seen<'a>>, Refusal>
    ensures { Reads (option_map (λ t. t.now))
        (maybe (one class.Nulls) (at_depth spec.nulls_order depth))
        cursor.old result cursor.new }
{
    if !cursor.starts(&[Class::Nulls]) {
        return Ok(None);
    }
    cursor.take(&[Class::Nulls])?;
    Ok(Some(cursor.take(&[Class::First, Class::Last])?))
}

/// A key of ORDER BY, with room for so many levels.
#[derive(Clone, Copy, Drop)]
struct SortKey {
    depth: usize,
}

impl Element for SortKey {
    type Item = KeyAst;

    ghost reader = { λ k. at_depth spec.key k.depth };

    #[tactic(auto, unfolding(sql_grammar::specs::Reading::key))]
    fn read(&self, alloc: Global, cursor: &mut Cursor<'_>) -> Result<KeyAst, Halt> {
        let expr = whole_expr(alloc, cursor, self.depth)?;
        let direction = cursor.maybe(&[Class::Asc, Class::Desc])?;
        let nulls = nulls_order(cursor, self.depth)?;
        Ok(KeyAst {
            expr,
            descending: is_descending(direction),
            nulls_first: nulls_first(direction, nulls),
        })
    }
}

/// ORDER BY, where there is one.
#[tactic(auto, unfolding(sql_grammar::specs::Reading::order_by))]
fn order_by(
    alloc: Global,
    cursor: &mut Cursor<'_>,
    depth: usize,
) -> Result<Option<Seq<KeyAst>>, Halt>
    ensures { Parses (maybe (one class.Order) (at_depth spec.order_by depth))
        cursor.old result cursor.new }
{
    if !cursor.starts(&[Class::Order]) {
        return Ok(None);
    }
    cursor.take(&[Class::Order])?;
    cursor.take(&[Class::By])?;
    let found = listed(alloc, cursor, &SortKey { depth }, &EXPR_FIRST)?;
    Ok(Some(Seq::from_vec(found)))
}

/// A word and a number, where that word comes next.
#[tactic(auto, unfolding(sql_grammar::specs::Reading::number))]
fn number(
    alloc: Global,
    cursor: &mut Cursor<'_>,
    depth: usize,
    word: Class,
) -> Result<Option<NumberAst>, Halt>
    ensures { Parses (maybe (one word) (at_depth spec.number depth word))
        cursor.old result cursor.new }
{
    if !cursor.starts(&[word]) {
        return Ok(None);
    }
    cursor.take(&[word])?;
    let token = cursor.take(&[Class::Number])?;
    Ok(Some(NumberAst {
        text: token.text(alloc)?,
        place: token.place(),
    }))
}

/// A script, whatever follows.
#[tactic(auto, unfolding(sql_grammar::specs::Reading::script_within))]
fn script(alloc: Global, cursor: &mut Cursor<'_>) -> Result<Script, Halt>
    ensures { Parses (spec.script_at 0) cursor.old result cursor.new }
{
    let tables = tables_of(alloc, cursor)?;
    let parts = union_of(alloc, cursor, LEVELS)?;
    let order = order_by(alloc, cursor, LEVELS)?;
    let limit = number(alloc, cursor, LEVELS, Class::Limit)?;
    let offset = number(alloc, cursor, LEVELS, Class::Offset)?;
    cursor.maybe(&[Class::Semicolon])?;
    let order = match order {
        Some(order) => order,
        None => Seq::from_vec(Vec::new(alloc)),
    };
    Ok(Script {
        tables: Seq::from_vec(tables),
        parts,
        order,
        limit,
        offset,
    })
}

/// A script and no token after it.
fn whole_script(alloc: Global, cursor: &mut Cursor<'_>) -> Result<Script, Halt>
    ensures { Parses (only (spec.script_at 0)) cursor.old result cursor.new }
{
    let found = script(alloc, cursor)?;
    if cursor.left() > 0 {
        return Err(Refusal::Unexpected.into());
    }
    Ok(found)
}

/// The tokens as the grammar sees them.
fn seen_of<'a>(alloc: Global, text: &'a [u8], tokens: &[Token]) -> Result<Vec<Seen<'a>>, NoMemory>
    requires { All (IsToken text.now) tokens.now }
    ensures { IfOk result (λ v. v.items ≡ map (seen text.now) tokens.now) }
{
    let mut found = Vec::new(alloc);
    for token in tokens {
        found.push(Seen::new(text, *token))?;
    }
    Ok(found)
}

/// What reading tokens comes to, behind which the text ends at this place.
#[tactic(auto, unfolding(sql_grammar::specs::Parsed::read))]
fn parse_seen<'a>(alloc: Global, seen: &'a [Seen<'a>], end: u32) -> Result<Script, SyntaxRefused>
    ensures { Answers result (answer end (read seen.now)) }
{
    let mut cursor = Cursor::new(seen);
    match whole_script(alloc, &mut cursor) {
        Ok(script) => Ok(script),
        Err(Halt::NoMemory) => Err(SyntaxRefused::NoMemory),
        Err(Halt::Refused(Refusal::Unexpected)) => Err(SyntaxRefused::Unexpected {
            place: cursor.place_or(end),
        }),
        Err(Halt::Refused(Refusal::TooDeep)) => Err(SyntaxRefused::TooDeep {
            place: cursor.place_or(end),
        }),
        Err(Halt::Refused(Refusal::TooMany)) => Err(SyntaxRefused::TooMany {
            place: cursor.place_or(end),
        }),
    }
}

/// What reading the tokens of a text comes to.
fn parse_tokens(alloc: Global, text: &[u8], tokens: &[Token]) -> Result<Script, SyntaxRefused>
    requires parts { All (IsToken text.now) tokens.now }
    requires fits { length text.now < 2 ^ 32 }
    ensures { Answers result (parsed text.now tokens.now) }
{
    let Ok(seen) = seen_of(alloc, text, tokens) else {
        return Err(SyntaxRefused::NoMemory);
    };
    parse_seen(alloc, &seen, text.len() as u32)
}

/// The script that the tokens of a text spell, or the refusal at which reading them stops.
pub fn parse_script(alloc: Global, text: &[u8], tokens: &[Token]) -> Result<Script, SyntaxRefused>
    requires parts { All (IsToken text.now) tokens.now }
    requires fits { length text.now < 2 ^ 32 }

    // What reading the tokens gives is answered, or want of memory.
    ensures value { Answers result (parsed text.now tokens.now) }

    // The tokens spell the script that is answered within the limits, and no other within any.
    ensures spelled { IfOk result (λ s. SpellsWithin s (tokens_of text.now tokens.now)) }
    ensures sole { IfOk result (λ s.
        (other : ast.Script) → Spells other (tokens_of text.now tokens.now) → other ≡ s) }

    // Where they spell one within the limits, it is answered, or want of memory.
    ensures only { (s : ast.Script) →
        SpellsWithin s (tokens_of text.now tokens.now) → Gives s result }

    // Unexpected names the first token with which the tokens begin no script, or the text's end
    // where they end too early. Limits are left aside.
    ensures unexpected { (place : ℕ) → result ≡ Err (Unexpected place) →
        IsRefused ScriptAt text.now (tokens_of text.now tokens.now) place }

    // The other two name a token with which the tokens begin a script, but none within the limits.
    // Only `value` says which token and which limit it is.
    ensures deep { (place : ℕ) → result ≡ Err (TooDeep place) →
        IsPassed ScriptAt text.now (tokens_of text.now tokens.now) place }
    ensures many { (place : ℕ) → result ≡ Err (TooMany place) →
        IsPassed ScriptAt text.now (tokens_of text.now tokens.now) place }
{
    parse_tokens(alloc, text, tokens)
}
