//! What a text begins with.

ghost use Rattle.std.specs.Prelude.{◌≡◌, ◌<◌, ◌≤◌, ◌+◌, length, ◌⊎◌};
ghost use Rattle.sql_lexer.specs.Cuts as spec;
ghost use Rattle.sql_lexer.specs.Refusals.{Within};

use crate::bytes::{
    Group, begins_word, first, is_digit, is_space, quoted_length, run, second, symbol_length,
};
use crate::token::TokenKind;

/// What a text begins with.
#[derive(Clone, Copy, Debug, Drop)]
pub enum Cut {
    /// So many bytes of white space or of a comment.
    Blank(usize),
    /// A token of so many bytes.
    Found(TokenKind, usize),
    /// A character that can't stand there, behind so many bytes.
    Bad(usize),
    /// A number with too many digits.
    Wide,
    /// A quote without its end.
    Open,
}

#[tactic(auto, unfolding(crate::specs::Cuts::cut_quoted))]
fn cut_quoted(text: &[u8], kind: TokenKind, quote: u8) -> Cut
    requires { 0 < length text.now }
    ensures value { result ≡ spec.cut_quoted kind quote text.now }
    ensures within { Within result (length text.now) }
{
    match quoted_length(&text[1..], quote) {
        Some(n) => Cut::Found(kind, n + 1),
        None => Cut::Open,
    }
}

/// The digits behind the point, where one follows the digits at the front.
fn fraction(text: &[u8], whole: usize) -> usize
    requires { whole ≤ length text.now }
    ensures within { result ≡ 0 ⊎ (whole + 1 + result ≤ length text.now) }
    ensures value { result ≡ spec.fraction_of text.now whole }
{
    match &text[whole..] {
        [b'.', rest @ ..] => run(Group::Digit, rest),
        _ => 0,
    }
}

#[tactic(auto, unfolding(crate::specs::Cuts::significant))]
fn significant(text: &[u8], whole: usize, fraction: usize) -> usize
    requires whole { whole ≤ length text.now }
    requires fraction { fraction ≡ 0 ⊎ (whole + 1 + fraction ≤ length text.now) }
    ensures { result ≡ spec.significant text.now whole fraction }
{
    let skipped = run(Group::Zero, &text[..whole]);
    if skipped == whole {
        if fraction == 0 {
            return 0;
        }
        fraction - run(Group::Zero, &text[whole + 1..whole + 1 + fraction])
    } else {
        whole - skipped + fraction
    }
}

#[tactic(auto, unfolding(crate::specs::Cuts::number, crate::specs::Cuts::number_length))]
fn number(text: &[u8], whole: usize, fraction: usize) -> Cut
    requires whole { whole ≤ length text.now }
    requires fraction { fraction ≡ 0 ⊎ (whole + 1 + fraction ≤ length text.now) }
    ensures value { result ≡ spec.number text.now whole fraction }
    ensures within { Within result (length text.now) }
{
    if significant(text, whole, fraction) > 38 || fraction > 38 {
        return Cut::Wide;
    }
    let length = if fraction == 0 {
        whole
    } else {
        whole + 1 + fraction
    };
    if begins_word(first(&text[length..])) {
        Cut::Bad(length)
    } else {
        Cut::Found(TokenKind::Number, length)
    }
}

#[tactic(auto, unfolding(crate::specs::Cuts::cut_number))]
fn cut_number(text: &[u8]) -> Cut
    ensures value { result ≡ spec.cut_number text.now }
    ensures within { Within result (length text.now) }
{
    let whole = run(Group::Digit, text);
    number(text, whole, fraction(text, whole))
}

#[tactic(auto, unfolding(crate::specs::Cuts::cut_symbol))]
fn cut_symbol(text: &[u8]) -> Cut
    requires { 0 < length text.now }
    ensures value { result ≡ spec.cut_symbol text.now }
    ensures within { Within result (length text.now) }
{
    let length = symbol_length(first(text), second(text));
    if length == 0 {
        Cut::Bad(0)
    } else {
        Cut::Found(TokenKind::Symbol, length)
    }
}

/// What a text that isn't empty begins with.
#[tactic(auto, unfolding(crate::specs::Cuts::cut))]
pub fn next_cut(text: &[u8]) -> Cut
    requires { 0 < length text.now }
    ensures value { result ≡ spec.cut text.now }
    ensures within { Within result (length text.now) }
{
    let a = first(text);
    let b = second(text);
    if is_space(a) {
        Cut::Blank(run(Group::Space, text))
    } else if a == b'-' && b == b'-' {
        Cut::Blank(run(Group::Comment, text))
    } else if begins_word(a) {
        Cut::Found(TokenKind::Word, run(Group::Word, text))
    } else if is_digit(a) || (a == b'.' && is_digit(b)) {
        cut_number(text)
    } else if a == b'"' {
        cut_quoted(text, TokenKind::Quoted, b'"')
    } else if a == b'\'' {
        cut_quoted(text, TokenKind::Str, b'\'')
    } else {
        cut_symbol(text)
    }
}
