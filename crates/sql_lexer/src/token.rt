//! Tokens, and what they are.

/// What a token is.
#[derive(Clone, Copy, Debug, Drop)]
pub enum TokenKind {
    /// A letter or `_`, then letters, digits and `_`: a name or a keyword, in any case.
    Word,
    /// A name between `"`, kept as written; `""` in it stands for one `"`.
    Quoted,
    /// Digits, digits `.` digits, or `.` digits.
    Number,
    /// A text between `'`; `''` in it stands for one `'`.
    Str,
    /// One of `( ) , ; . * + - / % = <> != < <= > >= ||`.
    Symbol,
}

/// A token: its kind, and the bytes of the script that it is, from one place up to another.
#[derive(Clone, Copy, Debug, Drop)]
pub struct Token {
    pub kind: TokenKind,
    /// The place of its first byte, from 0.
    pub from: u32,
    /// The place behind its last byte.
    pub to: u32,
}
