//! A cursor over the tokens of a script.
ghost use Rattle.std.specs.Prelude.{◌≡◌, ◌≤◌, ◌<◌, length, drop, option_map, IfOk, Some};
ghost use Rattle.sql_lexer.specs.Parts.{IsToken};
ghost use Rattle.sql_grammar.specs.Class as spec;
ghost use Rattle.sql_grammar.specs.TokenClasses.{seen};
ghost use Rattle.expr_parser.specs.Cursors.{Reads, Stops, first_text};
ghost use Rattle.sql_grammar.specs.Parsed.{place_or};
ghost use Rattle.sql_grammar.specs.Reading.{all_of_ahead};
ghost use Rattle.sql_grammar.specs.Reader.{terminal, over, too_deep, too_many, maybe, pay};

use crate::halt::Refusal;
use crate::sets::NAMES;
use dfx_value::{NoMemory, Text};
use sql_grammar::class::{Class, among};
use sql_grammar::words::{clause_word, symbol};
use sql_lexer::{Token, TokenKind, token_text};
use std::alloc::Global;
use std::marker::Model;

/// A token as the grammar sees it: its class, its text and its place.
#[derive(Drop)]
pub struct Seen<'a> {
    script: &'a [u8],
    token: Token,
    class: Class,
}

impl<'a> Model for Seen<'a> {
    ghost use Rattle.sql_grammar.specs.Class as spec;
    ghost use Rattle.sql_lexer.specs.Parts.{IsToken};
    ghost use Rattle.sql_lexer.specs.Texts as texts;

    ghost Value = { spec.Token };

    ghost view = { λ s. record {
      class = s.class;
      text = texts.token_text s.script.now s.token;
      place = s.token.from;
    } };

    ghost invariant = { λ s. IsToken s.script.now s.token };
}

impl<'a> Seen<'a> {
    /// A token of a script.
    pub fn new(script: &'a [u8], token: Token) -> Seen<'a>
        requires { IsToken script.now token }
        ensures { result ≡ seen script.now token }
    {
        let bytes = &script[token.from as usize..token.to as usize];
        let class = match token.kind {
            TokenKind::Word => clause_word(bytes),
            TokenKind::Quoted => Class::Quoted,
            TokenKind::Number => Class::Number,
            TokenKind::Str => Class::Str,
            TokenKind::Symbol => symbol(bytes),
        };
        Seen {
            script,
            token,
            class,
        }
    }

    pub fn class(&self) -> Class
        ensures { result ≡ self.now.class }
    {
        self.class
    }

    /// The place of its first byte.
    pub fn place(&self) -> u32
        ensures { result ≡ self.now.place }
    {
        self.token.from
    }

    /// Its text.
    pub fn text(&self, alloc: Global) -> Result<Text, NoMemory>
        ensures { IfOk result (λ t. t ≡ self.now.text) }
    {
        token_text(alloc, self.script, &self.token)
    }
}

/// A place among the tokens, with how many operators or table references were counted so far.
#[derive(Drop)]
pub struct Cursor<'a> {
    tokens: &'a [Seen<'a>],
    counted: usize,
}

impl<'a> Model for Cursor<'a> {
    ghost use Rattle.std.specs.Prelude.{◌≤◌};
    ghost use Rattle.expr_parser.specs.Cursors.{Stand};

    ghost Value = { Stand };

    ghost view = { λ c. record { counted = c.counted; tokens = c.tokens.now } };

    ghost invariant = { λ c. c.counted ≤ 1024 };
}

impl<'a> Cursor<'a> {
    /// Before these tokens, with nothing counted.
    pub fn new(tokens: &'a [Seen<'a>]) -> Cursor<'a>
        ensures { result ≡ record { counted = 0; tokens = tokens.now } }
    {
        Cursor { tokens, counted: 0 }
    }

    /// The place of the next token, or this one where none is left.
    pub fn place_or(&self, end: u32) -> u32
        ensures { result ≡ place_or end self.now.tokens }
    {
        match self.tokens {
            [first, ..] => first.place(),
            [] => end,
        }
    }

    /// How many tokens are left.
    pub fn left(&self) -> usize
        ensures { result ≡ length self.now.tokens }
    {
        self.tokens.len()
    }

    /// How many were counted so far.
    pub fn counted(&self) -> usize
        ensures value { result ≡ self.now.counted }
        ensures within { result ≤ 1024 }
    {
        self.counted
    }

    /// The text of the next token.
    pub fn next_text(&self, alloc: Global) -> Result<Text, NoMemory>
        requires { 0 < length self.now.tokens }
        ensures { IfOk result (λ t. t ≡ first_text self.now.tokens) }
    {
        self.tokens[0].text(alloc)
    }

    /// Whether the next token is of one of these classes.
    pub fn starts(&self, classes: &[Class]) -> bool
        ensures { result ≡ spec.starts classes.now self.now.tokens }
    {
        match self.tokens {
            [first, ..] => among(first.class, classes),
            [] => false,
        }
    }

    /// Whether the token that so many stand before is of one of these classes.
    fn starts_at(&self, at: usize, classes: &[Class]) -> bool
        ensures { result ≡ spec.starts classes.now (drop at self.now.tokens) }
    {
        if at > self.tokens.len() {
            return false;
        }
        let (_passed, rest) = self.tokens.split_at(at);
        match rest {
            [first, ..] => among(first.class, classes),
            [] => false,
        }
    }

    /// Whether `name . *` comes next.
    pub fn all_of_ahead(&self) -> bool
        ensures { result ≡ all_of_ahead self.now.tokens }
    {
        self.starts(&NAMES) && self.starts_at(1, &[Class::Dot]) && self.starts_at(2, &[Class::Star])
    }

    /// Takes the next token, which is of one of these classes.
    #[tactic(auto, unfolding(sql_grammar::specs::Reader::matching))]
    pub fn take(&mut self, classes: &[Class]) -> Result<&'a Seen<'a>, Refusal>
        ensures { Reads (λ t. t.now) (terminal classes.now) self.old result self.new }
    {
        match self.tokens {
            [first, rest @ ..] => {
                if !among(first.class, classes) {
                    return Err(Refusal::Unexpected);
                }
                self.tokens = rest;
                Ok(first)
            }
            [] => Err(Refusal::Unexpected),
        }
    }

    /// Takes the next token if it is of one of these classes.
    pub fn maybe(&mut self, classes: &[Class]) -> Result<Option<&'a Seen<'a>>, Refusal>
        ensures { Reads (option_map (λ t. t.now)) (maybe classes.now (terminal classes.now))
            self.old result self.new }
    {
        if self.starts(classes) {
            let token = self.take(classes)?;
            return Ok(Some(token));
        }
        Ok(None)
    }

    /// Counts so many more, of `most` in all, before a token of one of these classes.
    pub fn pay(&mut self, most: usize, more: usize, classes: &[Class]) -> Result<(), Refusal>
        requires { most ≤ 1024 }
        ensures { Reads (λ u. u) (pay (Some most) more classes.now) self.old result self.new }
    {
        if !self.starts(classes) {
            return Err(Refusal::Unexpected);
        }
        if more > most || self.counted > most - more {
            return Err(Refusal::TooMany);
        }
        self.counted += more;
        Ok(())
    }

    /// Goes on from another count.
    pub fn count_from(&mut self, counted: usize)
        requires { counted ≤ 1024 }
        ensures { self.new ≡ record { counted = counted; tokens = self.old.tokens } }
    {
        self.counted = counted;
    }

    /// Why what one of these classes begins is refused where there is no room for a level.
    pub fn no_room(&self, classes: &[Class]) -> Refusal
        ensures { Stops (over too_deep classes.now) self.now result self.now }
    {
        if self.starts(classes) {
            Refusal::TooDeep
        } else {
            Refusal::Unexpected
        }
    }

    /// Why what one of these classes begins is refused where there are too many.
    pub fn no_more(&self, classes: &[Class]) -> Refusal
        ensures { Stops (over too_many classes.now) self.now result self.now }
    {
        if self.starts(classes) {
            Refusal::TooMany
        } else {
            Refusal::Unexpected
        }
    }
}
