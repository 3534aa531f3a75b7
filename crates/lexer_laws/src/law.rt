//! What holds of each text.
ghost use Rattle.std.specs.Prelude.{ℕ, ◌≡◌, ◌<◌, ◌≤◌, ◌+◌, List, [], ◌∷◌, ◌++◌, length, drop, nat_eq, false, Some, Ok, Err, IsUtf8};
ghost use Rattle.sql_lexer.specs.declared.token.Token.{Token as AToken};
ghost use Rattle.sql_lexer.specs.declared.refused.LexRefused.{LexRefused as ARefusal};
ghost use Rattle.sql_lexer.specs.Bytes.{quoted};
ghost use Rattle.sql_lexer.specs.Cuts.{cut, first_of};
ghost use Rattle.sql_lexer.specs.Texts.{undoubled};
ghost use Rattle.sql_lexer.specs.Tokens.{by_cut, most, tokens_from, Tokens};
ghost use Rattle.lexer_laws.specs.Covers.{Takes, Covers, IsRefusedAt, tokens_at};
ghost use Rattle.lexer_laws.specs.Quotes.{doubled};

/// What a text that isn't empty begins with, where it is blank or a token, has at least one byte and
/// no more than the text. Where it is refused for a character, that is one of the text's.
pub fn cut_law()
    ensures { (bs : List ℕ) → 0 < length bs → Takes (length bs) (cut bs) }
{}

/// A quoted text is any text with its quotes doubled, up to a quote that no quote follows (`ends`,
/// `only`), and it is read as that text (`reads`).
pub fn quote_law()
    ensures ends { (q : ℕ) (s back : List ℕ) → nat_eq (first_of back) q ≡ false
        → quoted q (doubled q s ++ q ∷ back) ≡ Some (length (doubled q s) + 1) }
    ensures only { (q : ℕ) (bs : List ℕ) (n : ℕ) → 0 < q → quoted q bs ≡ Some n
        → (s : List ℕ) × (back : List ℕ) × (bs ≡ doubled q s ++ q ∷ back)
        × (n ≡ length (doubled q s) + 1) × (nat_eq (first_of back) q ≡ false) }
    ensures reads { (q : ℕ) (s : List ℕ) → undoubled q false (doubled q s) ≡ s }
{}

/// The number that bounds the turns of `tokens_from` never stops it: each number from the count of
/// bytes on gives the same (`enough`). So the tokens of a text are told without it: none of the empty
/// text (`none`), and of any other by what it begins with and what is behind that (`turn`).
pub fn turn_law()
    ensures enough { (n place : ℕ) (bs : List ℕ) → length bs ≤ n
        → tokens_from n place bs ≡ tokens_at place bs }
    ensures none { (place : ℕ) → tokens_at place [] ≡ Ok [] }
    ensures turn { (place : ℕ) (bs : List ℕ) → 0 < length bs
        → tokens_at place bs ≡ by_cut (λ k. tokens_at (place + k) (drop k bs)) place (cut bs) }
{}

/// The tokens of a text, with white space and comments between them, are the whole text, in order and
/// without overlap (`whole`), and no other tokens are (`sole`). Where a text is refused, such tokens
/// are what stands before the place of the refusal (`front`).
pub fn covers_law()
    ensures whole { (text : List ℕ) (ts : List AToken) → Tokens text ≡ Ok ts
        → Covers text 0 ts (length text) }
    ensures sole { (text : List ℕ) (ts : List AToken) → length text ≤ most → IsUtf8 text
        → Covers text 0 ts (length text) → Tokens text ≡ Ok ts }
    ensures front { (text : List ℕ) (e : ARefusal) → length text ≤ most → IsUtf8 text
        → Tokens text ≡ Err e
        → (ts : List AToken) × (at : ℕ) × Covers text 0 ts at × IsRefusedAt text at e }
{}
