//! The words of the grammar.

ghost use Rattle.std.specs.Prelude.{◌≡◌};
ghost use Rattle.std.specs.Str.{str_to_ascii_lowercase};
ghost use Rattle.sql_grammar.specs.TokenClasses as spec;

use crate::class::Class;

/// The class of a word: one of the grammar's words in any case, or a name.
#[tactic(auto, unfolding(crate::specs::TokenClasses::clause_word))]
pub fn clause_word(text: &[u8]) -> Class
    ensures { result ≡ spec.clause_word (str_to_ascii_lowercase text.now) }
{
    if text.eq_ignore_ascii_case(b"select") {
        return Class::Select;
    }
    if text.eq_ignore_ascii_case(b"distinct") {
        return Class::Distinct;
    }
    if text.eq_ignore_ascii_case(b"from") {
        return Class::From;
    }
    if text.eq_ignore_ascii_case(b"where") {
        return Class::Where;
    }
    if text.eq_ignore_ascii_case(b"group") {
        return Class::Group;
    }
    if text.eq_ignore_ascii_case(b"by") {
        return Class::By;
    }
    if text.eq_ignore_ascii_case(b"having") {
        return Class::Having;
    }
    if text.eq_ignore_ascii_case(b"order") {
        return Class::Order;
    }
    if text.eq_ignore_ascii_case(b"limit") {
        return Class::Limit;
    }
    if text.eq_ignore_ascii_case(b"offset") {
        return Class::Offset;
    }
    if text.eq_ignore_ascii_case(b"union") {
        return Class::Union;
    }
    if text.eq_ignore_ascii_case(b"all") {
        return Class::All;
    }
    if text.eq_ignore_ascii_case(b"as") {
        return Class::As;
    }
    join_word(text)
}

#[tactic(auto, unfolding(crate::specs::TokenClasses::join_word))]
fn join_word(text: &[u8]) -> Class
    ensures { result ≡ spec.join_word (str_to_ascii_lowercase text.now) }
{
    if text.eq_ignore_ascii_case(b"inner") {
        return Class::Inner;
    }
    if text.eq_ignore_ascii_case(b"left") {
        return Class::Left;
    }
    if text.eq_ignore_ascii_case(b"right") {
        return Class::Right;
    }
    if text.eq_ignore_ascii_case(b"full") {
        return Class::Full;
    }
    if text.eq_ignore_ascii_case(b"outer") {
        return Class::Outer;
    }
    if text.eq_ignore_ascii_case(b"join") {
        return Class::Join;
    }
    if text.eq_ignore_ascii_case(b"on") {
        return Class::On;
    }
    if text.eq_ignore_ascii_case(b"asc") {
        return Class::Asc;
    }
    if text.eq_ignore_ascii_case(b"desc") {
        return Class::Desc;
    }
    if text.eq_ignore_ascii_case(b"nulls") {
        return Class::Nulls;
    }
    if text.eq_ignore_ascii_case(b"first") {
        return Class::First;
    }
    if text.eq_ignore_ascii_case(b"last") {
        return Class::Last;
    }
    expression_word(text)
}

#[tactic(auto, unfolding(crate::specs::TokenClasses::expression_word))]
fn expression_word(text: &[u8]) -> Class
    ensures { result ≡ spec.expression_word (str_to_ascii_lowercase text.now) }
{
    if text.eq_ignore_ascii_case(b"and") {
        return Class::And;
    }
    if text.eq_ignore_ascii_case(b"or") {
        return Class::Or;
    }
    if text.eq_ignore_ascii_case(b"not") {
        return Class::Not;
    }
    if text.eq_ignore_ascii_case(b"is") {
        return Class::Is;
    }
    if text.eq_ignore_ascii_case(b"null") {
        return Class::Null;
    }
    if text.eq_ignore_ascii_case(b"in") {
        return Class::In;
    }
    if text.eq_ignore_ascii_case(b"between") {
        return Class::Between;
    }
    if text.eq_ignore_ascii_case(b"true") {
        return Class::True;
    }
    if text.eq_ignore_ascii_case(b"false") {
        return Class::False;
    }
    if text.eq_ignore_ascii_case(b"case") {
        return Class::Case;
    }
    if text.eq_ignore_ascii_case(b"when") {
        return Class::When;
    }
    if text.eq_ignore_ascii_case(b"then") {
        return Class::Then;
    }
    if text.eq_ignore_ascii_case(b"else") {
        return Class::Else;
    }
    if text.eq_ignore_ascii_case(b"end") {
        return Class::End;
    }
    function_word(text)
}

#[tactic(auto, unfolding(crate::specs::TokenClasses::function_word))]
fn function_word(text: &[u8]) -> Class
    ensures { result ≡ spec.function_word (str_to_ascii_lowercase text.now) }
{
    if text.eq_ignore_ascii_case(b"cast") {
        return Class::Cast;
    }
    if text.eq_ignore_ascii_case(b"coalesce") {
        return Class::Coalesce;
    }
    if text.eq_ignore_ascii_case(b"abs") {
        return Class::Abs;
    }
    if text.eq_ignore_ascii_case(b"length") {
        return Class::Length;
    }
    if text.eq_ignore_ascii_case(b"count") {
        return Class::Count;
    }
    if text.eq_ignore_ascii_case(b"sum") {
        return Class::Sum;
    }
    if text.eq_ignore_ascii_case(b"min") {
        return Class::Min;
    }
    if text.eq_ignore_ascii_case(b"max") {
        return Class::Max;
    }
    if text.eq_ignore_ascii_case(b"avg") {
        return Class::Avg;
    }
    table_word(text)
}

#[tactic(auto, unfolding(crate::specs::TokenClasses::table_word))]
fn table_word(text: &[u8]) -> Class
    ensures { result ≡ spec.table_word (str_to_ascii_lowercase text.now) }
{
    if text.eq_ignore_ascii_case(b"create") {
        return Class::Create;
    }
    if text.eq_ignore_ascii_case(b"external") {
        return Class::External;
    }
    if text.eq_ignore_ascii_case(b"table") {
        return Class::Table;
    }
    if text.eq_ignore_ascii_case(b"stored") {
        return Class::Stored;
    }
    if text.eq_ignore_ascii_case(b"csv") {
        return Class::Csv;
    }
    if text.eq_ignore_ascii_case(b"arrow") {
        return Class::Arrow;
    }
    if text.eq_ignore_ascii_case(b"with") {
        return Class::With;
    }
    if text.eq_ignore_ascii_case(b"header") {
        return Class::Header;
    }
    if text.eq_ignore_ascii_case(b"row") {
        return Class::Row;
    }
    if text.eq_ignore_ascii_case(b"location") {
        return Class::Location;
    }
    if text.eq_ignore_ascii_case(b"options") {
        return Class::Options;
    }
    type_word(text)
}

#[tactic(auto, unfolding(crate::specs::TokenClasses::type_word))]
fn type_word(text: &[u8]) -> Class
    ensures { result ≡ spec.type_word (str_to_ascii_lowercase text.now) }
{
    if text.eq_ignore_ascii_case(b"bigint") {
        return Class::IntType;
    }
    if text.eq_ignore_ascii_case(b"int") {
        return Class::IntType;
    }
    if text.eq_ignore_ascii_case(b"integer") {
        return Class::IntType;
    }
    if text.eq_ignore_ascii_case(b"smallint") {
        return Class::IntType;
    }
    if text.eq_ignore_ascii_case(b"tinyint") {
        return Class::IntType;
    }
    if text.eq_ignore_ascii_case(b"varchar") {
        return Class::TextType;
    }
    if text.eq_ignore_ascii_case(b"text") {
        return Class::TextType;
    }
    if text.eq_ignore_ascii_case(b"string") {
        return Class::TextType;
    }
    if text.eq_ignore_ascii_case(b"boolean") {
        return Class::BoolType;
    }
    if text.eq_ignore_ascii_case(b"decimal") {
        return Class::DecimalType;
    }
    Class::Name
}

/// The class of a symbol.
#[tactic(auto, unfolding(crate::specs::TokenClasses::symbol))]
pub fn symbol(text: &[u8]) -> Class
    ensures { result ≡ spec.symbol (text.now) }
{
    if text == b"(".as_slice() {
        return Class::Open;
    }
    if text == b")".as_slice() {
        return Class::Close;
    }
    if text == b",".as_slice() {
        return Class::Comma;
    }
    if text == b";".as_slice() {
        return Class::Semicolon;
    }
    if text == b".".as_slice() {
        return Class::Dot;
    }
    if text == b"*".as_slice() {
        return Class::Star;
    }
    if text == b"+".as_slice() {
        return Class::Plus;
    }
    if text == b"-".as_slice() {
        return Class::Minus;
    }
    if text == b"/".as_slice() {
        return Class::Slash;
    }
    if text == b"%".as_slice() {
        return Class::Percent;
    }
    if text == b"=".as_slice() {
        return Class::Equal;
    }
    if text == b"<>".as_slice() {
        return Class::Unequal;
    }
    if text == b"!=".as_slice() {
        return Class::Unequal;
    }
    if text == b"<".as_slice() {
        return Class::Less;
    }
    if text == b"<=".as_slice() {
        return Class::AtMost;
    }
    if text == b">".as_slice() {
        return Class::Greater;
    }
    if text == b">=".as_slice() {
        return Class::AtLeast;
    }
    Class::Bars
}
