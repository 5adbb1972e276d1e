// Statements: the tokens of a line, by their first word.
ghost use Rattle.olap_schema_text.specs.Reading.{HasName, said};
ghost use Rattle.olap_schema_text.specs.Statements.{statement_of};
ghost use Rattle.olap_base.specs.Reaching.{is_category_name};
ghost use Rattle.olap_grammar.specs.declared.tokens.Token.TheVariants as token;
ghost use Rattle.olap_grammar.specs.declared.tokens.Mark.TheVariants as mark;
ghost use Rattle.std.specs.Prelude.{◌≡◌, ◌∷◌, []};
ghost use Rattle.std.specs.Str.{bytes_eq};

use olap_grammar::{Mark, Token, Version};
use olap_graph::category_name;

/// What the tokens of a line say.
#[derive(Drop)]
pub(crate) enum Statement<'a> {
    Version(Version),
    Category { name: &'a [u8], number: bool },
    Edge(&'a [u8], &'a [u8]),
    Constraint(&'a [u8], &'a [Token]),
    Other,
}

/// Whether the word is that text.
pub(crate) fn is(word: &[u8], text: &[u8]) -> bool
    ensures { result ≡ bytes_eq word.now text.now }
{
    word == text
}

/// Whether the word is a category name.
fn is_name(word: &[u8]) -> bool
    ensures { result ≡ is_category_name word.now }
{
    category_name(word)
}

/// What two words say.
#[tactic(auto, unfolding(crate::specs::Statements::statement_of))]
fn two_words<'a>(keyword: &[u8], name: &'a [u8]) -> Statement<'a>
    ensures says { said result ≡ statement_of (token.Word keyword.now ∷ token.Word name.now ∷ []) }
    ensures name { HasName result }
{
    if is(keyword, b"schema") && is(name, b"1") {
        return Statement::Version(Version::One);
    }
    if is(keyword, b"schema") && is(name, b"2") {
        return Statement::Version(Version::Two);
    }
    if is(keyword, b"category") && is_name(name) {
        return Statement::Category {
            name,
            number: false,
        };
    }
    Statement::Other
}

/// What three words say.
#[tactic(auto, unfolding(crate::specs::Statements::statement_of))]
fn three_words<'a>(keyword: &[u8], first: &'a [u8], second: &'a [u8]) -> Statement<'a>
    ensures says { said result
        ≡ statement_of (token.Word keyword.now ∷ token.Word first.now ∷ token.Word second.now ∷ []) }
    ensures name { HasName result }
{
    if is(keyword, b"edge") && is_name(first) && is_name(second) {
        return Statement::Edge(first, second);
    }
    if is(keyword, b"category") && is_name(first) && is(second, b"number") {
        return Statement::Category {
            name: first,
            number: true,
        };
    }
    Statement::Other
}

/// What two words, a colon and the tokens after it say.
#[tactic(auto, unfolding(crate::specs::Statements::statement_of))]
fn with_colon<'a>(keyword: &[u8], root: &'a [u8], formula: &'a [Token]) -> Statement<'a>
    ensures says { said result
        ≡ statement_of (token.Word keyword.now ∷ token.Word root.now ∷ token.Mark mark.Colon ∷ formula.now) }
    ensures name { HasName result }
{
    if is(keyword, b"constraint") && is_name(root) {
        return Statement::Constraint(root, formula);
    }
    Statement::Other
}

/// What the tokens of a line say.
#[tactic(auto, unfolding(crate::specs::Statements::statement_of))]
pub(crate) fn statement_in(tokens: &[Token]) -> Statement<'_>
    ensures says { said result ≡ statement_of tokens.now }
    ensures name { HasName result }
{
    match tokens {
        [Token::Word(keyword), Token::Word(name)] => two_words(keyword.bytes(), name.bytes()),
        [
            Token::Word(keyword),
            Token::Word(first),
            Token::Word(second),
        ] => three_words(keyword.bytes(), first.bytes(), second.bytes()),
        [
            Token::Word(keyword),
            Token::Word(root),
            Token::Mark(Mark::Colon),
            formula @ ..,
        ] => with_colon(keyword.bytes(), root.bytes(), formula),
        _ => Statement::Other,
    }
}
