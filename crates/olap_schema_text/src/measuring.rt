// The checks of a formula's tokens that look at no graph.
ghost use Rattle.olap_base.specs.Limits.{most_nodes};
ghost use Rattle.olap_grammar.specs.Brackets.{most_tokens, opens_over};
ghost use Rattle.olap_grammar.specs.Nodes.{nodes_of};
ghost use Rattle.olap_grammar.specs.declared.tokens.Token.{Token as Tokens};
ghost use Rattle.olap_grammar.specs.declared.tokens.Version.{Version as Versions};
ghost use Rattle.olap_schema_text.specs.Judging.{form_read};
ghost use Rattle.olap_schema_text.specs.Parts.{has_too_many_nodes as has_too_many_nodes_of};
ghost use Rattle.olap_schema_text.specs.Kinds.{name_of_kind};
ghost use Rattle.olap_schema_text.specs.Reading.{IsTallyBehind};
ghost use Rattle.olap_grammar.specs.Words.{pieces_of};
ghost use Rattle.olap_schema_text.specs.Tokens.{is_bad_number as is_bad_number_of, is_long as is_long_of, is_long_name, is_no_numeral as is_no_numeral_of, names_in};
ghost use Rattle.std.specs.List.{list_any};
ghost use Rattle.std.specs.Prelude.{◌≡◌, ◌≤◌, ◌<◌, List, Err, length};

use crate::SchemaKind;
use olap_base::{MOST_DEPTH, MOST_NODES, MOST_SCHEMA_NODES, MOST_TEXT_BYTES};
use olap_grammar::{Mark, Tally, Token, Version, first_piece, is_number_token, marks};
use olap_numerals::number;

/// How many tokens of a line are kept: as many as a formula may have, for each node two brackets at each depth and
/// the three of a word with a string, and the three before it.
pub(crate) const MOST_TOKENS: usize = (2 * MOST_DEPTH as usize + 3) * MOST_NODES + 3;

/// Whether a formula of this many nodes has too many, by itself or with those on the lines above.
pub(crate) fn has_too_many_nodes(before: u32, nodes: usize) -> bool
    ensures { result ≡ has_too_many_nodes_of before nodes }
{
    nodes > MOST_NODES || before as usize + nodes > MOST_SCHEMA_NODES
}

/// Why tokens that are more than a formula may have are refused, with `before` nodes on the lines above and `front`
/// nodes before the formula.
pub(crate) fn long_form_fault(before: u32, front: u16, tally: &Tally) -> SchemaKind
    requires { front ≤ 3 }
    ensures { (v : Versions) (ts : List Tokens) → IsTallyBehind v front tally.now ts
        → most_tokens most_nodes < length ts → form_read v before ts ≡ Err (name_of_kind result) }
{
    if has_too_many_nodes(before, tally.nodes.saturating_sub(front) as usize) {
        return SchemaKind::TooManyNodes;
    }
    if tally.too_deep {
        return SchemaKind::TooDeep;
    }
    SchemaKind::BadForm
}

/// How many nodes a formula of these tokens has: what stands right after a mark that compares is none.
#[tactic(auto, unfolding(olap_grammar::specs::Nodes::nodes_behind))]
pub(crate) fn nodes(version: Version, tokens: &[Token]) -> usize
    ensures count { result ≡ nodes_of version tokens.now }
    ensures few { result ≤ length tokens.now }
{
    let mut count = 0usize;
    let mut is_compared = false;
    let mut left = tokens;
    'tokens: while let Some((token, others)) = left.split_first() {
        if !is_compared && token.is_node() {
            count += 1;
        }
        is_compared = token.compares(version);
        left = others;
    }
    count
}

/// Whether more than `MOST_DEPTH` brackets are open at some place.
#[tactic(auto, unfolding(olap_grammar::specs::Brackets::opens_over))]
pub(crate) fn opens_too_deep(tokens: &[Token]) -> bool
    ensures { result ≡ opens_over 0 0 tokens.now }
{
    let mut opened = 0usize;
    let mut closed = 0usize;
    let mut left = tokens;
    'tokens: while let Some((token, others)) = left.split_first() {
        match token {
            Token::Mark(Mark::Open) => {
                opened += 1;
                if opened > closed + MOST_DEPTH as usize {
                    return true;
                }
            }
            Token::Mark(Mark::Close) => closed += 1,
            _ => {}
        }
        left = others;
    }
    false
}

/// Whether a name between these marks has more than `MOST_TEXT_BYTES`.
fn has_long_piece(mark: u8, word: &[u8]) -> bool
    ensures { result ≡ list_any is_long_name (pieces_of mark word.now) }
{
    let mut left = Some(word);
    'names: while let Some(text) = left {
        let (name, others) = first_piece(mark, text);
        if name.len() > MOST_TEXT_BYTES {
            return true;
        }
        left = others;
    }
    false
}

/// Whether a name in the word has more than `MOST_TEXT_BYTES`.
fn has_long_name(word: &[u8]) -> bool
    ensures { result ≡ list_any is_long_name (names_in word.now) }
{
    if marks(b'_', word) > 0 {
        has_long_piece(b'_', word)
    } else {
        has_long_piece(b'.', word)
    }
}

/// Whether a name in the token, if it is no number, or the string, has more than `MOST_TEXT_BYTES`.
#[tactic(auto, unfolding(crate::specs::Tokens::is_long))]
fn is_long(token: &Token) -> bool
    ensures { result ≡ is_long_of token.now }
{
    match token {
        Token::Word(word) => !is_number_token(word.bytes()) && has_long_name(word.bytes()),
        Token::Quoted(text) => text.bytes().len() > MOST_TEXT_BYTES,
        _ => false,
    }
}

/// Whether a name or a constant has more than `MOST_TEXT_BYTES`.
pub(crate) fn has_long_text(tokens: &[Token]) -> bool
    ensures { result ≡ list_any is_long_of tokens.now }
{
    tokens.iter().any(is_long)
}

/// Whether the bytes are a number, and no numeral.
fn is_no_numeral(bytes: &[u8]) -> bool
    ensures { result ≡ is_no_numeral_of bytes.now }
{
    is_number_token(bytes) && number(bytes).is_none()
}

/// Whether the token is a number, and no numeral.
#[tactic(auto, unfolding(crate::specs::Tokens::is_bad_number))]
fn is_bad_number(token: &Token) -> bool
    ensures { result ≡ is_bad_number_of token.now }
{
    match token {
        Token::Word(word) => is_no_numeral(word.bytes()),
        Token::Signed(word) => is_no_numeral(word.bytes()),
        _ => false,
    }
}

/// Whether a number is beyond the bounds of numerals, or has too many digits.
pub(crate) fn has_bad_number(tokens: &[Token]) -> bool
    ensures { result ≡ list_any is_bad_number_of tokens.now }
{
    tokens.iter().any(is_bad_number)
}
