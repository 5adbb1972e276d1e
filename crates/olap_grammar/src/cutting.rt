// Cutting a line into tokens.
ghost use Rattle.std.specs.Prelude.{◌≡◌, [], ◌∷◌, ◌++◌, ℕ, IfErr, IfOk, OnOk, List as Items, MatchResult};
ghost use Rattle.olap_grammar.specs.Cutting.{has_numbers as has_numbers_of};
ghost use Rattle.olap_grammar.specs.CuttingMachine.{mark_of, tokens_of};
ghost use Rattle.olap_grammar.specs.declared.tokens.Version.{Version as TheVersion};
ghost use Rattle.olap_grammar.specs.Keeping as keeping;
ghost use Rattle.olap_grammar.specs.Keeping.{BeginsFound, Kept, keep, kept_tokens, nothing_kept};
ghost use Rattle.olap_grammar.specs.Cutting.{is_word_byte as is_word_byte_of};
ghost use Rattle.olap_base.specs.Refusing.{IsForMemory};
ghost use Rattle.olap_grammar.specs.Cutter.{CutEnds, CutsTo, FailsWith, cut_of, kept_of};
ghost use Rattle.olap_grammar.specs.Tallying.{HasRoom, nothing_tallied};

use crate::{Joint, Mark, NoTokens, Tally, Token, Version};
use olap_base::{Refusal, Text};
use std::alloc::Global;
use std::mem;

/// The tokens of a line from the first on, as many as may be kept.
#[derive(Drop)]
pub struct FirstTokens {
    /// The tokens that are kept.
    pub first: Vec<Token>,
    /// Whether the line has more of them.
    pub more: bool,
    /// What is counted of all tokens of the line.
    pub tally: Tally,
    /// How many tokens are kept at most.
    pub most: usize,
}

/// What was begun. Its bytes stand apart.
#[derive(Clone, Copy)]
enum Begun {
    Nothing,
    Word,
    Quotes,
    Escape,
    Signed,
    Dash,
    Less,
    LessDash,
}

/// Whether the byte can stand in a word.
fn is_word_byte(byte: u8) -> bool
    ensures { result ≡ is_word_byte_of byte }
{
    byte.is_ascii_alphanumeric() || byte == b'_' || byte == b'.'
}

/// The token after the others. Nothing is begun after it.
fn add(version: Version, tokens: &mut FirstTokens, token: Token) -> Result<Begun, Refusal<NoTokens>>
    requires { HasRoom tokens.old.tally }
    ensures goes { (bs : Items ℕ) → CutsTo result bs (kept_of tokens.new)
        (keeping.Between (keep version (kept_of tokens.old) token)) }
    ensures kept { OnOk result (kept_of tokens.new ≡ keep version (kept_of tokens.old) token) }
    ensures memory { IfErr result IsForMemory }
{
    tokens.tally.add(version, &token);
    if tokens.first.len() < tokens.most {
        tokens.first.push(token)?;
        return Ok(Begun::Nothing);
    }
    tokens.more = true;
    Ok(Begun::Nothing)
}

/// The byte is one more of what was begun.
fn push(bytes: &mut Vec<u8>, byte: u8, begun: Begun) -> Result<Begun, Refusal<NoTokens>>
    ensures { (k : Kept) → CutsTo result bytes.new.items k (cut_of begun (bytes.old.items ++ byte ∷ []) k) }
{
    bytes.push(byte)?;
    Ok(begun)
}

/// The bytes that were begun, as a text. None are left.
fn taken(alloc: Global, bytes: &mut Vec<u8>) -> Text
    ensures { result ≡ bytes.old.items }
{
    Text::from_vec(mem::replace(bytes, Vec::new(alloc)))
}

/// The mark that the byte is by itself.
fn mark(byte: u8) -> Option<Mark>
    ensures { result ≡ mark_of byte }
{
    match byte {
        b'(' => Some(Mark::Open),
        b')' => Some(Mark::Close),
        b',' => Some(Mark::Comma),
        b':' => Some(Mark::Colon),
        b'=' => Some(Mark::Equal),
        b'!' => Some(Mark::Not),
        b'^' => Some(Mark::Joint(Joint::Xor)),
        b'|' => Some(Mark::Joint(Joint::Or)),
        b'&' => Some(Mark::Joint(Joint::And)),
        _ => None,
    }
}

/// A byte where nothing was begun.
fn between(
    version: Version,
    tokens: &mut FirstTokens,
    bytes: &mut Vec<u8>,
    byte: u8,
) -> Result<Begun, Refusal<NoTokens>>
    requires { HasRoom tokens.old.tally }
    ensures { CutsTo result bytes.new.items (kept_of tokens.new) (keeping.between version (kept_of tokens.old) byte) }
{
    bytes.clear();
    if is_word_byte(byte) {
        return push(bytes, byte, Begun::Word);
    }
    match byte {
        b' ' | b'\t' => Ok(Begun::Nothing),
        b'"' => Ok(Begun::Quotes),
        b'-' => Ok(Begun::Dash),
        b'<' => Ok(Begun::Less),
        _ => match mark(byte) {
            Some(mark) => add(version, tokens, Token::Mark(mark)),
            None => Err(Refusal::Kind(NoTokens)),
        },
    }
}

/// A byte in a string.
fn in_quotes(
    alloc: Global,
    version: Version,
    tokens: &mut FirstTokens,
    bytes: &mut Vec<u8>,
    byte: u8,
) -> Result<Begun, Refusal<NoTokens>>
    requires { HasRoom tokens.old.tally }
    ensures { CutsTo result bytes.new.items (kept_of tokens.new)
        (keeping.kept_step version (keeping.InQuotes (kept_of tokens.old) bytes.old.items) byte) }
{
    match byte {
        b'"' => add(version, tokens, Token::Quoted(taken(alloc, bytes))),
        b'\\' => Ok(Begun::Escape),
        _ => push(bytes, byte, Begun::Quotes),
    }
}

/// A byte after a backslash in a string: a quotation mark or another backslash, and nothing else.
fn escaped(bytes: &mut Vec<u8>, byte: u8) -> Result<Begun, Refusal<NoTokens>>
    ensures { (v : TheVersion) (k : Kept) →
        CutsTo result bytes.new.items k (keeping.kept_step v (keeping.Escaped k bytes.old.items) byte) }
{
    if byte == b'"' || byte == b'\\' {
        return push(bytes, byte, Begun::Quotes);
    }
    Err(Refusal::Kind(NoTokens))
}

/// Whether numbers may stand in a line.
fn has_numbers(version: Version) -> bool
    ensures { result ≡ has_numbers_of version }
{
    match version {
        Version::One => false,
        Version::Two => true,
    }
}

/// A byte after `-` that ends no arrow: it begins a number.
fn after_dash(version: Version, bytes: &mut Vec<u8>, byte: u8) -> Result<Begun, Refusal<NoTokens>>
    ensures { (k : Kept) → CutsTo result bytes.new.items k (keeping.after_dash version k byte) }
{
    if has_numbers(version) && byte.is_ascii_digit() {
        bytes.clear();
        bytes.push(b'-')?;
        return push(bytes, byte, Begun::Signed);
    }
    Err(Refusal::Kind(NoTokens))
}

/// A byte after `<` that isn't `-`.
fn after_less(
    version: Version,
    tokens: &mut FirstTokens,
    bytes: &mut Vec<u8>,
    byte: u8,
) -> Result<Begun, Refusal<NoTokens>>
    requires { HasRoom tokens.old.tally }
    ensures { CutsTo result bytes.new.items (kept_of tokens.new)
        (keeping.after_less version (kept_of tokens.old) byte) }
{
    if !has_numbers(version) {
        return Err(Refusal::Kind(NoTokens));
    }
    if byte == b'=' {
        return add(version, tokens, Token::Mark(Mark::AtMost));
    }
    add(version, tokens, Token::Mark(Mark::Less))?;
    between(version, tokens, bytes, byte)
}

/// A byte of the line.
fn step(
    alloc: Global,
    version: Version,
    tokens: &mut FirstTokens,
    begun: Begun,
    bytes: &mut Vec<u8>,
    byte: u8,
) -> Result<Begun, Refusal<NoTokens>>
    requires { HasRoom tokens.old.tally }
    ensures { CutsTo result bytes.new.items (kept_of tokens.new)
        (keeping.kept_step version (cut_of begun bytes.old.items (kept_of tokens.old)) byte) }
{
    match begun {
        Begun::Nothing => between(version, tokens, bytes, byte),
        Begun::Word if is_word_byte(byte) => push(bytes, byte, Begun::Word),
        Begun::Word => {
            add(version, tokens, Token::Word(taken(alloc, bytes)))?;
            between(version, tokens, bytes, byte)
        }
        Begun::Signed if is_word_byte(byte) => push(bytes, byte, Begun::Signed),
        Begun::Signed => {
            add(version, tokens, Token::Signed(taken(alloc, bytes)))?;
            between(version, tokens, bytes, byte)
        }
        Begun::Quotes => in_quotes(alloc, version, tokens, bytes, byte),
        Begun::Escape => escaped(bytes, byte),
        Begun::Dash if byte == b'>' => add(
            version,
            tokens,
            Token::Mark(Mark::Joint(Joint::Implies)),
        ),
        Begun::Dash => after_dash(version, bytes, byte),
        Begun::Less if byte == b'-' => Ok(Begun::LessDash),
        Begun::Less => after_less(version, tokens, bytes, byte),
        Begun::LessDash if byte == b'>' => add(
            version,
            tokens,
            Token::Mark(Mark::Joint(Joint::Iff)),
        ),
        Begun::LessDash => {
            add(version, tokens, Token::Mark(Mark::Less))?;
            after_dash(version, bytes, byte)
        }
    }
}

/// The end of the line: it ends what a space ends, and no more.
fn end(
    alloc: Global,
    version: Version,
    tokens: &mut FirstTokens,
    begun: Begun,
    bytes: &mut Vec<u8>,
) -> Result<(), Refusal<NoTokens>>
    requires { HasRoom tokens.old.tally }
    ensures { CutEnds result (kept_of tokens.new)
        (keeping.kept_ended version (cut_of begun bytes.old.items (kept_of tokens.old))) }
{
    match step(alloc, version, tokens, begun, bytes, b' ')? {
        Begun::Nothing => Ok(()),
        _ => Err(Refusal::Kind(NoTokens)),
    }
}

/// The first tokens of the line, with nothing kept before. The bytes are room for what is begun.
#[tactic(auto, unfolding(crate::specs::Keeping::kept_tokens))]
fn cut(
    alloc: Global,
    version: Version,
    tokens: &mut FirstTokens,
    bytes: &mut Vec<u8>,
    line: &[u8],
) -> Result<(), Refusal<NoTokens>>
    requires { tokens.old.tally ≡ nothing_tallied }
    ensures { (most : ℕ) → kept_of tokens.old ≡ nothing_kept most
        → CutEnds result (kept_of tokens.new) (kept_tokens version most line.now) }
{
    let mut begun = Begun::Nothing;
    let mut left = line;
    'bytes: while let Some((byte, others)) = left.split_first() {
        match step(alloc, version, tokens, begun, bytes, *byte) {
            Ok(next) => begun = next,
            Err(e) => return Err(e),
        }
        left = others;
    }
    end(alloc, version, tokens, begun, bytes)
}

/// The tokens that the line is cut into by the version, with spaces and tabs between them. As many are kept as `most`.
///
/// `NoTokens` exactly if it can't be cut, and `Memory` if there is no room. One pass.
pub fn first_tokens(
    alloc: Global,
    version: Version,
    line: &[u8],
    most: usize,
) -> Result<FirstTokens, Refusal<NoTokens>>
    ensures found { MatchResult result (λ t. BeginsFound version (kept_of t) (tokens_of version line.now))
        (λ e. FailsWith e (tokens_of version line.now)) }
    ensures most { IfOk result (λ t. t.most ≡ most) }
{
    let mut found = FirstTokens {
        first: Vec::new(alloc),
        more: false,
        tally: Tally::new(),
        most,
    };
    match cut(alloc, version, &mut found, &mut Vec::new(alloc), line) {
        Ok(()) => Ok(found),
        Err(e) => Err(e),
    }
}
