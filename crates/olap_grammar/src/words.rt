// Words of formulas, and their parts.
ghost use Rattle.olap_ast.specs.Trees.{op_of};
ghost use Rattle.olap_base.specs.Bytes.{full_stop, underscore};
ghost use Rattle.olap_base.specs.Reaching.{is_category_name as is_name_of};
ghost use Rattle.olap_numerals.specs.Numerals.{digits_in};
ghost use Rattle.olap_grammar.specs.Cutting.{has_numbers as has_numbers_of};
ghost use Rattle.olap_grammar.specs.Forms as words;
ghost use Rattle.olap_grammar.specs.Shown.{atom_of};
ghost use Rattle.olap_grammar.specs.Words.{compare_of, compared_in, ends_of, equal_of, is_number_token as is_number_token_of, path_of, pieces_behind, pieces_of, plain_of, reach_of};
ghost use Rattle.std.specs.Char.{is_ascii_digit};
ghost use Rattle.std.specs.List.{list_all, position};
ghost use Rattle.std.specs.Option.{option_map};
ghost use Rattle.std.specs.Prelude.{◌≡◌, ◌==◌, ◌<◌, ◌+◌, ◌++◌, ◌∷◌, IfOk, OnOk, IfSome, length, vec_len};
ghost use Rattle.std.specs.Str.{bytes_eq};

use crate::{Atom, Version};
use olap_ast::Op;
use olap_base::{Memory, Text};
use olap_graph::category_name;
use std::alloc::Global;

/// Whether the word is that text.
pub(crate) fn is(word: &[u8], text: &[u8]) -> bool
    ensures { result ≡ bytes_eq word.now text.now }
{
    word == text
}

/// Whether the bytes are a category name.
fn is_name(bytes: &[u8]) -> bool
    ensures { result ≡ is_name_of bytes.now }
{
    category_name(bytes)
}

/// How many marks stand in a word: one less than it has parts.
#[tactic(auto, using(crate::proofs::WordLemmas::pieces_count))]
pub fn marks(mark: u8, word: &[u8]) -> usize
    ensures { length (pieces_of mark word.now) ≡ result + 1 }
{
    word.iter().filter(|b| **b == mark).count()
}

/// The place of the first mark.
fn place(mark: u8, text: &[u8]) -> Option<usize>
    ensures { result ≡ position (λ b. b == mark) text.now }
{
    text.iter().position(|b| *b == mark)
}

/// The first part of a word between marks, and what stands after its mark, if it has one.
#[tactic(auto, unfolding(crate::specs::Words::pieces_of))]
pub fn first_piece(mark: u8, text: &[u8]) -> (&[u8], Option<&[u8]>)
    ensures pieces { pieces_of mark text.now ≡ result.0.now ∷ pieces_behind mark result.1 }
    ensures less { IfSome result.1 (λ others. length others.now < length text.now) }
{
    match place(mark, text) {
        Some(end) => (&text[..end], Some(&text[end + 1..])),
        None => (text, None),
    }
}

/// Appends the parts of a word between marks.
fn push_pieces(alloc: Global, mark: u8, word: &[u8], texts: &mut Vec<Text>) -> Result<(), Memory>
    ensures { OnOk result (texts.new.items ≡ texts.old.items ++ pieces_of mark word.now) }
{
    let mut left = Some(word);
    'parts: while let Some(text) = left {
        let (part, others) = first_piece(mark, text);
        texts.push(Text::from_bytes(alloc, part)?)?;
        left = others;
    }
    Ok(())
}

/// The parts of a word between marks; there is at least one. `Memory` if there is no room.
#[tactic(auto, using(crate::proofs::WordLemmas::some_pieces))]
pub fn pieces(alloc: Global, mark: u8, word: &[u8]) -> Result<Vec<Text>, Memory>
    ensures found { IfOk result (λ v. v.items ≡ pieces_of mark word.now) }
    ensures some { IfOk result (λ v. 0 < vec_len v) }
{
    let mut texts = Vec::new(alloc);
    match push_pieces(alloc, mark, word, &mut texts) {
        Ok(()) => Ok(texts),
        Err(e) => Err(e),
    }
}

/// Whether each part of the word between marks is a category's name.
fn are_names(mark: u8, word: &[u8]) -> bool
    ensures { result ≡ list_all is_name_of (pieces_of mark word.now) }
{
    let mut left = Some(word);
    'parts: while let Some(text) = left {
        let (part, others) = first_piece(mark, text);
        if !is_name(part) {
            return false;
        }
        left = others;
    }
    true
}

/// What parts that are joined by `_` say.
#[tactic(auto, using(crate::proofs::WordLemmas::path_on))]
fn path(alloc: Global, word: &[u8]) -> Result<Option<Atom>, Memory>
    ensures { IfOk result (λ atom. option_map atom_of atom ≡ path_of (pieces_of underscore word.now)) }
{
    let (root, Some(others)) = first_piece(b'_', word) else {
        return Ok(None);
    };
    let root = Text::from_bytes(alloc, root)?;
    Ok(Some(Atom::Path(root, Text::from_bytes(alloc, others)?)))
}

/// Two names that are joined by `.`.
fn reach(alloc: Global, root: &[u8], category: &[u8]) -> Result<Atom, Memory>
    ensures { IfOk result (λ atom. atom_of atom ≡ words.Atom.Reach root.now category.now) }
{
    let root = Text::from_bytes(alloc, root)?;
    Ok(Atom::Reach(root, Text::from_bytes(alloc, category)?))
}

/// Three names that are joined by `.`.
fn via(alloc: Global, root: &[u8], middle: &[u8], category: &[u8]) -> Result<Atom, Memory>
    ensures { IfOk result (λ atom. atom_of atom ≡ words.Atom.Via root.now middle.now category.now) }
{
    let root = Text::from_bytes(alloc, root)?;
    let middle = Text::from_bytes(alloc, middle)?;
    Ok(Atom::Via(root, middle, Text::from_bytes(alloc, category)?))
}

/// What two or three parts that are joined by `.` say.
#[tactic(auto, using(crate::proofs::WordLemmas::reach_on))]
fn joined(alloc: Global, word: &[u8]) -> Result<Option<Atom>, Memory>
    ensures { IfOk result (λ atom. option_map atom_of atom ≡ reach_of (pieces_of full_stop word.now)) }
{
    let (root, Some(others)) = first_piece(b'.', word) else {
        return Ok(None);
    };
    match first_piece(b'.', others) {
        (category, None) => Ok(Some(reach(alloc, root, category)?)),
        (middle, Some(last)) => match first_piece(b'.', last) {
            (category, None) => Ok(Some(via(alloc, root, middle, category)?)),
            (_, Some(_)) => Ok(None),
        },
    }
}

/// The root of a word of one part or two, and the part that stands for the category that is compared.
#[tactic(auto, using(crate::proofs::WordLemmas::ends_on))]
fn ends(word: &[u8]) -> Option<(&[u8], &[u8])>
    ensures { option_map (λ ends. (ends.0.now, ends.1.now)) result ≡ ends_of (pieces_of full_stop word.now) }
{
    match first_piece(b'.', word) {
        (root, None) => Some((root, root)),
        (root, Some(others)) => match first_piece(b'.', others) {
            (category, None) => Some((root, category)),
            (_, Some(_)) => None,
        },
    }
}

/// The names of a word that is compared.
#[tactic(auto, unfolding(crate::specs::Words::compared_in))]
fn compared(word: &[u8]) -> Option<(&[u8], &[u8])>
    ensures { option_map (λ ends. (ends.0.now, ends.1.now)) result ≡ compared_in word.now }
{
    if !are_names(b'.', word) {
        return None;
    }
    ends(word)
}

/// What a word is by itself.
#[tactic(auto, unfolding(crate::specs::Words::plain_of))]
pub(crate) fn plain_word(alloc: Global, word: &[u8]) -> Result<Option<Atom>, Memory>
    ensures { IfOk result (λ atom. option_map atom_of atom ≡ plain_of word.now) }
{
    if is(word, b"true") {
        return Ok(Some(Atom::True));
    }
    if is(word, b"false") {
        return Ok(Some(Atom::False));
    }
    if marks(b'_', word) > 0 {
        if !are_names(b'_', word) {
            return Ok(None);
        }
        return path(alloc, word);
    }
    if !are_names(b'.', word) {
        return Ok(None);
    }
    joined(alloc, word)
}

/// A name that is compared with a text.
fn equals(alloc: Global, root: &[u8], category: &[u8], text: &[u8]) -> Result<Atom, Memory>
    ensures { IfOk result (λ atom. atom_of atom ≡ words.Atom.Equals root.now category.now text.now) }
{
    let root = Text::from_bytes(alloc, root)?;
    let category = Text::from_bytes(alloc, category)?;
    Ok(Atom::Equals(root, category, Text::from_bytes(alloc, text)?))
}

/// What a word is with a string.
pub(crate) fn equality(alloc: Global, word: &[u8], text: &[u8]) -> Result<Option<Atom>, Memory>
    ensures { IfOk result (λ atom. option_map atom_of atom ≡ equal_of word.now text.now) }
{
    match compared(word) {
        Some((root, category)) => Ok(Some(equals(alloc, root, category, text)?)),
        None => Ok(None),
    }
}

/// What stands after a `-`, if one stands in front.
fn behind_sign(text: &[u8]) -> &[u8]
    ensures { result.now ≡ digits_in text.now }
{
    match text.split_first() {
        Some((first, others)) => { if *first == b'-' { others } else { text } }
        None => text,
    }
}

/// Whether the bytes are decimal digits.
fn are_digits(text: &[u8]) -> bool
    ensures { result ≡ list_all is_ascii_digit text.now }
{
    text.iter().all(|b| b.is_ascii_digit())
}

/// Whether the bytes are a `-` or none, decimal digits, one at least, and nothing else.
#[tactic(auto, using(crate::proofs::WordLemmas::each_is_digit), unfolding(crate::specs::Words::is_number_token))]
pub fn is_number_token(text: &[u8]) -> bool
    ensures { result ≡ is_number_token_of text.now }
{
    let digits = behind_sign(text);
    !digits.is_empty() && are_digits(digits)
}

/// Whether numbers may stand in a formula.
fn has_numbers(version: Version) -> bool
    ensures { result ≡ has_numbers_of version }
{
    match version {
        Version::One => false,
        Version::Two => true,
    }
}

/// A name that is compared with a number.
fn compare(
    alloc: Global,
    root: &[u8],
    category: &[u8],
    op: Op,
    digits: &[u8],
) -> Result<Atom, Memory>
    ensures { IfOk result (λ atom. atom_of atom ≡ words.Atom.Compare root.now category.now (op_of op) digits.now) }
{
    let root = Text::from_bytes(alloc, root)?;
    let category = Text::from_bytes(alloc, category)?;
    let digits = Text::from_bytes(alloc, digits)?;
    Ok(Atom::Compare(root, category, op, digits))
}

/// What a word is with a text that may be a number, in the version.
pub(crate) fn comparison(
    alloc: Global,
    version: Version,
    word: &[u8],
    op: Op,
    digits: &[u8],
) -> Result<Option<Atom>, Memory>
    ensures { IfOk result (λ atom. option_map atom_of atom ≡ compare_of version word.now (op_of op) digits.now) }
{
    if !has_numbers(version) || !is_number_token(digits) {
        return Ok(None);
    }
    match compared(word) {
        Some((root, category)) => Ok(Some(compare(alloc, root, category, op, digits)?)),
        None => Ok(None),
    }
}
