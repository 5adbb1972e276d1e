// Reading a formula from left to right, with a stack of what is still open.
ghost use Rattle.olap_grammar.specs.Answering.{Answers, formula_answer};
ghost use Rattle.olap_grammar.specs.Clip.{clipped};
ghost use Rattle.olap_grammar.specs.Frames.{frames};
ghost use Rattle.olap_grammar.specs.Machine as machine;
ghost use Rattle.olap_grammar.specs.Machine.{the_formula};
ghost use Rattle.olap_grammar.specs.Parts.{part_of};
ghost use Rattle.olap_grammar.specs.Reader.{Built, Ends, GoesTo, frame_of, leaves_of, state_of};
ghost use Rattle.olap_grammar.specs.Words.{atoms_of};
ghost use Rattle.olap_grammar.specs.declared.tokens.Mark.TheVariants as the_mark;
ghost use Rattle.olap_grammar.specs.declared.tokens.Token.TheVariants as the_token;
ghost use Rattle.olap_ast.specs.Trees.{op_of};
ghost use Rattle.olap_grammar.specs.Forms as words;
ghost use Rattle.olap_grammar.specs.Shown.{atom_of};
ghost use Rattle.std.specs.Option.{option_map};
ghost use Rattle.std.specs.Prelude.{◌≡◌, [], ◌∷◌, IfOk, List};

use crate::closing::{close, left_level, settle};
use crate::parts::{Part, leaf, no_parts, one};
use crate::refusals::NoFormula;
use crate::stacking::{Frame, Stack};
use crate::words::{comparison, equality, is, plain_word};
use crate::{Atom, Form, FormFault, Joint, Mark, Token, Version};
use olap_ast::Op;
use olap_base::{MOST_DEPTH, Memory, Refusal, Text};
use std::alloc::Global;

/// What was read last: nothing of the formula that is to come, the start of a list, a word, a word with a mark that
/// compares, or a formula, which stands apart.
#[derive(Clone, Copy)]
enum State<'a> {
    Wants,
    WantsPart,
    Named(&'a Text),
    Compared(&'a Text, Op),
    Has,
}

/// One more is open, and a formula is to come.
fn open<'a>(stack: &mut Stack, frame: Frame) -> Result<State<'a>, Refusal<NoFormula>>
    ensures { (f : Built) → GoesTo result f (frames stack.new)
        (machine.State.Wants (frame_of frame ∷ frames stack.old)) }
{
    stack.push(frame)?;
    Ok(State::Wants)
}

/// The formula before a connective stays open.
fn left_off<'a>(
    alloc: Global,
    joint: Joint,
    whole: &mut Part,
    stack: &mut Stack,
) -> Result<State<'a>, Refusal<NoFormula>>
    ensures { GoesTo result (part_of whole.new) (frames stack.new)
        (machine.after clipped (part_of whole.old) (frames stack.old) (the_token.Mark (the_mark.Joint joint))) }
{
    settle(alloc, left_level(joint), whole, stack)?;
    open(stack, Frame::Left(joint, whole.take()))
}

/// The part before a comma stays open.
fn part_off<'a>(
    alloc: Global,
    whole: &mut Part,
    stack: &mut Stack,
) -> Result<State<'a>, Refusal<NoFormula>>
    ensures { GoesTo result (part_of whole.new) (frames stack.new)
        (machine.after clipped (part_of whole.old) (frames stack.old) (the_token.Mark the_mark.Comma)) }
{
    settle(alloc, 1, whole, stack)?;
    if !stack.takes_part() {
        return Err(Refusal::Kind(NoFormula));
    }
    open(stack, Frame::Part(whole.take()))
}

/// The bracket or the list that is open ends with the formula.
fn close_after<'a>(
    alloc: Global,
    whole: &mut Part,
    stack: &mut Stack,
) -> Result<State<'a>, Refusal<NoFormula>>
    ensures { GoesTo result (part_of whole.new) (frames stack.new)
        (machine.after clipped (part_of whole.old) (frames stack.old) (the_token.Mark the_mark.Close)) }
{
    settle(alloc, 1, whole, stack)?;
    close(alloc, whole, stack)?;
    Ok(State::Has)
}

/// After a formula.
fn after<'a>(
    alloc: Global,
    whole: &mut Part,
    stack: &mut Stack,
    token: &Token,
) -> Result<State<'a>, Refusal<NoFormula>>
    ensures { GoesTo result (part_of whole.new) (frames stack.new)
        (machine.after clipped (part_of whole.old) (frames stack.old) token.now) }
{
    match token {
        Token::Mark(Mark::Joint(joint)) => left_off(alloc, *joint, whole, stack),
        Token::Mark(Mark::Close) => close_after(alloc, whole, stack),
        Token::Mark(Mark::Comma) => part_off(alloc, whole, stack),
        _ => Err(Refusal::Kind(NoFormula)),
    }
}

/// Where a formula is to come.
fn begin<'a>(stack: &mut Stack, token: &'a Token) -> Result<State<'a>, Refusal<NoFormula>>
    ensures { (f : Built) → GoesTo result f (frames stack.new) (machine.begun (frames stack.old) token.now) }
{
    match token {
        Token::Word(word) => Ok(State::Named(word)),
        Token::Mark(Mark::Open) => open(stack, Frame::Bracket),
        Token::Mark(Mark::Not) => open(stack, Frame::Negation),
        _ => Err(Refusal::Kind(NoFormula)),
    }
}

/// Where the first part of a list, or its end, is to come.
fn begin_part<'a>(
    whole: &mut Part,
    stack: &mut Stack,
    token: &'a Token,
) -> Result<State<'a>, Refusal<NoFormula>>
    ensures { GoesTo result (part_of whole.new) (frames stack.new)
        (machine.begun_part clipped (frames stack.old) token.now) }
{
    match token {
        Token::Mark(Mark::Close) => {
            *whole = one(no_parts());
            Ok(State::Has)
        }
        _ => {
            stack.push(Frame::Listing)?;
            begin(stack, token)
        }
    }
}

/// After a word that stands by itself.
fn after_plain<'a>(
    alloc: Global,
    version: Version,
    word: &Text,
    whole: &mut Part,
    stack: &mut Stack,
    token: &Token,
) -> Result<State<'a>, Refusal<NoFormula>>
    ensures { GoesTo result (part_of whole.new) (frames stack.new) (machine.after_atom clipped
        ((leaves_of version).plain word.now) (frames stack.old) token.now) }
{
    match plain_word(alloc, word.bytes())? {
        Some(atom) => {
            *whole = leaf(Form::Atom(atom));
            after(alloc, whole, stack, token)
        }
        None => Err(Refusal::Kind(NoFormula)),
    }
}

/// After a word.
fn after_word<'a>(
    alloc: Global,
    version: Version,
    word: &'a Text,
    whole: &mut Part,
    stack: &mut Stack,
    token: &Token,
) -> Result<State<'a>, Refusal<NoFormula>>
    ensures { GoesTo result (part_of whole.new) (frames stack.new)
        (machine.after_word clipped (leaves_of version) word.now (frames stack.old) token.now) }
{
    match token {
        Token::Mark(Mark::Open) => {
            if is(word.bytes(), b"one") {
                Ok(State::WantsPart)
            } else {
                Err(Refusal::Kind(NoFormula))
            }
        }
        Token::Mark(Mark::Equal) => Ok(State::Compared(word, Op::Equal)),
        Token::Mark(Mark::Less) => Ok(State::Compared(word, Op::Less)),
        Token::Mark(Mark::AtMost) => Ok(State::Compared(word, Op::AtMost)),
        _ => after_plain(alloc, version, word, whole, stack, token),
    }
}

/// The atom of a word with a mark that compares and a token, if they are one.
fn compared_atom(
    alloc: Global,
    version: Version,
    word: &Text,
    op: Op,
    token: &Token,
) -> Result<Option<Atom>, Memory>
    ensures { IfOk result (λ atom. (s : List (machine.Frame Built)) →
        machine.has_atom (option_map (λ a. (1, words.Form.Of (atom_of a))) atom) s
        ≡ machine.after_compared (leaves_of version) word.now (op_of op) s token.now) }
{
    match token {
        Token::Quoted(text) => match op {
            Op::Equal => equality(alloc, word.bytes(), text.bytes()),
            _ => Ok(None),
        },
        Token::Word(digits) => comparison(alloc, version, word.bytes(), op, digits.bytes()),
        Token::Signed(digits) => comparison(alloc, version, word.bytes(), op, digits.bytes()),
        _ => Ok(None),
    }
}

/// After a word with a mark that compares.
fn after_compared<'a>(
    alloc: Global,
    version: Version,
    word: &Text,
    op: Op,
    whole: &mut Part,
    token: &Token,
) -> Result<State<'a>, Refusal<NoFormula>>
    ensures { (s : List (machine.Frame Built)) → GoesTo result (part_of whole.new) s
        (machine.after_compared (leaves_of version) word.now (op_of op) s token.now) }
{
    match compared_atom(alloc, version, word, op, token)? {
        Some(atom) => {
            *whole = leaf(Form::Atom(atom));
            Ok(State::Has)
        }
        None => Err(Refusal::Kind(NoFormula)),
    }
}

fn step<'a>(
    alloc: Global,
    version: Version,
    state: State<'a>,
    whole: &mut Part,
    stack: &mut Stack,
    token: &'a Token,
) -> Result<State<'a>, Refusal<NoFormula>>
    ensures { GoesTo result (part_of whole.new) (frames stack.new) (machine.step clipped
        (leaves_of version)
        (state_of state.entry (part_of whole.old) (frames stack.old)) token.now) }
{
    match state {
        State::Wants => begin(stack, token),
        State::WantsPart => begin_part(whole, stack, token),
        State::Named(word) => after_word(alloc, version, word, whole, stack, token),
        State::Compared(word, op) => after_compared(alloc, version, word, op, whole, token),
        State::Has => after(alloc, whole, stack, token),
    }
}

/// A formula that nothing is open in front of.
fn alone(alloc: Global, whole: &mut Part, stack: &mut Stack) -> Result<(), Refusal<NoFormula>>
    ensures { Ends result (part_of whole.new)
        (machine.alone (machine.settled clipped 1 (part_of whole.old) (frames stack.old))) }
{
    settle(alloc, 1, whole, stack)?;
    if !stack.is_empty() {
        return Err(Refusal::Kind(NoFormula));
    }
    Ok(())
}

/// A word that nothing is open in front of.
fn plain_alone(
    alloc: Global,
    version: Version,
    word: &Text,
    whole: &mut Part,
    stack: &mut Stack,
) -> Result<(), Refusal<NoFormula>>
    ensures { Ends result (part_of whole.new) (machine.ended clipped (leaves_of version)
        (machine.State.Named word.now (frames stack.old))) }
{
    match plain_word(alloc, word.bytes())? {
        Some(atom) => {
            *whole = leaf(Form::Atom(atom));
            alone(alloc, whole, stack)
        }
        None => Err(Refusal::Kind(NoFormula)),
    }
}

fn end(
    alloc: Global,
    version: Version,
    state: State,
    whole: &mut Part,
    stack: &mut Stack,
) -> Result<(), Refusal<NoFormula>>
    ensures { Ends result (part_of whole.new) (machine.ended clipped (leaves_of version)
        (state_of state.entry (part_of whole.old) (frames stack.old))) }
{
    match state {
        State::Has => alone(alloc, whole, stack),
        State::Named(word) => plain_alone(alloc, version, word, whole, stack),
        _ => Err(Refusal::Kind(NoFormula)),
    }
}

/// The formula that the tokens are becomes the whole.
fn read_tokens(
    alloc: Global,
    version: Version,
    whole: &mut Part,
    stack: &mut Stack,
    tokens: &[Token],
) -> Result<(), Refusal<NoFormula>>
    requires { frames stack.old ≡ [] }
    ensures { Ends result (part_of whole.new)
        (machine.formula_read clipped (leaves_of version) tokens.now) }
{
    let mut state = State::Wants;
    let mut left = tokens;
    'tokens: while let Some((token, others)) = left.split_first() {
        match step(alloc, version, state, whole, stack, token) {
            Ok(next) => state = next,
            Err(e) => return Err(e),
        }
        left = others;
    }
    end(alloc, version, state, whole, stack)
}

/// The formula of the version that the tokens are.
///
/// `BadForm` if they are none, and else `TooDeep` if it is deeper than `MOST_DEPTH`. One pass, and no tree that
/// is deeper than one more comes about, whatever the tokens are. `Memory` if there is no room.
pub fn formula(
    alloc: Global,
    version: Version,
    tokens: &[Token],
) -> Result<Form, Refusal<FormFault>>
    ensures { Answers result (formula_answer (the_formula (atoms_of version) tokens.now)) }
{
    let mut whole = leaf(Form::Atom(Atom::True));
    let mut stack = Stack::new(alloc);
    match read_tokens(alloc, version, &mut whole, &mut stack, tokens) {
        Ok(()) if whole.depth > MOST_DEPTH as u8 => Err(Refusal::Kind(FormFault::TooDeep)),
        Ok(()) => Ok(whole.into_form()),
        Err(Refusal::Kind(NoFormula)) => Err(Refusal::Kind(FormFault::BadForm)),
        Err(Refusal::Memory(m)) => Err(Refusal::Memory(m)),
    }
}
