// Closing brackets, lists and connectives.
ghost use Rattle.olap_grammar.specs.Clip.{clipped};
ghost use Rattle.olap_grammar.specs.Frames.{frames};
ghost use Rattle.olap_grammar.specs.Grammar.{left_level as left_level_of, level as level_of};
ghost use Rattle.olap_grammar.specs.Machine.{closed, list_closed, settled};
ghost use Rattle.olap_grammar.specs.Parts.{part_of, parts_of};
ghost use Rattle.olap_grammar.specs.Reader.{GoesBack};
ghost use Rattle.std.specs.Prelude.{◌≡◌, OnOk};

use crate::Joint;
use crate::parts::{Part, Parts, joined, more, negated, no_parts, one};
use crate::refusals::NoFormula;
use crate::stacking::{Frame, Stack};
use olap_base::{Memory, Refusal};
use std::alloc::Global;

/// How tightly it binds.
pub(crate) fn level(joint: Joint) -> u8
    ensures { result ≡ level_of joint }
{
    match joint {
        Joint::Iff => 1,
        Joint::Implies => 2,
        Joint::Xor => 3,
        Joint::Or => 4,
        Joint::And => 5,
    }
}

/// The least level of what stands to its left.
pub(crate) fn left_level(joint: Joint) -> u8
    ensures { result ≡ left_level_of joint }
{
    match joint {
        Joint::Implies => 3,
        _ => level(joint),
    }
}

/// Closes all that is open in front of the formula, of the level or a tighter one.
pub(crate) fn settle(
    alloc: Global,
    least: u8,
    whole: &mut Part,
    stack: &mut Stack,
) -> Result<(), Memory>
    ensures { OnOk result (settled clipped least (part_of whole.old)
        (frames stack.old) ≡ (part_of whole.new, frames stack.new)) }
{
    'frames: while let Some(frame) = stack.pop() {
        match frame {
            Frame::Negation => *whole = negated(alloc, whole.take())?,
            Frame::Left(joint, left) => {
                if level(joint) < least {
                    return stack.push(Frame::Left(joint, left));
                }
                *whole = joined(alloc, joint, left, whole.take())?;
            }
            other => return stack.push(other),
        }
    }
    Ok(())
}

/// Takes the parts of the list that is open in front of the others, and its beginning.
fn gather(alloc: Global, parts: &mut Parts, stack: &mut Stack) -> Result<(), Refusal<NoFormula>>
    ensures { GoesBack result (clipped.one (parts_of parts.new)) (frames stack.new)
        (list_closed clipped (parts_of parts.old) (frames stack.old)) }
{
    'parts: while let Some(frame) = stack.pop() {
        match frame {
            Frame::Part(part) => *parts = more(alloc, part, parts.take())?,
            Frame::Listing => return Ok(()),
            _ => return Err(Refusal::Kind(NoFormula)),
        }
    }
    Err(Refusal::Kind(NoFormula))
}

/// The list that is open is closed after its last parts.
fn close_list(
    alloc: Global,
    last: Parts,
    whole: &mut Part,
    stack: &mut Stack,
) -> Result<(), Refusal<NoFormula>>
    ensures { GoesBack result (part_of whole.new) (frames stack.new)
        (list_closed clipped (parts_of last) (frames stack.old)) }
{
    let mut parts = last;
    match gather(alloc, &mut parts, stack) {
        Ok(()) => {
            *whole = one(parts);
            Ok(())
        }
        Err(e) => Err(e),
    }
}

/// The bracket or the list that is open is closed after the formula.
pub(crate) fn close(
    alloc: Global,
    whole: &mut Part,
    stack: &mut Stack,
) -> Result<(), Refusal<NoFormula>>
    ensures { GoesBack result (part_of whole.new) (frames stack.new)
        (closed clipped (part_of whole.old) (frames stack.old)) }
{
    match stack.pop() {
        Some(Frame::Bracket) => Ok(()),
        Some(frame) => {
            stack.push(frame)?;
            let last = more(alloc, whole.take(), no_parts())?;
            close_list(alloc, last, whole, stack)
        }
        None => Err(Refusal::Kind(NoFormula)),
    }
}
