// Formulas with their depth, which are built only as far as they are no deeper than `MOST_DEPTH`.
ghost use Rattle.olap_grammar.specs.Clip.{clipped, kept as kept_of, kept_terms as kept_terms_of};
ghost use Rattle.olap_grammar.specs.Parts.{part_of, parts_of};
ghost use Rattle.olap_grammar.specs.Shown.{form_of, forms_of};
ghost use Rattle.std.specs.Prelude.{◌≡◌, IfOk};

use crate::{Atom, Form, Forms, Joint};
use olap_base::{MOST_DEPTH, Memory};
use std::alloc::Global;
use std::mem;

/// The depth of all that is deeper than a formula may be.
const TOO_DEEP: u8 = MOST_DEPTH as u8 + 1;

/// A formula and its depth; where that is `TOO_DEEP`, the formula says nothing.
pub(crate) struct Part {
    pub(crate) form: Form,
    pub(crate) depth: u8,
}

impl Part {
    /// The formula without its depth.
    pub(crate) fn into_form(self) -> Form
        ensures { form_of result ≡ form_of self.form }
    {
        let Part { form, depth: _ } = self;
        form
    }

    /// The formula in a box, without its depth.
    fn boxed(self, alloc: Global) -> Result<Box<Form>, Memory>
        ensures { IfOk result (λ b. form_of b.value ≡ form_of self.form) }
    {
        Ok(Box::new(alloc, self.into_form())?)
    }

    /// Takes the part out. The one that is left says nothing.
    pub(crate) fn take(&mut self) -> Part
        ensures { part_of result ≡ part_of self.old }
    {
        mem::replace(self, leaf(Form::Atom(Atom::True)))
    }
}

impl Drop for Part {
    // Not derived: each exit that drops a part calls this, in place of code for every kind of formula.
    fn drop(self) {
        let Part { form: _, depth: _ } = self;
    }
}

/// The parts of a list and the greatest depth; where that is `TOO_DEEP`, the parts say nothing.
#[derive(Drop)]
pub(crate) struct Parts {
    forms: Forms,
    depth: u8,
}

/// The formula, if it is no deeper than one may be.
fn kept(depth: u16, form: Form) -> Part
    ensures { part_of result ≡ kept_of depth (form_of form) }
{
    let mut part = Part {
        form,
        depth: TOO_DEEP,
    };
    if depth <= MOST_DEPTH {
        part.depth = depth as u8;
    } else {
        part = Part {
            form: Form::Atom(Atom::True),
            depth: TOO_DEEP,
        };
    }
    part
}

/// The parts, if none is deeper than one may be.
fn kept_terms(depth: u16, forms: Forms) -> Parts
    ensures { parts_of result ≡ kept_terms_of depth (forms_of forms) }
{
    if depth <= MOST_DEPTH {
        Parts {
            forms,
            depth: depth as u8,
        }
    } else {
        Parts {
            forms: Forms::End,
            depth: TOO_DEEP,
        }
    }
}

/// A formula that has no parts.
pub(crate) fn leaf(form: Form) -> Part
    ensures { part_of result ≡ (1, form_of form) }
{
    Part { form, depth: 1 }
}

/// Its negation.
pub(crate) fn negated(alloc: Global, part: Part) -> Result<Part, Memory>
    ensures { IfOk result (λ p. part_of p ≡ clipped.negate (part_of part)) }
{
    let depth = 1 + part.depth as u16;
    Ok(kept(depth, Form::Not(part.boxed(alloc)?)))
}

/// The joint of two formulas, with its depth.
pub(crate) fn joined(alloc: Global, joint: Joint, left: Part, right: Part) -> Result<Part, Memory>
    ensures { IfOk result (λ p. part_of p ≡ clipped.join joint (part_of left) (part_of right)) }
{
    let depth = 1 + left.depth.max(right.depth) as u16;
    let f = left.boxed(alloc)?;
    let g = right.boxed(alloc)?;
    Ok(kept(depth, Form::Joined(joint, f, g)))
}

/// The end of a list.
pub(crate) fn no_parts() -> Parts
    ensures { parts_of result ≡ clipped.end }
{
    Parts {
        forms: Forms::End,
        depth: 0,
    }
}

impl Parts {
    /// Takes the list out. The one that is left has no parts.
    pub(crate) fn take(&mut self) -> Parts
        ensures { parts_of result ≡ parts_of self.old }
    {
        mem::replace(self, no_parts())
    }
}

/// A part in front of a list.
pub(crate) fn more(alloc: Global, part: Part, parts: Parts) -> Result<Parts, Memory>
    ensures { IfOk result (λ p. parts_of p ≡ clipped.more (part_of part) (parts_of parts)) }
{
    let depth = part.depth.max(parts.depth) as u16;
    let f = part.boxed(alloc)?;
    let others = Box::new(alloc, parts.forms)?;
    Ok(kept_terms(depth, Forms::More(f, others)))
}

/// Exactly one part of the list.
pub(crate) fn one(parts: Parts) -> Part
    ensures { part_of result ≡ clipped.one (parts_of parts) }
{
    let depth = 1 + parts.depth as u16;
    kept(depth, Form::One(parts.forms))
}
