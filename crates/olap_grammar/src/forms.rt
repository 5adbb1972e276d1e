// Formulas as they are written: over words, before any name is looked up.
use crate::Joint;
use olap_ast::Op;
use olap_base::Text;

/// What a word says, by itself or with a constant after it. Each name is a category's by its letters; whether a
/// category has it isn't known.
#[derive(Drop)]
pub enum Atom {
    /// Always.
    True,
    /// Never.
    False,
    /// The root, and the other names, joined by `_`.
    Path(Text, Text),
    /// The root, and the category that is reached.
    Reach(Text, Text),
    /// The root, and the categories that are reached, the second by way of the first.
    Via(Text, Text, Text),
    /// The root, the category whose name is compared, which may be the root, and the text.
    Equals(Text, Text, Text),
    /// The root, the category whose number is compared, which may be the root, and the digits of the number.
    Compare(Text, Text, Op, Text),
}

/// A formula over words.
#[derive(Drop)]
#[cycle(form)]
pub enum Form {
    /// What a word says.
    Atom(Atom),
    /// The part isn't true.
    Not(Box<Form>),
    /// Two parts with a connective between them.
    Joined(Joint, Box<Form>, Box<Form>),
    /// Exactly one part of the list is true.
    One(Forms),
}

/// The parts of `one(..)`, in order.
#[cycle(form)]
pub enum Forms {
    /// No more parts.
    End,
    /// A part, and the rest.
    More(Box<Form>, Box<Forms>),
}

impl Drop for Forms {
    // A loop: a list may have thousands of parts, and a call for each would take as much stack.
    #[cycle(form)]
    fn drop(mut self) {
        loop {
            match self {
                Forms::End => return,
                Forms::More(_, rest) => self = Box::into_inner(rest),
            }
        }
    }
}
