// Formulas about one member, as the program keeps them.
ghost use Rattle.std.specs.Prelude.{◌≡◌};
ghost use Rattle.olap_numerals.specs.Comparing.{compares, is_numbered};
ghost use Rattle.olap_ast.specs.Trees.{op_of};

use olap_base::{CatId, List, Text};
use olap_numerals::number;

/// How two numbers are compared.
#[derive(Clone, Copy, PartialEq, Eq, PartialOrd, Ord)]
pub enum Op {
    /// They are equal.
    Equal,
    /// The first is less.
    Less,
    /// The first is less, or they are equal.
    AtMost,
}

impl Op {
    // Whether the comparison holds of the two.
    fn test(self, a: i64, b: i64) -> bool
        ensures { result ≡ compares (op_of self) a b }
    {
        match self {
            Op::Equal => a == b,
            Op::Less => a < b,
            Op::AtMost => a <= b,
        }
    }

    /// Whether the text is a numeral, and the comparison holds of its number and this one.
    pub fn passes(self, text: &[u8], n: i64) -> bool
        ensures { result ≡ is_numbered text.now (op_of self) n }
    {
        match number(text) {
            Some(a) => self.test(a, n),
            None => false,
        }
    }
}

/// A formula about one member of its root. An atom doesn't name the root.
#[derive(Drop)]
#[cycle(formula)]
pub enum Formula {
    /// Always.
    True,
    /// Never.
    False,
    /// A chain of parents goes through these categories, one after the other.
    Path(List<CatId>),
    /// A member of the category is reached.
    Reach(CatId),
    /// A member of the first category is reached that reaches a member of the second.
    Via(CatId, CatId),
    /// A member of the category is reached whose name is the text. At the root it is the member itself.
    Equals(CatId, Text),
    /// A member of the category is reached whose number compares so with this one.
    Compare(CatId, Op, i64),
    /// The part isn't true.
    Not(Box<Formula>),
    /// Both parts are true.
    And(Box<Formula>, Box<Formula>),
    /// A part is true.
    Or(Box<Formula>, Box<Formula>),
    /// The second part is true if the first is.
    Implies(Box<Formula>, Box<Formula>),
    /// Both parts are true, or neither is.
    Iff(Box<Formula>, Box<Formula>),
    /// One of the two parts is true.
    Xor(Box<Formula>, Box<Formula>),
    /// Exactly one part of the list is true.
    One(Terms),
}

/// The parts of `one(..)`, in order.
#[cycle(formula)]
pub enum Terms {
    /// No more parts.
    End,
    /// A part, and the rest.
    More(Box<Formula>, Box<Terms>),
}

impl Drop for Terms {
    // A loop: a list may have thousands of parts, and a call for each would take as much stack.
    #[cycle(formula)]
    fn drop(mut self) {
        loop {
            match self {
                Terms::End => return,
                Terms::More(_, rest) => self = Box::into_inner(rest),
            }
        }
    }
}

/// What each member of the root has to meet.
#[derive(Drop)]
pub struct Constraint {
    /// The category that it speaks of. In a schema it isn't `All`.
    pub root: CatId,
    /// What is true at each of its members.
    pub formula: Formula,
}
