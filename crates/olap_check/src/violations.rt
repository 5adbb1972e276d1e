// How an instance isn't legal.
ghost use Rattle.olap_check.specs.FirstViolation.{FirstViolationIsFirst};

use olap_base::{CatId, MemberId};
use olap_instance::Instance;

/// How a law or a constraint is violated. Laws are judged in the order of the variants.
#[derive(Clone, Copy, PartialEq, Eq)]
pub enum Violation {
    /// No edge leads from the child's category to the parent's.
    Connectivity(MemberId, MemberId),
    /// The member isn't `all`, and has no parent.
    NoParent(MemberId),
    /// The member is far below a member of its own category.
    Stratification(MemberId),
    /// The member is far below two members of the category.
    Partitioning(MemberId, CatId),
    /// The child is below the parent, and below another member that is far below the parent.
    Shortcut(MemberId, MemberId),
    /// The constraint, counted from 1, isn't met at the member.
    Constraint(u16, MemberId),
}

/// An instance that isn't legal, handed back with its first violation.
#[derive(Drop)]
pub struct Illegal {
    pub instance: Instance,
    pub violation: Violation,
}

/// Of a list of members that is an instance, and in which the names of number categories are numerals, the function
/// `first_violation` of the definitions gives nothing exactly if it is legal, and else the first violation.
pub fn first_violation_is_first()
    ensures { FirstViolationIsFirst }
{}
