//! The truth of a formula at a member, asked of a shape.
//!
//! A `Shape` answers for at most one member of each category: which edges lie between them, which of them a member
//! reaches, and how they are named. A contract sees it as an instance and one place of it for each present category.
//! `holds` is the truth of a formula at the root's member of that instance.
//!
//! A `Partial` says of each edge, of each reaching, of each name and of each comparison of a number what is known of
//! it, and `holds3` what is known of a formula by that. Where shapes come from isn't known here.
#![tactic(auto)]

mod partial;
mod shapes;
mod truths;

pub use partial::{Partial, holds3, values_are_truths};
pub use shapes::Shape;
pub use truths::holds;
