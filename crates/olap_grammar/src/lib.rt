//! Tokens of a schema's lines, and the formulas that they are.
//!
//! `first_tokens` cuts a line, and `formula` reads tokens as a formula over words. What they find is the grammar's: a
//! relation by cases between bytes and tokens (`specs/Cutting`), and one between tokens and a formula's tree
//! (`specs/Grammar`); `laws` say so. Neither calls itself: what is open stands on a list in memory, however deep a text
//! is. No name is looked up; what a schema's text is isn't known here.
#![tactic(auto)]

mod closing;
mod cutting;
mod forms;
mod laws;
mod parts;
mod quoting;
mod reading;
mod refusals;
mod stacking;
mod tallying;
mod tokens;
mod words;

pub use cutting::{FirstTokens, first_tokens};
pub use forms::{Atom, Form, Forms};
pub use laws::{
    a_line_is_cut_in_one_way, formulas_are_found_as_formed, formulas_have_few_tokens,
    tokens_are_found_as_cut, tokens_are_one_formula,
};
pub use quoting::push_quoted;
pub use reading::formula;
pub use refusals::{FormFault, NoTokens};
pub use tallying::Tally;
pub use tokens::{Joint, Mark, Token, Version};
pub use words::{first_piece, is_number_token, marks, pieces};
