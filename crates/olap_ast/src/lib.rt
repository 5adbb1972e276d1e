//! Formulas, schemas, legal instances, frozen dimensions and summarizability.
//!
//! `specs/` says what a formula's truth, a legal instance, a frozen dimension and a counterexample are, over plain
//! values; `laws` are theorems over these definitions. Beside them stand the program's own formulas: `Formula` is a
//! tree, and contracts see it as the definitions' formula `formula_of` (`specs/Trees`). No text of a schema is known
//! here, and no search.
#![tactic(auto)]

mod collecting;
mod copying;
mod formulas;
mod laws;
mod measuring;
mod questioning;
mod three_values;

pub use collecting::{constants, gather, gather_numbers, numbers};
pub use copying::copy;
pub use formulas::{Constraint, Formula, Op, Terms};
pub use laws::{
    above_is_legal, candidates_exist, fresh_names_exist, frozen_exactly_if_some_instance,
    implied_exactly_if_none_frozen, legal_exactly_if_no_violation, legal_exactly_if_parts_are,
    nine_is_frozen, one_store_is_counterexample, one_store_is_legal,
    redundant_exactly_if_none_frozen, renaming_is_harmless, stores_are_summarizable,
    summarizable_exactly_if_none_frozen, the_counterexample_is_one, the_findings_are_one,
    the_least_is_one, unsatisfiable_exactly_if_none_frozen, unused_exactly_if_none_frozen,
    valid_schemas_have_candidates,
};
pub use measuring::{depth, nodes};
pub use questioning::{are_distinct, not_by_one};
pub use three_values::{OneCount, Truth3, values_agree};
