//! The definitions of the subject.
//!
//! `specs/` says what a hierarchy schema, a dimension instance, its five laws, a fact table and a view are, over plain
//! lists and numbers of any size; `laws` are theorems over these definitions. Beside them stand the ids, texts and
//! lists that all crates share. The definitions know nothing of the program.
#![tactic(auto)]

mod ids;
mod laws;
mod limits;
mod lists;
mod refusals;
mod texts;

pub use ids::{CatId, EdgeId, MemberId, Memory};
pub use laws::{
    above_is_lawful, agree_exactly_if_reached_by_one, one_facts_views, totals_of_summaries,
    totals_of_values,
};
pub use limits::{
    MOST_CATEGORIES, MOST_CERTIFICATE_BYTES, MOST_CONSTANTS, MOST_CONSTRAINTS, MOST_COUNT,
    MOST_DEPTH, MOST_EDGES, MOST_FACTS, MOST_FROZEN, MOST_GENERATED, MOST_INSTANCE_BYTES,
    MOST_LISTED_FACTS, MOST_MEMBERS, MOST_NODES, MOST_SCHEMA_BYTES, MOST_SCHEMA_NODES,
    MOST_STORE_BYTES, MOST_SUM, MOST_TEXT_BYTES, MOST_VIEWS, MOST_WORDS,
};
pub use lists::List;
pub use refusals::{Fault, Refusal};
pub use texts::Text;
