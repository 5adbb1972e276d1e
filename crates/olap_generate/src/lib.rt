//! A schema, an instance and facts that are made from a number, and what comes of them.
//!
//! A contract sees the made input as texts: `location_text` is the schema's, and `member_rows` and `fact_rows` are the
//! records of the others (`specs/Location.antt`, `specs/Members.antt`). `generate` makes the texts and runs every step
//! on them: the readers, the check, the stored views as a text, and the plan for the regions. No made text has a fault,
//! and the made instance is legal, so nothing can be refused unless memory runs out. No word and no real file is known
//! here.
#![tactic(auto)]

mod facts;
mod generating;
mod inputs;
mod laws;
mod lines;
mod members;
mod running;

pub use generating::generate;
pub use laws::{an_input_is_made, regions_are_served};
pub use running::LOCATION;
