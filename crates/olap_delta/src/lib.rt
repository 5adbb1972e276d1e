//! Stored views after facts came or were withdrawn: from the change alone, without the facts behind the views.
//!
//! What a change makes of stored views is the function `store_changed` of `specs/Changes.antt`: the views, or the first
//! fact that is refused, and why. `append`, `retract` and `change_by_text` return it, and `Delta` fact by fact.
//! `src/laws.rt` says what that means: the direct views of a fact table become the direct views of the table with the
//! new facts, or without the withdrawn ones. The facts behind the views aren't known here.
#![tactic(auto)]

mod changes;
mod deltas;
mod joining;
mod kinds;
mod laws;
mod lots;
mod storing;
mod taking;
mod texts;

pub use changes::Change;
pub use deltas::Delta;
pub use kinds::{ChangeKind, DeltaKind};
pub use laws::{append_gives_direct_views, changes_are_named, retract_gives_direct_views};
pub use storing::{append, retract};
pub use texts::{Changer, change_by_text};
