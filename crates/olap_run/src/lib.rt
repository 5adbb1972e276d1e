//! The program's top call: `olap` judges the words and the files, and writes the answer.
//!
//! A command is first an *order*: it reads files one after another, where what a file holds may decide what comes next,
//! and ends in a question, or in the answer itself. Families of commands have their orders and questions, each in a
//! crate of its own. `specs/Outcome.antt` says which status and bytes the words and the files have. The code follows
//! the order with everything in memory, and then writes. It knows no real file, and no command by name.
#![tactic(auto)]

mod judging;
mod laws;
mod surely;
mod top;

pub use laws::{outcome_exists, outcome_is_one, proved_is_accepted};
pub use olap_order::Status;
pub use surely::olap_surely;
pub use top::olap;
