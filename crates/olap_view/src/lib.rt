//! Views: for the members of a category, the count, sum, least and greatest of their facts' values.
//!
//! A contract sees a `View` as the definition's record (`view_of` of `specs/Seen.antt`). A `Tally` stands for a fact
//! table, and gives the definition's `direct_view`; `direct` answers it too, and `from_views` its `rows_from_views`,
//! on a legal instance. A `SummaryTable` has what stands at each member of some categories: stored views are read into
//! it, changed member by member, and read out of it. Which views may be combined is decided elsewhere.
#![tactic(auto)]

mod columns;
mod fitting;
mod guessing;
mod judging;
mod kinds;
mod laws;
mod numbers;
mod printing;
mod rolling_up;
mod stored_rows;
mod storing;
mod summaries;
mod summary_tables;
mod tables;
mod tallies;
mod viewing;
mod views;

pub use columns::{Column, OwnedColumn};
pub use kinds::StoreKind;
pub use laws::{
    direct_views_are_read_back, printed_numbers_are_read, printed_stores_are_read,
    read_stores_are_sound, store_is_meant,
};
pub use printing::{print_view, print_view_behind};
pub use rolling_up::{Roller, roll_up};
pub use storing::{print_store, read_store};
pub use summaries::Summary;
pub use summary_tables::SummaryTable;
pub use tallies::Tally;
pub use viewing::{direct, from_views};
pub use views::{Row, Store, View};
