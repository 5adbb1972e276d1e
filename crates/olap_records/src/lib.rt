//! CSV texts as lists of records: read one record at a time, whole or in pieces, and printed one at a time.
//!
//! A contract sees `Rows` as the record read last and the records still to come, `Splitter` as the record found last
//! and where it stands in its text, and `Printer` as the text printed so far; no clause speaks of the CSV library.
//! `first_fault` of `specs/Faults.antt` says for every reader of records which fault comes first, and `all_read` and
//! `table_read` of `specs/Tables.antt` what a table stands for, or its first fault. What a field means isn't known
//! here.
#![tactic(auto)]

mod cutting;
mod laws;
mod marks;
mod printing;
mod reading;
mod refused;
mod splitting;
mod steps;

pub use cutting::Cut;
pub use laws::{
    all_read_is_first, all_read_is_read, first_fault_is_first, mark_is_in_front, no_fault_is_none,
    pieces_join, records_are_those_at_the_end, records_begin, text_reads_back,
};
pub use marks::without_mark;
pub use printing::Printer;
pub use reading::Rows;
pub use splitting::Splitter;
