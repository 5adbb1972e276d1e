//! The worked rows that only a library and a sink in memory can show, and some of each family of commands.
//!
//! Each has its words, its files, its status and its output, worked out by hand from the definitions. Nothing here is
//! proved of the rows beyond that they run; what is proved of `olap` stands in `olap_run`. Rows stand in constant
//! tables, since a test is proved like any function: a table costs one proof. Most rows stand in `rows/`, as texts.
#![tactic(auto)]

#[cfg(test)]
mod failing;
#[cfg(test)]
mod faults;
#[cfg(test)]
mod libraries;
#[cfg(test)]
mod openings;
#[cfg(test)]
mod running;
#[cfg(test)]
mod samples;
#[cfg(test)]
mod surely;
#[cfg(test)]
mod worked;
