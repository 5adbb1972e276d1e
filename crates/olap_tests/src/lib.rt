//! Public calls of the crates that read texts, check instances and make views which no command makes, and a real file,
//! on small inputs and with memory to spare.
//!
//! A module is named after the crate that it calls; `locations` has what the tests of views share. Nothing is proved
//! here of a crate beyond that the tests keep what its calls require; what is proved of it stands in the crate. The
//! calls that commands make are looked at by the rows of `rows/`.
#![tactic(auto)]

#[cfg(test)]
mod ast;
#[cfg(test)]
mod facts;
#[cfg(test)]
mod files;
#[cfg(test)]
mod instance;
#[cfg(test)]
mod locations;
#[cfg(test)]
mod reading;
#[cfg(test)]
mod stored;
#[cfg(test)]
mod view;
