//! Public calls of the crates that search, on small inputs and with memory to spare, and the search against the plain
//! one, which tries all choices of edges and names, on small schemas drawn at random.
//!
//! A module is named after the crate that it calls; `comparing` compares the two searches, and `drawing` draws what
//! they are asked. Nothing is proved here of a crate beyond that the tests keep what its calls require; what is
//! proved of it stands in the crate.
#![tactic(auto)]

#[cfg(test)]
mod clauses;
#[cfg(test)]
mod comparing;
#[cfg(test)]
mod dimsat;
#[cfg(test)]
mod drawing;
#[cfg(test)]
mod encoding;
#[cfg(test)]
mod eval;
#[cfg(test)]
mod parities;
#[cfg(test)]
mod plain;
#[cfg(test)]
mod reading;
#[cfg(test)]
mod trail;
