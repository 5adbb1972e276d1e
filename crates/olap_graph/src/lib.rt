//! Category graphs: the schema's hierarchy, without its constraints.
//!
//! A `GraphBuilder` takes categories and edges one at a time and refuses what no hierarchy schema may
//! have; `finish` makes it a `Graph`. A contract sees both as the definition's graph, the names of the
//! declared categories and the edges (`specs/Graph.antt` of `olap_base`): no clause speaks of tables.
//! `All` is category 0, the declared ones follow in declaration order, and edges are numbered from 0.
#![tactic(auto)]

mod building;
mod graphs;
mod listing;
mod naming;
mod reaching;
mod refusals;
mod tables;

pub use building::GraphBuilder;
pub use graphs::Graph;
pub use naming::category_name;
pub use reaching::{Categories, WORDS, close, isolate, row_has};
pub use refusals::{CategoryFault, EdgeFault, NoWayToAll};
