// What a text of facts is read against.
ghost use Rattle.std.specs.Prelude.{◌<◌, ◌^◌};
ghost use Rattle.olap_instance.specs.Made.{IsMadeFor};

use olap_graph::Graph;
use olap_instance::Instance;

/// A graph, an instance, and the most facts that a text may have.
#[derive(Clone, Copy)]
pub(crate) struct Setting<'a> {
    pub(crate) graph: &'a Graph,
    pub(crate) instance: &'a Instance,
    pub(crate) most: u64,
    ghost made: { IsMadeFor graph.now instance.now },
    ghost small: { most < 2 ^ 63 },
}
