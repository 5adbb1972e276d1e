// An instance is built and printed.
ghost use Rattle.std.specs.Prelude.{◌≡◌, IsTrue};
ghost use Rattle.std.specs.Str.{is_utf8};
ghost use Rattle.olap_base.specs.Graph.{category_count};
ghost use Rattle.olap_instance.specs.Made.{IsMadeFor};

use crate::reading::{CHAIN, read};
use olap_base::Text;
use olap_graph::Graph;
use olap_instance::{Instance, InstanceBuilder, print_instance};
use std::alloc::Global;
use std::process::Abort;

const BUILT: &[u8] = b"id,category,name,parents\nc1,City,\"Rome, \"\"the\"\"\",all\n";

// A text.
fn text(rt: &impl Abort, alloc: Global, text: &str) -> Text
    ensures { IsTrue (is_utf8 result) }
{
    Text::from_bytes(alloc, text.as_bytes()).expect(rt, "memory")
}

// Adds a city whose parent is `all`, once.
fn add_city(rt: &impl Abort, alloc: Global, graph: &Graph, builder: &mut InstanceBuilder)
    requires graph { builder.old.categories ≡ category_count graph.now }
    ensures categories { builder.new.categories ≡ builder.old.categories }
    ensures numbers { builder.new.numbers ≡ builder.old.numbers }
{
    let city = graph.category(b"City").expect(rt, "a category");
    let id = text(rt, alloc, "c1");
    let name = text(rt, alloc, "Rome, \"the\"");
    let rome = builder.add_member(id, city, name).expect(rt, "a member");
    assert!(rt; builder.add_parent(rome, None).is_ok());
    assert!(rt; builder.add_parent(rome, None).is_err());
}

fn built(rt: &impl Abort, alloc: Global, graph: &Graph) -> Instance
    ensures { IsMadeFor graph.now result }
{
    let mut builder = InstanceBuilder::new(alloc, graph).expect(rt, "memory");
    add_city(rt, alloc, graph, &mut builder);
    builder.finish().expect(rt, "memory")
}

#[test]
fn an_instance_is_built_and_printed(rt: HostRuntime) {
    let schema = read(&rt, rt.alloc(), CHAIN);
    let instance = built(&rt, rt.alloc(), schema.graph());
    let text = print_instance(rt.alloc(), schema.graph(), &instance).expect(&rt, "memory");
    assert!(rt; text.bytes() == BUILT);
}
