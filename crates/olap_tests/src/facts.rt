// Tables of facts, read from texts, with their faults.
ghost use Rattle.olap_instance.specs.Made.{IsMadeFor};

use crate::reading::{CHAIN, read};
use olap_base::{Fault, Refusal};
use olap_facts::{FactKind, read_facts};
use olap_graph::Graph;
use olap_instance::{Instance, read_instance};
use std::alloc::Global;

const STORES: &[u8] = b"id,category,name,parents\na,Store,a,c1\nb,Store,b,c1\nc1,City,c1,all\n";

// The number of facts, or the record and its fault.
type Outcome = Result<usize, (u64, FactKind)>;

const TEXTS: [(&[u8], Outcome); 8] = [
    (b"member,value\na,5\nb,-5\na,0\n", Ok(3)),
    (b"member,value\n", Ok(0)),
    (b"value\n", Err((1, FactKind::BadHeader))),
    (b"member,value\na,1\na\n", Err((3, FactKind::FieldCount))),
    (b"member,value\nzz,1\n", Err((2, FactKind::UnknownMember))),
    (b"member,value\nall,1\n", Err((2, FactKind::NotBottom))),
    (
        b"member,value\na,9223372036854775808\n",
        Err((2, FactKind::BadNumber)),
    ),
    (b"member,value\na,+\n", Err((2, FactKind::BadNumber))),
];

// What reading gives; nothing if out of memory.
fn outcome(alloc: Global, graph: &Graph, instance: &Instance, text: &[u8]) -> Option<Outcome>
    requires { IsMadeFor graph.now instance.now }
{
    match read_facts(alloc, graph, instance, text) {
        Ok(facts) => Some(Ok(facts.rows.items().len())),
        Err(Refusal::Kind(Fault { at, kind })) => Some(Err((at, kind))),
        Err(Refusal::Memory(_)) => None,
    }
}

#[test]
fn tables_are_read(rt: HostRuntime) {
    let schema = read(&rt, rt.alloc(), CHAIN);
    let instance = read_instance(rt.alloc(), schema.graph(), STORES).expect(&rt, "an instance");
    for (text, wanted) in &TEXTS {
        assert!(rt; outcome(rt.alloc(), schema.graph(), &instance, text) == Some(*wanted));
    }
}
