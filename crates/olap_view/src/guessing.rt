// Look-ups that first try what the record before makes likely.
ghost use Rattle.std.specs.Prelude.{◌≡◌, ◌<◌, IfSome, IsTrue, Some, length, map};
ghost use Rattle.std.specs.Option.{option_map};
ghost use Rattle.olap_base.specs.Graph.{IsCategory};
ghost use Rattle.olap_base.specs.Naming.{place_of};
ghost use Rattle.olap_graph.specs.Lookups.{category_named};

use crate::judging::Entry;
use olap_base::{CatId, MemberId};
use olap_graph::Graph;
use olap_instance::Instance;

/// What a record of a printed store most likely names: the category of the one before it, and the member after that
/// one's. Where it names others, they are looked up.
#[derive(Clone, Copy)]
pub(crate) struct Guess {
    category: CatId,
    member: MemberId,
}

/// Whether the category has that name. No other has it then.
fn is_named(graph: &Graph, category: CatId, name: &[u8]) -> bool
    requires { IsCategory graph.now category.0 }
    ensures { IsTrue result → Some category.0 ≡ category_named graph.now name.now }
{
    // Called for its clause: names differ.
    graph.categories();
    graph.name(category).bytes() == name
}

/// Whether the member has that id. No other has it then.
fn has_id(instance: &Instance, member: MemberId, id: &[u8]) -> bool
    requires { member.0 < length instance.now }
    ensures { IsTrue result → Some member.0 ≡ place_of id.now (map (λ m. m.id) instance.now) }
{
    // Called for its clause: ids differ.
    instance.members();
    instance.id(member) == id
}

impl Guess {
    /// Of the first record.
    pub(crate) fn new() -> Guess {
        Guess {
            category: CatId(0),
            member: MemberId(0),
        }
    }

    /// Of the record after one that says this.
    pub(crate) fn after(self, entry: Entry) -> Guess {
        match entry {
            Entry::Beginning(category) => Guess {
                category,
                member: self.member,
            },
            Entry::Row(member, _) => Guess {
                category: self.category,
                member: MemberId(member.0.wrapping_add(1)),
            },
        }
    }

    /// The category of that name, if there is one.
    pub(crate) fn category(self, graph: &Graph, name: &[u8]) -> Option<CatId>
        ensures place { option_map (λ c. c.0) result ≡ category_named graph.now name.now }
        ensures category { IfSome result (λ c. IsCategory graph.now c.0) }
    {
        if self.category.0 < graph.categories() && is_named(graph, self.category, name) {
            return Some(self.category);
        }
        graph.category(name)
    }

    /// The member of that id, if there is one.
    pub(crate) fn member(self, instance: &Instance, id: &[u8]) -> Option<MemberId>
        ensures place { option_map (λ m. m.0) result ≡ place_of id.now (map (λ m. m.id) instance.now) }
        ensures inside { IfSome result (λ m. m.0 < length instance.now) }
    {
        if self.member.0 < instance.members() && has_id(instance, self.member, id) {
            return Some(self.member);
        }
        instance.find(id)
    }
}
