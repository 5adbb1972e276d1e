// The five laws, one after the other.
ghost use Rattle.std.specs.Prelude.{◌≡◌, ◌<◌, ◌≤◌, length, IfErr, IfOk, slice_index};
ghost use Rattle.olap_base.specs.Graph.{category_count};
ghost use Rattle.olap_base.specs.Limits.{most_categories};
ghost use Rattle.olap_base.specs.Refusing.{IsFor};
ghost use Rattle.olap_base.specs.Instance.{IsLawful, parents_of};
ghost use Rattle.olap_check.specs.Linking.{IsTableOf};
ghost use Rattle.olap_check.specs.Reports.{IsFirstBreach};
ghost use Rattle.olap_legal.specs.Rows.{IsBounded};
ghost use Rattle.olap_legal.specs.Tables.{IsTable};
ghost use Rattle.olap_instance.specs.Made.{IsMadeFor};

use crate::Violation;
use crate::linking::{edge_table, first_orphan, first_unlinked};
use crate::parting::split_category;
use crate::passing::first_shortcut;
use crate::strata::first_repeated;
use olap_base::{CatId, MemberId, Refusal};
use olap_graph::Graph;
use olap_instance::Instance;
use olap_legal::{Table, ancestor_table};
use std::alloc::Global;

/// How many categories there are. Its contract says that the instance lies within that number.
pub(crate) fn bound(graph: &Graph, instance: &Instance) -> u16
    requires { IsMadeFor graph.now instance.now }
    ensures count { result ≡ category_count graph.now }
    ensures few { result ≤ most_categories }
    ensures bounded { IsBounded instance.now result }
{
    // Called for its clauses: the instance is well formed, with few members.
    let _members = instance.members();
    graph.categories()
}

/// The k-th parent of x.
fn parent(instance: &Instance, x: u32, k: usize) -> MemberId
    requires x { x < length instance.now }
    requires k { k < length (parents_of instance.now x) }
    ensures { result.0 ≡ slice_index (parents_of instance.now x) k }
{
    instance.parents(MemberId(x))[k]
}

/// `lawful`, where the table of edges is there.
fn lawful_by(
    alloc: Global,
    graph: &Graph,
    instance: &Instance,
    categories: u16,
    edges: &[bool],
) -> Result<Table, Refusal<Violation>>
    requires count { categories ≡ category_count graph.now }
    requires few { categories ≤ most_categories }
    requires bounded { IsBounded instance.now categories }
    requires edges { IsTableOf graph.now categories edges.now }
    ensures table { IfOk result (IsTable instance.now categories (length instance.now)) }
    ensures lawful { IfOk result (λ _. IsLawful graph.now instance.now) }
    ensures err { IfErr result (IsFor (IsFirstBreach graph.now instance.now)) }
{
    if let Some((x, k)) = first_unlinked(instance, edges, categories) {
        let above = parent(instance, x, k);
        return Err(Refusal::Kind(Violation::Connectivity(MemberId(x), above)));
    }
    if let Some(x) = first_orphan(instance) {
        return Err(Refusal::Kind(Violation::NoParent(MemberId(x))));
    }
    if let Some(x) = first_repeated(alloc, graph, instance, categories)? {
        return Err(Refusal::Kind(Violation::Stratification(MemberId(x))));
    }
    let table = match ancestor_table(alloc, graph, instance, categories)? {
        Ok(table) => table,
        Err(x) => {
            let category = split_category(alloc, instance, categories, x)?;
            return Err(Refusal::Kind(Violation::Partitioning(MemberId(x), CatId(category))));
        }
    };
    if let Some((x, k)) = first_shortcut(instance, &table, categories) {
        let above = parent(instance, x, k);
        return Err(Refusal::Kind(Violation::Shortcut(MemberId(x), above)));
    }
    Ok(table)
}

/// The table of ancestors of a lawful instance, or the first violation of a law, whatever the constraints are.
pub(crate) fn lawful(
    alloc: Global,
    graph: &Graph,
    instance: &Instance,
    categories: u16,
) -> Result<Table, Refusal<Violation>>
    requires count { categories ≡ category_count graph.now }
    requires few { categories ≤ most_categories }
    requires bounded { IsBounded instance.now categories }
    ensures table { IfOk result (IsTable instance.now categories (length instance.now)) }
    ensures lawful { IfOk result (λ _. IsLawful graph.now instance.now) }
    ensures err { IfErr result (IsFor (IsFirstBreach graph.now instance.now)) }
{
    let edges = edge_table(alloc, graph, categories)?;
    lawful_by(alloc, graph, instance, categories, &edges)
}
