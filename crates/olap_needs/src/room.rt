// Whether there is room for the constraints that are needed.
ghost use Rattle.olap_ast.specs.Trees.{constraint_of, formula_of};
ghost use Rattle.olap_ast.specs.Valid.{node_count};
ghost use Rattle.olap_base.specs.Limits.{most_nodes, most_schema_nodes};
ghost use Rattle.olap_needs.specs.Needs.{HasRoom, with_needs};
ghost use Rattle.olap_schema.specs.Schemas.{schema_of};
ghost use Rattle.std.specs.Prelude.{◌≡◌, ◌<◌, ◌≤◌, ◌+◌, ◌↔◌, ℕ, true, false, IsTrue, List, length, map, sum_by};

use olap_ast::{Constraint, nodes};
use olap_base::{MOST_CONSTRAINTS, MOST_NODES, MOST_SCHEMA_NODES};
use olap_schema::Schema;

/// The nodes of a constraint that is needed, beside one for each source.
const OWN_NODES: u128 = 3;

// The nodes of these constraints' formulas.
fn count(constraints: &[Constraint]) -> u64
    requires few { sum_by (λ c. node_count c.formula) (map constraint_of constraints.now) ≤ most_schema_nodes }
    ensures { result ≡ sum_by (λ c. node_count c.formula) (map constraint_of constraints.now) }
{
    let mut count = 0;
    'constraints: for constraint in constraints {
        count += nodes(&constraint.formula);
    }
    count
}

// Whether each of this many constraints that are needed, for this many sources, has few nodes.
fn are_small(sources: usize, needed: usize) -> bool
    ensures few { result ≡ true → 0 < needed → 3 + sources ≤ most_nodes }
    ensures some { result ≡ false → 0 < needed }
    ensures many { result ≡ false → most_nodes < 3 + sources }
{
    if needed == 0 {
        return true;
    }
    OWN_NODES + sources as u128 <= MOST_NODES as u128
}

/// Whether the schema with this many constraints that are needed, for this many sources, is within the limits.
pub fn has_room(schema: &Schema, sources: usize, needed: usize) -> bool
    ensures { (c : ℕ) (ss bs : List ℕ) → length ss ≡ sources → length bs ≡ needed
        → IsTrue result ↔ HasRoom (with_needs (schema_of schema.now) c ss bs) }
{
    let constraints = schema.constraints();
    if needed > MOST_CONSTRAINTS - constraints.len() {
        return false;
    }
    if !are_small(sources, needed) {
        return false;
    }
    let nodes = u128::from(count(constraints)) + needed as u128 * (OWN_NODES + sources as u128);
    nodes <= MOST_SCHEMA_NODES as u128
}
