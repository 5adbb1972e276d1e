// A task in an engine: its names, where its variables are, and room to learn in.
ghost use Rattle.std.specs.Prelude.{◌≡◌, ◌≤◌, ℕ, Bool, [], IfOk, map};
ghost use Rattle.olap_ast.specs.Atoms.{all_comparisons, all_equalities};
ghost use Rattle.olap_ast.specs.Pairs.{pair_count};
ghost use Rattle.olap_ast.specs.Trees.{constraint_of, formula_of};
ghost use Rattle.olap_ast.specs.Valid.{IsFormulaAt, IsValidSchema};
ghost use Rattle.olap_base.specs.Graph.{IsCategory};
ghost use Rattle.olap_base.specs.Limits.{most_constants};
ghost use Rattle.olap_clauses.specs.Engines.{admits, trail_of, variables_of};
ghost use Rattle.olap_pool.specs.Pools.{AreTrue};
ghost use Rattle.olap_dimsat.specs.Posed.{IsPosed};
ghost use Rattle.olap_names.specs.Names.{with_graph};

use olap_ast::{Constraint, Formula};
use olap_base::{CatId, Memory};
use olap_clauses::Engine;
use olap_encoding::{Layout, encode};
use olap_graph::Graph;
use olap_names::{Candidates, Question};
use olap_pool::Pool;
use std::alloc::{AllocError, Global};

/// The names of a task, where its variables are, and an engine that has its clauses.
#[derive(Drop)]
pub struct Posed {
    pub(crate) candidates: Candidates,
    pub(crate) layout: Layout,
    pub(crate) engine: Engine,
}

/// The room for literals of learned clauses, as a multiple of the literals that are given.
const TIMES_GIVEN: u32 = 4;

/// The least room is that for this many given literals: small schemas may need as much room to learn, and with less of
/// it the searches over whole families of schemas don't end.
const LEAST_GIVEN: usize = 32_768;

/// And the most room is that for this many.
const MOST_GIVEN: usize = 131_072;

/// How many literals a learned clause has that the room for clauses is measured by.
const LITERALS_A_CLAUSE: u32 = 8;

// The engine of these clauses, with room to learn in.
fn engine_of(alloc: Global, variables: u32, pool: Pool) -> Result<Engine, AllocError>
    ensures empty { IfOk result (λ e. trail_of e ≡ []) }
    ensures variables { IfOk result (λ e. variables_of e ≡ variables) }
    ensures admits { IfOk result (λ e. (v : ℕ → Bool) → AreTrue v pool → admits v e) }
{
    let given = pool.size().max(LEAST_GIVEN).min(MOST_GIVEN);
    let room = TIMES_GIVEN * given as u32;
    Engine::new(alloc, variables, pool, room, room / LITERALS_A_CLAUSE)
}

/// Puts a question at a root of this graph with these constraints to an engine.
pub(crate) fn pose(
    alloc: Global,
    graph: &Graph,
    constraints: &[Constraint],
    root: CatId,
    formula: &Formula,
) -> Result<Posed, Memory>
    requires root { IsCategory graph.now root.0 }
    requires valid { IsValidSchema (with_graph graph.now (map constraint_of constraints.now)) }
    requires formula { IsFormulaAt graph.now root.0 (formula_of formula.now) }
    requires few { let schema = with_graph graph.now (map constraint_of constraints.now) in
        pair_count (all_equalities schema (formula_of formula.now))
        (all_comparisons schema (formula_of formula.now)) ≤ most_constants }
    ensures { IfOk result (IsPosed (with_graph graph.now (map constraint_of constraints.now))
        (formula_of formula.now) root.0) }
{
    let candidates = Candidates::of(alloc, graph, constraints, formula)?;
    let question = Question {
        graph,
        constraints,
        formula,
        root,
        candidates: &candidates,
    };
    let encoder = encode(alloc, &question)?;
    let encoded = encoder.into_parts();
    let engine = engine_of(alloc, encoded.layout.variables, encoded.pool)?;
    Ok(Posed {
        candidates,
        layout: encoded.layout,
        engine,
    })
}
