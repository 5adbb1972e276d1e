// The choice of edges and names that is read off a trail.
ghost use Rattle.std.specs.Prelude.{◌≡◌, ◌≢◌, ◌≤◌, ◌<◌, ℕ, IfErr, IfOk, IfSome, false, length, slice_index, slice_index_or};
ghost use Rattle.olap_clauses.specs.Trails.{IsOpen, values_of};
ghost use Rattle.olap_dimsat.specs.Tasks.{IsTask, constant_count};
ghost use Rattle.olap_dimsat.specs.Reads.{ConstantReads, EdgeReads, IsAbsent, IsRead, NameReads};
ghost use Rattle.olap_dimsat.specs.Asking.{IsFor, task_of};
ghost use Rattle.olap_base.specs.Graph.{IsCategory, category_count};

use crate::asker::Asker;
use olap_base::{CatId, EdgeId, List};
use olap_clauses::{Trail, Value};
use olap_frozen::Frozen;
use olap_pool::Lit;

// Whether the trail leaves no more to this edge than to be absent, since its child is. Else a literal to decide.
fn absent(a: &Asker<'_>, trail: &Trail, c: CatId, free: Lit) -> Result<(), Lit>
    requires task { IsTask (task_of a.now) }
    requires category { IsCategory a.now.question.graph.now c.0 }
    requires variables { length (values_of trail.now) ≡ a.now.layout.now.variables }
    requires free { IsOpen trail.now free }
    ensures absent { IfOk result (λ _. IsAbsent (task_of a.now) trail.now c.0) }
    ensures open { IfErr result (λ l. IsOpen trail.now l) }
{
    let present = a.layout.present(c);
    match trail.value(present) {
        Value::No => Ok(()),
        Value::Unknown => Err(present.negated()),
        Value::Yes => Err(free),
    }
}

// Whether the edge is present. Else a literal to decide.
fn read_edge(a: &Asker<'_>, trail: &Trail, e: EdgeId) -> Result<bool, Lit>
    requires task { IsTask (task_of a.now) }
    requires edge { e.0 < length a.now.question.graph.now.edges }
    requires variables { length (values_of trail.now) ≡ a.now.layout.now.variables }
    ensures is { IfOk result (λ b. EdgeReads (task_of a.now) trail.now e.0 b) }
    ensures open { IfErr result (λ l. IsOpen trail.now l) }
{
    let on = a.layout.on(e);
    match trail.value(on) {
        Value::Yes => Ok(true),
        Value::No => Ok(false),
        Value::Unknown => {
            let (child, _) = a.question.graph.ends(e);
            absent(a, trail, child, on)?;
            Ok(false)
        }
    }
}

// Whether the name of the category is the one at this place beside the first. Else a literal to decide.
fn read_constant(a: &Asker<'_>, trail: &Trail, c: CatId, j: usize) -> Result<bool, Lit>
    requires task { IsTask (task_of a.now) }
    requires category { IsCategory a.now.question.graph.now c.0 }
    requires constant { j < constant_count (task_of a.now) c.0 }
    requires variables { length (values_of trail.now) ≡ a.now.layout.now.variables }
    ensures is { IfOk result (λ b. ConstantReads (task_of a.now) trail.now c.0 j b) }
    ensures open { IfErr result (λ l. IsOpen trail.now l) }
{
    let name = a.layout.name(c, j);
    match trail.value(name) {
        Value::Yes => Ok(true),
        Value::No => Ok(false),
        Value::Unknown => {
            absent(a, trail, c, name)?;
            Ok(false)
        }
    }
}

// The index of the category's name. Else a literal to decide.
fn read_name(a: &Asker<'_>, trail: &Trail, c: CatId) -> Result<u16, Lit>
    requires task { IsTask (task_of a.now) }
    requires category { IsCategory a.now.question.graph.now c.0 }
    requires declared { c.0 ≢ 0 }
    requires variables { length (values_of trail.now) ≡ a.now.layout.now.variables }
    ensures is { IfOk result (λ i. NameReads (task_of a.now) trail.now c.0 i) }
    ensures in_range { IfOk result (λ i. i ≤ constant_count (task_of a.now) c.0) }
    ensures open { IfErr result (λ l. IsOpen trail.now l) }
{
    'indexes: for i in 1..a.question.candidates.names(c) {
        if read_constant(a, trail, c, usize::from(i) - 1)? {
            return Ok(i);
        }
    }
    Ok(0)
}

// Reads the edges.
fn read_edges(a: &Asker<'_>, trail: &Trail, edges: &mut List<bool>) -> Result<(), Lit>
    requires task { IsTask (task_of a.now) }
    requires edges { length edges.old ≡ length a.now.question.graph.now.edges }
    requires variables { length (values_of trail.now) ≡ a.now.layout.now.variables }
    ensures edges { IfOk result
        (λ _. (e : ℕ) → e < length edges.new
        → EdgeReads (task_of a.now) trail.now e (slice_index_or edges.new e false)) }
    ensures size { length edges.new ≡ length edges.old }
    ensures open { IfErr result (λ l. IsOpen trail.now l) }
{
    'edges: for e in 0..a.question.graph.edges() {
        let b = read_edge(a, trail, EdgeId(e))?;
        edges.set(usize::from(e), b);
    }
    Ok(())
}

// Reads the names. `All` has none.
fn read_names(a: &Asker<'_>, trail: &Trail, names: &mut List<u16>) -> Result<(), Lit>
    requires task { IsTask (task_of a.now) }
    requires names { length names.old ≡ category_count a.now.question.graph.now }
    requires variables { length (values_of trail.now) ≡ a.now.layout.now.variables }
    ensures names { IfOk result
        (λ _. (c : ℕ) → c < length names.new → NameReads (task_of a.now) trail.now c (slice_index names.new c)) }
    ensures in_range { IfOk result
        (λ _. (c : ℕ) → c < length names.new → slice_index names.new c ≤ constant_count (task_of a.now) c) }
    ensures size { length names.new ≡ length names.old }
    ensures open { IfErr result (λ l. IsOpen trail.now l) }
{
    names.set(0, 0);
    'categories: for c in 1..a.question.graph.categories() {
        let i = read_name(a, trail, CatId(c))?;
        names.set(usize::from(c), i);
    }
    Ok(())
}

/// Reads the choice of edges and names that each frozen dimension is which agrees with the trail. Else a literal to
/// decide.
pub(crate) fn read(a: &Asker<'_>, trail: &Trail, frozen: &mut Frozen) -> Result<(), Lit>
    requires task { IsTask (task_of a.now) }
    requires sizes { IsFor (task_of a.now) frozen.old }
    requires variables { length (values_of trail.now) ≡ a.now.layout.now.variables }
    ensures read { IfOk result (λ _. IsRead (task_of a.now) trail.now frozen.new.edges frozen.new.names) }
    ensures sizes { IsFor (task_of a.now) frozen.new }
    ensures open { IfErr result (λ l. IsOpen trail.now l) }
{
    read_edges(a, trail, &mut frozen.edges)?;
    read_names(a, trail, &mut frozen.names)?;
    Ok(())
}
