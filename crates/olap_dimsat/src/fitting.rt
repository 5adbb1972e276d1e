// The test of a choice of edges and names against literals.
ghost use Rattle.std.specs.Prelude.{◌≡◌, ◌≢◌, ◌==◌, ◌<◌, ℕ, Bool, false, suc, length, slice_index, slice_index_or, true};
ghost use Rattle.olap_base.specs.Graph.{IsCategory, category_count};
ghost use Rattle.olap_pool.specs.Literals.{Holds};
ghost use Rattle.olap_clauses.specs.Standing.{Agrees};
ghost use Rattle.olap_clauses.specs.Trails.{steps_of};
ghost use Rattle.olap_frozen.specs.Leaves.{chosen_of};
ghost use Rattle.olap_encoding.specs.Layouts.{on_variable, name_variable};
ghost use Rattle.olap_dimsat.specs.Tasks.{AreNamesBefore, IsTask, constant_count};
ghost use Rattle.olap_dimsat.specs.Reads.{AllSuit, Reads, Suits};
ghost use Rattle.olap_dimsat.specs.Asking.{IsFor, task_of};

use crate::asker::Asker;
use olap_base::CatId;
use olap_clauses::Trail;
use olap_frozen::Frozen;
use olap_pool::Lit;

// Whether the choice agrees with the literal, if this is one of an edge.
fn suits_edge(a: &Asker<'_>, frozen: &Frozen, lit: Lit) -> bool
    requires task { IsTask (task_of a.now) }
    requires sizes { IsFor (task_of a.now) frozen.now }
    ensures yes { result ≡ true → (e : ℕ) → e < length a.now.question.graph.now.edges → lit.variable ≡ on_variable e
        → slice_index_or frozen.now.edges e false ≡ lit.positive }
    ensures no { result ≡ false → (v : ℕ → Bool) → Reads (task_of a.now) (chosen_of frozen.now.edges frozen.now.names) v
        → Holds v lit → ⊥ }
{
    let x = lit.variable;
    if x < 1 || x > u32::from(a.question.graph.edges()) {
        return true;
    }
    frozen.edges.items()[x as usize - 1] == lit.positive
}

// Whether the choice agrees with the literal, if this is one of the category's name.
fn suits_name(a: &Asker<'_>, frozen: &Frozen, c: CatId, lit: Lit) -> bool
    requires task { IsTask (task_of a.now) }
    requires category { IsCategory a.now.question.graph.now c.0 }
    requires declared { c.0 ≢ 0 }
    requires sizes { IsFor (task_of a.now) frozen.now }
    ensures yes { result ≡ true → (j : ℕ) → j < constant_count (task_of a.now) c.0
        → lit.variable ≡ name_variable (task_of a.now).layout c.0 j
        → (slice_index frozen.now.names c.0 == suc j) ≡ lit.positive }
    ensures no { result ≡ false → (v : ℕ → Bool) → Reads (task_of a.now) (chosen_of frozen.now.edges frozen.now.names) v
        → Holds v lit → ⊥ }
{
    let start = a.layout.starts[usize::from(c.0)];
    let names = a.question.candidates.names(c);
    if lit.variable < start {
        return true;
    }
    let place = (lit.variable - start) as usize;
    if place + 1 >= usize::from(names) {
        return true;
    }
    let is = usize::from(frozen.names.items()[usize::from(c.0)]) == place + 1;
    is == lit.positive
}

// Where the variables of a category's names end.
fn end_of(a: &Asker<'_>, c: CatId) -> u32
    requires task { IsTask (task_of a.now) }
    requires category { IsCategory a.now.question.graph.now c.0 }
    ensures { (j : ℕ) → j < constant_count (task_of a.now) c.0 → name_variable (task_of a.now).layout c.0 j < result }
{
    let last = a.question.candidates.names(c) - 1;
    if last == 0 {
        return 0;
    }
    a.layout.name(c, usize::from(last) - 1).variable + 1
}

// Where the variables of names end.
fn names_end(a: &Asker<'_>) -> u32
    requires { IsTask (task_of a.now) }
    ensures { AreNamesBefore (task_of a.now) (category_count a.now.question.graph.now) result }
{
    let mut end = 0;
    'categories: for c in 0..a.question.graph.categories() {
        let own = end_of(a, CatId(c));
        if own > end {
            end = own;
        }
    }
    end
}

// Whether the choice agrees with the literal, if this is one of a category's name.
fn suits_names(a: &Asker<'_>, frozen: &Frozen, lit: Lit) -> bool
    requires task { IsTask (task_of a.now) }
    requires sizes { IsFor (task_of a.now) frozen.now }
    ensures yes { result ≡ true → (c j : ℕ) → c < category_count a.now.question.graph.now → c ≢ 0
        → j < constant_count (task_of a.now) c → lit.variable ≡ name_variable (task_of a.now).layout c j
        → (slice_index frozen.now.names c == suc j) ≡ lit.positive }
    ensures no { result ≡ false → (v : ℕ → Bool) → Reads (task_of a.now) (chosen_of frozen.now.edges frozen.now.names) v
        → Holds v lit → ⊥ }
{
    'categories: for c in 1..a.question.graph.categories() {
        if !suits_name(a, frozen, CatId(c), lit) {
            return false;
        }
    }
    true
}

// Whether the choice agrees with the literal, if this is one of an edge or of a name. No name stands at the end or
// after it, so that most literals need no look at the categories.
fn suits(a: &Asker<'_>, frozen: &Frozen, end: u32, lit: Lit) -> bool
    requires task { IsTask (task_of a.now) }
    requires sizes { IsFor (task_of a.now) frozen.now }
    requires end { AreNamesBefore (task_of a.now) (category_count a.now.question.graph.now) end }
    ensures yes { result ≡ true → Suits (task_of a.now) frozen.now.edges frozen.now.names lit }
    ensures no { result ≡ false → (v : ℕ → Bool) → Reads (task_of a.now) (chosen_of frozen.now.edges frozen.now.names) v
        → Holds v lit → ⊥ }
{
    if !suits_edge(a, frozen, lit) {
        return false;
    }
    if lit.variable >= end {
        return true;
    }
    suits_names(a, frozen, lit)
}

/// Whether the choice agrees with the literals of a trail.
pub(crate) fn suits_all(a: &Asker<'_>, frozen: &Frozen, trail: &Trail) -> bool
    requires task { IsTask (task_of a.now) }
    requires sizes { IsFor (task_of a.now) frozen.now }
    ensures yes { result ≡ true → AllSuit (task_of a.now) frozen.now.edges frozen.now.names (steps_of trail.now) }
    ensures no { result ≡ false → (v : ℕ → Bool) → Reads (task_of a.now) (chosen_of frozen.now.edges frozen.now.names) v
        → Agrees v (steps_of trail.now) → ⊥ }
{
    let end = names_end(a);
    'steps: for step in trail.steps() {
        if !suits(a, frozen, end, step.lit) {
            return false;
        }
    }
    true
}
