// A formula that must be true, as clauses of its parts.
ghost use Rattle.std.specs.Prelude.{Contains, IfOk, IfSome, true};
ghost use Rattle.olap_base.specs.Graph.{IsCategory};
ghost use Rattle.olap_ast.specs.Trees.{formula_of, constraint_of};
ghost use Rattle.olap_encoding.specs.Encoding.{IsSound, IsNext};
ghost use Rattle.olap_encoding.specs.EncoderInside.{encoding_of};
ghost use Rattle.olap_encoding.specs.Formulas.{AreConjuncts, IsSpoken, IsTrueAt, IsWidened, signed};

use crate::encoders::Encoder;
use crate::formulas::literal;
use olap_ast::{Constraint, Formula};
use olap_base::{CatId, Memory};
use olap_pool::Lit;

/// Two formulas, and whether each must be true, or else its negation.
#[derive(Drop)]
struct Conjuncts<'a> {
    first: &'a Formula,
    first_holds: bool,
    second: &'a Formula,
    second_holds: bool,
}

// The two parts that must hold for the formula to hold, or for its negation, where these are conjunctions.
fn conjuncts_of(f: &Formula, holds: bool) -> Option<Conjuncts>
    ensures { IfSome result (λ p. AreConjuncts holds (formula_of f.now) p.first_holds (formula_of p.first.now)
        p.second_holds (formula_of p.second.now)) }
{
    let (first, first_holds, second, second_holds) = match (f, holds) {
        (Formula::And(g, h), true) => (g, true, h, true),
        (Formula::Or(g, h), false) => (g, false, h, false),
        (Formula::Implies(g, h), false) => (g, true, h, false),
        _ => return None,
    };
    Some(Conjuncts {
        first,
        first_holds,
        second,
        second_holds,
    })
}

// One literal more: that of the formula, or of its negation.
fn push_literal(
    e: &mut Encoder,
    c: CatId,
    f: &Formula,
    holds: bool,
    literals: &mut Vec<Lit>,
) -> Result<(), Memory>
    requires sound { IsSound (encoding_of e.old) }
    requires category { IsCategory e.old.question.graph.now c.0 }
    requires speaks { IsSpoken (encoding_of e.old).question (formula_of f.now) }
    ensures next { IfOk result (λ _. IsNext (encoding_of e.old) (encoding_of e.new)) }
    ensures widened { IfOk result (λ _. IsWidened (encoding_of e.new) c.0 (signed holds (formula_of f.now))
        literals.old.items literals.new.items) }
{
    let l = literal(e, c, f)?;
    if holds {
        literals.push(l)?;
    } else {
        literals.push(l.negated())?;
    }
    Ok(())
}

// The literals of the alternatives of a formula, or of its negation, after those that are there.
fn alternatives(
    e: &mut Encoder,
    c: CatId,
    f: &Formula,
    holds: bool,
    literals: &mut Vec<Lit>,
) -> Result<(), Memory>
    requires sound { IsSound (encoding_of e.old) }
    requires category { IsCategory e.old.question.graph.now c.0 }
    requires speaks { IsSpoken (encoding_of e.old).question (formula_of f.now) }
    ensures next { IfOk result (λ _. IsNext (encoding_of e.old) (encoding_of e.new)) }
    ensures widened { IfOk result (λ _. IsWidened (encoding_of e.new) c.0 (signed holds (formula_of f.now))
        literals.old.items literals.new.items) }
{
    if let Formula::Not(g) = f {
        return alternatives(e, c, g, !holds, literals);
    }
    if let Some(p) = conjuncts_of(f, !holds) {
        alternatives(e, c, p.first, !p.first_holds, literals)?;
        return alternatives(e, c, p.second, !p.second_holds, literals);
    }
    push_literal(e, c, f, holds, literals)
}

// The clause that the category is absent, or one of the alternatives true, in a list for its literals.
fn alternatives_clause(
    e: &mut Encoder,
    c: CatId,
    f: &Formula,
    holds: bool,
    literals: &mut Vec<Lit>,
) -> Result<(), Memory>
    requires sound { IsSound (encoding_of e.old) }
    requires category { IsCategory e.old.question.graph.now c.0 }
    requires speaks { IsSpoken (encoding_of e.old).question (formula_of f.now) }
    requires so { IsTrueAt (encoding_of e.old) c.0 (signed holds (formula_of f.now)) }
    ensures next { IfOk result (λ _. IsNext (encoding_of e.old) (encoding_of e.new)) }
{
    let p = e.present(c);
    let not_p = p.negated();
    literals.push(not_p)?;
    alternatives(e, c, f, holds, literals)?;
    e.clause(literals);
    Ok(())
}

// The same, with a list of its own.
fn one_clause(e: &mut Encoder, c: CatId, f: &Formula, holds: bool) -> Result<(), Memory>
    requires sound { IsSound (encoding_of e.old) }
    requires category { IsCategory e.old.question.graph.now c.0 }
    requires speaks { IsSpoken (encoding_of e.old).question (formula_of f.now) }
    requires so { IsTrueAt (encoding_of e.old) c.0 (signed holds (formula_of f.now)) }
    ensures next { IfOk result (λ _. IsNext (encoding_of e.old) (encoding_of e.new)) }
{
    let mut literals = Vec::new(e.alloc);
    alternatives_clause(e, c, f, holds, &mut literals)
}

// The clauses of a formula that is true at a category wherever this is present, or of one that never is.
fn require(e: &mut Encoder, c: CatId, f: &Formula, holds: bool) -> Result<(), Memory>
    requires sound { IsSound (encoding_of e.old) }
    requires category { IsCategory e.old.question.graph.now c.0 }
    requires speaks { IsSpoken (encoding_of e.old).question (formula_of f.now) }
    requires so { IsTrueAt (encoding_of e.old) c.0 (signed holds (formula_of f.now)) }
    ensures next { IfOk result (λ _. IsNext (encoding_of e.old) (encoding_of e.new)) }
{
    if let Formula::Not(g) = f {
        return require(e, c, g, !holds);
    }
    if let Some(p) = conjuncts_of(f, holds) {
        require(e, c, p.first, p.first_holds)?;
        return require(e, c, p.second, p.second_holds);
    }
    one_clause(e, c, f, holds)
}

/// The clauses of a constraint: none, if no walk leads from the root to its category.
pub fn constraint(e: &mut Encoder, k: &Constraint) -> Result<(), Memory>
    requires sound { IsSound (encoding_of e.old) }
    requires category { IsCategory e.old.question.graph.now k.now.root.0 }
    requires constraint { Contains (encoding_of e.old).question.schema.constraints (constraint_of k.now) }
    requires speaks { IsSpoken (encoding_of e.old).question (formula_of k.now.formula) }
    ensures next { IfOk result (λ _. IsNext (encoding_of e.old) (encoding_of e.new)) }
{
    if !e.question.graph.reaches(e.question.root, k.root) {
        return Ok(());
    }
    require(e, k.root, &k.formula, true)
}

/// The clauses of the question.
pub fn question(e: &mut Encoder) -> Result<(), Memory>
    requires sound { IsSound (encoding_of e.old) }
    requires speaks { IsSpoken (encoding_of e.old).question (encoding_of e.old).question.formula }
    ensures next { IfOk result (λ _. IsNext (encoding_of e.old) (encoding_of e.new)) }
{
    let q = e.question();
    require(e, q.root, q.formula, true)
}
