// Patterns of sources as formulas.
ghost use Rattle.std.specs.Prelude.{◌≡◌, ◌≤◌, IfOk, length};
ghost use Rattle.olap_ast.specs.Formula.{Formula.And, Formula.Or};
ghost use Rattle.olap_ast.specs.Trees.{formula_of, numbers_of};
ghost use Rattle.olap_base.specs.Limits.{most_views};
ghost use Rattle.olap_cube_summ.specs.Ways.{HasWays, HasWaysIn, IsAboutWays, IsInside, IsOutside, way_of};

use crate::masks::{PATTERNS, Patterns, has_bit};
use olap_ast::Formula;
use olap_base::{CatId, Memory};
use std::alloc::Global;

// The target is reached by way of the source, or isn't.
fn way(alloc: Global, target: CatId, source: CatId, is_way: bool) -> Result<Formula, Memory>
    ensures { IfOk result (λ f. formula_of f ≡ way_of target.0 source.0 is_way) }
{
    let via = Formula::Via(source, target);
    if is_way {
        return Ok(via);
    }
    Ok(Formula::Not(Box::new(alloc, via)?))
}

// Both are true.
fn and(alloc: Global, one: Formula, other: Formula) -> Result<Formula, Memory>
    ensures { IfOk result (λ f. formula_of f ≡ And (formula_of one) (formula_of other)) }
{
    let one = Box::new(alloc, one)?;
    let other = Box::new(alloc, other)?;
    Ok(Formula::And(one, other))
}

// One of them is true.
fn or(alloc: Global, one: Formula, other: Formula) -> Result<Formula, Memory>
    ensures { IfOk result (λ f. formula_of f ≡ Or (formula_of one) (formula_of other)) }
{
    let one = Box::new(alloc, one)?;
    let other = Box::new(alloc, other)?;
    Ok(Formula::Or(one, other))
}

// The target is reached by way of exactly the sources whose bits are in the pattern.
fn has_pattern(
    alloc: Global,
    target: CatId,
    column: &[CatId],
    pattern: u16,
) -> Result<Formula, Memory>
    requires { length column.now ≤ most_views }
    ensures { IfOk result (λ f. IsAboutWays target.0 (numbers_of column.now)
        (λ i x. HasWays i x target.0 (numbers_of column.now) pattern) (formula_of f)) }
{
    let mut formula = Formula::True;
    'sources: for k in 0..column.len() {
        let source = column[k];
        let is_way = has_bit(pattern, k);
        let way = way(alloc, target, source, is_way)?;
        formula = and(alloc, formula, way)?;
    }
    Ok(formula)
}

// The target is reached by way of exactly those of one of the patterns.
fn has_one(
    alloc: Global,
    target: CatId,
    column: &[CatId],
    patterns: &Patterns,
) -> Result<Formula, Memory>
    requires { length column.now ≤ most_views }
    ensures { IfOk result (λ f. IsAboutWays target.0 (numbers_of column.now)
        (λ i x. HasWaysIn i x target.0 (numbers_of column.now) patterns.now) (formula_of f)) }
{
    let mut formula = Formula::False;
    'patterns: for p in 0..PATTERNS {
        if patterns.has(p) {
            let next = has_pattern(alloc, target, column, p)?;
            formula = or(alloc, formula, next)?;
        }
    }
    Ok(formula)
}

/// The question that asks for a root that reaches the target by one of the patterns.
pub fn inside(
    alloc: Global,
    target: CatId,
    column: &[CatId],
    patterns: &Patterns,
) -> Result<Formula, Memory>
    requires { length column.now ≤ most_views }
    ensures { IfOk result (λ f. IsAboutWays target.0 (numbers_of column.now)
        (IsInside target.0 (numbers_of column.now) patterns.now) (formula_of f)) }
{
    let one = has_one(alloc, target, column, patterns)?;
    let question = and(alloc, Formula::Reach(target), one)?;
    Ok(question)
}

/// The question that asks for a root that reaches the target, and by none of the patterns.
pub fn outside(
    alloc: Global,
    target: CatId,
    column: &[CatId],
    patterns: &Patterns,
) -> Result<Formula, Memory>
    requires { length column.now ≤ most_views }
    ensures { IfOk result (λ f. IsAboutWays target.0 (numbers_of column.now)
        (IsOutside target.0 (numbers_of column.now) patterns.now) (formula_of f)) }
{
    let one = has_one(alloc, target, column, patterns)?;
    let none = Formula::Not(Box::new(alloc, one)?);
    let question = and(alloc, Formula::Reach(target), none)?;
    Ok(question)
}
