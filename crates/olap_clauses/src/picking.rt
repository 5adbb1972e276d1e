// What is decided where the judge isn't asked.
ghost use Rattle.std.specs.Prelude.{IfSome};
ghost use Rattle.olap_clauses.specs.Trails.{IsOpen};

use crate::scoring::Scores;
use crate::trails::Trail;
use crate::values::Value;
use olap_pool::Lit;

/// The unknown variable of highest score, if one has a score at all. Nothing is proved about it.
fn best(trail: &Trail, scores: &Scores) -> Option<Lit> {
    let mut best = None;
    let mut top = 0;
    let mut variable: u32 = 0;
    'scores: for score in scores.free() {
        if *score > top {
            let positive = scores.sign(trail, variable);
            let lit = Lit { variable, positive };
            if trail.value(lit) == Value::Unknown {
                best = Some(lit);
                top = *score;
            }
        }
        variable = variable.saturating_add(1);
    }
    best
}

/// The open literal that had most to do with recent conflicts, if one had.
pub(crate) fn pick(trail: &Trail, scores: &Scores) -> Option<Lit>
    ensures { IfSome result (λ lit. IsOpen trail.now lit) }
{
    let lit = best(trail, scores)?;
    if (lit.variable as usize) < trail.variables() && trail.value(lit) == Value::Unknown {
        Some(lit)
    } else {
        None
    }
}
