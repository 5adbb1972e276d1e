// Lines at a place.
ghost use Rattle.std.specs.Prelude.{◌<◌, ◌^◌, ◌↔◌, List, IfSome, IsNone, IsTrue, length};
ghost use Rattle.olap_proof.specs.Certificates.{Open};
ghost use Rattle.olap_proof.specs.DoneHere.{DoesHere, StepsHere, open_after, schema_at};
ghost use Rattle.olap_proof.specs.Closing.{IsAbout};
ghost use Rattle.olap_proof.specs.Reading.{meaning};

use crate::Form;
use crate::leaves::closes;
use crate::lines::{Line, line_of};
use crate::telling::Known;
use olap_ast::{Constraint, Formula};

/// Whether the line does something at the place: it decides what isn't decided, or closes it.
fn does(known: &Known<'_>, constraints: &[Constraint], question: &Formula, line: Line) -> bool
    requires { IsAbout (schema_at known.now constraints.now) (meaning line) }
    ensures { IsTrue result ↔ DoesHere known.now constraints.now question.now line }
{
    match line {
        Line::Edge(e) => known.place.status(e).is_none(),
        Line::Name(c) => c.0 != 0 && known.place.index(c).is_none(),
        Line::Reach(c, d) => known.form == Form::Short && known.place.way(c, d).is_none(),
        Line::Dead(_) | Line::Cycle | Line::Shortcut | Line::LooseEdge(_) => {
            closes(known, constraints, question, line)
        }
        Line::LooseCategory(_) | Line::Steps(_, _) | Line::Constraint(_) | Line::Question => {
            closes(known, constraints, question, line)
        }
    }
}

/// How many there are: the number fits 64 bits.
fn count_of(constraints: &[Constraint]) -> usize
    ensures { length constraints.now < 2 ^ 64 }
{
    constraints.len()
}

/// The line that the bytes are, if it does something at the place.
pub(crate) fn effective_line(
    known: &Known<'_>,
    constraints: &[Constraint],
    question: &Formula,
    bytes: &[u8],
) -> Option<Line>
    ensures about { IfSome result (λ l. IsAbout (schema_at known.now constraints.now) (meaning l)) }
    ensures does { IfSome result (DoesHere known.now constraints.now question.now) }
    ensures step { IfSome result (λ l.
        StepsHere known.now constraints.now question.now bytes.now (open_after known.now l)) }
    ensures none { IsNone result → (new : List Open)
        → StepsHere known.now constraints.now question.now bytes.now new → ⊥ }
{
    // Called for their clauses: the graph is a hierarchy, and there are few constraints.
    let _graph = known.graph.categories();
    let _few = count_of(constraints);
    let line = line_of(known.graph, constraints, bytes)?;
    if does(known, constraints, question, line) {
        Some(line)
    } else {
        None
    }
}
