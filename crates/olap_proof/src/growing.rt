// A tree over a place, line by line: it is closed where some line closes it, and else split.
ghost use Rattle.std.specs.Prelude.{◌≡◌, ℕ, OnOk, [], ◌∷◌};
ghost use Rattle.olap_ast.specs.Frozen.{Frozen, IsFrozen};
ghost use Rattle.olap_proof.specs.Asking.{IsAsked, names_in, question_in, schema_in};
ghost use Rattle.olap_proof.specs.Certificates.{Open.At};
ghost use Rattle.olap_proof.specs.Trees.{Adds, IsPlaceOf};

use crate::Form;
use crate::asking::Asked;
use crate::cases::Case;
use crate::lines::Line;
use crate::splitting::{next_edge, next_name};
use crate::writing::push_bounded;
use olap_base::Memory;

/// Appends the lines of a tree over the place, if there is no frozen dimension with its root.
///
/// The place is closed if some line closes it. Else it is split by an edge that isn't decided, and where each edge is
/// by a name. It calls itself as deep as there are edges and names. `Memory`: out of memory, or the text would be
/// longer than a file may be.
pub(crate) fn grow(
    case: &mut Case,
    asked: &Asked<'_>,
    form: Form,
    out: &mut Vec<u8>,
) -> Result<(), Memory>
    requires asked { IsAsked asked.now }
    requires place { IsPlaceOf asked.now.graph.now (names_in asked.now) case.old }
    requires none { (f : Frozen) → IsFrozen (schema_in asked.now) (question_in asked.now)
        case.old.decided.root (names_in asked.now) f → ⊥ }
    ensures tree { OnOk result (Adds form (schema_in asked.now) (question_in asked.now) (names_in asked.now)
        (At case.old ∷ []) out.old.items out.new.items) }
    ensures same { OnOk result (case.new ≡ case.old) }
{
    if let Some(line) = case.closing_line(asked, form) {
        return push_bounded(out, asked.graph, asked.constraints, line);
    }
    if let Some(edge) = next_edge(case, asked, form) {
        push_bounded(out, asked.graph, asked.constraints, Line::Edge(edge))?;
        case.decide(edge, false);
        grow(case, asked, form, out)?;
        case.undecide();
        case.decide(edge, true);
        let grown = grow(case, asked, form, out);
        case.undecide();
        return grown;
    }
    if let Some(c) = next_name(case, asked) {
        push_bounded(out, asked.graph, asked.constraints, Line::Name(c))?;
        let last = asked.candidates.others(c).len() as u16;
        'names: for index in 0..last + 1 {
            case.name(c, index)?;
            grow(case, asked, form, out)?;
            case.unname();
        }
    }
    Ok(())
}
