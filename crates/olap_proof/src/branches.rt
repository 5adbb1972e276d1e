// The branch of a tree on which the reading stands: the choices that lead to its place.
ghost use Rattle.std.specs.Prelude.{◌≡◌, ◌++◌, ◌∷◌, [], IfOk, IfSome, IsNone, OnOk};
ghost use Rattle.olap_base.specs.Graph.{Graph as AnyGraph};
ghost use Rattle.olap_proof.specs.Branches.{GoesOn, IsBranch, IsLegal, IsNamed, siblings, with_choice};
ghost use Rattle.olap_proof.specs.Certificates.{Open.At};
ghost use Rattle.olap_ast.specs.Formula.{Formula as AnyFormula};
ghost use Rattle.olap_ast.specs.Schema.{Schema};
ghost use Rattle.olap_names.specs.Names.{Named, candidates_of};
ghost use Rattle.olap_proof.specs.Doing.{Does, leaves_open};
ghost use Rattle.olap_proof.specs.Closing.{IsAbout};
ghost use Rattle.olap_proof.specs.Places.{Place as Decisions};
ghost use Rattle.olap_proof.specs.Reading.{meaning};
ghost use Rattle.olap_proof.specs.declared.forms.Form.{Form as AnyForm};

use crate::lines::Line;
use crate::places::Place;
use olap_base::{CatId, EdgeId, Memory};
use olap_graph::Graph;
use olap_names::Candidates;

/// One of the cases of a line that splits a place.
#[derive(Clone, Copy)]
pub(crate) enum Choice {
    /// The edge is absent, or present.
    Edge(EdgeId, bool),
    /// The category's name is the one at this index.
    Name(CatId, u16),
    /// A member of the one category reaches one of the other, or none does.
    Way(CatId, CatId, bool),
}

/// Decides what was chosen. `Memory`: out of memory.
fn take(
    graph: &Graph,
    candidates: &Candidates,
    place: &mut Place,
    choice: Choice,
) -> Result<(), Memory>
    requires graph { place.old.decided.graph ≡ graph.now }
    requires legal { IsLegal graph.now candidates.now place.old choice }
    ensures { OnOk result (place.new ≡ with_choice place.old choice) }
{
    // Called for its clause: there are few categories.
    let _few = graph.categories();
    match choice {
        Choice::Edge(edge, present) => {
            place.decide(edge, present);
            Ok(())
        }
        Choice::Name(c, index) => place.name(c, index),
        Choice::Way(child, parent, there) => place.lead(child, parent, there),
    }
}

/// Decides what was chosen, and puts it after the choices. `Memory`: out of memory.
pub(crate) fn choose(
    graph: &Graph,
    candidates: &Candidates,
    place: &mut Place,
    choices: &mut Vec<Choice>,
    choice: Choice,
) -> Result<(), Memory>
    requires graph { place.old.decided.graph ≡ graph.now }
    requires legal { IsLegal graph.now candidates.now place.old choice }
    ensures place { OnOk result (place.new ≡ with_choice place.old choice) }
    ensures choices { OnOk result (choices.new.items ≡ choices.old.items ++ choice ∷ []) }
{
    take(graph, candidates, place, choice)?;
    choices.push(choice)?;
    Ok(())
}

/// Takes a choice back.
fn take_back(place: &mut Place, choice: Choice)
    ensures { (p : Decisions) → place.old ≡ with_choice p choice → place.new ≡ p }
{
    match choice {
        Choice::Edge(_, _) => place.undecide(),
        Choice::Name(_, _) => place.unname(),
        Choice::Way(_, _, _) => place.unlead(),
    }
}

/// The case after this one, if there is one.
fn next(candidates: &Candidates, choice: Choice) -> Option<Choice>
    requires { IsNamed candidates.now choice }
    ensures some { IfSome result (λ x. (p : Decisions)
        → siblings candidates.now p choice ≡ At (with_choice p x) ∷ siblings candidates.now p x) }
    ensures legal { IfSome result (λ x. (g : AnyGraph) (p : Decisions) → IsLegal g candidates.now p choice
        → IsLegal g candidates.now p x) }
    ensures none { IsNone result → (p : Decisions) → siblings candidates.now p choice ≡ [] }
{
    match choice {
        Choice::Edge(edge, false) => Some(Choice::Edge(edge, true)),
        Choice::Name(c, index) => {
            if usize::from(index) < candidates.others(c).len() {
                return Some(Choice::Name(c, index + 1));
            }
            None
        }
        Choice::Way(child, parent, false) => Some(Choice::Way(child, parent, true)),
        Choice::Edge(_, true) | Choice::Way(_, _, true) => None,
    }
}

/// The first of the cases into which a line splits a place, if it does.
pub(crate) fn first_case(line: Line) -> Option<Choice>
    ensures some { IfSome result (λ x. (k : Named) (p : Decisions)
        → leaves_open (candidates_of k) p (meaning line) ≡ At (with_choice p x) ∷ siblings k p x) }
    ensures legal { IfSome result (λ x. (f : AnyForm) (s : Schema) (q : AnyFormula) (k : Named) (p : Decisions)
        → IsAbout s (meaning line) → Does f s q (candidates_of k) p (meaning line) → IsLegal s.graph k p x) }
    ensures none { IsNone result → (k : Named) (p : Decisions) → leaves_open (candidates_of k) p (meaning line) ≡ [] }
{
    match line {
        Line::Edge(e) => Some(Choice::Edge(e, false)),
        Line::Name(c) => Some(Choice::Name(c, 0)),
        Line::Reach(c, d) => Some(Choice::Way(c, d, false)),
        Line::Dead(_) | Line::Cycle | Line::Shortcut | Line::LooseEdge(_) => None,
        Line::LooseCategory(_) | Line::Steps(_, _) | Line::Constraint(_) | Line::Question => None,
    }
}

/// Goes on to the next case of the tree that is open, if there is one. `Memory`: out of memory.
pub(crate) fn go_on(
    graph: &Graph,
    candidates: &Candidates,
    place: &mut Place,
    choices: &mut Vec<Choice>,
) -> Result<bool, Memory>
    requires { IsBranch graph.now candidates.now place.old choices.old.items }
    ensures { IfOk result (GoesOn graph.now candidates.now place.old choices.old.items place.new choices.new.items) }
{
    'choices: while let Some(choice) = choices.pop() {
        take_back(place, choice);
        if let Some(later) = next(candidates, choice) {
            choose(graph, candidates, place, choices, later)?;
            return Ok(true);
        }
    }
    Ok(false)
}
