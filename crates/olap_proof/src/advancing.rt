// Lines of a text on a branch of a tree.
ghost use Rattle.std.specs.Prelude.{◌≡◌, ℕ, List, IfOk, IfSome, IsNone};
ghost use Rattle.olap_proof.specs.Advancing.{Advances, IsDone, StepsAt};
ghost use Rattle.olap_proof.specs.Branches.{IsBranch};
ghost use Rattle.olap_proof.specs.Certificates.{Open};
ghost use Rattle.olap_proof.specs.Within.{IsWithin};

use crate::Form;
use crate::asking::Asked;
use crate::branches::{Choice, choose, first_case, go_on};
use crate::doing::effective_line;
use crate::knowing::known_at;
use crate::lines::{Line, line_of};
use crate::places::Place;
use crate::telling::Known;
use olap_ast::{Formula, Terms};
use olap_base::{CatId, Memory};

/// What a line does on a branch.
#[derive(Clone, Copy)]
pub(crate) enum Effect {
    /// Nothing.
    Nothing,
    /// Some of the tree is open still.
    Still,
    /// All of the tree is closed.
    Closed,
}

/// From how many questions on of what reaches what the answers are looked up in tables.
const MANY: u32 = 16;

/// The number, less one for each atom of the formula on what is reached, but never below 0.
#[cycle(atoms)]
fn less_atoms(f: &Formula, left: u32) -> u32 {
    if left == 0 {
        return 0;
    }
    match f {
        Formula::True | Formula::False | Formula::Path(_) => left,
        Formula::Reach(_) | Formula::Via(_, _) => left - 1,
        Formula::Equals(_, _) | Formula::Compare(_, _, _) => left - 1,
        Formula::Not(g) => less_atoms(g, left),
        Formula::And(g, h) | Formula::Or(g, h) => less_atoms(h, less_atoms(g, left)),
        Formula::Implies(g, h) | Formula::Iff(g, h) => less_atoms(h, less_atoms(g, left)),
        Formula::Xor(g, h) => less_atoms(h, less_atoms(g, left)),
        Formula::One(parts) => less_all(parts, left),
    }
}

/// The same of the parts of a list.
#[cycle(atoms)]
fn less_all(parts: &Terms, left: u32) -> u32 {
    if left == 0 {
        return 0;
    }
    match parts {
        Terms::End => left,
        Terms::More(f, rest) => less_all(rest, less_atoms(f, left)),
    }
}

/// Whether the line asks much of what is reached. No answer depends on it, only how long it takes.
fn asks_much(asked: &Asked<'_>, bytes: &[u8]) -> bool {
    if !matches!(bytes.first(), Some(b'c') | Some(b'q') | Some(b's')) {
        return false;
    }
    match line_of(asked.graph, asked.constraints, bytes) {
        Some(Line::Constraint(n)) => less_atoms(&asked.constraints[n].formula, MANY) == 0,
        Some(Line::Question) => less_atoms(asked.question, MANY) == 0,
        Some(Line::Steps(c, _)) => asked.graph.parents(c).len() >= MANY as usize,
        _ => false,
    }
}

/// The line that the bytes are, if it does something at the place.
fn line_at(asked: &Asked<'_>, form: Form, root: CatId, place: &Place, bytes: &[u8]) -> Option<Line>
    requires root { place.now.decided.root ≡ root.0 }
    requires within { IsWithin asked.now.graph.now asked.now.candidates.now place.now }
    ensures some { IfSome result (IsDone form asked.now place.now bytes.now) }
    ensures none { IsNone result → (new : List Open) → StepsAt form asked.now place.now bytes.now new → ⊥ }
{
    let known = Known {
        form,
        graph: asked.graph,
        candidates: asked.candidates,
        place,
        root,
        known: known_at(asked.graph, place, root),
    };
    effective_line(&known, asked.constraints, asked.question, bytes)
}

/// Does what the line says. `Memory`: out of memory.
fn follow(
    asked: &Asked<'_>,
    form: Form,
    place: &mut Place,
    choices: &mut Vec<Choice>,
    line: Line,
) -> Result<Effect, Memory>
    requires branch { IsBranch asked.now.graph.now asked.now.candidates.now place.old choices.old.items }
    requires does { (bytes : List ℕ) × IsDone form asked.now place.old bytes line }
    ensures { IfOk result (λ done. (bytes : List ℕ) → IsDone form asked.now place.old bytes line
        → Advances form asked.now place.old choices.old.items bytes place.new choices.new.items done) }
{
    if let Some(first) = first_case(line) {
        choose(asked.graph, asked.candidates, place, choices, first)?;
        return Ok(Effect::Still);
    }
    if go_on(asked.graph, asked.candidates, place, choices)? {
        Ok(Effect::Still)
    } else {
        Ok(Effect::Closed)
    }
}

/// Makes tables of what is reached, if the line asks much of it.
fn prepare(asked: &Asked<'_>, place: &mut Place, bytes: &[u8])
    requires { IsWithin asked.now.graph.now asked.now.candidates.now place.old }
    ensures { place.new ≡ place.old }
{
    if asks_much(asked, bytes) {
        place.tabulate(asked.graph);
    }
}

/// What the bytes do at the place, and then as far as the next case that is open. `Memory`: out of memory.
fn take_line(
    asked: &Asked<'_>,
    form: Form,
    root: CatId,
    place: &mut Place,
    choices: &mut Vec<Choice>,
    bytes: &[u8],
) -> Result<Effect, Memory>
    requires root { place.old.decided.root ≡ root.0 }
    requires branch { IsBranch asked.now.graph.now asked.now.candidates.now place.old choices.old.items }
    ensures { IfOk result (Advances form asked.now place.old choices.old.items bytes.now place.new choices.new.items) }
{
    match line_at(asked, form, root, place, bytes) {
        Some(line) => follow(asked, form, place, choices, line),
        None => Ok(Effect::Nothing),
    }
}

/// The same, after tables were made where the line asks much of what is reached. `Memory`: out of memory.
pub(crate) fn advance(
    asked: &Asked<'_>,
    form: Form,
    root: CatId,
    place: &mut Place,
    choices: &mut Vec<Choice>,
    bytes: &[u8],
) -> Result<Effect, Memory>
    requires root { place.old.decided.root ≡ root.0 }
    requires branch { IsBranch asked.now.graph.now asked.now.candidates.now place.old choices.old.items }
    ensures { IfOk result (Advances form asked.now place.old choices.old.items bytes.now place.new choices.new.items) }
{
    prepare(asked, place, bytes);
    take_line(asked, form, root, place, choices, bytes)
}
