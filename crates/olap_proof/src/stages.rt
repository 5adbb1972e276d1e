// Stages of reading: what is open, and what a line does there.
ghost use Rattle.std.specs.Prelude.{◌≡◌, ◌≤◌, ◌+◌, ◌↔◌, ◌∷◌, [], IfOk, IfSome, IsNone, IsTrue, map};
ghost use Rattle.olap_base.specs.Graph.{IsCategory};
ghost use Rattle.olap_proof.specs.Asking.{IsAsked};
ghost use Rattle.olap_proof.specs.Certificates.{Open.Bottom, bottom_text, head_text};
ghost use Rattle.olap_proof.specs.Stages.{IsStage, StepsTo, bottoms_from, if_done, open_at};
ghost use Rattle.olap_proof.specs.declared.stages.Stage.TheVariants as variant;

use crate::Form;
use crate::advancing::{Effect, advance};
use crate::asking::Asked;
use crate::branches::Choice;
use crate::lines::cut;
use crate::places::Place;
use olap_base::{CatId, Memory};
use olap_graph::Graph;
use std::alloc::Global;

/// A place in the tree of a bottom category, with the choices that lead there.
#[derive(Drop)]
pub(crate) struct Branch {
    root: CatId,
    place: Place,
    choices: Vec<Choice>,
}

/// What is open first where the reading stands.
#[derive(Drop)]
pub(crate) enum Stage {
    /// The first line.
    Head,
    /// The line above the tree of this bottom category.
    Bottom(CatId),
    /// A place in a tree.
    Tree(Branch),
    /// Nothing.
    Done,
}

/// The first line.
fn is_head(form: Form, line: &[u8]) -> bool
    ensures { IsTrue result ↔ (line.now ≡ head_text form) }
{
    match form {
        Form::Long => line == b"certificate 1".as_slice(),
        Form::Short => line == b"short certificate 1".as_slice(),
    }
}

/// The line above the tree of the bottom category.
fn is_bottom_line(graph: &Graph, root: CatId, line: &[u8]) -> bool
    requires { IsCategory graph.now root.0 }
    ensures { IsTrue result ↔ (line.now ≡ bottom_text graph.now root.0) }
{
    match cut(line, b' ') {
        (word, Some(rest)) => word == b"bottom".as_slice() && rest == graph.name(root).bytes(),
        (_, None) => false,
    }
}

/// The first bottom category from this number on, if there is one.
fn bottom_from(graph: &Graph, first: u16) -> Option<CatId>
    requires { 1 ≤ first }
    ensures category { IfSome result (λ b. IsCategory graph.now b.0) }
    ensures some { IfSome result (λ b. bottoms_from graph.now first ≡ b.0 ∷ bottoms_from graph.now (b.0 + 1)) }
    ensures none { IsNone result → bottoms_from graph.now first ≡ [] }
{
    'categories: for c in first..graph.categories() {
        if graph.is_bottom(CatId(c)) {
            return Some(CatId(c));
        }
    }
    None
}

/// What is open where all bottom categories before this number are done.
fn stage_from(asked: &Asked<'_>, first: u16) -> Stage
    requires { 1 ≤ first }
    ensures stage { IsStage asked.now result }
    ensures open { open_at asked.now result ≡ map Bottom (bottoms_from asked.now.graph.now first) }
{
    match bottom_from(asked.graph, first) {
        Some(root) => Stage::Bottom(root),
        None => Stage::Done,
    }
}

/// Moves on to this stage.
fn move_to(stage: &mut Stage, later: Stage)
    ensures { stage.new ≡ later }
{
    *stage = later;
}

/// Moves on after the tree of this category.
fn leave_tree(asked: &Asked<'_>, root: CatId, stage: &mut Stage)
    requires { IsCategory asked.now.graph.now root.0 }
    ensures stage { IsStage asked.now stage.new }
    ensures open { open_at asked.now stage.new ≡ map Bottom (bottoms_from asked.now.graph.now (root.0 + 1)) }
{
    // Called for its clause: there are few categories.
    let _few = asked.graph.categories();
    move_to(stage, stage_from(asked, root.0 + 1));
}

/// Moves into the tree of the bottom category, if the line is the one above it. Whether it is. `Memory`: out of
/// memory.
fn begin(
    alloc: Global,
    asked: &Asked<'_>,
    form: Form,
    root: CatId,
    line: &[u8],
    stage: &mut Stage,
) -> Result<bool, Memory>
    requires asked { IsAsked asked.now }
    requires root { IsCategory asked.now.graph.now root.0 }
    ensures { IfOk result (λ done. StepsTo form asked.now (variant.Bottom root) line.now (if_done done stage.new)) }
{
    if !is_bottom_line(asked.graph, root, line) {
        return Ok(false);
    }
    let place = Place::new(alloc, asked.graph, root)?;
    let branch = Branch {
        root,
        place,
        choices: Vec::new(alloc),
    };
    move_to(stage, Stage::Tree(branch));
    Ok(true)
}

/// Moves on to what is open after the line, if it does something. Whether it does. `Memory`: out of memory.
pub(crate) fn step(
    alloc: Global,
    asked: &Asked<'_>,
    form: Form,
    stage: &mut Stage,
    line: &[u8],
) -> Result<bool, Memory>
    requires asked { IsAsked asked.now }
    requires stage { IsStage asked.now stage.old }
    ensures { IfOk result (λ done. StepsTo form asked.now stage.old line.now (if_done done stage.new)) }
{
    match stage {
        Stage::Head => {
            if !is_head(form, line) {
                return Ok(false);
            }
            move_to(stage, stage_from(asked, 1));
            Ok(true)
        }
        Stage::Bottom(root) => {
            let root = *root;
            begin(alloc, asked, form, root, line, stage)
        }
        Stage::Tree(branch) => {
            let root = branch.root;
            match advance(
                asked,
                form,
                root,
                &mut branch.place,
                &mut branch.choices,
                line,
            )? {
                Effect::Nothing => Ok(false),
                Effect::Still => Ok(true),
                Effect::Closed => {
                    leave_tree(asked, root, stage);
                    Ok(true)
                }
            }
        }
        Stage::Done => Ok(false),
    }
}
