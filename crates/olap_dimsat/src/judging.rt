// The judge of a search for frozen dimensions.

use crate::asker::{Asker, Leaf};
use crate::cutting::is_cut;
use crate::fitting::suits_all;
use crate::picking::pick;
use crate::reading::read;
use crate::tracking::follow;
use olap_clauses::{Judge, Trail, Verdict};
use olap_frozen::is_frozen;

impl<'a> Judge<Leaf> for Asker<'a> {
    ghost use Rattle.olap_dimsat.specs.Asking.{IsSuited, task_of};
    ghost use Rattle.olap_dimsat.specs.Reads.{IsMeant, IsTaken};

    ghost Means = { λ a v. IsMeant (task_of a) v };

    ghost Suits = { λ a leaf n. IsSuited (task_of a) leaf n };

    ghost Took = { λ a leaf steps. IsTaken (task_of a) leaf.frozen.edges leaf.frozen.names steps };

    fn judge(&self, leaf: &mut Leaf, trail: &Trail, scores: &[u32]) -> Verdict {
        if !follow(self, leaf, trail) {
            return Verdict::Refuse;
        }
        if leaf.straight_down && is_cut(self, trail, &leaf.decided) {
            return Verdict::Refuse;
        }
        if let Some(lit) = pick(self, trail, scores, leaf.decided.present()) {
            return Verdict::Decide(lit);
        }
        if let Err(lit) = read(self, trail, &mut leaf.frozen) {
            return Verdict::Decide(lit);
        }
        let is_one = is_frozen(
            self.question.graph,
            self.question.constraints,
            self.question.formula,
            self.question.candidates,
            &leaf.frozen,
            &mut leaf.room,
        );
        if is_one && suits_all(self, &leaf.frozen, trail) {
            Verdict::Take
        } else {
            Verdict::Refuse
        }
    }
}
