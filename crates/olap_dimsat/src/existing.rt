// The question whether some frozen dimension agrees with literals.
ghost use Rattle.std.specs.Prelude.{◌≡◌, ℕ, Bool, false, true};
ghost use Rattle.olap_ast.specs.Frozen.{Frozen as TheFrozen};
ghost use Rattle.olap_clauses.specs.Engines.{trail_of, variables_of};
ghost use Rattle.olap_clauses.specs.Standing.{AgreesDecisions};
ghost use Rattle.olap_frozen.specs.Leaves.{chosen_of};
ghost use Rattle.olap_dimsat.specs.Tasks.{IsOne};
ghost use Rattle.olap_dimsat.specs.Reads.{Reads};
ghost use Rattle.olap_dimsat.specs.Asking.{IsSuited, task_of};
ghost use Rattle.olap_dimsat.specs.Pinned.{AreShaped, IsReady};

use crate::asker::{Asker, Leaf};
use olap_clauses::Engine;

/// Whether some frozen dimension agrees with what was decided; one is then in the leaf. What was decided stays.
pub(crate) fn exists(engine: &mut Engine, a: &Asker<'_>, leaf: &mut Leaf) -> bool
    requires suited { IsSuited (task_of a.now) leaf.old (variables_of engine.old) }
    requires ready { IsReady (task_of a.now) engine.old }
    requires shaped { AreShaped (task_of a.now) (trail_of engine.old) }
    ensures one { result ≡ true → IsOne (task_of a.now) (chosen_of leaf.new.frozen.edges leaf.new.frozen.names) }
    ensures agrees { result ≡ true → (v : ℕ → Bool)
        → Reads (task_of a.now) (chosen_of leaf.new.frozen.edges leaf.new.frozen.names) v
        → AgreesDecisions v (trail_of engine.old) }
    ensures none { result ≡ false → (f : TheFrozen) (v : ℕ → Bool) → IsOne (task_of a.now) f → Reads (task_of a.now) f v
        → AgreesDecisions v (trail_of engine.old) → ⊥ }
    ensures trail { trail_of engine.new ≡ trail_of engine.old }
    ensures variables { variables_of engine.new ≡ variables_of engine.old }
    ensures ready { IsReady (task_of a.now) engine.new }
    ensures suited { IsSuited (task_of a.now) leaf.new (variables_of engine.new) }
{
    leaf.straight_down = true;
    leaf.stood = 0;
    engine.exists(a, leaf)
}
