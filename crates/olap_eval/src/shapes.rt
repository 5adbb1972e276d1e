// Shapes: at most one member of each category, with what leads from one to another.
ghost use Rattle.olap_base.specs.Instance.{Instance};
ghost use Rattle.olap_eval.specs.Shapes.{HasEdgeThere, ReachesThere, HasNameThere, HasNumberThere, IsShape};
ghost use Rattle.std.specs.Prelude.{Bool, IsTrue, ◌↔◌, ℕ};
ghost use Rattle.olap_ast.specs.Trees.{op_of};

use olap_ast::Op;
use olap_base::{CatId, Text};

/// At most one member for each category, closed under what these reach.
///
/// It stands for an instance, and shows its present categories and the place of each one's member. The
/// instance may have other members, and several of one category: only what present members reach counts.
pub trait Shape {
    ghost instance: { Self → Instance };

    ghost present: { Self → ℕ → Bool };

    ghost place: { Self → ℕ → ℕ };

    /// Whether both categories are present, and the member of the first is a child of the second's.
    fn has_edge(&self, c: CatId, d: CatId) -> bool
        ensures { IsTrue result ↔ HasEdgeThere (instance self.now) (present self.now) (place self.now) c.0 d.0 };

    /// Whether both categories are present, and the member of the first reaches the second's. A member reaches itself.
    fn reaches(&self, c: CatId, d: CatId) -> bool
        ensures { IsTrue result ↔ ReachesThere (instance self.now) (present self.now) (place self.now) c.0 d.0 };

    /// Whether the category is present, and its member has this name.
    fn name_is(&self, c: CatId, k: &Text) -> bool
        ensures { IsTrue result ↔ HasNameThere (instance self.now) (present self.now) (place self.now) c.0 k.now };

    /// Whether the category is present, and its member's number compares so with this one.
    fn number_is(&self, c: CatId, op: Op, n: i64) -> bool
        ensures { IsTrue result ↔ HasNumberThere (instance self.now) (present self.now) (place self.now) c.0
            (op_of op) n };

    ghost shape: { (s : Self) → IsShape (instance s) (present s) (place s) };
}
