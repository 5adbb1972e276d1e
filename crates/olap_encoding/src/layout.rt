// The layout of variables.
ghost use Rattle.std.specs.Prelude.{◌≡◌, ◌+◌, ◌<◌, ◌^◌, length};
ghost use Rattle.olap_encoding.specs.Literals.{plain};

use crate::literals::plain;
use olap_base::{CatId, EdgeId};
use olap_pool::Lit;

/// Where the variables of edges, of categories and of names are, and how many there are in all.
#[derive(Drop)]
pub struct Layout {
    /// How many edges there are: the variables of categories come after theirs.
    pub edges: u16,
    /// For each category the variable of its first name beside the first.
    pub starts: Vec<u32>,
    /// How many variables there are.
    pub variables: u32,
}

impl Layout {
    ghost use Rattle.olap_encoding.specs.Layouts.{on_variable, present_variable, name_variable};

    /// The edge is present.
    pub fn on(&self, e: EdgeId) -> Lit
        ensures { result ≡ plain (on_variable e.0) }
    {
        plain(1 + u32::from(e.0))
    }

    /// The category is present.
    pub fn present(&self, c: CatId) -> Lit
        ensures { result ≡ plain (present_variable self.now c.0) }
    {
        plain(1 + u32::from(self.edges) + u32::from(c.0))
    }

    /// The category's name is the one at this place beside the first.
    pub fn name(&self, c: CatId, j: usize) -> Lit
        requires category { c.0 < length self.now.starts.items }
        requires inside { name_variable self.now c.0 j < 2 ^ 32 }
        ensures { result ≡ plain (name_variable self.now c.0 j) }
    {
        plain(self.starts[usize::from(c.0)] + j as u32)
    }
}
