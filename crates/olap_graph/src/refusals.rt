// Why a category, an edge or a graph is refused.
use olap_base::CatId;

/// Why a category wasn't added, in the order in which it is tested.
#[derive(Clone, Copy, Debug, PartialEq, Eq)]
pub enum CategoryFault {
    /// The name is declared, or is `All`.
    DuplicateCategory,
    /// There are `MOST_CATEGORIES`, `All` included.
    TooManyCategories,
}

/// Why an edge wasn't added, in the order in which it is tested.
#[derive(Clone, Copy, Debug, PartialEq, Eq)]
pub enum EdgeFault {
    /// Its ends are one category.
    SelfEdge,
    /// It leaves `All`.
    EdgeFromAll,
    /// The graph has it.
    DuplicateEdge,
    /// There are `MOST_EDGES`.
    TooManyEdges,
}

/// Why a graph wasn't finished: the first declared category from which no walk of edges leads to `All`.
#[derive(Clone, Copy, Debug, PartialEq, Eq)]
pub struct NoWayToAll(pub CatId);
