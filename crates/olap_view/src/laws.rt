// Theorems over the definitions. Each is the clause of a function that does nothing.
ghost use Rattle.olap_view.specs.StoreLaws.{DirectViewsAreReadBack, PrintedNumbersAreRead, PrintedStoresAreRead, ReadStoresAreSound, StoreIsMeant};

/// The record that is printed of a row that may be stored spells the row's numbers, by the definition of reading.
pub fn printed_numbers_are_read()
    ensures { PrintedNumbersAreRead }
{}

/// What is printed of views that a store may hold, each of a category of the graph and in file order, is read as these
/// views, by the definition of reading.
pub fn printed_stores_are_read()
    ensures { PrintedStoresAreRead }
{}

/// What is printed of the direct views of a few categories is read as these views: the store that is kept of a fact
/// table is the one that is read.
pub fn direct_views_are_read_back()
    ensures { DirectViewsAreReadBack }
{}

/// The views that a text's records stand for are few, of different categories of the graph, with rows within the bounds
/// of stored rows at different members: a store may hold them.
pub fn read_stores_are_sound()
    ensures { ReadStoresAreSound }
{}

/// What is read of a text is what it means, with a fault's name in place of its kind.
pub fn store_is_meant()
    ensures { StoreIsMeant }
{}
