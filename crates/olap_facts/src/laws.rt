// Theorems over the definitions. Each is the clause of a function that does nothing.
ghost use Rattle.olap_facts.specs.Laws.{BottomIsDecided, FactsAreMeant, ReadFactsFit};

/// The test of a bottom category, by which a record is refused, holds of exactly the bottom categories.
pub fn bottom_is_decided()
    ensures { BottomIsDecided }
{}

/// The values of the facts that a text's records stand for have 64 bits.
pub fn read_facts_fit()
    ensures { ReadFactsFit }
{}

/// What is read of a text is what it means, with a fault's name in place of its kind.
pub fn facts_are_meant()
    ensures { FactsAreMeant }
{}
