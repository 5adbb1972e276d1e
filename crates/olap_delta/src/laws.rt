// Theorems over the definitions. Each is the clause of a function that does nothing.
ghost use Rattle.olap_delta.specs.Laws.{AppendGivesDirectViews, ChangesAreNamed, RetractGivesDirectViews};

/// On a lawful instance, of direct views that may be stored, appending makes the direct views of the facts followed by
/// the new ones, whose values have 64 bits, or it is refused as `Full`. It is never refused as `Bound`.
pub fn append_gives_direct_views()
    ensures { AppendGivesDirectViews }
{}

/// On a lawful instance, of direct views that may be stored, retracting some of the facts makes the direct views of the
/// others, or it is refused as `Extreme`. No other fault comes.
pub fn retract_gives_direct_views()
    ensures { RetractGivesDirectViews }
{}

/// By `append` and `retract`, facts make of stored views what they do by `appended` and `retracted`, with a fault's name
/// in place of its kind.
pub fn changes_are_named()
    ensures { ChangesAreNamed }
{}
