// Theorems over the definitions. Each is the clause of a function that does nothing.
ghost use Rattle.olap_frozen.specs.Chosen.{FrozenExactlyIfSound};

/// Where each of the chosen edges is one of a hierarchy and is chosen once, the root is a category, and each present
/// category has a name of its own: the instance that they stand for is a frozen dimension exactly if the laws hold,
/// read on the chosen edges, and constraints and question are true at the members of their roots.
pub fn frozen_exactly_if_sound()
    ensures { FrozenExactlyIfSound }
{}
