// Theorems over the definitions. Each is the clause of a function that does nothing.
ghost use Rattle.olap_cube_views.specs.CubeLaws.{CubeFactsAreMeant};

/// What is read of a text of facts is what it means, with a fault's name in place of its kind.
pub fn cube_facts_are_meant()
    ensures { CubeFactsAreMeant }
{}
