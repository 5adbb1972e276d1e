// Theorems over the definitions. Each is the clause of a function that does nothing.
ghost use Rattle.olap_instance.specs.Laws.{InstanceIsMeant, ReadIsInstance};

/// What the records of a text stand for is a dimension instance, made for the graph.
pub fn read_is_instance()
    ensures { ReadIsInstance }
{}

/// What is read of a text is what it means, with a fault's name in place of its kind.
pub fn instance_is_meant()
    ensures { InstanceIsMeant }
{}
