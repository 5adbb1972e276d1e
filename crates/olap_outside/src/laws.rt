// What follows of counts of faults. It is the clause of a function that does nothing.
ghost use Rattle.olap_outside.specs.Faults.{NoneRose};

/// A count of faults that is 0 hasn't risen. So what comes only where a count rose never comes from a library or a sink
/// whose count is always 0.
pub fn no_faults_none_rose()
    ensures { NoneRose }
{}
