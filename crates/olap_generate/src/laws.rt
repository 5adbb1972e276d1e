// What holds of the input that is made.
ghost use Rattle.olap_generate.specs.Inputs.{AnInputIsMade};
ghost use Rattle.olap_generate.specs.Served.{RegionsAreServed};

/// The texts of the made input have no fault, and its instance is legal, for every seed and every size within the
/// limit.
pub fn an_input_is_made()
    ensures { AnInputIsMade }
{}

/// Some of the stored views of what is made serve the regions.
pub fn regions_are_served()
    ensures { RegionsAreServed }
{}
