// Theorems on which certificates there are. Each is the clause of a function that does nothing.
ghost use Rattle.olap_proof.specs.Existing.{CertificatesExistExactlyWhereSummarizable};
ghost use Rattle.olap_proof.specs.FullPlaces.{FullPlacesClose};

/// Where each edge and each name is decided, some line closes the place, or what is decided is a frozen dimension.
pub fn full_places_close()
    ensures { FullPlacesClose }
{}

/// A certificate exists exactly if the target is summarizable from the sources.
pub fn certificates_exist_exactly_where_summarizable()
    ensures { CertificatesExistExactlyWhereSummarizable }
{}
