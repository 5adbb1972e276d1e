// Theorems over the definitions. Each is the clause of a function that does nothing.
ghost use Rattle.olap_proof.specs.Certificates.{CertificatesAreRight};
ghost use Rattle.olap_proof.specs.Examples.{ChainIsCertified, ChainIsShortlyCertified, EdgesAreDecidedOnce, LinesAreSpelledExactly, NamesAreDecidedOnce, TheRootIsNotLoose};
ghost use Rattle.olap_proof.specs.Judged.{TextsAreJudged};
ghost use Rattle.olap_proof.specs.Verifying.{VerdictsAreOne};

/// A certificate, of either form, exists only if the target is summarizable from the sources.
pub fn certificates_are_right()
    ensures { CertificatesAreRight }
{}

/// City's totals can be computed from Store's, where Store, City and `All` stand one above the other: five lines say
/// why.
pub fn chain_is_certified()
    ensures { ChainIsCertified }
{}

/// And so do seven lines of the short form.
pub fn chain_is_shortly_certified()
    ensures { ChainIsShortlyCertified }
{}

/// For the same schema and question, no certificate begins by deciding an edge twice.
pub fn edges_are_decided_once()
    ensures { EdgesAreDecidedOnce }
{}

/// Nor does one begin by deciding a name twice.
pub fn names_are_decided_once()
    ensures { NamesAreDecidedOnce }
{}

/// Nor does one of the long form begin by calling the bottom category of its tree loose.
pub fn the_root_is_not_loose()
    ensures { TheRootIsNotLoose }
{}

/// Nor has one two spaces between the words of its second line.
pub fn lines_are_spelled_exactly()
    ensures { LinesAreSpelledExactly }
{}

/// A certificate has no first wrong line, and another text has one at most.
pub fn verdicts_are_one()
    ensures { VerdictsAreOne }
{}

/// A text is a certificate, or has a first wrong line: with `verdicts_are_one` exactly one of them.
pub fn texts_are_judged()
    ensures { TextsAreJudged }
{}
