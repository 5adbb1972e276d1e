// Laws of the grammar. Each is the clause of a function that does nothing.
ghost use Rattle.olap_grammar.specs.Laws.{FoundAsCut, FoundAsFormula, HasFewTokens, IsOneCut, IsOneTree};

/// The tokens that are found are those that the line is cut into.
pub fn tokens_are_found_as_cut()
    ensures { FoundAsCut }
{}

/// The formula that is found is the one that the tokens are.
pub fn formulas_are_found_as_formed()
    ensures { FoundAsFormula }
{}

/// A line is cut in at most one way.
pub fn a_line_is_cut_in_one_way()
    ensures { IsOneCut }
{}

/// Tokens are at most one formula.
pub fn tokens_are_one_formula()
    ensures { IsOneTree }
{}

/// A formula in which too many brackets are never open has few tokens for its nodes.
pub fn formulas_have_few_tokens()
    ensures { HasFewTokens }
{}
