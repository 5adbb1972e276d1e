// The law of a decision: it shows the same at each call.
ghost use Rattle.olap_summ.specs.Decisions.{DecisionsAgree};

use olap_ast::the_counterexample_is_one;

/// What a decision shows is the same at each call: the root, the edges and the indexes of the names.
pub fn decisions_agree()
    ensures { DecisionsAgree }
{
    the_counterexample_is_one();
}
