// The top call where nothing outside can fail.
ghost use Rattle.std.specs.Prelude.{◌≡◌, ◌⊎◌, None};
ghost use Rattle.olap_outside.specs.Written.{sure_contents};
ghost use Rattle.olap_run.specs.Outcome.{IsAnswered, WritesOutcome};
ghost use Rattle.olap_run.specs.Commands.{order_of, usage};
ghost use Rattle.olap_order.specs.Judged.{RanOutOfMemory};
ghost use Rattle.olap_order.specs.Words.{texts};

use crate::top::olap;
use olap_order::Status;
use olap_outside::{SureLibrary, SureSink};
use std::alloc::Global;

/// Does what the words say, over files in memory, none of which is missing, and a sink that takes all, so that neither
/// fault can come. Otherwise it is `olap`. The sink tells nothing, so nothing is said about what is written.
pub fn olap_surely(
    alloc: Global,
    words: &[String],
    lib: &mut SureLibrary,
    out: &mut SureSink,
) -> Status
    // The answers are those of the words and the files.
    ensures right { IsAnswered result → WritesOutcome (texts words.now) (sure_contents lib.old) result None None }
    ensures usage_only { order_of (texts words.now) ≡ usage → (result ≡ Status.Usage) ⊎ RanOutOfMemory result }
    // Neither fault comes.
    ensures read { result ≡ Status.ReadFault → ⊥ }
    ensures written { result ≡ Status.WriteFault → ⊥ }
{
    olap(alloc, words, lib, out)
}
