// What comes of the commands about certificates, before anything is written.
ghost use Rattle.olap_order.specs.Families.{FamilyJudged};
ghost use Rattle.olap_order.specs.Judged.{Judged};
ghost use Rattle.olap_order.specs.Words.{texts};
ghost use Rattle.olap_verdicts.specs.Commands.{order_named};
ghost use Rattle.olap_verdicts.specs.Questions.{IsAnswer};
ghost use Rattle.olap_verdicts.specs.Seen.{seen};

use crate::verifying::verify;
use crate::words::{Command, parse};
use olap_order::{Reply, Stop};
use olap_outside::Library;
use std::alloc::Global;

/// The reply of a command.
fn run<L: Library>(alloc: Global, command: Command, lib: &mut L) -> Result<Reply, Stop>
    ensures judged { Judged IsAnswer L.Library lib.old lib.new (seen command.entry) result }
{
    match command {
        Command::Verify {
            form,
            schema,
            certificate,
            target,
            sources,
        } => verify(alloc, form, schema, certificate, target, sources, lib),
    }
}

/// The reply of the command of that name with these words after it; none, and no file is opened, if this family has no
/// such command.
pub fn judge<L: Library>(
    alloc: Global,
    name: &str,
    words: &[String],
    lib: &mut L,
) -> Option<Result<Reply, Stop>>
    ensures judged { FamilyJudged IsAnswer L.Library lib.old lib.new
        (order_named name.now (texts words.now)) result }
{
    match parse(name, words) {
        Some(command) => Some(run(alloc, command, lib)),
        None => None,
    }
}
