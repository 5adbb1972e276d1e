// What comes of the words and the files, before anything is written.
ghost use Rattle.std.specs.Prelude.{◌≡◌, IfOk, IsErrOf, IsNone, IsSome, MatchOption, None, Some, codes, ⊤};
ghost use Rattle.olap_order.specs.Families.{FamilyJudged, IsNoUsage};
ghost use Rattle.olap_order.specs.Judged.{GivesTold, Judged, ReadCause, Replied, Replies};
ghost use Rattle.olap_order.specs.Order.{Told};
ghost use Rattle.olap_order.specs.Outputs.{line};
ghost use Rattle.olap_order.specs.Words.{texts};
ghost use Rattle.olap_run.specs.Commands.{order_named, order_of, usage, version, version_told};
ghost use Rattle.olap_run.specs.Outcome.{IsAnswered};
ghost use Rattle.olap_run.specs.Questions.{IsAnswer};

use olap_base::MOST_WORDS;
use olap_order::{Reply, Status, Stop};
use olap_outside::Library;
use std::alloc::Global;

/// The reply of the command of that name with these words after it: each family is asked in turn.
fn named<L: Library>(
    alloc: Global,
    name: &str,
    words: &[String],
    lib: &mut L,
) -> Option<Result<Reply, Stop>>
    ensures judged { FamilyJudged IsAnswer L.Library lib.old lib.new
        (order_named name.now (texts words.now)) result }
{
    if let Some(result) = olap_reasoning::judge(alloc, name, words, lib) {
        return Some(result);
    }
    if let Some(result) = olap_totals::judge(alloc, name, words, lib) {
        return Some(result);
    }
    if let Some(result) = olap_plans::judge(alloc, name, words, lib) {
        return Some(result);
    }
    if let Some(result) = olap_verdicts::judge(alloc, name, words, lib) {
        return Some(result);
    }
    olap_cubes::judge(alloc, name, words, lib)
}

/// The program and its version, as the change log has it.
fn version(alloc: Global) -> Result<Reply, Stop>
    ensures { Replies IsAnswer (Told Status.Yes (line version)) result }
{
    Ok(Reply {
        status: Status::Yes,
        bytes: Vec::from_slice(alloc, b"olap 0.2.0\n")?,
    })
}

/// The reply to a word that asks about the program itself, with no word after it.
fn told(alloc: Global, name: &str, words: &[String]) -> Option<Result<Reply, Stop>>
    ensures none { IsNone result → version_told name.now (texts words.now) ≡ None }
    ensures some { MatchOption result ⊤
        (λ r. (version_told name.now (texts words.now) ≡ Some (Told Status.Yes (line version)))
        × Replies IsAnswer (Told Status.Yes (line version)) r) }
{
    match name {
        "version" => match words {
            [] => Some(version(alloc)),
            _ => None,
        },
        _ => None,
    }
}

/// The reply of the command that the words are, if they are one.
fn commanded<L: Library>(
    alloc: Global,
    words: &[String],
    lib: &mut L,
) -> Option<Result<Reply, Stop>>
    ensures none { IsNone result → order_of (texts words.now) ≡ usage }
    ensures unread { IsNone result → lib.new ≡ lib.old }
    ensures command { IsSome result → IsNoUsage (order_of (texts words.now)) }
    ensures judged { MatchOption result ⊤
        (λ r. Judged IsAnswer L.Library lib.old lib.new (order_of (texts words.now)) r) }
{
    if words.len() > MOST_WORDS {
        return None;
    }
    let (name, words) = words.split_first()?;
    if let Some(result) = told(alloc, name.as_str(), words) {
        return Some(result);
    }
    named(alloc, name.as_str(), words, lib)
}

/// The usage line.
fn usage(alloc: Global) -> Result<Reply, Stop>
    ensures replies { Replied result (λ status bytes. (status ≡ Status.Usage) × (bytes ≡ line (codes "usage"))) }
    ensures unread { IsErrOf result Stop.Read → ⊥ }
    ensures answers { IfOk result (λ reply. reply.status ≡ Status.Usage) }
{
    Ok(Reply {
        status: Status::Usage,
        bytes: Vec::from_slice(alloc, b"usage\n")?,
    })
}

/// The reply to the words.
pub(crate) fn judge<L: Library>(alloc: Global, words: &[String], lib: &mut L) -> Result<Reply, Stop>
    ensures right { Replied result
        (GivesTold IsAnswer (L.contents lib.old) (order_of (texts words.now))) }
    ensures answered { Replied result (λ status bytes. IsAnswered status) }
    ensures usage { Replied result (λ status bytes.
        status ≡ Status.Usage → order_of (texts words.now) ≡ usage) }
    ensures usage_only { Replied result (λ status bytes.
        order_of (texts words.now) ≡ usage → status ≡ Status.Usage) }
    ensures unread { order_of (texts words.now) ≡ usage → lib.new ≡ lib.old }
    ensures unfailed { order_of (texts words.now) ≡ usage → IsErrOf result Stop.Read → ⊥ }
    ensures read { IsErrOf result Stop.Read →
        ReadCause L.Library lib.old lib.new (order_of (texts words.now)) }
{
    match commanded(alloc, words, lib) {
        None => usage(alloc),
        Some(result) => result,
    }
}
