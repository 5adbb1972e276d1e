// The top call.
ghost use Rattle.std.specs.Prelude.{◌≡◌, ◌⊎◌, IsTrue, length};
ghost use Rattle.std.specs.Io.KnownBytes.{Appends};
ghost use Rattle.olap_outside.specs.Faults.{HasCause, Rose};
ghost use Rattle.olap_outside.specs.Sinks.{AppendsPart};
ghost use Rattle.olap_run.specs.Commands.{order_of, usage};
ghost use Rattle.olap_order.specs.Judged.{RanOutOfMemory, ReadCause};
ghost use Rattle.olap_run.specs.Outcome.{IsAnswered, TakesOutcome, TellsAll, WritesOutcome, WritesPart};
ghost use Rattle.olap_order.specs.Words.{texts};

use crate::judging::judge;
use olap_order::{Status, Stop};
use olap_outside::{Library, Sink, emit};
use std::alloc::Global;

/// Writes the bytes of an answer; the status is that of the run.
fn written<K: Sink>(out: &mut K, status: Status, bytes: &[u8]) -> Status
    requires answered { IsAnswered status }
    ensures one { (result ≡ status) ⊎ (result ≡ Status.WriteFault) }
    ensures whole { result ≡ status → Appends (K.contents out.old) (K.contents out.new) bytes.now }
    ensures part { result ≡ Status.WriteFault →
        AppendsPart (K.contents out.old) (K.contents out.new) bytes.now }
    ensures risen { result ≡ Status.WriteFault → Rose (K.faults out.old) (K.faults out.new) }
    ensures surely { result ≡ Status.WriteFault → IsTrue (K.takes out.old (length bytes.now)) → ⊥ }
{
    match emit(out, bytes) {
        Ok(()) => status,
        Err(_) => Status::WriteFault,
    }
}

/// Does what the words say, over the files of the library, and writes the answer to the sink.
#[tactic(auto, using(crate::proofs::SureLemmas::held_is_read))]
pub fn olap<L: Library, K: Sink>(
    alloc: Global,
    words: &[String],
    lib: &mut L,
    out: &mut K,
) -> Status
    // The four answers are those of the words and the files, and so is what is written.
    ensures right { IsAnswered result → WritesOutcome (texts words.now) (L.contents lib.old) result
        (K.contents out.old) (K.contents out.new) }
    ensures usage { result ≡ Status.Usage → order_of (texts words.now) ≡ usage }
    ensures usage_only { order_of (texts words.now) ≡ usage →
        (result ≡ Status.Usage) ⊎ (result ≡ Status.WriteFault) ⊎ RanOutOfMemory result }
    ensures unread { order_of (texts words.now) ≡ usage → lib.new ≡ lib.old }
    // The faults come only by their causes.
    ensures read_fault { result ≡ Status.ReadFault →
        ReadCause L.Library lib.old lib.new (order_of (texts words.now)) }
    ensures write_fault { result ≡ Status.WriteFault → Rose (K.faults out.old) (K.faults out.new) }
    // Over a sure library that holds every file of the order, and a sink that takes the outcome, they don't come.
    ensures sure_read { IsTrue (L.sure lib.old) → TellsAll (texts words.now) (L.contents lib.old) →
        result ≡ Status.ReadFault → ⊥ }
    ensures sure_write { TakesOutcome (texts words.now) (L.contents lib.old) (K.takes out.old) →
        result ≡ Status.WriteFault → ⊥ }
    // Nothing, or a part, is written if there is no answer.
    ensures silent { (result ≡ Status.ReadFault) ⊎ RanOutOfMemory result →
        K.contents out.new ≡ K.contents out.old }
    ensures part { result ≡ Status.WriteFault → WritesPart (texts words.now) (L.contents lib.old)
        (K.contents out.old) (K.contents out.new) }
    // Where all files are held, there is an answer, out of memory, or a fault that is counted. The clauses above say so
    // already, each a part; this one says it in one place.
    ensures complete { TellsAll (texts words.now) (L.contents lib.old) →
        (IsAnswered result × WritesOutcome (texts words.now) (L.contents lib.old) result
        (K.contents out.old) (K.contents out.new))
        ⊎ (RanOutOfMemory result × (K.contents out.new ≡ K.contents out.old))
        ⊎ ((result ≡ Status.ReadFault) × ReadCause L.Library lib.old lib.new (order_of (texts words.now)))
        ⊎ ((result ≡ Status.WriteFault) × Rose (K.faults out.old) (K.faults out.new)) }
{
    match judge(alloc, words, lib) {
        Ok(reply) => written(out, reply.status, &reply.bytes),
        Err(Stop::Refused(bytes)) => written(out, Status::Refused, &bytes),
        Err(Stop::Read) => Status::ReadFault,
        Err(Stop::Memory(memory)) => Status::Memory(memory),
    }
}
