// Bytes to a sink.
ghost use Rattle.std.specs.Prelude.{length, IsOk, IsTrue, OnOk, OnErr};
ghost use Rattle.std.specs.Io.KnownBytes.{Appends};
ghost use Rattle.olap_outside.specs.Faults.{HasCause};
ghost use Rattle.olap_outside.specs.Sinks.{AppendsPart};

use crate::{Failed, Sink};

/// Writes all the bytes, as many at a time as the sink takes. It takes no memory. Where the sink refuses a write, a
/// part of the bytes that isn't the whole was written.
#[tactic(auto, using(crate::proofs::Writing::appends_none))]
pub fn emit<K: Sink>(sink: &mut K, bytes: &[u8]) -> Result<(), Failed>
    ensures whole { OnOk result (Appends (K.contents sink.old) (K.contents sink.new) bytes.now) }
    ensures part { OnErr result (AppendsPart (K.contents sink.old) (K.contents sink.new) bytes.now) }
    ensures cause { HasCause (K.faults sink.old) (K.faults sink.new) result }
    ensures surely { IsTrue (K.takes sink.old (length bytes.now)) → IsOk result }
{
    let mut done = 0;
    'writes: while done < bytes.len() {
        done += sink.write(&bytes[done..])?;
    }
    Ok(())
}
