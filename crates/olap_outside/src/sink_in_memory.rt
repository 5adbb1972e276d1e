// A sink in memory, which refuses the calls that are listed.
ghost use Rattle.std.specs.Prelude.{◌≡◌, ◌||◌, ◌<◌, ◌≤◌, nat_le, not, is_ok, [], length, IfOk, Some};
ghost use Rattle.std.specs.Vec.{vec_len, vec_capacity};

use crate::calls::Calls;
use crate::{Failed, Sink};
use olap_base::{List, Memory};
use std::alloc::Global;

/// Output in memory, for tests. It takes at most `chunk` bytes a call and `room` in all. Calls are numbered from 1, and
/// those that are listed are refused, as is one when no room is left. Writes take no memory.
#[derive(Drop)]
pub struct MemSink {
    bytes: Vec<u8>,
    room: usize,
    chunk: usize,
    calls: Calls,
    ghost some: { 0 < chunk },
    ghost reserved: { room ≤ vec_capacity bytes },
    ghost within: { vec_len bytes ≤ room },
}

impl MemSink {
    ghost use Rattle.olap_outside.specs.Calls.{no_calls};
    ghost use Rattle.olap_outside.specs.Written.{sink_calls, sink_chunk, sink_room, written};

    /// An empty sink.
    pub fn new(
        alloc: Global,
        room: usize,
        chunk: usize,
        fails: List<u64>,
    ) -> Result<MemSink, Memory>
        requires { 0 < chunk }
        ensures room { IfOk result (λ sink. sink_room sink ≡ room) }
        ensures chunk { IfOk result (λ sink. sink_chunk sink ≡ chunk) }
        // Fresh: no call was made.
        ensures written { IfOk result (λ sink. written sink ≡ []) }
        ensures calls { IfOk result (λ sink. sink_calls sink ≡ no_calls fails) }
    {
        Ok(MemSink {
            bytes: Vec::with_capacity(alloc, room)?,
            room,
            chunk,
            calls: Calls::new(fails),
        })
    }

    /// The bytes written so far.
    pub fn contents(&self) -> &[u8]
        ensures { result.now ≡ written self.now }
    {
        &self.bytes
    }
}

impl Sink for MemSink {
    ghost use Rattle.std.specs.Io.KnownBytes.{WriteAppends};
    ghost use Rattle.olap_outside.specs.Calls.{after_call, fails_next};
    ghost use Rattle.olap_outside.specs.Faults.{HasCause};
    ghost use Rattle.olap_outside.specs.Sinks.{TakesSurely};
    ghost use Rattle.olap_outside.specs.Written.{sink_calls, sink_chunk, sink_faults, sink_room, sink_takes, written};

    ghost contents = { λ s. Some (written s) };

    ghost faults = { sink_faults };

    ghost takes = { sink_takes };

    fn write(&mut self, piece: &[u8]) -> Result<usize, Failed>
        requires { 0 < length piece.now }
        ensures some { IfOk result (λ n. 0 < n) }
        ensures bound { IfOk result (λ n. n ≤ length piece.now) }
        ensures written { WriteAppends (Some (written self.old)) (Some (written self.new)) result piece.now }
        ensures cause { HasCause (sink_faults self.old) (sink_faults self.new) result }
        ensures surely { TakesSurely (sink_takes self.old) (sink_takes self.new) (length piece.now) result }
        // Beside the trait's: refused exactly if it is listed or no room is left, and takes `chunk` bytes at most.
        ensures refused { is_ok result ≡ not
            (fails_next (sink_calls self.old) || nat_le (sink_room self.old) (length (written self.old))) }
        ensures piece { IfOk result (λ n. n ≤ sink_chunk self.old) }
        // What it was made with stays; the calls are counted, and the faults at a refusal alone.
        ensures room { sink_room self.new ≡ sink_room self.old }
        ensures chunk { sink_chunk self.new ≡ sink_chunk self.old }
        ensures calls { sink_calls self.new ≡ after_call (sink_calls self.old) (is_ok result) }
    {
        let left = self.room - self.bytes.len();
        let takes = !self.calls.is_next_listed() && left > 0;
        self.calls.count(takes);
        if !takes {
            return Err(Failed);
        }
        let count = left.min(piece.len()).min(self.chunk);
        self.bytes.extend_from_slice(&piece[..count]).unwrap();
        Ok(count)
    }
}
