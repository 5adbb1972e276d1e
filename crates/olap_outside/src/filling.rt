// A file that is read piece by piece.
ghost use Rattle.std.specs.Prelude.{◌≡◌, ◌+◌, ◌<◌, ◌≤◌, ◌^◌, IfOk, IsOk, IsTrue, OnErr, is_ok, length, take};
ghost use Rattle.std.specs.Io.KnownBytes.{Consumes};
ghost use Rattle.olap_outside.specs.Faults.{HasCause};
ghost use Rattle.olap_outside.specs.Pieces.{EndsTold, IsKept};

use crate::{Failed, Library};

/// Fills the piece with the next bytes of the opened file, whole or as far as the file goes, and returns how many bytes
/// it put there. Fewer than the piece has room for are the last.
pub fn fill<L: Library>(lib: &mut L, piece: &mut [u8]) -> Result<usize, Failed>
    requires { IsTrue (L.ready lib.old) }
    ensures bound { IfOk result (λ n. n ≤ length piece.new) }
    ensures bytes { IfOk result (λ n. Consumes (L.rest lib.old) (L.rest lib.new) (take n piece.new)) }
    ensures taken { IfOk result (λ n. L.taken lib.new ≡ L.taken lib.old + n) }
    ensures few { IfOk result (λ n. 0 < n → L.taken lib.new < 2 ^ 64) }
    ensures end { IfOk result (λ n. n < length piece.new → EndsTold (L.rest lib.old) (L.rest lib.new)) }
    ensures ready { L.ready lib.new ≡ is_ok result }
    ensures cause { HasCause (L.faults lib.old) (L.faults lib.new) result }
    ensures surely { IsTrue (L.sure lib.old) → IsOk result }
    ensures kept { IsKept L.Library lib.old lib.new }
{
    let mut at = 0;
    'fills: while at < piece.len() {
        let count = lib.read(&mut piece[at..])?;
        if count == 0 {
            return Ok(at);
        }
        at += count;
    }
    Ok(at)
}
