ghost use Rattle.std.specs.Prelude.{◌≡◌, ◌≢◌, ◌+◌, ◌≤◌};
ghost use Rattle.arrayvec.specs.ArrayVec.{array_vec_len};
ghost use Rattle.causes.specs.Cause.{Cause};
ghost use Rattle.causes.specs.Written.{Leaves, WritesPart};

use run_output::{PAGE_ROOM, PIECE, ROOM, Text};
use station_io::{Put, Sink};

/// Writes the text that waits, where it is enough for a piece. There is room for the lines of a page then.
pub fn make_room<K: Sink>(pending: &mut Text, out: &mut K) -> Put
    ensures room { array_vec_len pending.new + PAGE_ROOM ≤ ROOM }
    ensures done { result ≡ Put.Done
        → Leaves (K.outlet.taken out.old) (K.outlet.taken out.new) pending.old.items pending.new.items }
    ensures failed { result ≡ Put.Failed
        → WritesPart (K.outlet.taken out.old) (K.outlet.taken out.new) pending.old.items }
    ensures cause { Cause (K.outlet.faults out.old) (K.outlet.faults out.new) (result ≡ Put.Failed) }
    ensures still { result ≢ Put.Failed → K.outlet.faults out.new ≡ K.outlet.faults out.old }
{
    if pending.len() < PIECE {
        return Put::Done;
    }
    let answer = out.put(pending.as_slice());
    pending.clear();
    answer
}
