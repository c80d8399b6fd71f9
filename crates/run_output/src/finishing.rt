ghost use Rattle.std.specs.Prelude.{◌≡◌, ◌≢◌};
ghost use Rattle.causes.specs.Cause.{Cause};
ghost use Rattle.run_output.specs.Output.{RunFinishes};
ghost use Rattle.run_output.specs.Ended.{output_of};

use crate::ending::Ending;
use crate::status::Status;
use crate::text::Text;
use station_io::{Put, Sink};

/// Writes the last lines of a command, if there are any, and returns the status with which the program ends.
pub fn finish<K: Sink>(ended: Result<Text, Ending>, out: &mut K) -> Status
    ensures ends { RunFinishes (K.outlet.taken out.old) (K.outlet.taken out.new) (output_of ended) result }
    ensures cause { Cause (K.outlet.faults out.old) (K.outlet.faults out.new) (result ≢ (output_of ended).status) }
    ensures still { result ≢ Status.WriteFault → K.outlet.faults out.new ≡ K.outlet.faults out.old }
{
    match ended {
        Ok(text) => write(&text, Status::Done, out),
        Err(ending) => write(ending.text(), ending.status(), out),
    }
}

// Writes these lines, if there are any.
fn write<K: Sink>(text: &[u8], status: Status, out: &mut K) -> Status
    ensures ends { RunFinishes (K.outlet.taken out.old) (K.outlet.taken out.new)
        (record { text = text.now; status = status }) result }
    ensures cause { Cause (K.outlet.faults out.old) (K.outlet.faults out.new) (result ≢ status) }
    ensures still { result ≢ Status.WriteFault → K.outlet.faults out.new ≡ K.outlet.faults out.old }
{
    if text.is_empty() {
        return status;
    }
    match out.put(text) {
        Put::Done => status,
        Put::Failed => Status::WriteFault,
    }
}
