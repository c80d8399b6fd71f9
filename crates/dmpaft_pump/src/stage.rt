ghost use Rattle.std.specs.Prelude.{◌≡◌};
ghost use Rattle.dmpaft_pump.specs.Stages.{told_stage};

use crate::phase::Phase;
use crate::pump_end::PumpEnd;

/// Where a pump stands.
#[derive(Clone, Copy)]
pub enum Stage {
    Saying(Phase),
    Hearing(Phase),
    // The keeper has the batch of a page, and so many pages come after it.
    Keeping { more: u16 },
    Ended(PumpEnd),
}

/// Where a pump stands once the words of a part are said: the last ones end the attempt.
pub fn stage_after(phase: Phase) -> Stage
    ensures { result ≡ told_stage phase }
{
    match phase {
        Phase::Acking => Stage::Ended(PumpEnd::Whole),
        Phase::GivingUp(trouble) => Stage::Ended(PumpEnd::Failed(trouble)),
        _ => Stage::Hearing(phase),
    }
}
