ghost use Rattle.std.specs.Prelude.{◌≡◌, ℕ};
ghost use Rattle.schedule_file.specs.Steps.{step_seen};
ghost use Rattle.schedule_file.specs.Kinds as specs;

use crate::fates::Fates;
use archive_record::Rec52;

/// The disk stops within a change, and restarts with a picked image.
#[derive(Clone, Copy, Debug, PartialEq, Eq)]
pub struct Stop {
    /// Which change, counted from 1 on.
    pub change: u64,
    /// Which of the images that a crash may leave there. 0 has the old bytes, 1 the new ones, 2 has 255 at each place
    /// that was written; from 3 on it is a mix.
    pub pick: u64,
}

/// A step of a schedule.
#[derive(Drop)]
pub enum Step {
    /// A record falls due.
    Due(Rec52),
    /// So many records fall due, each next one a period later with the same values.
    Run { first: Rec52, count: u32 },
    /// So many ticks of the console, each the time of one quiet wait.
    Idle(u8),
    /// The archive is recovered.
    Open(Option<Stop>),
    /// A round, and what befalls in it.
    Round { fates: Fates, stop: Option<Stop> },
}

impl Step {
    // Whether a record falls due.
    pub(crate) fn is_due(&self) -> bool
        ensures { (period : ℕ) → result ≡ specs.is_due (step_seen period self.now) }
    {
        match self {
            Step::Due(_) | Step::Run { .. } => true,
            _ => false,
        }
    }
}
