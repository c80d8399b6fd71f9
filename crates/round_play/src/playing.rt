ghost use Rattle.std.specs.Prelude.{◌≡◌, ◌<◌, ◌^◌, ℕ, false, Option, IfOk, OnOk};
ghost use Rattle.disk_model.specs.Disk.{MayBegin};
ghost use Rattle.disk_model.specs.Stopping.{stopping_medium, stopping_state_of};
ghost use Rattle.settings_file.specs.StationSettings.{StationSettings};
ghost use Rattle.station_session.specs.Round.{round_host};
ghost use Rattle.station_session.specs.RoundAt.{round_turns_left};
ghost use Rattle.station_session.specs.Session.{session_is_stale};
ghost use Rattle.station_session.specs.declared.limits.TheConstants.{MOST_CHANGES};
ghost use Rattle.station_session.specs.declared.round_end.RoundEnd.{RoundEnd};
ghost use Rattle.station_session.specs.declared.session.Session.{Session};
ghost use Rattle.schedule_file.specs.declared.fates.Fates as code_fates;
ghost use Rattle.schedule_file.specs.Lists.{fates_of, records_left_in, no_fates};
ghost use Rattle.replay_laws.specs.Replay.{Stage};
ghost use Rattle.schedule_file.specs.declared.schedule.step.Stop.{Stop};
ghost use Rattle.replay_laws.specs.Stopped.{IsStop};
ghost use Rattle.round_play.specs.Played.{PlayedHost, MayPlay, PlaysBy};
ghost use Rattle.round_play.specs.Playing.{RoundIsOver, IsStill, RoundIsUnderWay, MayGoOn};

use crate::resting::{arm, rest};
use causes::OutOfMemory;
use disk_model::{MemDisk, Stopping};
use schedule_file::{Fates, Stop};
use station_session::{Begun, Report, Round, RoundEnd, Session, Turn};
use station_sim::{Sim, Unseen};
use std::alloc::Global;

/// A round under way: its session, how far it has come, what it reports, and the stop that was set.
#[derive(Drop)]
pub struct Playing {
    pub session: Session,
    pub round: Round,
    pub report: Report,
    pub stop: Option<Stop>,
}

/// What a round came to.
#[derive(Drop)]
pub struct Played {
    pub end: RoundEnd,
    pub report: Report,
    /// How many deliveries were harmed in it, and the first that was unseen.
    pub harmed: u32,
    pub unseen: Option<Unseen>,
}

/// Begins a round of the session over the line under these fates, and over the disk, which stops within a change where a
/// stop is set. `OutOfMemory` where memory was refused.
pub fn begin_play(
    alloc: Global,
    mut session: Session,
    fates: &Fates,
    stop: Option<Stop>,
    line: &mut Sim,
    disk: &mut Stopping<MemDisk>,
) -> Result<Playing, OutOfMemory>
    requires goes { (stopping_state_of disk.old).stopped ≡ false }
    requires stop { IsStop stop }
    requires fresh { session_is_stale session ≡ false }
    requires room { MayBegin stopping_medium MOST_CHANGES disk.old }
    ensures begins { IfOk result
        (λ playing. RoundIsUnderWay fates.now stop (round_host session line.old disk.old)
        playing line.new disk.new) }
    ensures may { IfOk result (λ playing. MayGoOn playing disk.new) }
    ensures left { IfOk result (λ playing. round_turns_left playing.round < 2 ^ 32) }
    ensures stop_is { IfOk result (λ playing. playing.stop ≡ stop) }
    ensures still { OnOk result (IsStill line.old disk.old line.new disk.new) }
{
    line.start(fates.copy()?);
    arm(stop, disk);
    let mut report = Report::new(alloc)?;
    match session.begin(&mut report) {
        Begun::Ready(round) => Ok(Playing {
            session,
            round,
            report,
            stop,
        }),
        Begun::OutOfMemory => Err(OutOfMemory),
        Begun::Stale => unreachable!(),
    }
}

impl Playing {
    ghost use Rattle.round_play.specs.Playing.{MakesOneCall, SaysOrStores};

    /// One turn of the session's round.
    pub fn turn(&mut self, line: &mut Sim, disk: &mut Stopping<MemDisk>) -> Turn
        requires may { MayGoOn self.old disk.old }
        ensures may { result ≡ Turn.More → MayGoOn self.new disk.new }
        ensures more { result ≡ Turn.More → (fates : code_fates.Fates) (stop : Option Stop) (old : PlayedHost)
            → RoundIsUnderWay fates stop old self.old line.old disk.old
            → RoundIsUnderWay fates stop old self.new line.new disk.new }
        ensures ended { (end : RoundEnd) → result ≡ Turn.Ended end
            → (fates : code_fates.Fates) (stop : Option Stop) (old : PlayedHost)
            → RoundIsUnderWay fates stop old self.old line.old disk.old
            → RoundIsOver fates stop old end self.new.session self.new.report line.new disk.new }
        ensures left { result ≡ Turn.More → round_turns_left self.new.round < round_turns_left self.old.round }
        ensures says_or_stores { SaysOrStores line.old disk.old line.new disk.new }
        ensures one_call { result ≡ Turn.More → MakesOneCall line.old disk.old line.new disk.new }
        ensures stop { self.new.stop ≡ self.old.stop }
    {
        self.session
            .turn(&mut self.round, line, disk, &mut self.report)
    }
}

/// Ends a round that ended so: a disk that stopped is begun again from the picked image, and the line has no fates.
/// `OutOfMemory` where memory was refused within the round.
pub fn end_play(
    end: RoundEnd,
    report: Report,
    line: &mut Sim,
    disk: &mut Stopping<MemDisk>,
) -> Result<Played, OutOfMemory>
    ensures played { IfOk result (λ played. (records openings : ℕ) (settings : StationSettings) (s : Stage)
        (fates : code_fates.Fates) (stop : Option Stop) (old : PlayedHost) (session : Session)
        → RoundIsOver fates stop old end session report line.old disk.old
        → MayPlay records settings (fates_of fates) openings s old
        → PlaysBy played.unseen settings (fates_of fates) (records_left_in fates.mids.items) stop openings s
        old played (round_host session line.new disk.new)) }
    ensures fates { OnOk result (fates_of line.new.fates ≡ no_fates) }
    ensures is_still { OnOk result (IsStill line.old disk.old line.new disk.new) }
{
    rest(disk);
    let played = Played {
        end,
        report,
        harmed: line.harmed(),
        unseen: line.unseen(),
    };
    line.finish();
    match end {
        RoundEnd::OutOfMemory => Err(OutOfMemory),
        _ => Ok(played),
    }
}
