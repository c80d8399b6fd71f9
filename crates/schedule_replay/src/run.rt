ghost use Rattle.std.specs.Prelude.{◌≡◌, ◌≢◌, ◌+◌, ◌*◌, ◌≤◌, ◌^◌, ◌<◌, ℕ, true, false, not, List, [], ◌∷◌, length};
ghost use Rattle.std.specs.Prelude.{None, IfOk, OnOk, OnErr, Err, is_some};
ghost use Rattle.causes.specs.Cause.{Cause};
ghost use Rattle.station_base.specs.declared.row.Row.{Row};
ghost use Rattle.settings_file.specs.StationSettings.{StationSettings};
ghost use Rattle.weather_book.specs.Book as book;
ghost use Rattle.disk_model.specs.Stopping.{stopping_medium};
ghost use Rattle.station_session.specs.Session.{book_of};
ghost use Rattle.replay_laws.specs.Replay.{Does, Item, Rounded, Stage, opening_if_closed, is_stop, opened};
ghost use Rattle.replay_laws.specs.Session.{RoundEndsAs};
ghost use Rattle.replay_laws.specs.Stopped.{IsStop};
ghost use Rattle.round_play.specs.Opening.{stopping_limits};
ghost use Rattle.round_play.specs.Played.{PlayedHost, IsToldOf, IsTellable};
ghost use Rattle.round_play.specs.Playing.{RoundIsOver, IsStill};
ghost use Rattle.round_play.specs.Resting.{AtRest, SessionGoesOn};
ghost use Rattle.schedule_replay.specs.RoundLine.{ending_of};
ghost use Rattle.schedule_replay.specs.Running.{After, StepIsCut};
ghost use Rattle.schedule_replay.specs.Left.{left_to_open};
ghost use Rattle.replay_laws.specs.Keeping.{Archive};
ghost use Rattle.replay_laws.specs.Room.{step_lines};
ghost use Rattle.replay_laws.specs.Round.{Ending};
ghost use Rattle.schedule_replay.specs.Standing.{HasSaid, HoldsAt, RoundIsTold, LeadsTo, IsNoRound, LineAt, MayOpen};
ghost use Rattle.schedule_replay.specs.Standing.{MayRun, Readies, StandsThere, WasBegun, open_step, round_step};
ghost use Rattle.schedule_file.specs.declared.fates.Fates as code_fates;
ghost use Rattle.schedule_steps.specs.Accepted.{IsInRange};
ghost use Rattle.schedule_steps.specs.Steps.{step_of};
ghost use Rattle.schedule_replay.specs.Telling.{TellsAll};
ghost use Rattle.schedule_replay.specs.Writing.{IsOnlyRead, IsReadable};

use crate::cut::Cut;
use crate::round_line::{RoundEnding, RoundLine};
use crate::teller::Teller;
use causes::OutOfMemory;
use disk_model::{MemDisk, Stopping};
use round_play::{Played, Playing, end_play, recover, recover_with_stop};
use schedule_file::{Step, Stop};
use schedule_steps::wait;
use settings_file::Settings;
use station_session::{RoundEnd, Session};
use station_sim::Sim;
use std::alloc::Global;

/// A run of a schedule: its session, where the archive is open and no round is under way, the rounds so far, and how
/// many rows were told.
#[derive(Drop)]
pub struct Run {
    pub session: Option<Session>,
    pub rounds: u32,
    pub written: u64,
}

impl Run {
    /// A run that begins: nothing is open and nothing was told.
    pub fn new() -> Run
        ensures session { result.session ≡ None }
        ensures rounds { result.rounds ≡ 0 }
        ensures written { result.written ≡ 0 }
    {
        Run {
            session: None,
            rounds: 0,
            written: 0,
        }
    }

    /// Opens the archive, on a disk that stops within one of the changes of the opening where a stop is set, and tells
    /// what that gives.
    pub fn open<T: Teller>(
        &mut self,
        alloc: Global,
        settings: &Settings,
        stop: Option<Stop>,
        disk: &mut Stopping<MemDisk>,
        teller: &mut T,
    ) -> Result<(), Cut>
        requires may { MayOpen settings.now self.old disk.old }
        requires stop { IsStop stop }
        ensures ok { OnOk result ((openings : ℕ) (s : Stage) → HoldsAt openings settings.now s self.old disk.old
            → LeadsTo T.telling (openings + 1) settings.now (open_step stop) s self.new disk.new
            teller.old teller.new) }
        ensures err { OnErr result ((openings : ℕ) (s : Stage) → HoldsAt openings settings.now s self.old disk.old
            → StepIsCut T.telling settings.now (open_step stop) s teller.old teller.new) }
        ensures limits { stopping_limits disk.new ≡ stopping_limits disk.old }
        ensures cause { Cause (T.telling.faults teller.old) (T.telling.faults teller.new)
            (result ≡ Err Cut.WriteFault) }
        ensures still { result ≢ Err Cut.WriteFault → T.telling.faults teller.new ≡ T.telling.faults teller.old }
    {
        self.session = None;
        let Some(stop) = stop else {
            let session = self.ready(alloc, settings, disk, teller)?;
            self.session = Some(session);
            return Ok(());
        };
        match recover_with_stop(alloc, settings, stop, disk) {
            Ok(Some(session)) => {
                self.tell_opening(&session, disk, teller)?;
                self.session = Some(session);
                Ok(())
            }
            Ok(None) => teller.open_stopped(stop.change),
            Err(_) => Err(Cut::OutOfMemory),
        }
    }

    // The session of the run. Where the archive is not open it is opened first, and what that gives is told.
    fn ready<T: Teller>(
        &mut self,
        alloc: Global,
        settings: &Settings,
        disk: &mut Stopping<MemDisk>,
        teller: &mut T,
    ) -> Result<Session, Cut>
        requires may { MayOpen settings.now self.old disk.old }
        ensures ok { IfOk result (λ session. (openings : ℕ) (s : Stage)
            → HoldsAt openings settings.now s self.old disk.old
            → Readies openings settings.now s self.new session disk.new
            × T.telling.tells teller.old (opening_if_closed s.is_open s) teller.new) }
        ensures err { OnErr result ((openings : ℕ) (s : Stage) → HoldsAt openings settings.now s self.old disk.old
            → T.telling.breaks_off teller.old (opening_if_closed s.is_open s) teller.new) }
        ensures limits { stopping_limits disk.new ≡ stopping_limits disk.old }
        ensures cause { Cause (T.telling.faults teller.old) (T.telling.faults teller.new)
            (result ≡ Err Cut.WriteFault) }
        ensures still { result ≢ Err Cut.WriteFault → T.telling.faults teller.new ≡ T.telling.faults teller.old }
    {
        if let Some(session) = self.session.take() {
            return Ok(session);
        }
        let Ok(session) = recover(alloc, settings, disk) else {
            return Err(Cut::OutOfMemory);
        };
        self.tell_opening(&session, disk, teller)?;
        Ok(session)
    }

    // Tells what the opening of this session gives.
    fn tell_opening<T: Teller>(
        &mut self,
        session: &Session,
        disk: &mut Stopping<MemDisk>,
        teller: &mut T,
    ) -> Result<(), Cut>
        requires { IsReadable session.now disk.old }
        ensures tells { (settings : StationSettings) (rows : List Row)
            → SessionGoesOn settings rows session.now disk.old
            → TellsAll T.telling teller.old (Item.Opened rows self.old.written ∷ []) result teller.new }
        ensures written { OnOk result ((rows : List Row) → book.BookStandsFor (book_of session.now) rows
            → self.new.written ≡ length rows) }
        ensures disk { IsOnlyRead disk.old disk.new }
        ensures others { self.new ≡ record self.old { written = self.new.written } }
        ensures cause { Cause (T.telling.faults teller.old) (T.telling.faults teller.new)
            (result ≡ Err Cut.WriteFault) }
        ensures still { result ≢ Err Cut.WriteFault → T.telling.faults teller.new ≡ T.telling.faults teller.old }
    {
        teller.opened(session, disk, self.written)?;
        self.written = session.book().len();
        Ok(())
    }

    /// Opens the archive where it is closed, ahead of a round or of the end, and tells what that gives.
    pub fn recover<T: Teller>(
        &mut self,
        alloc: Global,
        settings: &Settings,
        disk: &mut Stopping<MemDisk>,
        teller: &mut T,
    ) -> Result<(), Cut>
        requires may { MayOpen settings.now self.old disk.old }
        ensures ok { OnOk result ((openings : ℕ) (s : Stage) → HoldsAt openings settings.now s self.old disk.old
            → HoldsAt (openings + 1) settings.now (opened s.is_open s) self.new disk.new
            × T.telling.tells teller.old (opening_if_closed s.is_open s) teller.new) }
        ensures err { OnErr result ((openings : ℕ) (s : Stage) → HoldsAt openings settings.now s self.old disk.old
            → T.telling.breaks_off teller.old (opening_if_closed s.is_open s) teller.new) }
        ensures is_open { OnOk result (is_some self.new.session ≡ true) }
        ensures limits { stopping_limits disk.new ≡ stopping_limits disk.old }
        ensures cause { Cause (T.telling.faults teller.old) (T.telling.faults teller.new)
            (result ≡ Err Cut.WriteFault) }
        ensures still { result ≢ Err Cut.WriteFault → T.telling.faults teller.new ≡ T.telling.faults teller.old }
    {
        let session = self.ready(alloc, settings, disk, teller)?;
        self.session = Some(session);
        Ok(())
    }

    /// Ends a round that ended so, and tells what it gives. Answers whether a delivery was unseen, with which the run
    /// ends.
    pub fn end_round<T: Teller>(
        &mut self,
        end: RoundEnd,
        playing: Playing,
        line: &mut Sim,
        disk: &mut Stopping<MemDisk>,
        teller: &mut T,
    ) -> Result<bool, Cut>
        requires may { (settings : StationSettings) × (records : ℕ) × (openings : ℕ) × (s : Stage)
            × (fates : code_fates.Fates) × (old : PlayedHost)
            × WasBegun records openings settings s fates old self.old
            × RoundIsOver fates playing.stop old end playing.session playing.report line.old disk.old
            × (self.old.rounds < 1000) }
        ensures ok { IfOk result (λ unseen. (records openings : ℕ) (settings : StationSettings) (s : Stage)
            (fates : code_fates.Fates) (old : PlayedHost)
            → WasBegun records openings settings s fates old self.old
            → RoundIsOver fates playing.stop old end playing.session playing.report line.old disk.old
            → After T.telling unseen settings (round_step fates playing.stop) s
            (λ is u. (HoldsAt openings settings u self.new disk.new × LineAt u line.new × HasSaid is old.link line.new)
            × (stopping_limits disk.new ≡ stopping_limits old.disk)) teller.old teller.new) }
        ensures err { OnErr result ((records openings : ℕ) (settings : StationSettings) (s : Stage)
            (fates : code_fates.Fates) (old : PlayedHost)
            → WasBegun records openings settings s fates old self.old
            → RoundIsOver fates playing.stop old end playing.session playing.report line.old disk.old
            → StepIsCut T.telling settings (round_step fates playing.stop) s teller.old teller.new) }
        ensures is_still { OnOk result (IsStill line.old disk.old line.new disk.new) }
        ensures cause { Cause (T.telling.faults teller.old) (T.telling.faults teller.new)
            (result ≡ Err Cut.WriteFault) }
        ensures still { result ≢ Err Cut.WriteFault → T.telling.faults teller.new ≡ T.telling.faults teller.old }
    {
        let Ok(played) = end_play(end, playing.report, line, disk) else {
            return Err(Cut::OutOfMemory);
        };
        self.rounds += 1;
        if let Some(which) = played.unseen {
            teller.unseen(self.rounds, which)?;
            return Ok(true);
        }
        self.tell_round(playing.session, playing.stop, &played, disk, teller)?;
        Ok(false)
    }

    /// Takes one step of a schedule that makes no round, and tells what it gives.
    pub fn take<T: Teller>(
        &mut self,
        alloc: Global,
        settings: &Settings,
        step: &Step,
        line: &mut Sim,
        disk: &mut Stopping<MemDisk>,
        teller: &mut T,
    ) -> Result<(), Cut>
        requires may { MayRun settings.now (step_of settings.now.period step.now) self.old line.old disk.old }
        requires range { IsInRange settings.now.period step.now }
        requires no_round { IsNoRound step.now }
        ensures ok { OnOk result ((records openings : ℕ) (s : Stage) → HoldsAt openings settings.now s self.old disk.old
            → LineAt s line.old
            → StandsThere records openings settings.now (step_of settings.now.period step.now) s disk.old
            → After T.telling false settings.now (step_of settings.now.period step.now) s
            (λ is u. HoldsAt (openings + step_lines (step_of settings.now.period step.now)) settings.now u
            self.new disk.new × LineAt u line.new × HasSaid is line.old line.new)
            teller.old teller.new) }
        ensures err { OnErr result ((records openings : ℕ) (s : Stage)
            → HoldsAt openings settings.now s self.old disk.old → LineAt s line.old
            → StandsThere records openings settings.now (step_of settings.now.period step.now) s disk.old
            → StepIsCut T.telling settings.now (step_of settings.now.period step.now) s teller.old teller.new) }
        ensures limits { stopping_limits disk.new ≡ stopping_limits disk.old }
        ensures talk { line.new.talk.items ≡ line.old.talk.items }
        ensures closes { left_to_open self.new.session
            ≤ left_to_open self.old.session + step_lines (step_of settings.now.period step.now) }
        ensures cause { Cause (T.telling.faults teller.old) (T.telling.faults teller.new)
            (result ≡ Err Cut.WriteFault) }
        ensures still { result ≢ Err Cut.WriteFault → T.telling.faults teller.new ≡ T.telling.faults teller.old }
    {
        match step {
            Step::Open(stop) => self.open(alloc, settings, *stop, disk, teller),
            Step::Due(_) | Step::Run { .. } | Step::Idle(_) => match wait(
                line,
                step,
                settings.period(),
            ) {
                Ok(()) => Ok(()),
                Err(_) => Err(Cut::OutOfMemory),
            },
            Step::Round { .. } => unreachable!(),
        }
    }

    // Tells what a round gives, and goes on with its session unless it was stopped.
    fn tell_round<T: Teller>(
        &mut self,
        session: Session,
        stop: Option<Stop>,
        played: &Played,
        disk: &mut Stopping<MemDisk>,
        teller: &mut T,
    ) -> Result<(), Cut>
        requires { IsTellable stop session played.now disk.old }
        ensures ok { OnOk result ((settings : StationSettings) (openings : ℕ) (r : Rounded) (a : Archive)
            → IsToldOf settings openings stop session played.now disk.old r a → r.number ≡ self.old.rounds
            → r.written ≡ self.old.written
            → RoundIsTold settings openings r a self.old.written self.new disk.new
            × T.telling.tells teller.old (Item.Ran r ∷ []) teller.new) }
        ensures err { OnErr result ((settings : StationSettings) (openings : ℕ) (r : Rounded) (a : Archive)
            → IsToldOf settings openings stop session played.now disk.old r a → r.number ≡ self.old.rounds
            → r.written ≡ self.old.written
            → T.telling.breaks_off teller.old (Item.Ran r ∷ []) teller.new) }
        ensures limits { stopping_limits disk.new ≡ stopping_limits disk.old }
        ensures moment { stopping_medium.moment disk.new ≡ stopping_medium.moment disk.old }
        ensures rounds { self.new.rounds ≡ self.old.rounds }
        ensures cause { Cause (T.telling.faults teller.old) (T.telling.faults teller.new)
            (result ≡ Err Cut.WriteFault) }
        ensures still { result ≢ Err Cut.WriteFault → T.telling.faults teller.new ≡ T.telling.faults teller.old }
    {
        self.session = None;
        let line = RoundLine {
            number: self.rounds,
            end: ending(played.end, stop),
            attempts: played.report.attempts,
            pages: played.report.tally.pages,
            skipped: played.report.tally.skipped,
            harmed: played.harmed,
            acked: played.report.acked(),
            rows: session.book().len(),
        };
        teller.round(&session, disk, &line, self.written)?;
        if let RoundEnding::Stopped(_) = line.end {
            return Ok(());
        }
        self.written = line.rows;
        self.session = Some(session);
        Ok(())
    }
}

// How a round of a run ended, by how the session's round did.
fn ending(end: RoundEnd, stop: Option<Stop>) -> RoundEnding
    requires { (known : Ending) × RoundEndsAs stop end known }
    ensures { (known : Ending) → RoundEndsAs stop end known → ending_of result ≡ known }
{
    match (end, stop) {
        (RoundEnd::Done, _) => RoundEnding::Done,
        (RoundEnd::GaveUp, _) => RoundEnding::GaveUp,
        (RoundEnd::ArchiveFull, _) => RoundEnding::Full,
        (RoundEnd::DiskFault, Some(stop)) => RoundEnding::Stopped(stop.change),
        _ => unreachable!(),
    }
}
