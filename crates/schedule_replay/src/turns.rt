ghost use Rattle.std.specs.Prelude.{◌≡◌, ◌≢◌, ◌⊎◌, ◌+◌, ◌^◌, ◌<◌, ◌≤◌, ℕ, true, [], List, None, Some, length, drop};
ghost use Rattle.std.specs.Prelude.{is_some};
ghost use Rattle.causes.specs.Cause.{Cause};
ghost use Rattle.loop_packet.specs.declared.packet.LoopPacket.{LoopPacket};
ghost use Rattle.disk_model.specs.declared.mem_disk.MemDisk.{MemDisk};
ghost use Rattle.disk_model.specs.declared.stopping.Stopping.{Stopping};
ghost use Rattle.replay_laws.specs.Replay.{Item, OpensNext, start};
ghost use Rattle.replay_laws.specs.Schedule.{records};
ghost use Rattle.schedule_file.specs.declared.schedule.step.Step as code_step;
ghost use Rattle.station_sim.specs.declared.sim.Sim.{Sim};
ghost use Rattle.schedule_steps.specs.Accepted.{AreAccepted};
ghost use Rattle.round_play.specs.Playing.{MakesOneCall, SaysOrStores};
ghost use Rattle.schedule_replay.specs.Replayed.{IsNewDisk};
ghost use Rattle.schedule_replay.specs.Standing.{IsNextRound, IsNoRound, LineAt};
ghost use Rattle.schedule_steps.specs.Steps.{steps_for};
ghost use Rattle.schedule_replay.specs.Turns.{BreaksRun, CutsRun, EndsRun};

use crate::cut::Cut;
use crate::run::Run;
use crate::teller::Teller;
use disk_model::{MemDisk, Stopping};
use round_play::{Playing, begin_play};
use schedule_file::{Fates, Step, Stop};
use settings_file::Settings;
use station_session::Turn;
use station_sim::Sim;
use std::alloc::Global;

/// What a turn of a run came to.
#[derive(Clone, Copy, Debug, PartialEq, Eq)]
pub enum ReplayTurn {
    /// One turn was taken, and more is to come.
    More,
    /// All steps were taken before, and the archive is open. The end is told.
    Ended,
    /// A delivery of a round was unseen, with which the run ends. It is told.
    Unseen,
    /// A write failed. A front of what was to be told is.
    WriteFault,
    /// The run found no memory. A front of what was to be told is.
    OutOfMemory,
}

/// A run of a schedule's steps that is taken turn by turn. Whoever keeps it keeps its steps, its line and its disk
/// beside it.
#[derive(Drop)]
pub struct ReplayRun {
    alloc: Global,
    settings: Settings,
    run: Run,
    // The round under way, if there is one.
    playing: Option<Playing>,
    // How many steps were taken.
    taken: usize,
    turns: u64,
}

impl ReplayRun {
    ghost use Rattle.schedule_replay.specs.Replaying.{Course, IsNext, MayTurn, Replaying, StandsWith, RunTakesTurn};
    ghost use Rattle.schedule_replay.specs.Replaying.{run_turns_left};
    ghost use Rattle.schedule_replay.specs.Turns.{IsOneTurn, RunIsNew, RunTurnsTo};

    /// A run with these settings that begins. No memory is taken.
    pub fn new(alloc: Global, settings: &Settings) -> ReplayRun
        ensures settings { result.settings ≡ settings.now }
        ensures is_new { RunIsNew result }
        ensures begins { (steps : List code_step.Step) (eeprom : List ℕ) (packet : LoopPacket) (line : Sim)
            (disk : Stopping MemDisk)
            → AreAccepted settings.now.period steps → LineAt (start eeprom packet) line
            → IsNewDisk (length (records (steps_for settings.now.period steps))) eeprom packet disk
            → Replaying eeprom packet steps [] line line disk disk result }
        ensures left { (steps : List code_step.Step) → AreAccepted settings.now.period steps → length steps < 2 ^ 47
            → run_turns_left steps result < 2 ^ 48 }
    {
        ReplayRun {
            alloc,
            settings: *settings,
            run: Run::new(),
            playing: None,
            taken: 0,
            turns: 0,
        }
    }

    /// How many turns answered that more is to come.
    pub fn turns(&self) -> u64
        ensures { result ≡ self.now.turns }
    {
        self.turns
    }

    /// Takes one turn, and tells what it gives. A turn is one step that makes no round; one recovery, ahead of a round
    /// or of the end, where the archive is closed; one turn of the round under way, the first with its begin, the last
    /// with its line; or the end.
    pub fn turn<T: Teller>(
        &mut self,
        steps: &[Step],
        line: &mut Sim,
        disk: &mut Stopping<MemDisk>,
        teller: &mut T,
    ) -> ReplayTurn
        requires { MayTurn steps.now line.old disk.old self.old }
        ensures more { result ≡ ReplayTurn.More
            → (eeprom : List ℕ) (packet : LoopPacket) (items : List Item) (before : Sim) (made : Stopping MemDisk)
            → Replaying eeprom packet steps.now items before line.old made disk.old self.old
            → RunTakesTurn T.telling eeprom packet steps.now items before line.new made disk.new self.new
            teller.old teller.new }
        ensures ended { result ≡ ReplayTurn.Ended
            → (eeprom : List ℕ) (packet : LoopPacket) (items : List Item) (before : Sim) (made : Stopping MemDisk)
            → Replaying eeprom packet steps.now items before line.old made disk.old self.old
            → EndsRun T.telling self.old.settings (start eeprom packet) (steps_for self.old.settings.period steps.now)
            items before line.new disk.new teller.old teller.new }
        ensures unseen { result ≡ ReplayTurn.Unseen
            → (eeprom : List ℕ) (packet : LoopPacket) (items : List Item) (before : Sim) (made : Stopping MemDisk)
            → Replaying eeprom packet steps.now items before line.old made disk.old self.old
            → BreaksRun T.telling self.old.settings (start eeprom packet) (steps_for self.old.settings.period steps.now)
            items teller.old teller.new }
        ensures cut_off { (result ≡ ReplayTurn.WriteFault) ⊎ (result ≡ ReplayTurn.OutOfMemory)
            → (eeprom : List ℕ) (packet : LoopPacket) (items : List Item) (before : Sim) (made : Stopping MemDisk)
            → Replaying eeprom packet steps.now items before line.old made disk.old self.old
            → CutsRun T.telling self.old.settings (start eeprom packet) (steps_for self.old.settings.period steps.now)
            items teller.old teller.new }
        ensures settings { self.new.settings ≡ self.old.settings }
        ensures turns { result ≡ ReplayTurn.More → self.new.turns ≡ self.old.turns + 1 }
        ensures not_counted { result ≢ ReplayTurn.More → self.new.turns ≡ self.old.turns }
        ensures left { result ≡ ReplayTurn.More
            → run_turns_left steps.now self.new < run_turns_left steps.now self.old }
        ensures one_turn { result ≡ ReplayTurn.More → IsOneTurn self.old self.new }
        ensures says_or_stores { result ≡ ReplayTurn.More → SaysOrStores line.old disk.old line.new disk.new }
        ensures unseen_says_or_stores { result ≡ ReplayTurn.Unseen
            → SaysOrStores line.old disk.old line.new disk.new }
        ensures one_call { result ≡ ReplayTurn.More → is_some self.new.playing ≡ true
            → MakesOneCall line.old disk.old line.new disk.new }
        ensures ends_open { result ≡ ReplayTurn.Ended → is_some self.old.run.session ≡ true }
        ensures ends_alone { result ≡ ReplayTurn.Ended
            → (self.old.playing ≡ None) × (length steps.now ≤ self.old.taken) }
        ensures write_fault { Cause (T.telling.faults teller.old) (T.telling.faults teller.new)
            (result ≡ ReplayTurn.WriteFault) }
        ensures still { result ≢ ReplayTurn.WriteFault → T.telling.faults teller.new ≡ T.telling.faults teller.old }
    {
        if self.playing.is_some() {
            return self.play_on(line, disk, teller);
        }
        let Some(step) = steps.get(self.taken) else {
            return self.close(disk, teller);
        };
        match step {
            Step::Round { fates, stop } => self.begin_round(fates, *stop, line, disk, teller),
            Step::Due(_) | Step::Run { .. } | Step::Idle(_) | Step::Open(_) => {
                self.take(step, line, disk, teller)
            }
        }
    }

    // Takes a step that makes no round.
    fn take<T: Teller>(
        &mut self,
        step: &Step,
        line: &mut Sim,
        disk: &mut Stopping<MemDisk>,
        teller: &mut T,
    ) -> ReplayTurn
        requires may { (c : Course) × (items : List Item) × StandsWith None c items self.old line.old disk.old
            × IsNext c.steps self.old.taken step.now }
        requires no_round { IsNoRound step.now }
        requires none { self.old.playing ≡ None }
        requires countable { (self.old.taken + 1 < 2 ^ 64) × (self.old.turns + 1 < 2 ^ 64) }
        ensures turns_to { (c : Course) (items : List Item) → StandsWith None c items self.old line.old disk.old
            → IsNext c.steps self.old.taken step.now
            → RunTurnsTo T.telling result c self.old.settings items line.new disk.new self.new teller.old teller.new }
        ensures others { self.new ≡ record self.old {
          run = self.new.run;
          taken = self.new.taken;
          turns = self.new.turns;
        } }
        ensures turns { result ≡ ReplayTurn.More → self.new.turns ≡ self.old.turns + 1 }
        ensures not_counted { result ≢ ReplayTurn.More → self.new.turns ≡ self.old.turns }
        ensures left { result ≡ ReplayTurn.More → (steps : List code_step.Step) → IsNext steps self.old.taken step.now
            → run_turns_left steps self.new < run_turns_left steps self.old }
        ensures taken { result ≡ ReplayTurn.More → self.new.taken ≡ self.old.taken + 1 }
        ensures says_or_stores { SaysOrStores line.old disk.old line.new disk.new }
        ensures not_ended { result ≢ ReplayTurn.Ended }
        ensures write_fault { Cause (T.telling.faults teller.old) (T.telling.faults teller.new)
            (result ≡ ReplayTurn.WriteFault) }
        ensures still { result ≢ ReplayTurn.WriteFault → T.telling.faults teller.new ≡ T.telling.faults teller.old }
    {
        match self
            .run
            .take(self.alloc, &self.settings, step, line, disk, teller)
        {
            Ok(()) => {
                self.taken += 1;
                self.turns += 1;
                ReplayTurn::More
            }
            Err(cut) => cut_off(cut),
        }
    }

    // Opens the archive ahead of a round, or of the end.
    fn recover<T: Teller>(&mut self, disk: &mut Stopping<MemDisk>, teller: &mut T) -> ReplayTurn
        requires may { (c : Course) × (items : List Item) × (line : Sim)
            × StandsWith None c items self.old line disk.old
            × OpensNext (steps_for self.old.settings.period (drop self.old.taken c.steps)) }
        requires closed { self.old.run.session ≡ None }
        requires none { self.old.playing ≡ None }
        requires countable { self.old.turns + 1 < 2 ^ 64 }
        ensures turns_to { (c : Course) (items : List Item) (line : Sim)
            → StandsWith None c items self.old line disk.old
            → OpensNext (steps_for self.old.settings.period (drop self.old.taken c.steps))
            → RunTurnsTo T.telling result c self.old.settings items line disk.new self.new teller.old teller.new }
        ensures others { self.new ≡ record self.old { run = self.new.run; turns = self.new.turns } }
        ensures turns { result ≡ ReplayTurn.More → self.new.turns ≡ self.old.turns + 1 }
        ensures not_counted { result ≢ ReplayTurn.More → self.new.turns ≡ self.old.turns }
        ensures is_open { result ≡ ReplayTurn.More → is_some self.new.run.session ≡ true }
        ensures not_ended { result ≢ ReplayTurn.Ended }
        ensures write_fault { Cause (T.telling.faults teller.old) (T.telling.faults teller.new)
            (result ≡ ReplayTurn.WriteFault) }
        ensures still { result ≢ ReplayTurn.WriteFault → T.telling.faults teller.new ≡ T.telling.faults teller.old }
    {
        match self.run.recover(self.alloc, &self.settings, disk, teller) {
            Ok(()) => {
                self.turns += 1;
                ReplayTurn::More
            }
            Err(cut) => cut_off(cut),
        }
    }

    // Begins a round and takes its first turn, or opens the archive ahead of it.
    fn begin_round<T: Teller>(
        &mut self,
        fates: &Fates,
        stop: Option<Stop>,
        line: &mut Sim,
        disk: &mut Stopping<MemDisk>,
        teller: &mut T,
    ) -> ReplayTurn
        requires may { (c : Course) × (items : List Item) × StandsWith None c items self.old line.old disk.old
            × IsNextRound c.steps self.old.taken fates.now stop }
        requires none { self.old.playing ≡ None }
        requires countable { (self.old.taken + 1 < 2 ^ 64) × (self.old.turns + 1 < 2 ^ 64) }
        ensures turns_to { (c : Course) (items : List Item) → StandsWith None c items self.old line.old disk.old
            → IsNextRound c.steps self.old.taken fates.now stop
            → RunTurnsTo T.telling result c self.old.settings items line.new disk.new self.new teller.old teller.new }
        ensures settings { self.new.settings ≡ self.old.settings }
        ensures turns { result ≡ ReplayTurn.More → self.new.turns ≡ self.old.turns + 1 }
        ensures not_counted { result ≢ ReplayTurn.More → self.new.turns ≡ self.old.turns }
        ensures left { result ≡ ReplayTurn.More → (steps : List code_step.Step)
            → IsNextRound steps self.old.taken fates.now stop
            → run_turns_left steps self.new < run_turns_left steps self.old }
        ensures one_turn { result ≡ ReplayTurn.More → IsOneTurn self.old self.new }
        ensures says_or_stores { result ≡ ReplayTurn.More → SaysOrStores line.old disk.old line.new disk.new }
        ensures unseen_says_or_stores { result ≡ ReplayTurn.Unseen
            → SaysOrStores line.old disk.old line.new disk.new }
        ensures one_call { result ≡ ReplayTurn.More → is_some self.new.playing ≡ true
            → MakesOneCall line.old disk.old line.new disk.new }
        ensures not_ended { result ≢ ReplayTurn.Ended }
        ensures write_fault { Cause (T.telling.faults teller.old) (T.telling.faults teller.new)
            (result ≡ ReplayTurn.WriteFault) }
        ensures still { result ≢ ReplayTurn.WriteFault → T.telling.faults teller.new ≡ T.telling.faults teller.old }
    {
        let Some(session) = self.run.session.take() else {
            return self.recover(disk, teller);
        };
        match begin_play(self.alloc, session, fates, stop, line, disk) {
            Ok(playing) => {
                self.playing = Some(playing);
                self.play_on(line, disk, teller)
            }
            Err(_) => ReplayTurn::OutOfMemory,
        }
    }

    // Takes one turn of the round under way, the last with its line.
    fn play_on<T: Teller>(
        &mut self,
        line: &mut Sim,
        disk: &mut Stopping<MemDisk>,
        teller: &mut T,
    ) -> ReplayTurn
        requires may { (c : Course) × (items : List Item)
            × StandsWith self.old.playing c items self.old line.old disk.old }
        requires under_way { is_some self.old.playing ≡ true }
        requires countable { (self.old.taken + 1 < 2 ^ 64) × (self.old.turns + 1 < 2 ^ 64) }
        ensures turns_to { (c : Course) (items : List Item)
            → StandsWith self.old.playing c items self.old line.old disk.old
            → RunTurnsTo T.telling result c self.old.settings items line.new disk.new self.new teller.old teller.new }
        ensures settings { self.new.settings ≡ self.old.settings }
        ensures turns { result ≡ ReplayTurn.More → self.new.turns ≡ self.old.turns + 1 }
        ensures not_counted { result ≢ ReplayTurn.More → self.new.turns ≡ self.old.turns }
        ensures left { result ≡ ReplayTurn.More → (steps : List code_step.Step)
            → run_turns_left steps self.new < run_turns_left steps self.old }
        ensures one_turn { result ≡ ReplayTurn.More → IsOneTurn self.old self.new }
        ensures says_or_stores { result ≡ ReplayTurn.More → SaysOrStores line.old disk.old line.new disk.new }
        ensures unseen_says_or_stores { result ≡ ReplayTurn.Unseen
            → SaysOrStores line.old disk.old line.new disk.new }
        ensures one_call { result ≡ ReplayTurn.More → is_some self.new.playing ≡ true
            → MakesOneCall line.old disk.old line.new disk.new }
        ensures not_ended { result ≢ ReplayTurn.Ended }
        ensures write_fault { Cause (T.telling.faults teller.old) (T.telling.faults teller.new)
            (result ≡ ReplayTurn.WriteFault) }
        ensures still { result ≢ ReplayTurn.WriteFault → T.telling.faults teller.new ≡ T.telling.faults teller.old }
    {
        let Some(playing) = &mut self.playing else {
            unreachable!()
        };
        match playing.turn(line, disk) {
            Turn::More => {
                self.turns += 1;
                ReplayTurn::More
            }
            Turn::Ended(end) => {
                let playing = self.playing.take().unwrap();
                match self.run.end_round(end, playing, line, disk, teller) {
                    Ok(false) => {
                        self.taken += 1;
                        self.turns += 1;
                        ReplayTurn::More
                    }
                    Ok(true) => ReplayTurn::Unseen,
                    Err(cut) => cut_off(cut),
                }
            }
        }
    }

    // Tells the end, or opens the archive ahead of it.
    fn close<T: Teller>(&mut self, disk: &mut Stopping<MemDisk>, teller: &mut T) -> ReplayTurn
        requires may { (c : Course) × (items : List Item) × (line : Sim)
            × StandsWith None c items self.old line disk.old
            × (length c.steps ≤ self.old.taken) }
        requires none { self.old.playing ≡ None }
        requires countable { self.old.turns + 1 < 2 ^ 64 }
        ensures turns_to { (c : Course) (items : List Item) (line : Sim)
            → StandsWith None c items self.old line disk.old
            → length c.steps ≤ self.old.taken
            → RunTurnsTo T.telling result c self.old.settings items line disk.new self.new teller.old teller.new }
        ensures others { self.new ≡ record self.old { run = self.new.run; turns = self.new.turns } }
        ensures turns { result ≡ ReplayTurn.More → self.new.turns ≡ self.old.turns + 1 }
        ensures not_counted { result ≢ ReplayTurn.More → self.new.turns ≡ self.old.turns }
        ensures left { result ≡ ReplayTurn.More → (steps : List code_step.Step)
            → run_turns_left steps self.new < run_turns_left steps self.old }
        ensures one_turn { result ≡ ReplayTurn.More → IsOneTurn self.old self.new }
        ensures ends_open { result ≡ ReplayTurn.Ended → is_some self.old.run.session ≡ true }
        ensures write_fault { Cause (T.telling.faults teller.old) (T.telling.faults teller.new)
            (result ≡ ReplayTurn.WriteFault) }
        ensures still { result ≢ ReplayTurn.WriteFault → T.telling.faults teller.new ≡ T.telling.faults teller.old }
    {
        let Some(session) = self.run.session.take() else {
            return self.recover(disk, teller);
        };
        match teller.ended(&session, disk) {
            Ok(()) => ReplayTurn::Ended,
            Err(cut) => cut_off(cut),
        }
    }
}

// The turn of a run that was cut off.
fn cut_off(cut: Cut) -> ReplayTurn
    ensures answer { (result ≡ ReplayTurn.WriteFault) ⊎ (result ≡ ReplayTurn.OutOfMemory) }
    ensures write_fault { result ≡ ReplayTurn.WriteFault → cut ≡ Cut.WriteFault }
    ensures out_of_memory { result ≡ ReplayTurn.OutOfMemory → cut ≡ Cut.OutOfMemory }
{
    match cut {
        Cut::WriteFault => ReplayTurn::WriteFault,
        Cut::OutOfMemory => ReplayTurn::OutOfMemory,
    }
}
