ghost use Rattle.std.specs.Prelude.{◌≡◌, ◌<◌, ◌^◌, ℕ, [], List, length};
ghost use Rattle.loop_packet.specs.declared.packet.LoopPacket.{LoopPacket};
ghost use Rattle.schedule_steps.specs.Accepted.{ScheduleIsAccepted};
ghost use Rattle.schedule_replay.specs.Replayed.{IsNewDisk};
ghost use Rattle.schedule_replay.specs.Standing.{LineAt};
ghost use Rattle.schedule_replay.specs.Turns.{RunIsNew};
ghost use Rattle.replay_laws.specs.Replay.{start};
ghost use Rattle.station_fleet.specs.Outcomes.{StationStands};
ghost use Rattle.station_fleet.specs.StationTurns.{member_answer};

use disk_model::{MemDisk, Stopping};
use fleet::{Member, MemberTurn};
use schedule_file::Schedule;
use schedule_replay::{ReplayRun, ReplayTurn};
use settings_file::Settings;
use station_io::Sink;
use station_sim::Sim;
use std::alloc::Global;

/// A station: the run of a schedule, with a line to a modelled console and a disk.
#[derive(Drop)]
pub struct Station {
    schedule: Schedule,
    line: Sim,
    disk: Stopping<MemDisk>,
    run: ReplayRun,
}

impl Station {
    ghost use Rattle.station_fleet.specs.StationTurns.{station_turning};

    /// A station that has taken no turn, with these settings.
    pub fn new(
        alloc: Global,
        settings: &Settings,
        schedule: Schedule,
        line: Sim,
        disk: Stopping<MemDisk>,
    ) -> Station
        requires period { schedule.period ≡ settings.now.period }
        requires accepted { ScheduleIsAccepted schedule }
        requires line { (eeprom : List ℕ) × (packet : LoopPacket) × LineAt (start eeprom packet) line
            × IsNewDisk schedule.records eeprom packet disk }
        ensures is_new { RunIsNew result.run }
        ensures may_turn { station_turning.may_turn result }
        ensures left { length schedule.steps.items < 2 ^ 47 → station_turning.left result < 2 ^ 48 }
        ensures begins { (eeprom : List ℕ) (packet : LoopPacket) → LineAt (start eeprom packet) line
            → IsNewDisk schedule.records eeprom packet disk
            → StationStands settings.now
            (record { eeprom = eeprom; packet = packet; steps = schedule.steps.items; before = line; made = disk }) []
            result }
    {
        let run = ReplayRun::new(alloc, settings);
        Station {
            schedule,
            line,
            disk,
            run,
        }
    }
}

impl Member for Station {
    ghost use Rattle.station_fleet.specs.StationTurns.{station_turning};

    ghost turning = { station_turning };

    /// A turn is one of the run: a step, a recovery, a turn of a round, or the end.
    fn turn<K: Sink>(&mut self, out: &mut K) -> MemberTurn {
        let turn = self
            .run
            .turn(self.schedule.steps(), &mut self.line, &mut self.disk, out);
        answer_of(turn)
    }
}

// The answer of a member, by what the turn of its run came to.
fn answer_of(turn: ReplayTurn) -> MemberTurn
    ensures { result ≡ member_answer turn }
{
    match turn {
        ReplayTurn::More => MemberTurn::More,
        ReplayTurn::Ended => MemberTurn::Ended,
        ReplayTurn::Unseen => MemberTurn::Unseen,
        ReplayTurn::WriteFault => MemberTurn::WriteFault,
        ReplayTurn::OutOfMemory => MemberTurn::OutOfMemory,
    }
}
