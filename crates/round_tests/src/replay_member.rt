ghost use Rattle.std.specs.Prelude.{◌≡◌, IfOk};
ghost use Rattle.schedule_replay.specs.Replaying.{MayTurn};

use disk_model::{MemDisk, Stopping};
use loop_packet::LoopPacket;
use schedule_file::Schedule;
use schedule_replay::{ReplayRun, ReplayTurn, new_disk, new_line};
use schedule_steps::accepted;
use settings_file::Settings;
use station_io::MemSink;
use station_sim::Sim;
use std::alloc::Global;
use std::process::Abort;
use std::test::Fail;

// More bytes than one turn writes here.
const ROOM: usize = 10_000;

// A run with what it works on.
#[derive(Drop)]
pub(crate) struct Member {
    pub(crate) schedule: Schedule,
    pub(crate) line: Sim,
    pub(crate) disk: Stopping<MemDisk>,
    pub(crate) out: MemSink,
    pub(crate) run: ReplayRun,
}

impl Member {
    // A run of this schedule, with a line and a disk of its own.
    pub(crate) fn new(rt: &impl Abort, alloc: Global, text: &str) -> Result<Member, Fail>
        ensures { IfOk result (λ member. MayTurn member.schedule.steps.items member.line member.disk member.run) }
    {
        let settings = Settings::plain();
        let schedule = Schedule::read(alloc, text.as_bytes(), settings.period()).expect(
            rt,
            "a schedule",
        );
        accepted(&schedule);
        let line = new_line(alloc, settings.period(), LoopPacket::blank())?;
        let disk = new_disk(alloc, schedule.records())?;
        Ok(Member {
            schedule,
            line,
            disk,
            out: MemSink::new(alloc, ROOM)?,
            run: ReplayRun::new(alloc, &settings),
        })
    }

    // Takes one turn.
    pub(crate) fn turn(&mut self) -> ReplayTurn
        requires { MayTurn self.old.schedule.steps.items self.old.line self.old.disk self.old.run }
        ensures { result ≡ ReplayTurn.More
            → MayTurn self.new.schedule.steps.items self.new.line self.new.disk self.new.run }
    {
        self.run.turn(
            self.schedule.steps(),
            &mut self.line,
            &mut self.disk,
            &mut self.out,
        )
    }
}
