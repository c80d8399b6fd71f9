ghost use Rattle.std.specs.Prelude.{◌≡◌, ◌<◌, ◌^◌};
ghost use Rattle.fleet.specs.Log.{is_switch};

use crate::fleet::Fleet;
use crate::member::{Member, MemberTurn};
use draws::Draws;
use station_io::Sink;

/// How the turns of all stations ended.
#[derive(Clone, Copy, Debug, PartialEq, Eq)]
pub enum FleetEnd {
    /// Each station ended, after so many turns, of which so many were not of the station of the turn before.
    Done { turns: u64, switches: u64 },
    /// Each station ended, and this is the least that ended by a delivery that was unseen.
    Unseen(u8),
    /// A write failed.
    WriteFault,
    /// A station found no memory.
    OutOfMemory,
}

impl<M: Member> Fleet<M> {
    ghost use Rattle.fleet.specs.Crew.{CrewIsReady, crew_of};
    ghost use Rattle.fleet.specs.Log.{IsUncut, turns_left};
    ghost use Rattle.fleet.specs.FleetEnds.{RunsFleet};

    /// Takes turns until all stations have ended, each of a station that is drawn among those that have not. A station that
    /// ends by a delivery that was unseen does not keep the others from going on.
    pub fn run<K: Sink>(&mut self, seed: u32, out: &mut K) -> FleetEnd
        requires seed { seed < 2 ^ 31 }
        requires ready { CrewIsReady M.turning (crew_of self.old) }
        requires few { turns_left M.turning (crew_of self.old).members (crew_of self.old).last < 2 ^ 63 }
        requires uncut { IsUncut (crew_of self.old).last }
        ensures { RunsFleet M.turning K.outlet seed (crew_of self.old) out.old result (crew_of self.new) out.new }
    {
        let mut draws = Draws::new(seed);
        let mut turns = 0;
        let mut switches = 0;
        let mut before = None;
        while let Some(station) = self.next_station(&mut draws) {
            match self.turn(station, out) {
                MemberTurn::WriteFault => return FleetEnd::WriteFault,
                MemberTurn::OutOfMemory => return FleetEnd::OutOfMemory,
                _ => {}
            }
            turns += 1;
            switches += u64::from(is_switch(before, station));
            before = Some(station);
        }
        match self.first_unseen() {
            Some(station) => FleetEnd::Unseen(station),
            None => FleetEnd::Done { turns, switches },
        }
    }
}

// Whether the station is not that of the turn before.
fn is_switch(before: Option<u8>, station: u8) -> bool
    ensures { result ≡ is_switch before station }
{
    match before {
        Some(before) => before != station,
        None => false,
    }
}
