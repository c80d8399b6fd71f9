ghost use Rattle.std.specs.Prelude.{ℕ, List, ◌≡◌, ◌≤◌};
ghost use Rattle.fleet.specs.Crew.{Crew, CrewIsReady};
ghost use Rattle.fleet.specs.FleetEnds.{IsUnseenMember, RunsFleet};
ghost use Rattle.fleet.specs.Log.{Along, IsAlone, WrittenBy};
ghost use Rattle.fleet.specs.StationLines.{AreUncutBeforeLast, station_lines};
ghost use Rattle.fleet.specs.TurnText.{AreTextsOf, TurnEntry};

use crate::member::Member;
use crate::run::FleetEnd;
use station_io::Sink;

/// The turns of other stations have no effect on a station: it is its opening member after its own turns, with their
/// answers and what they wrote.
#[tactic(auto, using(crate::proofs::Alone::alone))]
pub fn each_station_is_alone<M: Member, K: Sink>()
    ensures { (old new : Crew M) (before after : K) (log : List (TurnEntry K)) (station : ℕ) → 1 ≤ station
        → Along M.turning K.outlet old before log new after → IsAlone M.turning K.outlet old log new station }
{}

/// Whatever each of the turns wrote, the sink took it in their order, each line with the number of its station.
#[tactic(auto, using(crate::proofs::LogText::wrote_along))]
pub fn what_turns_write_is_written<M: Member, K: Sink>()
    ensures { (old new : Crew M) (before after : K) (log : List (TurnEntry K)) (text : List ℕ)
        → Along M.turning K.outlet old before log new after → AreTextsOf K.outlet log text
        → K.outlet.wrote before text after }
{}

/// Whatever each of the stations wrote, its text is the lines with its number, without it, in one text of all of them that
/// the sink took. This is so where no turn before the last was cut off.
pub fn each_station_has_its_lines<M: Member, K: Sink>()
    ensures { (old new : Crew M) (before after : K) (log : List (TurnEntry K)) (texts : ℕ → List ℕ)
        → Along M.turning K.outlet old before log new after → AreUncutBeforeLast log
        → ((station : ℕ) → WrittenBy K.outlet station log (texts station))
        → (text : List ℕ) × AreTextsOf K.outlet log text × K.outlet.wrote before text after
        × ((station : ℕ) → station_lines station text ≡ texts station) }
{}

/// The station that a fleet names for an unseen delivery is one of its members, and that one's last answer is `Unseen`.
pub fn an_unseen_station_is_a_member<M: Member, K: Sink>()
    ensures { (seed : ℕ) (old new : Crew M) (before after : K) (station : ℕ) → CrewIsReady M.turning old
        → RunsFleet M.turning K.outlet seed old before (FleetEnd.Unseen station) new after
        → IsUnseenMember new station }
{}
