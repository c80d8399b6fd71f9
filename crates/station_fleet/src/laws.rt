ghost use Rattle.std.specs.Prelude.{ℕ, ◌≤◌, List, Ok, length};
ghost use Rattle.settings_file.specs.StationSettings.{StationSettings};
ghost use Rattle.fleet.specs.Crew.{Crew};
ghost use Rattle.fleet.specs.FleetEnds.{RunsFleet};
ghost use Rattle.fleet.specs.declared.run.FleetEnd.{FleetEnd};
ghost use Rattle.fleet.specs.Log.{Along};
ghost use Rattle.fleet.specs.StationLines.{AreUncutBeforeLast};
ghost use Rattle.fleet.specs.TurnText.{TurnEntry};
ghost use Rattle.schedule_replay.specs.Replaying.{Course};
ghost use Rattle.schedule_file.specs.Answer.{ScheduleReadsAs};
ghost use Rattle.schedule_file.specs.Reading.{said_by_text};
ghost use Rattle.schedule_file.specs.declared.schedule.Schedule.{Schedule};
ghost use Rattle.station_fleet.specs.Fleets.{AllOver, Begin, EachBegins, EachOverReplays, EachRan, EachReplays, NoneEnded};
ghost use Rattle.station_fleet.specs.StationTurns.{station_turning};
ghost use Rattle.station_fleet.specs.declared.station.Station.{Station};

use station_io::Sink;

/// Whatever the order of the turns, each station runs its own schedule: there is one text that the sink took, and in it the
/// lines of a station, without its number, are the text of its run, or a prefix of it if it was cut off. This is so where no
/// turn before the last was cut off.
pub fn each_station_runs_its_schedule<K: Sink>()
    ensures { (old new : Crew Station) (before after : K) (log : List (TurnEntry K)) (settings : ℕ
        → StationSettings) (course : ℕ → Course)
        → Along station_turning K.outlet old before log new after → AreUncutBeforeLast log → Begin settings course old
        → (text : List ℕ) × K.outlet.wrote before text after × EachRan settings course log new text }
{}

/// The lines of a station that is over, without its number, are those that `replay` writes of the same settings, schedule and
/// period, if no turn before the last was cut off. If all stations came to their end, so it is of each of them.
pub fn each_station_prints_its_replay<K: Sink>()
    ensures over { (old new : Crew Station) (before after : K) (log : List (TurnEntry K)) (settings : ℕ
        → StationSettings) (course : ℕ → Course)
        → Along station_turning K.outlet old before log new after → AreUncutBeforeLast log → Begin settings course old
        → NoneEnded old
        → (text : List ℕ) × K.outlet.wrote before text after × EachOverReplays settings course new text }
    ensures all { (seed : ℕ) (old new : Crew Station) (before after : K) (end : FleetEnd) (settings : ℕ
        → StationSettings) (course : ℕ → Course)
        → RunsFleet station_turning K.outlet seed old before end new after → AllOver end → Begin settings course old
        → NoneEnded old
        → (text : List ℕ) × K.outlet.wrote before text after × EachReplays settings course new text }
{}

/// However the turns of a fleet end, there is one text that the sink took, and in it the lines of each station, without its
/// number, are a prefix of the text of a run of its schedule, or of the beginning of one. So it is if a write failed or there was
/// no memory: the last line may be cut within it. A station that is over has its whole text.
pub fn each_station_begins_its_schedule<K: Sink>()
    ensures { (seed : ℕ) (old new : Crew Station) (before after : K) (end : FleetEnd) (settings : ℕ
        → StationSettings) (course : ℕ → Course)
        → RunsFleet station_turning K.outlet seed old before end new after → Begin settings course old
        → NoneEnded old
        → (text : List ℕ) × K.outlet.wrote before text after × EachBegins settings course new text
        × EachOverReplays settings course new text }
{}

/// A schedule that was read has at most 10,000 steps, so a station of it has fewer than 2^48 turns left.
pub fn a_schedule_has_few_steps()
    ensures { (bytes : List ℕ) (period : ℕ) (schedule : Schedule)
        → ScheduleReadsAs (said_by_text bytes period) (Ok schedule)
        → length schedule.steps.items ≤ 10000 }
{}
