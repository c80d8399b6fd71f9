ghost use Rattle.std.specs.Prelude.{ℕ, ◌≡◌, ◌≤◌, ◌⊎◌, ◌-◌, All, List, Result, Some, slice_get};
ghost use Rattle.std.specs.Global.{Vec};
ghost use Rattle.std.specs.List.{AllZip};
ghost use Rattle.command_words.specs.Command.{FleetNames};
ghost use Rattle.fleet.specs.StationLines.{station_lines};
ghost use Rattle.run_output.specs.Ended.{Lines};
ghost use Rattle.run_output.specs.Output.{Output};
ghost use Rattle.run_output.specs.Outside.{means};
ghost use Rattle.run_output.specs.declared.outside.Outside as outside;
ghost use Rattle.schedule_file.specs.declared.schedule.Schedule.{Schedule};
ghost use Rattle.settings_file.specs.StationSettings.{StationSettings};
ghost use Rattle.station_fleet.specs.declared.station.Station.{Station};
ghost use Rattle.station_io.specs.Memory.{bucket_outlet};
ghost use Rattle.replay_laws.specs.Schedule.{ReplayStep};
ghost use Rattle.model_commands.specs.FleetPrints.{BeginsReplays, EachPrintsItsRun, IsToldToEnd, PrintsReplays, ReadsFleet, ReplayedAlike, TellsWhatIsWritten};
ghost use Rattle.model_commands.specs.FleetRun.{IsNewStation, fleets, takes_turns};
ghost use Rattle.model_commands.specs.ReplayRun.{replays};

use disk_model::Disk;
use serial_link::Link;
use station_io::{Files, Sink};

/// Each station of a fleet prints what a replay of its schedule prints, whatever the seed is, if all came to their end. This is
/// said of stations that are new, and of the whole command. The replay may have a sink of another kind.
pub fn a_fleet_prints_its_replays<F: Files, K: Sink, L: Link, D: Disk, S: Sink>()
    ensures stations { (settings : StationSettings) (schedules : List Schedule) (stations : List Station) (seed : ℕ)
        (old new : K) (ended : Result Lines Output)
        → All (λ schedule. schedule.period ≡ settings.period) schedules
        → AllZip (IsNewStation settings) schedules stations
        → takes_turns K.outlet seed stations old ended new → IsToldToEnd ended
        → PrintsReplays K.outlet S.outlet settings schedules old new }
    ensures command { (names : FleetNames) (old new : outside.Outside F K L D) (ended : Result Lines Output)
        → fleets (means F.shelf K.outlet L.traffic D.medium) names old ended new → IsToldToEnd ended
        → (settings : StationSettings) × (schedules : Vec Schedule)
        × ReadsFleet (means F.shelf K.outlet L.traffic D.medium) names settings schedules old
        × PrintsReplays K.outlet S.outlet settings schedules.items old.out new.out }
    ensures any_seed { (settings : StationSettings) (schedules : List Schedule) (bytes others : List ℕ)
        → EachPrintsItsRun settings schedules bytes → EachPrintsItsRun settings schedules others
        → (station : ℕ) (schedule : Schedule) → 1 ≤ station → slice_get schedules (station - 1) ≡ Some schedule
        → station_lines station bytes ≡ station_lines station others }
{}

/// However a fleet ends, the lines of each station are a prefix of the text of a run of its schedule, or of the beginning of one.
/// So it is if a write failed or there was no memory: the last line may be cut within it. This is said of stations that are new,
/// and of the whole command, which writes nothing before they take turns.
pub fn a_fleet_begins_its_replays<F: Files, K: Sink, L: Link, D: Disk>()
    ensures stations { (settings : StationSettings) (schedules : List Schedule) (stations : List Station) (seed : ℕ)
        (old new : K) (ended : Result Lines Output)
        → All (λ schedule. schedule.period ≡ settings.period) schedules
        → AllZip (IsNewStation settings) schedules stations
        → takes_turns K.outlet seed stations old ended new → BeginsReplays K.outlet settings schedules old new }
    ensures command { (names : FleetNames) (old new : outside.Outside F K L D) (ended : Result Lines Output)
        → fleets (means F.shelf K.outlet L.traffic D.medium) names old ended new
        → (new.out ≡ old.out) ⊎ ((settings : StationSettings) × (schedules : Vec Schedule)
        × ReadsFleet (means F.shelf K.outlet L.traffic D.medium) names settings schedules old
        × BeginsReplays K.outlet settings schedules.items old.out new.out) }
{}

/// Two replays of one schedule under the same settings that came to their ends have one status and one text.
pub fn a_replay_has_one_text<K: Sink, S: Sink>()
    ensures { (settings : StationSettings) (steps : List ReplayStep) (old new : K) (from to : S)
        (first second : Result Lines Output)
        → replays K.outlet settings steps old first new → replays S.outlet settings steps from second to
        → IsToldToEnd first → IsToldToEnd second
        → ReplayedAlike K.outlet S.outlet old new from to first second }
{}

/// The bytes that a sink in memory tells grow by what is written.
pub fn a_memory_sink_tells_its_bytes()
    ensures { TellsWhatIsWritten bucket_outlet }
{}
