ghost use Rattle.std.specs.Prelude.{◌≡◌, List, None};
ghost use Rattle.station_base.specs.declared.row.Row.{Row};
ghost use Rattle.station_session.specs.declared.report.Report.{Report};
ghost use Rattle.station_session.specs.declared.round_end.RoundEnd.{RoundEnd};
ghost use Rattle.station_session.specs.Round.{RoundHost, ServesRound, AnswersRound};
ghost use Rattle.station_sim.specs.declared.sim.Sim.{Sim};
ghost use Rattle.station_sim.specs.Calm.{IsCalm};
ghost use Rattle.station_sim.specs.Line.{Line};
ghost use Rattle.schedule_file.specs.Lists.{fates_of};
ghost use Rattle.station_sim.specs.Standing.{SimStandsFor};
ghost use Rattle.station_sim.specs.Telling.{sim_traffic};
ghost use Rattle.replay_laws.specs.Harm.{DiskFailed, LinkShort, HarmTells};

use disk_model::Disk;

/// A session's round over a line that stands for a calm one, no delivery being unseen. It gives up only where each of its three
/// attempts has a harmed delivery. An attempt without one is whole, or ends since the archive is full, the disk's faults rose, or
/// the link's shortages did.
pub fn a_round_over_a_line<D: Disk>()
    ensures { (rows : List Row) (end : RoundEnd) (old new : RoundHost Sim D) (report : Report) (w : Line)
        → (round : ServesRound sim_traffic D.medium rows end old new report)
        → AnswersRound sim_traffic D.medium end old new report.attempts
        → SimStandsFor old.link w → IsCalm w → (v : Line) × SimStandsFor new.link v × (v.unseen ≡ None
        → HarmTells (DiskFailed D.medium old new) (LinkShort old new) (fates_of old.link.fates) w round.tries end v) }
{}
