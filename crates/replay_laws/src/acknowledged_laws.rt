ghost use Rattle.std.specs.Prelude.{◌≡◌, ◌≢◌, ◌⊎◌, ℕ, List, None, Option};
ghost use Rattle.causes.specs.Lists.{IsFrontOf};
ghost use Rattle.station_base.specs.declared.row.Row.{Row};
ghost use Rattle.vantage_frames.specs.StampFrame.{stamp_frame_of};
ghost use Rattle.packed_rows.specs.Rising.{last_row_stamp};
ghost use Rattle.dmpaft_driver.specs.OneAttempt.{Acknowledges};
ghost use Rattle.schedule_file.specs.Fates.{FatesByNumber};
ghost use Rattle.station_sim.specs.Calm.{IsCalm};
ghost use Rattle.station_sim.specs.Line.{Line};
ghost use Rattle.station_sim.specs.Sound.{AreSound, IsSound};
ghost use Rattle.line_laws.specs.Gathers.{IsStamp};
ghost use Rattle.station_base.specs.CivilMinute.{CivilMinute};
ghost use Rattle.settings_file.specs.StationSettings.{StationSettings};
ghost use Rattle.dmpaft_pump.specs.Keeper.{kept_in};
ghost use Rattle.dmpaft_pump.specs.declared.outcome.DumpEnd.{DumpEnd};
ghost use Rattle.station_session.specs.Attempts.{IsMadeAfter, MadeAttempt, batches_in};
ghost use Rattle.replay_laws.specs.Acknowledged.{AllRounds, AreJustAcknowledged, KeepsAcknowledged, KeepsJustAcknowledged, TakesOneMore};
ghost use Rattle.replay_laws.specs.Acknowledged.{rows_with_pages};
ghost use Rattle.replay_laws.specs.Kept.{AreFirst};
ghost use Rattle.replay_laws.specs.DumpCounts.{DumpsGather, counts_of_attempt};
ghost use Rattle.replay_laws.specs.Round.{LineAttempt, IsLineAttempt};
ghost use Rattle.replay_laws.specs.Replay.{RunIsBegun, IsReplay, Item, Stage};
ghost use Rattle.replay_laws.specs.Schedule.{ReplayStep};

/// What an attempt kept, by the end that it answered, is what its talk shows as acknowledged. In each attempt of a run the batches that
/// were kept are just those of the pages right after which 0x06 was said. So they are in every attempt that ended neither by a
/// fault of the link nor for want of memory. If it ended so, at most the last page was taken and not acknowledged. Each round of a
/// run kept the rows of the pages right after which 0x06 was said. `Kept` demands them by a number: whatever rows the dump of an attempt
/// gives by `DumpsGather`, they begin with those of each such page.
pub fn kept_is_acknowledged()
    ensures runs { (settings : StationSettings) (s : Stage) (steps : List ReplayStep) (o : List Item)
        → IsReplay settings s steps o ⊎ RunIsBegun settings s steps o → AllRounds (KeepsJustAcknowledged settings) o }
    ensures rounds { (settings : StationSettings) (s : Stage) (steps : List ReplayStep) (o : List Item)
        → IsReplay settings s steps o ⊎ RunIsBegun settings s steps o → AllRounds (KeepsAcknowledged settings) o }
    ensures demanded { (settings : StationSettings) (records : List (List ℕ)) (f : FatesByNumber) → AreSound f
        → (rows after next : List Row) (w u : Line) (t : LineAttempt) → IsSound w → IsCalm w → IsStamp (last_row_stamp rows)
        → IsLineAttempt f rows w t after u → u.unseen ≡ None → AreFirst records t.dumps
        → DumpsGather settings records (counts_of_attempt t) rows next → (place : ℕ) (pages : List (List ℕ))
        → Acknowledges (stamp_frame_of (last_row_stamp rows)) t.made.said place pages
        → IsFrontOf (rows_with_pages settings rows place pages) next }
    ensures attempts { (after : Option CivilMinute) (t : MadeAttempt) → IsMadeAfter after t → t.end ≢ DumpEnd.LinkFault
        → t.end ≢ DumpEnd.OutOfMemory
        → AreJustAcknowledged after t (kept_in (batches_in after t)) }
    ensures one_more { (after : Option CivilMinute) (t : MadeAttempt) → IsMadeAfter after t → TakesOneMore after t }
{}
