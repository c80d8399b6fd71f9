ghost use Rattle.std.specs.Prelude.{ℕ, ◌≡◌, ◌≢◌, ◌≤◌, ◌∷◌, None, ◌+◌, ◌*◌, ◌++◌, ◌⊎◌, List, Option, length};
ghost use Rattle.loop_packet.specs.declared.packet.LoopPacket.{LoopPacket};
ghost use Rattle.station_base.specs.declared.row.Row.{Row};
ghost use Rattle.settings_file.specs.StationSettings.{StationSettings};
ghost use Rattle.packed_rows.specs.Rising.{last_row_stamp};
ghost use Rattle.station_session.specs.declared.round_end.RoundEnd.{RoundEnd};
ghost use Rattle.station_session.specs.Attempts.{MadeAttempt, AreAttempts, all_said};
ghost use Rattle.station_session.specs.Batches.{Fit, kept_count};
ghost use Rattle.schedule_file.specs.Fates.{FatesByNumber};
ghost use Rattle.station_sim.specs.Line.{Line};
ghost use Rattle.station_sim.specs.Talk.{ConsoleTalk, started};
ghost use Rattle.gated_log.specs.Calls.{changes_in_a_batch};
ghost use Rattle.gated_log.specs.Layout.{slot_size};
ghost use Rattle.schedule_file.specs.declared.schedule.step.Stop.{Stop};
ghost use Rattle.replay_laws.specs.Schedule.{ReplayStep, IsSchedule, records};
ghost use Rattle.replay_laws.specs.Keeping.{Archive, slots_for_rows};
ghost use Rattle.replay_laws.specs.Replay.{Item, Rounded, Stage, Runs, IsReplay, RunIsBegun, start};
ghost use Rattle.replay_laws.specs.Acknowledged.{AllRounds, WereMade};
ghost use Rattle.replay_laws.specs.Kept.{HoldsRound, HoldsRows, Kept, Past};
ghost use Rattle.replay_laws.specs.Room.{AreFew, changes_in_a_turn, lines};
ghost use Rattle.replay_laws.specs.Session.{given_in, NotPast, RoundStopsAt, IsKnown, AreRound};

/// What is kept in every run of every schedule.
pub fn schedules()
    ensures { (settings : StationSettings) (eeprom : List ℕ) (packet : LoopPacket) (steps : List ReplayStep)
        → IsSchedule steps
        → (o : List Item) → IsReplay settings (start eeprom packet) steps o → Kept settings (records steps) o }
{}

/// What is kept in the beginning of a run, where writing or memory failed.
pub fn beginnings()
    ensures { (settings : StationSettings) (eeprom : List ℕ) (packet : LoopPacket) (steps : List ReplayStep)
        → IsSchedule steps
        → (o : List Item) → RunIsBegun settings (start eeprom packet) steps o → Kept settings (records steps) o }
{}

/// There are no more rows than records, in an archive that is found again and in what a round leaves. `Kept` does not say so, since it
/// follows of the rows that dumps give: the records of a schedule rise.
pub fn no_more_rows_than_records()
    ensures found { (settings : StationSettings) (steps : List ReplayStep) → IsSchedule steps → (past : Past) (rows : List Row)
        → HoldsRows settings (records steps) past rows → length rows ≤ length (records steps) }
    ensures rounds { (settings : StationSettings) (steps : List ReplayStep) → IsSchedule steps → (past : Past) (round : Rounded)
        → HoldsRound settings (records steps) past round → length round.rows ≤ length (records steps) }
{}

/// Each attempt of each round of a run was made after the last of the rows that stood before it. `IsRound` says so of the attempts as
/// a session knows them, and not of each over its line.
pub fn attempts_were_made()
    ensures { (settings : StationSettings) (s : Stage) (steps : List ReplayStep) (o : List Item)
        → IsReplay settings s steps o ⊎ RunIsBegun settings s steps o → AllRounds (WereMade settings) o }
{}

/// What room a run takes: the file's length stays within what any rows need of which there are no more than records, there
/// are at most the changes of a batch for each row and those of a turn for each opening or round, and no more rows than
/// records.
pub fn run_fits()
    ensures { (settings : StationSettings) (eeprom : List ℕ) (packet : LoopPacket) (steps more : List ReplayStep)
        → IsSchedule (steps ++ more)
        → (bound : ℕ) → ((rows : List Row) → length rows ≤ length (records (steps ++ more))
        → slot_size * (slots_for_rows rows + 1) + 1 ≤ bound)
        → (is : List Item) (u : Stage) → Runs settings steps (start eeprom packet) is u
        → (u.archive.size ≤ bound) × (u.archive.changes ≤ changes_in_a_batch * length u.archive.rows + changes_in_a_turn * lines steps)
        × (length u.archive.rows ≤ length (records (steps ++ more))) }
{}

/// What a session's round comes to in a run, no delivery being unseen, where neither the link nor want of memory ended it: it
/// does not flood, and all that it was given, kept or not, are with the rows no more than the records.
pub fn rounds_have_room()
    ensures { (settings : StationSettings) (eeprom : List ℕ) (packet : LoopPacket) (xs ys : List ReplayStep) (f : FatesByNumber)
        (left : ℕ → List (List ℕ)) (stop : Option Stop) → IsSchedule (xs ++ ReplayStep.Round f left stop ∷ ys)
        → (is : List Item) (u : Stage) → Runs settings xs (start eeprom packet) is u
        → (v : Line) (ts : List MadeAttempt) (end : RoundEnd)
        → AreAttempts 0 (last_row_stamp u.archive.rows) ts end
        → Fit settings.most (length u.archive.rows) (given_in u.archive ts)
        → ConsoleTalk f (all_said ts) (started u.line) v → end ≢ RoundEnd.LinkFault → end ≢ RoundEnd.OutOfMemory
        → end ≢ RoundEnd.Stale → v.unseen ≡ None
        → (end ≢ RoundEnd.Flood)
        × AreFew (length (records (xs ++ ReplayStep.Round f left stop ∷ ys))) u.archive.rows (given_in u.archive ts) }
{}

/// A session's round, over the modelled line and a disk with a stop, is a round of a run.
#[tactic(auto, using(crate::proofs::Bridge::session_law))]
pub fn session_rounds()
    ensures { (settings : StationSettings) (f : FatesByNumber) (stop : Option Stop) (a : Archive) (w v : Line) (ts : List MadeAttempt)
        (end : RoundEnd)
        → AreAttempts 0 (last_row_stamp a.rows) ts end → Fit settings.most (length a.rows) (given_in a ts)
        → ConsoleTalk f (all_said ts) w v → IsKnown end → RoundStopsAt stop end (kept_count (given_in a ts))
        → AreRound settings f stop a w ts end v }
{}
