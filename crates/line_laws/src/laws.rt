ghost use Rattle.std.specs.Prelude.{ℕ, ◌≡◌, ◌≤◌, ◌<◌, ◌+◌, ◌-◌, ◌⊎◌, ◌∷◌, ◌++◌, [], Bool, List, Option, length, true};
ghost use Rattle.std.specs.Prelude.{None, ◌≢◌};
ghost use Rattle.console_ring.specs.declared.plan.Plan.{Plan};
ghost use Rattle.serial_link.specs.declared.talk.TalkItem.{TalkItem};
ghost use Rattle.serial_link.specs.Talk.{message};
ghost use Rattle.wake_retry.specs.Parts.{heard, Still, Wakes, WakeFloods, Awaits};
ghost use Rattle.console_ring.specs.Picture.{page_of};
ghost use Rattle.console_model.specs.Spelling.{plan_after};
ghost use Rattle.station_base.specs.CivilMinute.{CivilMinute};
ghost use Rattle.vantage_frames.specs.StampFrame.{stamp_frame_of};
ghost use Rattle.vantage_frames.specs.Slots.{page_size};
ghost use Rattle.dmpaft_driver.specs.Attempt.{Attempt, End};
ghost use Rattle.dmpaft_driver.specs.OneAttempt.{Acknowledges};
ghost use Rattle.dmpaft_pump.specs.Batch.{batches};
ghost use Rattle.schedule_file.specs.Fates.{FatesByNumber};
ghost use Rattle.station_sim.specs.Line.{Line};
ghost use Rattle.station_sim.specs.Talk.{ConsoleTalk};
ghost use Rattle.station_sim.specs.Calm.{IsCalm, AreMild, ConsoleRests};
ghost use Rattle.station_sim.specs.Sound.{IsSound, AreSound};
ghost use Rattle.station_sim.specs.Falling.{FallDue};
ghost use Rattle.schedule_file.specs.declared.fates.Fates as lists;
ghost use Rattle.schedule_file.specs.Lists.{fates_of, records_left_in};
ghost use Rattle.console_model.specs.Valid.{EachFollows};
ghost use Rattle.wake_retry.specs.Parts.{settled_waits, answer_waits, wake_tries};
ghost use Rattle.dmpaft_pump.specs.Pump.{most_askings};
ghost use Rattle.line_laws.specs.Gathers.{IsStamp, AttemptGives, CoversPages};
ghost use Rattle.line_laws.specs.Records.{Now};
ghost use Rattle.line_laws.specs.Unharmed.{Rested, Awake, Waiting, InDump, BeginsDump, feeds_for};
ghost use Rattle.line_laws.specs.PagesAcknowledged.{pages_acknowledged};
ghost use Rattle.line_laws.specs.Host.{OnlyListens, HostIsReady, Position, GathersPages};

/// After a settling from a calm line nothing is in flight, and nothing is unfinished.
#[tactic(auto, using(crate::proofs::Flight::flight_law))]
pub fn six_waits()
    ensures { (f : FatesByNumber) → AreMild f → (t : List TalkItem) (w v : Line) → IsCalm w → Still settled_waits t
        → ConsoleTalk f t w v → (v.flight ≡ []) × ConsoleRests v.console.state }
{}

/// Where the line stands after one asking for page k, whatever byte it is said with, of a console that was at most one page behind
/// it and three ahead.
pub fn position()
    ensures { (h : List (List ℕ)) (p : Plan) (k j : ℕ) (f : FatesByNumber) → AreMild f → (t : List TalkItem) → OnlyListens t
        → (w v : Line) (b : ℕ) → HostIsReady h p k j w → j ≤ most_askings - 1
        → ConsoleTalk f (TalkItem.Said b true ∷ t) w v → Position h p k j f t v }
{}

/// One attempt from a calm line in which no delivery is unseen: the line is calm again, at most one dump began, and the pages taken
/// are the first of its plan, all of them where the attempt is whole.
pub fn pages_of_an_attempt()
    ensures { (f : FatesByNumber) → AreSound f → (frame : List ℕ) → length frame ≡ 6
        → (talk : List TalkItem) (place : ℕ) (taken : List (List ℕ)) (end : End)
        (w v : Line) → IsSound w → IsCalm w → Attempt frame talk place taken end → ConsoleTalk f talk w v
        → v.unseen ≡ None
        → IsCalm v × GathersPages frame w place taken end v }
{}

/// One attempt after a stamp from a calm line, in which no delivery is unseen: the line is calm again, at most one dump began, and the
/// records of the batches are the first of those that were held as it began and are newer than the stamp, all of them where the
/// attempt is whole.
pub fn one_attempt()
    ensures { (f : FatesByNumber) → AreSound f → (after : Option CivilMinute) → IsStamp after
        → (talk : List TalkItem) (place : ℕ) (taken : List (List ℕ)) (end : End)
        (w v : Line) → IsSound w → IsCalm w → Attempt (stamp_frame_of after) talk place taken end
        → ConsoleTalk f talk w v → v.unseen ≡ None
        → IsCalm v × AttemptGives after w (batches after place taken) end v }
{}

/// No attempt empties the archive: what was put and what is held grows by the records that fall due with the messages of the attempt,
/// and by no others, and a dump that began has the first of these as its history.
pub fn records_of_an_attempt()
    ensures { (f : FatesByNumber) → AreSound f → (left : ℕ → List (List ℕ)) → FallDue f left → (all : List (List ℕ))
        → EachFollows [] all
        → (frame : List ℕ) (talk : List TalkItem) (place : ℕ) (taken : List (List ℕ)) (end : End) (w v : Line)
        → length frame ≡ 6 → IsSound w → IsCalm w
        → Attempt frame talk place taken end → Now left all w → ConsoleTalk f talk w v → v.unseen ≡ None
        → Now left all v }
{}

/// An attempt after a stamp from a calm line in which no delivery is harmed is whole, unless the keeper refused a batch.
pub fn an_attempt_without_harm()
    ensures { (f : FatesByNumber) → AreSound f
        → (after : Option CivilMinute) (talk : List TalkItem) (place : ℕ) (taken : List (List ℕ)) (end : End)
        (w v : Line)
        → IsSound w → IsCalm w → Attempt (stamp_frame_of after) talk place taken end → ConsoleTalk f talk w v
        → v.harmed ≡ w.harmed
        → (end ≡ End.Whole) ⊎ (end ≡ End.Refused) }
{}

/// A wake of a line at rest, no delivery being harmed. LF CR answers the first line feed, or the second where the console was
/// asleep. The console is then in Command with an empty line. No wake floods, harmed or not.
pub fn a_wake_without_harm()
    ensures awake { (f : FatesByNumber) → AreSound f → (t : List TalkItem) (awake : Bool) (w v : Line) → Rested w
        → Wakes wake_tries t awake → ConsoleTalk f t w v
        → v.harmed ≡ w.harmed → Wakes (feeds_for w.console.state) t true × Awake 5 w v × (awake ≡ true) }
    ensures quiet { (f : FatesByNumber) → AreSound f → (t : List TalkItem) (w v : Line) → Rested w → ConsoleTalk f t w v
        → ¬ (WakeFloods wake_tries t) }
{}

/// A stamp frame to a console that awaits it, no delivery harmed, is answered by 0x06 and the header of its plan, and where that has pages
/// the console is in its dump.
pub fn a_header_without_harm()
    ensures { (f : FatesByNumber) → AreSound f
        → (after : Option CivilMinute) (t : List TalkItem) (w u v : Line) (a : Waiting w u)
        → IsSound u → Awaits answer_waits 7 t
        → ConsoleTalk f (message (stamp_frame_of after) ++ t) u v → v.harmed ≡ u.harmed
        → BeginsDump f a.history (plan_after a.history (stamp_frame_of after)) t v }
{}

/// Each page comes at its first asking where no delivery is harmed, and the console stays in the dump.
pub fn a_page_without_harm()
    ensures { (f : FatesByNumber) → AreMild f → (g : List (List ℕ)) (p : Plan) (k : ℕ) (t : List TalkItem) (w v : Line)
        → k < p.pages → InDump f g p k w
        → Awaits answer_waits page_size t → ConsoleTalk f (TalkItem.Said 6 true ∷ t) w v → v.harmed ≡ w.harmed
        → (heard t ≡ page_of g p k) × InDump f g p (k + 1) v }
{}

/// The records of a round fall due in the order in which they are listed.
#[tactic(auto, using(crate::proofs::FallsInOrder::fates_fall))]
pub fn records_fall_due_in_order()
    ensures { (f : lists.Fates) → FallDue (fates_of f) (records_left_in f.mids.items) }
{}

/// In one attempt from a calm line no more pages of a dump count as acknowledged than the host took and its keeper did not refuse,
/// whatever was harmed.
pub fn no_page_counts_too_early()
    ensures { (f : FatesByNumber) → AreSound f → (frame : List ℕ) → length frame ≡ 6 → (talk : List TalkItem) (place : ℕ)
        (taken : List (List ℕ)) (end : End) (w v : Line) (count : ℕ) → IsSound w → IsCalm w
        → Attempt frame talk place taken end → ConsoleTalk f talk w v → v.unseen ≡ None
        → (end ≢ End.Refused → length taken ≤ count) → (end ≡ End.Refused → length taken ≤ count + 1)
        → pages_acknowledged f talk w ≤ count }
{}

/// Each page counts that was taken in an attempt from a calm line, and right after which 0x06 was said, whatever was harmed.
pub fn each_acknowledged_page_counts()
    ensures { (f : FatesByNumber) → AreSound f → (frame : List ℕ) → length frame ≡ 6 → (talk : List TalkItem) (place : ℕ)
        (pages : List (List ℕ)) (w v : Line) → IsSound w → IsCalm w → Acknowledges frame talk place pages
        → ConsoleTalk f talk w v → v.unseen ≡ None → length pages ≤ pages_acknowledged f talk w }
{}

/// What an attempt from a calm line gives has as many records at least as stand on the pages that were acknowledged in it, whatever was
/// harmed. So has what it gives without a page that was refused.
pub fn acknowledged_pages_are_given()
    ensures kept { (f : FatesByNumber) → AreSound f → (after : Option CivilMinute) → IsStamp after → (talk : List TalkItem)
        (place : ℕ) (taken : List (List ℕ)) (end : End) (w v : Line) → IsSound w → IsCalm w
        → Attempt (stamp_frame_of after) talk place taken end → ConsoleTalk f talk w v → v.unseen ≡ None
        → end ≢ End.Refused
        → CoversPages after (pages_acknowledged f talk w) w (batches after place taken) v }
    ensures refused { (f : FatesByNumber) → AreSound f → (after : Option CivilMinute) → IsStamp after → (talk : List TalkItem)
        (place : ℕ) (first : List (List ℕ)) (last : List ℕ) (w v : Line) → IsSound w → IsCalm w
        → Attempt (stamp_frame_of after) talk place (first ++ last ∷ []) End.Refused → ConsoleTalk f talk w v
        → v.unseen ≡ None
        → CoversPages after (pages_acknowledged f talk w) w (batches after place first) v }
{}
