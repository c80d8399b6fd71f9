ghost use Rattle.std.specs.Prelude.{◌≡◌, ◌≢◌, ◌≤◌, ◌<◌, ◌+◌, ◌-◌, ◌*◌, ◌++◌, ◌^◌, ℕ, List, [], ◌∷◌, Option, Bool};
ghost use Rattle.std.specs.Prelude.{map, length, true, false};
ghost use Rattle.station_base.specs.CivilMinute.{CivilMinute};
ghost use Rattle.vantage_frames.specs.Header.{most_pages};
ghost use Rattle.vantage_frames.specs.Slots.{page_size};
ghost use Rattle.serial_link.specs.declared.talk.TalkItem.{TalkItem};
ghost use Rattle.serial_link.specs.declared.talk.TalkItem.TheVariants.{Heard, Quiet};
ghost use Rattle.serial_link.specs.Talk.{message};

use crate::action::Action;
use crate::batch::{Batch, gather};
use crate::header::{Extent, read_answer};
use crate::keeper::Kept;
use crate::message::{LONGEST_MESSAGE, fill, message_of, tail_after};
use crate::outcome::{Tally, Trouble};
use crate::page_judge::{Judged, judge_page};
use crate::phase::Phase;
use crate::pump_end::PumpEnd;
use crate::signal::{ACK, ESC, NAK};
use crate::stage::{Stage, stage_after};
use arrayvec::ArrayVec;
use station_base::Stamp;
use vantage_frames::{PAGE_SIZE, stamp_frame};

// So many bytes are heard at once at most.
const PIECE: usize = PAGE_SIZE;

/// So many times more a line feed is said that did not wake the console.
pub const WAKES: u8 = 2;

/// So many times more a page is asked for that did not come.
pub const REPEATS: u8 = 3;

// What a console that is awake answers to a line feed.
const AWAKE: [u8; 2] = [b'\n', b'\r'];

/// One attempt to take what a console has after a stamp, or all that it has, step by step (Davis serial manual,
/// "Download Protocol"; the waits and the number of askings are this project's profile).
///
/// A pump calls nothing. It tells by `action` what is to be done next, and is told what came of it. It has no heap
/// memory, and ends after fewer than `attempt_steps` steps.
#[derive(Drop)]
pub struct Pump {
    after: Option<Stamp>,
    stage: Stage,
    // How many pages were taken.
    number: u16,
    // From this place on the slots of the next page are read.
    from: u8,
    // The stamp of the last record taken.
    newest: Option<Stamp>,
    tally: Tally,
    count: usize,
    run: u8,
    // The last two bytes heard.
    tail: [u8; 2],
    answer: [u8; PAGE_SIZE],
    batch: Batch,
}

impl Pump {
    ghost use Rattle.dmpaft_pump.specs.declared.phase.Phase.{Phase};
    ghost use Rattle.causes.specs.declared.stored.Stored.TheVariants as stored;
    ghost use Rattle.dmpaft_pump.specs.Pump.{AttemptState, Over, headed, batched, Settling, begun, state_at, next_after_part, onward};
    ghost use Rattle.dmpaft_pump.specs.Pump.{asked_again, pump_from, batch_of};
    ghost use Rattle.dmpaft_pump.specs.declared.phase.Phase.TheVariants as phase;
    ghost use Rattle.dmpaft_pump.specs.Pump as part;
    ghost use Rattle.dmpaft_pump.specs.Reply.{Header};
    ghost use Rattle.vantage_frames.specs.Header.{CanBegin};
    ghost use Rattle.dmpaft_pump.specs.declared.outcome.Tally.{Tally};
    ghost use Rattle.dmpaft_pump.specs.declared.pump_end.PumpEnd.{PumpEnd};
    ghost use Rattle.dmpaft_pump.specs.Phases.{part_of_phase, most_bytes_of, words_of_phase, span_of, rest_of, PhaseFits, PhaseSpeaks, PhaseHears};
    ghost use Rattle.dmpaft_pump.specs.Phases.{attempt_steps, closing_steps, page_steps, steps_of_an_asking};
    ghost use Rattle.dmpaft_pump.specs.Shown.{PumpShows, PumpCounts, PartIsReady, Tallied, all_kept, room_of, no_tally};
    ghost use Rattle.dmpaft_pump.specs.Shown.{pump_answer, PageIsGathered, IsSized, Allows, PumpTells, steps_left, said_at};
    ghost use Rattle.dmpaft_pump.specs.Shown.{keeps_at, end_at};

    /// A pump that takes what comes after a stamp, or all that there is.
    pub fn new(after: Option<Stamp>) -> Pump
        ensures shows { PumpShows no_tally after (begun after Settling) result }
        ensures left { steps_left result < attempt_steps }
    {
        Pump::resume(after, Tally::default())
    }

    /// A pump whose tally goes on from the tally of attempts before. Its counts are below 2^31.
    pub fn resume(after: Option<Stamp>, tally: Tally) -> Pump
        requires pages { tally.pages < 2 ^ 31 }
        requires skipped { tally.skipped < 2 ^ 31 }
        ensures shows { PumpShows tally after (begun after Settling) result }
        ensures left { steps_left result < attempt_steps }
    {
        let newest = after;
        Pump {
            after,
            stage: Stage::Hearing(Phase::Settling),
            number: 0,
            from: 0,
            newest,
            tally,
            count: 0,
            run: 0,
            tail: [0; 2],
            answer: [0; PAGE_SIZE],
            batch: Batch::new(),
        }
    }

    /// What this attempt, and those that it goes on from, brought so far. A page counts once it has come, and the last
    /// record once it is kept.
    pub fn tally(&self) -> Tally
        ensures { result ≡ self.now.tally }
    {
        self.tally
    }

    /// How the attempt ended, once it is over.
    pub fn ended(&self) -> Option<PumpEnd>
        ensures { result ≡ end_at self.now.stage }
    {
        match self.stage {
            Stage::Ended(end) => Some(end),
            Stage::Saying(_) | Stage::Hearing(_) | Stage::Keeping { .. } => None,
        }
    }

    /// What is to be done next.
    pub fn action(&self) -> Action<'_>
        ensures allows { (start : Tally) (after : Option CivilMinute) (s : AttemptState)
            → PumpShows start after s self.now
            → Allows after self.now result }
        ensures tells { (start : Tally) (after : Option CivilMinute) (s : AttemptState)
            → PumpShows start after s self.now
            → PumpTells after s result }
    {
        match self.stage {
            Stage::Saying(phase) => Action::Say(self.words(phase)),
            Stage::Hearing(phase) => Action::Listen(self.room(phase)),
            Stage::Keeping { .. } => Action::Keep(self.batch.records()),
            Stage::Ended(end) => Action::Ended(end),
        }
    }

    // The words of a part.
    #[tactic(auto, unfolding(crate::specs::Command::dmpaft))]
    fn words(&self, phase: Phase) -> ArrayVec<u8, LONGEST_MESSAGE>
        ensures words { result.items ≡ words_of_phase self.now.after phase }
        ensures some { PhaseSpeaks phase → 0 < length result.items }
    {
        match phase {
            Phase::Settling | Phase::Resettling { .. } => message_of(&[]),
            Phase::Waking { .. } => message_of(b"\n"),
            Phase::Calling => message_of(b"DMPAFT\n"),
            Phase::Heading => message_of(&stamp_frame(self.after)),
            Phase::Asking { said, .. } => message_of(&[said]),
            Phase::Acking => message_of(&[ACK]),
            Phase::GivingUp(_) => message_of(&[ESC]),
        }
    }

    // So many bytes more a part can hear at once.
    fn room(&self, phase: Phase) -> u16
        ensures few { result ≤ most_bytes_of phase - self.now.count }
        ensures some { self.now.count < most_bytes_of phase → 1 ≤ result }
        ensures piece { result ≤ page_size }
    {
        phase.most().saturating_sub(self.count).min(PIECE) as u16
    }

    /// The bytes of `Say` were said as one message. Where nothing was to be said, nothing changes.
    pub fn said(&mut self)
        ensures shows { (start : Tally) (after : Option CivilMinute) (s : AttemptState)
            → PumpShows start after s self.old
            → PumpShows start after (pump_from after s (message (said_at after self.old.stage)) []) self.new }
        ensures left { (start : Tally) (after : Option CivilMinute) (s : AttemptState)
            → PumpShows start after s self.old
            → said_at after self.old.stage ≢ [] → steps_left self.new < steps_left self.old }
    {
        let Stage::Saying(phase) = self.stage else {
            return;
        };
        self.stage = stage_after(phase);
    }

    /// These bytes were heard: at least one, and no more than `Listen` has.
    pub fn heard(&mut self, bytes: &[u8])
        requires some { 1 ≤ length bytes.now }
        requires room { length bytes.now ≤ room_of self.old }
        ensures shows { (start : Tally) (after : Option CivilMinute) (s : AttemptState)
            → PumpShows start after s self.old
            → PumpShows start after (pump_from after s (map Heard bytes.now) []) self.new }
        ensures left { (start : Tally) (after : Option CivilMinute) (s : AttemptState)
            → PumpShows start after s self.old
            → steps_left self.new < steps_left self.old }
    {
        let Stage::Hearing(phase) = self.stage else {
            return;
        };
        self.note(phase, bytes);
        if self.count == phase.most() {
            self.advance(phase, true);
        }
    }

    // Bytes are noted that a part heard.
    fn note(&mut self, phase: Phase, bytes: &[u8])
        requires some { 1 ≤ length bytes.now }
        requires room { self.old.count + length bytes.now ≤ most_bytes_of phase }
        ensures ready { (start : Tally) (after : Option CivilMinute) (place : ℕ) (taken : List (List ℕ))
            (before : List ℕ) (full : Bool)
            → PartIsReady start after place taken phase false before self.old
            → IsSized full (length (before ++ bytes.now)) (most_bytes_of phase)
            → PartIsReady start after place taken phase full (before ++ bytes.now) self.new }
        ensures count { self.new.count ≡ self.old.count + length bytes.now }
        ensures run { self.new.run ≡ 0 }
        ensures stage { self.new.stage ≡ self.old.stage }
    {
        if phase.settles() {
            self.tail = tail_after(self.tail, bytes);
        } else {
            fill(&mut self.answer, self.count, bytes);
        }
        self.count += bytes.len();
        self.run = 0;
    }

    /// One wait passed with nothing heard, where the action is `Listen`.
    pub fn quiet(&mut self)
        requires { 0 < room_of self.old }
        ensures shows { (start : Tally) (after : Option CivilMinute) (s : AttemptState)
            → PumpShows start after s self.old
            → PumpShows start after (pump_from after s (Quiet ∷ []) []) self.new }
        ensures left { (start : Tally) (after : Option CivilMinute) (s : AttemptState)
            → PumpShows start after s self.old
            → steps_left self.new < steps_left self.old }
    {
        let Stage::Hearing(phase) = self.stage else {
            return;
        };
        self.run = self.run.saturating_add(1);
        if self.run == phase.quiets() {
            self.advance(phase, false);
        }
    }

    /// The keeper answered so to the records of `Keep`.
    pub fn kept(&mut self, answer: Kept)
        requires { keeps_at self.old.stage ≡ true }
        ensures shows { (start : Tally) (after : Option CivilMinute) (s : AttemptState)
            → PumpShows start after s self.old
            → PumpShows start after (pump_from after s [] (answer ∷ [])) self.new }
        ensures left { steps_left self.new < steps_left self.old }
    {
        let Stage::Keeping { more } = self.stage else {
            return;
        };
        match answer {
            Kept::Done => {
                self.tally.last = self.newest;
                self.go_on(more);
            }
            Kept::Full => self.stage = Stage::Ended(PumpEnd::Full),
            Kept::Stale => self.stage = Stage::Ended(PumpEnd::Stale),
            Kept::DiskFault => self.stage = Stage::Ended(PumpEnd::DiskFault),
        }
    }

    // A part begins.
    fn begin(&mut self, phase: Phase)
        ensures shows { (start : Tally) (after : Option CivilMinute) (place : ℕ) (taken : List (List ℕ))
            → PumpCounts start after place taken (all_kept after place taken) self.old → PhaseFits phase place taken
            → PumpShows start after (begun after (part_of_phase place taken phase)) self.new }
        ensures left { steps_left self.new ≤ rest_of phase + span_of phase }
    {
        self.count = 0;
        self.run = 0;
        self.tail = [0; 2];
        match phase {
            Phase::Settling | Phase::Resettling { .. } => self.stage = Stage::Hearing(phase),
            _ => self.stage = Stage::Saying(phase),
        }
    }

    // The attempt is over.
    fn end(&mut self, end: PumpEnd)
        requires { pump_answer end ≡ stored.Done }
        ensures shows { (start : Tally) (after : Option CivilMinute) (place : ℕ) (taken : List (List ℕ))
            → Tallied start after place taken (all_kept after place taken) self.old
            → PumpShows start after (Over place taken end) self.new }
        ensures left { steps_left self.new ≡ 0 }
    {
        self.stage = Stage::Ended(end);
    }

    // What comes after a part that heard what it could, or was followed by silence.
    fn advance(&mut self, phase: Phase, full: bool)
        ensures shows { (start : Tally) (after : Option CivilMinute) (place : ℕ) (taken : List (List ℕ))
            (bytes : List ℕ)
            → PartIsReady start after place taken phase full bytes self.old
            → PumpShows start after
            (state_at after (next_after_part after (part_of_phase place taken phase) full bytes)) self.new }
        ensures left { PhaseHears phase → steps_left self.new ≤ rest_of phase }
    {
        match phase {
            Phase::Settling if full => self.end(PumpEnd::Flood),
            Phase::Settling => self.begin(Phase::Waking { left: WAKES }),
            Phase::Waking { .. } if full => self.end(PumpEnd::Flood),
            Phase::Waking { left } => self.after_wake(left),
            Phase::Calling => self.after_call(full),
            Phase::Heading => self.after_header(full),
            Phase::Asking { more, left, .. } if full => self.after_page(more, left),
            Phase::Asking { more, left, .. } => self.ask_again(more, left, NAK),
            Phase::Resettling { .. } if full => self.end(PumpEnd::Flood),
            Phase::Resettling { more, left, said } => self.begin(Phase::Asking {
                more,
                left,
                said,
            }),
            Phase::Acking | Phase::GivingUp(_) => {}
        }
    }

    // A line feed was answered.
    fn after_wake(&mut self, left: u8)
        ensures shows { (start : Tally) (after : Option CivilMinute) (bytes : List ℕ)
            → PartIsReady start after 0 [] (phase.Waking left) false bytes self.old
            → PumpShows start after (state_at after (next_after_part after (part.Waking left) false bytes)) self.new }
        ensures left { steps_left self.new ≤ rest_of (phase.Waking left) }
    {
        if self.tail == AWAKE {
            self.begin(Phase::Calling);
        } else if left == 0 {
            self.begin(Phase::GivingUp(Trouble::Asleep));
        } else {
            self.begin(Phase::Waking { left: left - 1 });
        }
    }

    // `DMPAFT` was answered.
    fn after_call(&mut self, full: bool)
        ensures shows { (start : Tally) (after : Option CivilMinute) (bytes : List ℕ)
            → PartIsReady start after 0 [] phase.Calling full bytes self.old
            → PumpShows start after (state_at after (next_after_part after part.Calling full bytes)) self.new }
        ensures left { steps_left self.new ≤ rest_of phase.Calling }
    {
        let byte = self.answer[0];
        if !full {
            self.begin(Phase::GivingUp(Trouble::NoAck(None)));
        } else if byte == ACK {
            self.begin(Phase::Heading);
        } else {
            self.begin(Phase::GivingUp(Trouble::NoAck(Some(byte))));
        }
    }

    // The stamp frame was answered.
    fn after_header(&mut self, full: bool)
        ensures shows { (start : Tally) (after : Option CivilMinute) (bytes : List ℕ)
            → PartIsReady start after 0 [] phase.Heading full bytes self.old
            → PumpShows start after (state_at after (next_after_part after part.Heading full bytes)) self.new }
        ensures left { steps_left self.new ≤ rest_of phase.Heading }
    {
        if !full {
            self.begin(Phase::GivingUp(Trouble::ShortHeader(self.count.min(6) as u8)));
            return;
        }
        let (answer, _) = self.answer.split_first_chunk().unwrap();
        match read_answer(answer) {
            Ok(Extent { pages, place }) => self.start(pages, place),
            Err(trouble) => self.begin(Phase::GivingUp(trouble)),
        }
    }

    // A header of so many pages came, the first of which is read from a place on.
    fn start(&mut self, pages: u16, place: u16)
        ensures shows { (start : Tally) (after : Option CivilMinute)
            → PumpCounts start after 0 [] (all_kept after 0 []) self.old → CanBegin pages place
            → PumpShows start after (state_at after (headed (Header pages place))) self.new }
        ensures left { CanBegin pages place → steps_left self.new ≤ rest_of phase.Heading }
    {
        if pages == 0 {
            self.end(PumpEnd::Whole);
        } else {
            self.from = place.min(4) as u8;
            self.begin(Phase::Asking {
                more: pages - 1,
                left: REPEATS,
                said: ACK,
            });
        }
    }

    // An asking for a page was answered.
    fn after_page(&mut self, more: u16, left: u8)
        ensures shows { (start : Tally) (after : Option CivilMinute) (place : ℕ) (taken : List (List ℕ))
            (bytes : List ℕ) (b : ℕ)
            → PartIsReady start after place taken (phase.Asking more left b) true bytes self.old
            → PumpShows start after
            (state_at after (next_after_part after (part.Asking more place taken left b) true bytes)) self.new }
        ensures left { steps_left self.new ≤ page_steps * more + steps_of_an_asking * left + closing_steps }
    {
        match judge_page(self.number, &self.answer) {
            Judged::This(page) => {
                let from = self.from.min(4);
                self.batch.clear();
                let skipped = gather(&page, from, &mut self.newest, &mut self.batch);
                self.count_page(skipped);
                self.hand(more);
            }
            Judged::Ahead(sequence) => self.begin(Phase::GivingUp(Trouble::PageAhead {
                page: self.number,
                sequence,
            })),
            Judged::Again(said) => self.ask_again(more, left, said),
        }
    }

    // A page of so many skipped slots was taken.
    fn count_page(&mut self, skipped: u32)
        ensures counts { (start : Tally) (after : Option CivilMinute) (place : ℕ) (taken : List (List ℕ))
            (page : List ℕ)
            → PageIsGathered start after place taken page skipped self.old → length taken < most_pages
            → PumpCounts start after place (taken ++ page ∷ []) (all_kept after place taken) self.new }
        ensures batch { self.new.batch ≡ self.old.batch }
    {
        self.tally.skipped = self.tally.skipped.saturating_add(skipped);
        self.tally.pages = self.tally.pages.saturating_add(1);
        self.number = self.number.saturating_add(1);
        self.from = 0;
    }

    // The keeper gets the batch of a page, if there is one.
    fn hand(&mut self, more: u16)
        ensures shows { (start : Tally) (after : Option CivilMinute) (place : ℕ) (taken : List (List ℕ)) (page : List ℕ)
            → PumpCounts start after place (taken ++ page ∷ []) (all_kept after place taken) self.old
            → self.old.batch ≡ batch_of after place taken page → length taken + more < most_pages
            → PumpShows start after
            (state_at after (batched more place taken page (batch_of after place taken page))) self.new }
        ensures left { steps_left self.new ≤ page_steps * more + closing_steps }
    {
        if self.batch.is_empty() {
            self.go_on(more);
        } else {
            self.stage = Stage::Keeping { more };
        }
    }

    // After a page whose batch is kept.
    fn go_on(&mut self, more: u16)
        ensures shows { (start : Tally) (after : Option CivilMinute) (place : ℕ) (taken : List (List ℕ))
            → PumpCounts start after place taken (all_kept after place taken) self.old
            → length taken + more ≤ most_pages
            → PumpShows start after (begun after (onward more place taken)) self.new }
        ensures left { steps_left self.new < page_steps * more + closing_steps }
    {
        if more == 0 {
            self.begin(Phase::Acking);
        } else {
            self.begin(Phase::Asking {
                more: more - 1,
                left: REPEATS,
                said: ACK,
            });
        }
    }

    // The page is asked for again by this byte, if it was not asked for too often.
    fn ask_again(&mut self, more: u16, left: u8, said: u8)
        ensures shows { (start : Tally) (after : Option CivilMinute) (place : ℕ) (taken : List (List ℕ))
            → PumpCounts start after place taken (all_kept after place taken) self.old
            → length taken + more < most_pages
            → PumpShows start after (state_at after (asked_again more place taken left said)) self.new }
        ensures left { steps_left self.new ≤ page_steps * more + steps_of_an_asking * left + closing_steps }
    {
        if left == 0 {
            self.begin(Phase::GivingUp(Trouble::PageLost { page: self.number }));
        } else {
            self.begin(Phase::Resettling {
                more,
                left: left - 1,
                said,
            });
        }
    }
}
