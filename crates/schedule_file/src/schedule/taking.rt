ghost use Rattle.std.specs.Prelude.{◌≡◌, ℕ, ◌≤◌, [], ◌++◌, None, Some, Ok, OnOk, IfOk, MatchResult};
ghost use Rattle.std.specs.List.{list_any};
ghost use Rattle.archive_record.specs.Reading.{reading};
ghost use Rattle.schedule_file.specs.declared.schedule.form.Form.{Form};
ghost use Rattle.schedule_file.specs.Forms.{IsInRanges};
ghost use Rattle.schedule_file.specs.Steps.{nothing_said, no_details, turn_steps, steps_said, steps_seen, details_seen, record_told, last_minute_of};
ghost use Rattle.schedule_file.specs.Kinds.{first_applying, told_kinds, is_due};
ghost use Rattle.schedule_file.specs.Reading.{accept, read_schedule_line};
ghost use Rattle.schedule_file.specs.Reader.{said_by, ReaderAnswers};

use crate::fate::Fate;
use crate::fates::{Fates, MOST_MIDS, MOST_WAITS};
use crate::schedule::form::{Form, Told};
use crate::schedule::forms::read_form;
use crate::schedule::pieces::{is_all_plain, is_silent};
use crate::schedule::reader::Reader;
use crate::schedule::refusal::Refusal;
use crate::schedule::step::{Step, Stop};
use crate::schedule::turn::Turn;
use archive_record::{Rec52, write};
use causes::OutOfMemory;
use station_base::{Period, Row, Stamp};
use std::alloc::Global;
use std::mem;

// The lines of a schedule, at most.
const MOST_LINES: u32 = 10_000;

const MOST_RECORDS: u32 = 20_000;

const MOST_TURNS: u32 = 200;

// 2127-12-31 23:59, in minutes since 1970-01-01 00:00.
const LAST_MINUTE: u64 = 83_099_519;

impl Reader {
    // Nothing was said yet.
    pub fn new(alloc: Global, period: Period) -> Reader
        ensures said { said_by result ≡ nothing_said }
        ensures period { result.period ≡ period }
    {
        Reader {
            before: Vec::new(alloc),
            turn: Turn::Neither,
            fates: Fates::new(alloc),
            stop: None,
            since: Vec::new(alloc),
            newest: 0,
            records: 0,
            turns: 0,
            period,
            alloc,
        }
    }

    // Takes a line of a number from 1 on.
    #[tactic(auto, unfolding(crate::specs::Reading::read_schedule_line))]
    pub fn line(&mut self, number: u32, line: &[u8]) -> Result<(), Refusal>
        requires { number ≤ 10001 }
        ensures said { ReaderAnswers (read_schedule_line self.old.period number line.now (said_by self.old)) result
            (said_by self.new) }
        ensures period { self.new.period ≡ self.old.period }
        ensures within { OnOk result (number ≤ 10000) }
    {
        if number > MOST_LINES {
            return Err(Refusal::Kind(1));
        }
        if is_silent(line) {
            return Ok(());
        }
        if !is_all_plain(line) {
            return Err(Refusal::Kind(2));
        }
        match read_form(line) {
            Ok(form) => self.accept(form),
            Err(kind) => Err(Refusal::Kind(kind)),
        }
    }

    // Takes what a line says.
    fn accept(&mut self, form: Form) -> Result<(), Refusal>
        requires { IsInRanges form }
        ensures said { ReaderAnswers (accept self.old.period (said_by self.old) form) result (said_by self.new) }
        ensures period { self.new.period ≡ self.old.period }
    {
        match form {
            Form::Due(told) => self.due(&told),
            Form::Run { first, count } => self.run(&first, count),
            Form::Idle(ticks) => self.idle(ticks),
            Form::Open => self.open(),
            Form::Round => self.round(),
            Form::Host { number, fate } => self.host(number, fate),
            Form::Reply { number, fate } => self.reply(number, fate),
            Form::Late {
                number,
                waits,
                place,
            } => self.late(number, waits, place),
            Form::Mid { number, told } => self.mid(number, &told),
            Form::Stop(stop) => self.stop(stop),
        }
    }

    // The record that a line tells, as the first of so many, or the kind of its fault.
    fn record(&self, told: &Told, count: u32) -> Result<Rec52, u8>
        requires from { 1 ≤ count }
        ensures { MatchResult result
            (λ r. (first_applying (told_kinds self.now.period (said_by self.now) told.now count) ≡ None)
            × (reading r self.now.period ≡ record_told self.now.period told.now))
            (λ kind. first_applying (told_kinds self.now.period (said_by self.now) told.now count) ≡ Some kind) }
    {
        let Some(stamp) = told.stamp else {
            return Err(5);
        };
        if last_minute(stamp, self.period, count) > LAST_MINUTE {
            return Err(5);
        }
        if u64::from(stamp.minute()) <= self.newest {
            return Err(6);
        }
        let Some(values) = told.values else {
            return Err(7);
        };
        let row = Row {
            stamp,
            interval: self.period,
            values,
            limited: 0,
        };
        match write(&row) {
            Some(record) => Ok(record),
            None => Err(7),
        }
    }

    // The minute of the last of so many records.
    fn newest_of(&self, told: &Told, count: u32) -> u64
        requires { 1 ≤ count }
        ensures { result ≡ last_minute_of self.now.period told.now.stamp count }
    {
        match told.stamp {
            Some(stamp) => last_minute(stamp, self.period, count),
            None => 0,
        }
    }

    fn due(&mut self, told: &Told) -> Result<(), Refusal>
        ensures said { ReaderAnswers (accept self.old.period (said_by self.old) (Form.Due told.now)) result
            (said_by self.new) }
        ensures period { self.new.period ≡ self.old.period }
    {
        let record = match self.record(told, 1) {
            Ok(record) => record,
            Err(kind) => return Err(Refusal::Kind(kind)),
        };
        if self.records + 1 > MOST_RECORDS {
            return Err(Refusal::Kind(10));
        }
        if self.since.push(Step::Due(record)).is_err() {
            return Err(Refusal::OutOfMemory);
        }
        self.newest = self.newest_of(told, 1);
        self.records += 1;
        Ok(())
    }

    fn run(&mut self, told: &Told, count: u32) -> Result<(), Refusal>
        requires from { 1 ≤ count }
        requires to { count ≤ 9999999 }
        ensures said { ReaderAnswers (accept self.old.period (said_by self.old) (Form.Run told.now count)) result
            (said_by self.new) }
        ensures period { self.new.period ≡ self.old.period }
    {
        let first = match self.record(told, count) {
            Ok(record) => record,
            Err(kind) => return Err(Refusal::Kind(kind)),
        };
        if self.records + count > MOST_RECORDS {
            return Err(Refusal::Kind(10));
        }
        if self.since.push(Step::Run { first, count }).is_err() {
            return Err(Refusal::OutOfMemory);
        }
        self.newest = self.newest_of(told, count);
        self.records += count;
        Ok(())
    }

    fn idle(&mut self, ticks: u8) -> Result<(), Refusal>
        ensures said { ReaderAnswers (accept self.old.period (said_by self.old) (Form.Idle ticks)) result
            (said_by self.new) }
        ensures period { self.new.period ≡ self.old.period }
    {
        match self.since.push(Step::Idle(ticks)) {
            Ok(()) => Ok(()),
            Err(_) => Err(Refusal::OutOfMemory),
        }
    }

    fn open(&mut self) -> Result<(), Refusal>
        ensures said { ReaderAnswers (accept self.old.period (said_by self.old) Form.Open) result (said_by self.new) }
        ensures period { self.new.period ≡ self.old.period }
    {
        if self.turns >= MOST_TURNS {
            return Err(Refusal::Kind(11));
        }
        if self.close().is_err() {
            return Err(Refusal::OutOfMemory);
        }
        self.turn = Turn::Opening;
        self.turns += 1;
        Ok(())
    }

    fn round(&mut self) -> Result<(), Refusal>
        ensures said { ReaderAnswers (accept self.old.period (said_by self.old) Form.Round) result (said_by self.new) }
        ensures period { self.new.period ≡ self.old.period }
    {
        if self.turns >= MOST_TURNS {
            return Err(Refusal::Kind(11));
        }
        if self.close().is_err() {
            return Err(Refusal::OutOfMemory);
        }
        self.turn = Turn::InRound;
        self.turns += 1;
        Ok(())
    }

    // Puts the last `open` or `round`, and the steps after it, to the steps before.
    fn close(&mut self) -> Result<(), OutOfMemory>
        ensures said { OnOk result (said_by self.new ≡ record (said_by self.old) {
          before = steps_said (said_by self.old);
          details = no_details;
          stop = None;
          since = [];
        }) }
        ensures period { self.new.period ≡ self.old.period }
    {
        let fates = mem::replace(&mut self.fates, Fates::new(self.alloc));
        let stop = mem::replace(&mut self.stop, None);
        push_turn(&mut self.before, self.turn, fates, stop)?;
        self.before.append(&mut self.since)?;
        Ok(())
    }

    fn host(&mut self, number: u32, fate: Fate) -> Result<(), Refusal>
        requires { 1 ≤ number }
        ensures said { ReaderAnswers (accept self.old.period (said_by self.old) (Form.Host number fate)) result
            (said_by self.new) }
        ensures period { self.new.period ≡ self.old.period }
    {
        if !self.turn.is_in_round() {
            return Err(Refusal::Kind(8));
        }
        if self.fates.fate_of_message(number).is_some() {
            return Err(Refusal::Kind(9));
        }
        match self.fates.host(number, fate) {
            Ok(()) => Ok(()),
            Err(_) => Err(Refusal::OutOfMemory),
        }
    }

    fn reply(&mut self, number: u32, fate: Fate) -> Result<(), Refusal>
        requires { 1 ≤ number }
        ensures said { ReaderAnswers (accept self.old.period (said_by self.old) (Form.Reply number fate)) result
            (said_by self.new) }
        ensures period { self.new.period ≡ self.old.period }
    {
        if !self.turn.is_in_round() {
            return Err(Refusal::Kind(8));
        }
        if self.fates.fate_of_reply(number).is_some() {
            return Err(Refusal::Kind(9));
        }
        match self.fates.reply(number, fate) {
            Ok(()) => Ok(()),
            Err(_) => Err(Refusal::OutOfMemory),
        }
    }

    fn late(&mut self, number: u32, waits: u32, place: u32) -> Result<(), Refusal>
        requires { 1 ≤ number }
        ensures said { ReaderAnswers (accept self.old.period (said_by self.old) (Form.Late number waits place)) result
            (said_by self.new) }
        ensures period { self.new.period ≡ self.old.period }
    {
        if !self.turn.is_in_round() {
            return Err(Refusal::Kind(8));
        }
        if self.fates.has_lateness(number) {
            return Err(Refusal::Kind(9));
        }
        if waits > u32::from(MOST_WAITS) {
            return Err(Refusal::Kind(12));
        }
        match self.fates.late(number, waits as u8, place) {
            Ok(()) => Ok(()),
            Err(_) => Err(Refusal::OutOfMemory),
        }
    }

    fn mid(&mut self, number: u32, told: &Told) -> Result<(), Refusal>
        requires { 1 ≤ number }
        ensures said { ReaderAnswers (accept self.old.period (said_by self.old) (Form.Mid number told.now)) result
            (said_by self.new) }
        ensures period { self.new.period ≡ self.old.period }
    {
        let record = match self.record(told, 1) {
            Ok(record) => record,
            Err(kind) => return Err(Refusal::Kind(kind)),
        };
        if !self.turn.is_in_round() || self.was_due() {
            return Err(Refusal::Kind(8));
        }
        if self.records + 1 > MOST_RECORDS {
            return Err(Refusal::Kind(10));
        }
        if self.fates.is_below_last(number) {
            return Err(Refusal::Kind(13));
        }
        if self.fates.mids.len() >= MOST_MIDS {
            return Err(Refusal::Kind(14));
        }
        if self.fates.mid(number, record).is_err() {
            return Err(Refusal::OutOfMemory);
        }
        self.newest = self.newest_of(told, 1);
        self.records += 1;
        Ok(())
    }

    // Whether a record fell due after the last `open` or `round`.
    fn was_due(&self) -> bool
        ensures { result ≡ list_any is_due (steps_seen self.now.period self.now.since.items) }
    {
        for step in &self.since {
            if step.is_due() {
                return true;
            }
        }
        false
    }

    fn stop(&mut self, stop: Stop) -> Result<(), Refusal>
        ensures said { ReaderAnswers (accept self.old.period (said_by self.old) (Form.Stop stop)) result
            (said_by self.new) }
        ensures period { self.new.period ≡ self.old.period }
    {
        if self.turn.is_neither() {
            return Err(Refusal::Kind(8));
        }
        if self.stop.is_some() {
            return Err(Refusal::Kind(9));
        }
        self.stop = Some(stop);
        Ok(())
    }

    // All steps said.
    pub fn finish(mut self) -> Result<Vec<Step>, OutOfMemory>
        ensures { IfOk result (λ steps. steps_seen self.period steps.items ≡ steps_said (said_by self)) }
    {
        self.close()?;
        Ok(self.before)
    }
}

// The minute of the last of so many records, of which the first has this stamp.
fn last_minute(stamp: Stamp, period: Period, count: u32) -> u64
    requires { 1 ≤ count }
    ensures { result ≡ last_minute_of period (Some stamp) count }
{
    u64::from(stamp.minute()) + u64::from(count - 1) * u64::from(period.minutes())
}

// Appends the last `open` or `round`, if there was one.
fn push_turn(
    steps: &mut Vec<Step>,
    turn: Turn,
    fates: Fates,
    stop: Option<Stop>,
) -> Result<(), OutOfMemory>
    ensures { (period : ℕ) → OnOk result (steps_seen period steps.new.items
        ≡ steps_seen period steps.old.items ++ turn_steps turn (details_seen period fates) stop) }
{
    match turn {
        Turn::Neither => {}
        Turn::Opening => steps.push(Step::Open(stop))?,
        Turn::InRound => steps.push(Step::Round { fates, stop })?,
    }
    Ok(())
}
