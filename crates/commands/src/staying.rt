ghost use Rattle.std.specs.Prelude.{◌≡◌, ◌≢◌, ◌+◌, ◌<◌, ◌≤◌, ◌^◌, false, List, IfOk, IfErr, length};
ghost use Rattle.command_words.specs.Command.{station_names};
ghost use Rattle.commands.specs.StayRun.{give_ups_after, round_may_follow, puts, standing, stay_round, stayed_line, stays, stays_over, tells_round, with_rows};
ghost use Rattle.disk_model.specs.Disk.{MayBegin};
ghost use Rattle.run_output.specs.Output.{led_by, no_memory};
ghost use Rattle.run_output.specs.Outside.{means};
ghost use Rattle.station_base.specs.declared.row.Row.{Row};
ghost use Rattle.station_session.specs.Report.{HasRoom, IsNew};
ghost use Rattle.station_session.specs.Session.{book_of, session_is_stale};
ghost use Rattle.station_session.specs.declared.limits.TheConstants.{MOST_CHANGES};
ghost use Rattle.weather_book.specs.Stands.{StandsOn};

use crate::catching_up::{ending, push_attempts, push_round};
use crate::pausing::pause_between;
use crate::recovering::recover;
use crate::stayed::{ended_after, push_stayed, stayed_text};
use command_words::StationWords;
use disk_model::Disk;
use run_output::{Ending, Outside, Status, Text, attach, connect, settle};
use serial_link::{Link, Side};
use station_base::push_bytes;
use station_io::{Files, Put, Sink};
use station_session::{Report, RoundEnd, Session};
use std::alloc::Global;
use weather_book::Purpose;

/// The most rounds of a stay.
pub const MOST_ROUNDS: u32 = 1_000_000;

// So many rounds in a row that gave up end a stay.
const MOST_GIVE_UPS: u32 = 12;

/// Makes up to so many rounds over one line to the console at an address. The archive is made where there is none, and
/// recovered once, before the console is called. Between two rounds so many quiet waits pass.
#[inline(never)]
pub fn stay<F: Files, K: Sink, L: Link, D: Disk>(
    alloc: Global,
    words: &StationWords<'_>,
    rounds: u32,
    waits: u32,
    outside: &mut Outside<F, K, L, D>,
) -> Result<Text, Ending>
    requires disk_room { D.medium.moment outside.old.disk < 2 ^ 63 }
    requires rounds { rounds ≤ MOST_ROUNDS }
    ensures { stays_over (means F.shelf K.outlet L.traffic D.medium)
        (station_names words.now) rounds waits outside.old result outside.new }
{
    let settings = settle(alloc, &mut outside.files, words.settings)?;
    attach(&mut outside.disk, words.archive, true)?;
    let book = recover(alloc, &mut outside.disk, settings.most(), Purpose::Write)?;
    connect(&mut outside.link, Side::Call, words.address)?;
    make_rounds(alloc, Session::new(book, settings), rounds, waits, outside)
}

// A session that makes round after round, and how many of the last ones in a row gave up.
#[derive(Drop)]
struct Series {
    session: Session,
    give_ups: u32,
}

// Makes so many rounds, with pauses of so many waits between them.
fn make_rounds<F: Files, K: Sink, L: Link, D: Disk>(
    alloc: Global,
    session: Session,
    rounds: u32,
    waits: u32,
    outside: &mut Outside<F, K, L, D>,
) -> Result<Text, Ending>
    requires fresh { session_is_stale session ≡ false }
    requires rounds { rounds ≤ MOST_ROUNDS }
    requires room { D.medium.moment outside.old.disk ≤ 2 ^ 63 + 3 }
    ensures { (rows : List Row) → StandsOn D.medium (book_of session) outside.old.disk rows
        → stays (means F.shelf K.outlet L.traffic D.medium) waits rounds 0 (standing session 0 rows) outside.old result
        outside.new }
{
    if rounds == 0 {
        return Ok(stayed_text(rounds));
    }
    let mut report = first_report(alloc)?;
    let mut series = Series {
        session,
        give_ups: 0,
    };
    let mut made = 0;
    'rounds: while made < rounds {
        report.clear();
        series = make_round(series, &mut report, made, outside)?;
        made += 1;
        pause_between(&mut outside.link, waits, rounds - made, made)?;
    }
    let text = stayed_text(made);
    Ok(text)
}

// An empty report, before the first round. Each round is made with it.
fn first_report(alloc: Global) -> Result<Report, Ending>
    ensures new { IfOk result (λ report. IsNew report) }
    ensures none { IfErr result (λ output. output ≡ led_by (stayed_line 0) no_memory) }
{
    Report::new(alloc).map_err(|_| ended_after(0, b"", Status::OutOfMemory))
}

// Makes a round after so many, and writes its lines or gives them.
fn make_round<F: Files, K: Sink, L: Link, D: Disk>(
    series: Series,
    report: &mut Report,
    made: u32,
    outside: &mut Outside<F, K, L, D>,
) -> Result<Series, Ending>
    requires new { IsNew report.old }
    requires fresh { session_is_stale series.session ≡ false }
    requires give_ups { series.give_ups < MOST_GIVE_UPS }
    requires room { MayBegin D.medium MOST_CHANGES outside.old.disk }
    requires few { made < MOST_ROUNDS }
    ensures round { (rows : List Row) → StandsOn D.medium (book_of series.session) outside.old.disk rows → (next : List Row)
        × stay_round (means F.shelf K.outlet L.traffic D.medium) made (standing series.session series.give_ups rows) outside.old
        (with_rows next result) outside.new
        × IfOk result (λ ended. StandsOn D.medium (book_of ended.session) outside.new.disk next) }
    ensures fresh { IfOk result (λ ended. session_is_stale ended.session ≡ false) }
    ensures give_ups { IfOk result (λ ended. ended.give_ups < MOST_GIVE_UPS) }
    ensures begun { D.medium.moment outside.new.disk ≤ D.medium.moment outside.old.disk + MOST_CHANGES }
    ensures marks { HasRoom report.new }
{
    let mut session = series.session;
    let end = session.round(&mut outside.link, &mut outside.disk, report);
    let give_ups = give_ups_after(end, series.give_ups);
    tell_round(end, give_ups, report, made, &mut outside.out)?;
    Ok(Series { session, give_ups })
}

// How many rounds in a row gave up, after one that ended so behind so many that did.
fn give_ups_after(end: RoundEnd, before: u32) -> u32
    requires { before < MOST_GIVE_UPS }
    ensures { result ≡ give_ups_after end before }
{
    match end {
        RoundEnd::GaveUp => before + 1,
        _ => 0,
    }
}

// Writes the lines of a round that ended so, after so many, or ends the run by them.
fn tell_round<K: Sink>(
    end: RoundEnd,
    give_ups: u32,
    report: &Report,
    made: u32,
    out: &mut K,
) -> Result<(), Ending>
    requires fresh { end ≢ RoundEnd.Stale }
    requires few { made < MOST_ROUNDS }
    ensures { tells_round (round_may_follow end give_ups) K.outlet end report.now made out.old result out.new }
{
    if let RoundEnd::OutOfMemory = end {
        return Err(ended_after(made, b"", Status::OutOfMemory));
    }
    let (word, line, status) = ending(end);
    let mut text = Text::new();
    push_attempts(&mut text, 1, &report.troubles);
    push_round(&mut text, word, report);
    if round_may_follow(end, give_ups) {
        return put_lines(&text, out);
    }
    push_stayed(&mut text, made + 1);
    push_bytes(&mut text, line.as_bytes());
    Err(Ending::new(text, status))
}

// Whether a round that ended so may be followed by another, where so many in a row gave up.
fn round_may_follow(end: RoundEnd, give_ups: u32) -> bool
    ensures { result ≡ round_may_follow end give_ups }
{
    match end {
        RoundEnd::Done | RoundEnd::Flood => true,
        RoundEnd::GaveUp => give_ups < MOST_GIVE_UPS,
        RoundEnd::LinkFault
        | RoundEnd::DiskFault
        | RoundEnd::ArchiveFull
        | RoundEnd::Stale
        | RoundEnd::OutOfMemory => false,
    }
}

// Writes these lines at once.
fn put_lines<K: Sink>(text: &[u8], out: &mut K) -> Result<(), Ending>
    requires { 0 < length text.now }
    ensures { puts K.outlet text.now out.old result out.new }
{
    match out.put(text) {
        Put::Done => Ok(()),
        Put::Failed => Err(Ending::silent(Status::WriteFault)),
    }
}
