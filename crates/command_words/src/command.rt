ghost use Rattle.std.specs.Prelude.{◌≡◌, IfSome};

use crate::numbers::{read_within, read_year};
use crate::report_words::read_wanted;
use crate::task::Task;
use crate::task_words::read_task;
use crate::wanted::Wanted;
use crate::words::{ConsoleWords, FleetWords, StationWords};
use arrayvec::ArrayVec;

// The greatest number from which draws are made.
const MOST_SEED: u64 = (1 << 31) - 1;

// The most records that are made.
const MOST_MADE: u64 = 5_000;

// The most turns for which a console, or an archive, is served.
const MOST_TURNS: u64 = 1_000_000;

// The most rounds of a stay.
const MOST_ROUNDS: u64 = 1_000_000;

// The most quiet waits between two rounds of a stay.
const MOST_WAITS: u64 = 1_000_000;

// The years of the archive days that stamps have.
const FIRST_YEAR: u64 = 1999;

const LAST_YEAR: u64 = 2127;

/// What the words of the command line ask for.
#[derive(Debug, Drop)]
pub enum Command<'a> {
    /// `pages FILE`: stamp and outside temperature of each record of a file of pages.
    Pages(&'a str),
    /// `pages SETTINGS FILE`: the row of each record, corrected by the settings.
    CorrectedPages {
        /// The name of the settings file.
        settings: &'a str,
        /// The name of the file of pages.
        file: &'a str,
    },
    /// `soft SETTINGS FILE`: the rows that a file of packets makes, corrected by the settings.
    Soft {
        /// The name of the settings file.
        settings: &'a str,
        /// The name of the file of packets.
        file: &'a str,
    },
    /// `task ADDRESS ..`: one task of a console.
    Task {
        /// Where the console is called.
        address: &'a str,
        /// What is asked of it.
        task: Task,
    },
    /// `report ARCHIVE KIND FIRST LAST`: lines of an archive.
    Report {
        /// The name of the archive's file.
        archive: &'a str,
        /// Which lines, and of which days.
        wanted: Wanted,
    },
    /// `climate ARCHIVE YEAR`: the climate table of a year.
    Climate {
        /// The name of the archive's file.
        archive: &'a str,
        /// The year, from 1999 to 2127.
        year: u16,
    },
    /// `serve ARCHIVE ADDRESS TURNS`: answers to requests for the rows of an archive.
    Serve {
        /// The name of the archive's file.
        archive: &'a str,
        /// The address at which a call is waited for.
        address: &'a str,
        /// For how many turns requests are answered, from 1 to 1,000,000.
        turns: u32,
    },
    /// `replay SETTINGS SCHEDULE`: the run of a schedule over a modelled console, its line and its archive.
    Replay {
        /// The name of the settings file.
        settings: &'a str,
        /// The name of the schedule's file.
        schedule: &'a str,
    },
    /// `copy OLD NEW`: the rows of the one archive, added to the other one, which has another name.
    Copy {
        /// The name of the archive that is read.
        from: &'a str,
        /// The name of the archive that is written.
        to: &'a str,
    },
    /// `import ROWS ARCHIVE`: the rows of a text, added to an archive, which has another name.
    Import {
        /// The name of the file of the text.
        rows: &'a str,
        /// The name of the archive that is written.
        archive: &'a str,
    },
    /// `station SETTINGS ARCHIVE ADDRESS`: one round of catching up with a console.
    Station(StationWords<'a>),
    /// `stay SETTINGS ARCHIVE ADDRESS ROUNDS WAITS`: rounds of catching up with a console over one line.
    Stay {
        /// What is named as for one round.
        names: StationWords<'a>,
        /// How many rounds are made at most, from 1 to 1,000,000.
        rounds: u32,
        /// How many quiet waits pass between two of them, up to 1,000,000.
        waits: u32,
    },
    /// `console SETTINGS SCHEDULE ADDRESS TURNS`: a new modelled console, served at an address.
    Console(ConsoleWords<'a>),
    /// `fleet SETTINGS SEED SCHEDULE ..`: the runs of one to eight schedules, turn by turn in an order that a number draws.
    Fleet(FleetWords<'a>),
    /// `make SEED N`: the counts of the run of a schedule that is made from a number.
    Make {
        /// The number.
        seed: u32,
        /// How many records are made.
        records: u32,
    },
}

impl<'a> Command<'a> {
    ghost use Rattle.command_words.specs.Command.{command_of_words, command_read, command_line_of, texts};
    ghost use Rattle.command_words.specs.Possible.{IsPossible};

    /// The command that the words spell. Words outside the table spell none.
    pub fn read(words: &[&'a str]) -> Option<Self>
        ensures command { command_line_of result ≡ command_of_words (texts words.now) }
        ensures possible { IfSome result (λ command. IsPossible (command_read command)) }
    {
        let (command, more) = words.split_first()?;
        match *command {
            "pages" => read_pages(more),
            "soft" => read_soft(more),
            "task" => read_call(more),
            "report" => read_report(more),
            "climate" => read_climate(more),
            "serve" => read_serve(more),
            "replay" => read_replay(more),
            "copy" => read_copy(more),
            "import" => read_import(more),
            "station" => read_station(more),
            "stay" => read_stay(more),
            "console" => read_console(more),
            "fleet" => read_fleet(more),
            "make" => read_make(more),
            _ => None,
        }
    }
}

ghost use Rattle.command_words.specs.Command.{climate_in, command_read, console_in, copy_in, fleet_in, command_line_of, import_in, make_in, pages_command_in, replay_in, report_in, serve_in, soft_in, station_in, stay_in, task_in, texts};
ghost use Rattle.command_words.specs.Possible.{IsPossible};

// `FILE`, or `SETTINGS FILE`.
fn read_pages<'a>(words: &[&'a str]) -> Option<Command<'a>>
    ensures command { command_line_of result ≡ pages_command_in (texts words.now) }
    ensures possible { IfSome result (λ command. IsPossible (command_read command)) }
{
    match *words {
        [file] => Some(Command::Pages(file)),
        [settings, file] => Some(Command::CorrectedPages { settings, file }),
        _ => None,
    }
}

// `SETTINGS FILE`.
fn read_soft<'a>(words: &[&'a str]) -> Option<Command<'a>>
    ensures command { command_line_of result ≡ soft_in (texts words.now) }
    ensures possible { IfSome result (λ command. IsPossible (command_read command)) }
{
    let [settings, file] = *words else {
        return None;
    };
    Some(Command::Soft { settings, file })
}

// `ADDRESS` and a task.
fn read_call<'a>(words: &[&'a str]) -> Option<Command<'a>>
    ensures command { command_line_of result ≡ task_in (texts words.now) }
    ensures possible { IfSome result (λ command. IsPossible (command_read command)) }
{
    let (address, more) = words.split_first()?;
    Some(Command::Task {
        address,
        task: read_task(more)?,
    })
}

// `ARCHIVE KIND FIRST LAST`.
fn read_report<'a>(words: &[&'a str]) -> Option<Command<'a>>
    ensures command { command_line_of result ≡ report_in (texts words.now) }
    ensures possible { IfSome result (λ command. IsPossible (command_read command)) }
{
    let [archive, kind, first, last] = *words else {
        return None;
    };
    Some(Command::Report {
        archive,
        wanted: read_wanted(kind, first, last)?,
    })
}

// `ARCHIVE YEAR`.
fn read_climate<'a>(words: &[&'a str]) -> Option<Command<'a>>
    ensures command { command_line_of result ≡ climate_in (texts words.now) }
    ensures possible { IfSome result (λ command. IsPossible (command_read command)) }
{
    let [archive, year] = *words else {
        return None;
    };
    let year = read_year(year, FIRST_YEAR, LAST_YEAR)? as u16;
    Some(Command::Climate { archive, year })
}

// `ARCHIVE ADDRESS TURNS`.
fn read_serve<'a>(words: &[&'a str]) -> Option<Command<'a>>
    ensures command { command_line_of result ≡ serve_in (texts words.now) }
    ensures possible { IfSome result (λ command. IsPossible (command_read command)) }
{
    let [archive, address, turns] = *words else {
        return None;
    };
    let turns = read_within(turns, 1, MOST_TURNS)? as u32;
    Some(Command::Serve {
        archive,
        address,
        turns,
    })
}

// `SETTINGS SCHEDULE`.
fn read_replay<'a>(words: &[&'a str]) -> Option<Command<'a>>
    ensures command { command_line_of result ≡ replay_in (texts words.now) }
    ensures possible { IfSome result (λ command. IsPossible (command_read command)) }
{
    let [settings, schedule] = *words else {
        return None;
    };
    Some(Command::Replay { settings, schedule })
}

// `OLD NEW`, two names that differ.
fn read_copy<'a>(words: &[&'a str]) -> Option<Command<'a>>
    ensures command { command_line_of result ≡ copy_in (texts words.now) }
    ensures possible { IfSome result (λ command. IsPossible (command_read command)) }
{
    let [from, to] = *words else {
        return None;
    };
    if from == to {
        return None;
    }
    Some(Command::Copy { from, to })
}

// `ROWS ARCHIVE`, two names that differ.
fn read_import<'a>(words: &[&'a str]) -> Option<Command<'a>>
    ensures command { command_line_of result ≡ import_in (texts words.now) }
    ensures possible { IfSome result (λ command. IsPossible (command_read command)) }
{
    let [rows, archive] = *words else {
        return None;
    };
    if rows == archive {
        return None;
    }
    Some(Command::Import { rows, archive })
}

// `SETTINGS ARCHIVE ADDRESS`.
fn read_station<'a>(words: &[&'a str]) -> Option<Command<'a>>
    ensures command { command_line_of result ≡ station_in (texts words.now) }
    ensures possible { IfSome result (λ command. IsPossible (command_read command)) }
{
    let [settings, archive, address] = *words else {
        return None;
    };
    Some(Command::Station(StationWords {
        settings,
        archive,
        address,
    }))
}

// `SETTINGS ARCHIVE ADDRESS ROUNDS WAITS`.
#[tactic(auto, unfolding(crate::specs::Command::stay_in))]
fn read_stay<'a>(words: &[&'a str]) -> Option<Command<'a>>
    ensures command { command_line_of result ≡ stay_in (texts words.now) }
    ensures possible { IfSome result (λ command. IsPossible (command_read command)) }
{
    let [settings, archive, address, rounds, waits] = *words else {
        return None;
    };
    let rounds = read_within(rounds, 1, MOST_ROUNDS)? as u32;
    let waits = read_within(waits, 0, MOST_WAITS)? as u32;
    Some(Command::Stay {
        names: StationWords {
            settings,
            archive,
            address,
        },
        rounds,
        waits,
    })
}

// `SETTINGS SCHEDULE ADDRESS TURNS`.
fn read_console<'a>(words: &[&'a str]) -> Option<Command<'a>>
    ensures command { command_line_of result ≡ console_in (texts words.now) }
    ensures possible { IfSome result (λ command. IsPossible (command_read command)) }
{
    let [settings, schedule, address, turns] = *words else {
        return None;
    };
    let turns = read_within(turns, 1, MOST_TURNS)? as u32;
    Some(Command::Console(ConsoleWords {
        settings,
        schedule,
        address,
        turns,
    }))
}

// `SETTINGS SEED SCHEDULE ..`, one to eight schedules.
#[tactic(auto, unfolding(crate::specs::Command::fleet_in))]
fn read_fleet<'a>(words: &[&'a str]) -> Option<Command<'a>>
    ensures command { command_line_of result ≡ fleet_in (texts words.now) }
    ensures possible { IfSome result (λ command. IsPossible (command_read command)) }
{
    let (settings, more) = words.split_first()?;
    let (seed, names) = more.split_first()?;
    let seed = read_within(seed, 0, MOST_SEED)? as u32;
    if names.is_empty() {
        return None;
    }
    let mut schedules = ArrayVec::new();
    schedules.try_extend_from_slice(names).ok()?;
    Some(Command::Fleet(FleetWords {
        settings,
        seed,
        schedules,
    }))
}

// `SEED N`.
#[tactic(auto, unfolding(crate::specs::Command::make_in))]
fn read_make<'a>(words: &[&'a str]) -> Option<Command<'a>>
    ensures command { command_line_of result ≡ make_in (texts words.now) }
    ensures possible { IfSome result (λ command. IsPossible (command_read command)) }
{
    let [seed, records] = *words else {
        return None;
    };
    let seed = read_within(seed, 0, MOST_SEED)? as u32;
    let records = read_within(records, 1, MOST_MADE)? as u32;
    Some(Command::Make { seed, records })
}
