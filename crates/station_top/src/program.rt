ghost use Rattle.std.specs.Prelude.{◌≡◌, ◌≢◌, ◌<◌, ◌≤◌, ◌^◌, map, IfSome, IfNone};
ghost use Rattle.causes.specs.Cause.{Cause};
ghost use Rattle.command_words.specs.Command.{command_of_words, command_read, command_line_of, texts};
ghost use Rattle.command_words.specs.Possible.{IsPossible};
ghost use Rattle.run_output.specs.Causes.{RoseOnOne, WentWell};
ghost use Rattle.run_output.specs.Ended.{IsOneOf};
ghost use Rattle.run_output.specs.Output.{code};
ghost use Rattle.run_output.specs.Outside.{means};
ghost use Rattle.station_top.specs.Run.{IsUsage, Performs, Promises, may_be_hidden, performs_words};

use command_words::Command;
use commands::{
    answer_requests, call_for, catch_up, copy_files, corrected_pages, import_text, print_climate,
    print_file, report, soft_rows, stay,
};
use disk_model::Disk;
use model_commands::{make_run, replay_files, run_fleet, serve_files};
use run_output::{Ending, Outside, Status, Text, finish};
use serial_link::Link;
use station_io::{Files, Sink};
use std::alloc::Global;

/// Does what the words say, and answers the status with which the program ends.
pub fn run<F: Files, K: Sink, L: Link, D: Disk>(
    alloc: Global,
    words: &[&str],
    outside: &mut Outside<F, K, L, D>,
) -> u8
    // No disk has begun so many changes that there is no room for those of a round or a copy.
    requires disk_room { D.medium.moment outside.old.disk < 2 ^ 63 }
    requires second_room { D.medium.moment outside.old.second < 2 ^ 63 }

    // Words outside the table are answered by a line of their own, no file is read, and nothing is connected or attached.
    ensures usage { IfNone (command_of_words (texts words.now)) (IsUsage K.outlet outside.old outside.new result) }

    // The files that the words name are each read once, in the order of the words, the address that they name is called
    // once, or waited at once, the archives that they name are each attached once, and what came of that decides what is
    // written and how the program ends.
    ensures command { IfSome (command_of_words (texts words.now)) (λ command.
        Performs (means F.shelf K.outlet L.traffic D.medium) command outside.old outside.new result) }

    // The faults of the outside have a cause.
    ensures read_fault { Cause (F.shelf.faults outside.old.files) (F.shelf.faults outside.new.files) (result ≡ 8) }
    ensures write_fault { Cause (K.outlet.faults outside.old.out) (K.outlet.faults outside.new.out) (result ≡ 9) }
    ensures link_fault { Cause (L.traffic.faults outside.old.link) (L.traffic.faults outside.new.link) (result ≡ 6) }
    ensures disk_fault { result ≡ 7
        → RoseOnOne D.medium outside.old.disk outside.old.second outside.new.disk outside.new.second }
    ensures disk_never_falls { D.medium.faults outside.old.disk ≤ D.medium.faults outside.new.disk }
    ensures second_never_falls { D.medium.faults outside.old.second ≤ D.medium.faults outside.new.second }

    // Where none is answered, no fault was counted. A read fault whose line could not be written ends with 9.
    ensures files_still { result ≢ 8 → result ≢ 9
        → F.shelf.faults outside.new.files ≡ F.shelf.faults outside.old.files }
    ensures sink_still { result ≢ 9 → K.outlet.faults outside.new.out ≡ K.outlet.faults outside.old.out }

    // Nor did a call of a disk fail. A disk fault whose line could not be written ends with 9, and one behind which the link failed
    // as the link has it.
    ensures disk_well { result ≢ 7 → ¬ (IsOneOf (map code (may_be_hidden (command_of_words (texts words.now)))) result)
        → WentWell D.medium outside.old.disk outside.new.disk }
    ensures second_well { result ≢ 7
        → ¬ (IsOneOf (map code (may_be_hidden (command_of_words (texts words.now)))) result)
        → WentWell D.medium outside.old.second outside.new.second }

    // Over good input the command is done, unless the outside failed or memory was wanting.
    ensures promised { IfSome (command_of_words (texts words.now)) (λ command.
        Promises (means F.shelf K.outlet L.traffic D.medium) command outside.old outside.new result) }
{
    let ended = perform(alloc, Command::read(words), outside);
    finish(ended, &mut outside.out).number()
}

// Does what a command says, up to its last lines.
fn perform<F: Files, K: Sink, L: Link, D: Disk>(
    alloc: Global,
    command: Option<Command<'_>>,
    outside: &mut Outside<F, K, L, D>,
) -> Result<Text, Ending>
    requires possible { IfSome command (λ command. IsPossible (command_read command)) }
    requires disk_room { D.medium.moment outside.old.disk < 2 ^ 63 }
    requires second_room { D.medium.moment outside.old.second < 2 ^ 63 }
    ensures { performs_words (means F.shelf K.outlet L.traffic D.medium)
        (command_line_of command.entry) outside.old result outside.new }
{
    match command {
        Some(Command::Pages(file)) => print_file(alloc, file, outside),
        Some(Command::CorrectedPages { settings, file }) => {
            corrected_pages(alloc, settings, file, outside)
        }
        Some(Command::Soft { settings, file }) => soft_rows(alloc, settings, file, outside),
        Some(Command::Task { address, task }) => call_for(address, &task, outside),
        Some(Command::Report { archive, wanted }) => report(alloc, archive, &wanted, outside),
        Some(Command::Climate { archive, year }) => print_climate(alloc, archive, year, outside),
        Some(
            Command::Serve {
                archive,
                address,
                turns,
            },
        ) => answer_requests(alloc, archive, address, turns, outside),
        Some(Command::Replay { settings, schedule }) => {
            replay_files(alloc, settings, schedule, outside)
        }
        Some(Command::Copy { from, to }) => copy_files(alloc, from, to, outside),
        Some(Command::Import { rows, archive }) => import_text(alloc, rows, archive, outside),
        Some(Command::Station(names)) => catch_up(alloc, &names, outside),
        Some(
            Command::Stay {
                names,
                rounds,
                waits,
            },
        ) => stay(alloc, &names, rounds, waits, outside),
        Some(Command::Console(names)) => serve_files(alloc, &names, outside),
        Some(Command::Fleet(names)) => run_fleet(alloc, &names, outside),
        Some(Command::Make { seed, records }) => make_run(alloc, seed, records),
        None => Err(Ending::with_line(b"usage\n", Status::Usage)),
    }
}
