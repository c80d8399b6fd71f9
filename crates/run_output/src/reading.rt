ghost use Rattle.run_output.specs.Reading.{SaysSettings, reads, settles};

use crate::ending::Ending;
use crate::status::Status;
use settings_file::{Settings, SettingsFault};
use station_io::{Files, TextRead};
use std::alloc::Global;

/// Reads a whole file.
pub fn read<F: Files>(alloc: Global, files: &mut F, name: &str) -> Result<Vec<u8>, Ending>
    ensures { reads F.shelf name.now files.old result files.new }
{
    let mut bytes = Vec::new(alloc);
    match files.text(alloc, name, &mut bytes) {
        TextRead::Done => Ok(bytes),
        TextRead::Failed => Err(Ending::with_line(b"read fault\n", Status::ReadFault)),
        TextRead::TooLong => Err(Ending::with_line(b"file too long\n", Status::TooLong)),
        TextRead::OutOfMemory => Err(Ending::silent(Status::OutOfMemory)),
    }
}

/// Reads a file of settings.
pub fn settle<F: Files>(alloc: Global, files: &mut F, name: &str) -> Result<Settings, Ending>
    ensures { settles F.shelf name.now files.old result files.new }
{
    let text = read(alloc, files, name)?;
    settings_in(alloc, &text)
}

// The settings that a text says.
fn settings_in(alloc: Global, text: &[u8]) -> Result<Settings, Ending>
    ensures { SaysSettings text.now result }
{
    match Settings::read(alloc, text) {
        Ok(settings) => Ok(settings),
        Err(SettingsFault::OutOfMemory) => Err(Ending::silent(Status::OutOfMemory)),
        Err(fault) => Err(Ending::with_line(&fault.line(), Status::BadSettings)),
    }
}
