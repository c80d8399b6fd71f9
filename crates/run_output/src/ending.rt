ghost use Rattle.std.specs.Prelude.{◌≡◌, ◌≤◌, [], length};

use crate::status::Status;
use crate::text::{ROOM, Text};
use std::marker::Model;

/// How a run ends before its command is done: its last lines, which may be none, and its status.
#[derive(Debug, Drop)]
pub struct Ending {
    text: Text,
    status: Status,
}

impl Model for Ending {
    ghost use Rattle.run_output.specs.Output.{Output};

    ghost Value = { Output };

    ghost view = { λ a. record { text = a.text.items; status = a.status } };
}

impl Ending {
    /// An ending with these lines.
    pub fn new(text: Text, status: Status) -> Ending
        ensures { result ≡ record { text = text.items; status = status } }
    {
        Ending { text, status }
    }

    /// An ending with this line.
    pub fn with_line(line: &[u8], status: Status) -> Ending
        requires { length line.now ≤ ROOM }
        ensures { result ≡ record { text = line.now; status = status } }
    {
        let mut text = Text::new();
        text.try_extend_from_slice(line).unwrap();
        Ending { text, status }
    }

    /// An ending without a line.
    pub fn silent(status: Status) -> Ending
        ensures { result ≡ record { text = []; status = status } }
    {
        Ending {
            text: Text::new(),
            status,
        }
    }

    /// The lines.
    pub fn text(&self) -> &[u8]
        ensures { result.now ≡ self.now.text }
    {
        &self.text
    }

    /// The status.
    pub fn status(&self) -> Status
        ensures { result ≡ self.now.status }
    {
        self.status
    }
}
