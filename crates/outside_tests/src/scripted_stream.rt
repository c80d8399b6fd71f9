ghost use Rattle.std.specs.Prelude.{◌≤◌, IfOk};

use std::io::{self, ErrorKind, Read, Write};

/// What a call of the system is made to answer.
#[derive(Clone, Copy)]
pub enum Step {
    /// As many bytes move, or as many as there is room for.
    Moves(usize),
    /// It fails so.
    Fails(ErrorKind),
}

/// Reads or writes by a script, and ends where it ends.
#[derive(Drop)]
pub struct Scripted<'a> {
    steps: &'a [Step],
    /// How many calls were made.
    pub calls: usize,
    /// Of a writer, how many bytes it took.
    pub taken: usize,
}

impl<'a> Scripted<'a> {
    /// A stream that plays these steps.
    pub fn new(steps: &'a [Step]) -> Self {
        Scripted {
            steps,
            calls: 0,
            taken: 0,
        }
    }

    // What the next step moves.
    fn step(&mut self, room: usize) -> io::Result<usize>
        ensures { IfOk result (λ n. n ≤ room) }
    {
        let step = self.steps.get(self.calls).copied();
        self.calls = self.calls.saturating_add(1);
        match step {
            Some(Step::Moves(count)) => Ok(count.min(room)),
            Some(Step::Fails(kind)) => Err(kind.into()),
            None => Ok(0),
        }
    }
}

impl Read for Scripted<'_> {
    fn read(&mut self, buf: &mut [u8]) -> io::Result<usize> {
        let count = self.step(buf.len())?;
        buf[..count].fill(7);
        Ok(count)
    }
}

impl Write for Scripted<'_> {
    fn write(&mut self, buf: &[u8]) -> io::Result<usize> {
        let count = self.step(buf.len())?;
        self.taken = self.taken.saturating_add(count);
        Ok(count)
    }

    fn flush(&mut self) -> io::Result<()> {
        Ok(())
    }
}
