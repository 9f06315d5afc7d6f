//! The files of the system that a desk keeps open.

ghost use Rattle.std.specs.Prelude.{◌≤◌, length, IfOk};
ghost use Rattle.std.specs.Io.{WritesAtMost};

use std::fs::{self, OpenOptions};
use std::io::{self, Read, Seek, SeekFrom, Write};
use std::rt::Files;

/// A file that is open to be read, and where it stands, if that is known.
#[derive(Drop)]
struct Reading<F> {
    file: F,
    position: Option<u64>,
}

impl<F: Read + Seek> Reading<F> {
    /// Reads once from a place on. It seeks only where the file doesn't stand there, so that a pipe can be read.
    fn read_at(&mut self, at: u64, into: &mut [u8]) -> io::Result<usize>
        ensures { IfOk result (λ n. n ≤ length into.new) }
    {
        if self.position != Some(at) {
            self.file.seek(SeekFrom::Start(at))?;
        }
        self.position = None;
        let count = self.file.read(into)?;
        self.position = at.checked_add(count as u64);
        Ok(count)
    }
}

/// The files of one name that are open: the one that is read, and the one that is written.
#[derive(Drop)]
pub(crate) struct OpenFiles<F> {
    reading: Option<Reading<F>>,
    writing: Option<F>,
}

impl<F> OpenFiles<F> {
    pub(crate) fn new() -> OpenFiles<F> {
        OpenFiles {
            reading: None,
            writing: None,
        }
    }
}

impl<F: Read + Write + Seek> OpenFiles<F> {
    /// Reads a file's bytes from a place on, by one read. The file is opened anew to be read from its start,
    /// and then stays open.
    pub(crate) fn read_once<R: Files<File = F>>(
        &mut self,
        rt: &R,
        name: &str,
        at: u64,
        into: &mut [u8],
    ) -> io::Result<usize>
        ensures { IfOk result (λ n. n ≤ length into.new) }
    {
        let mut reading = match self.reading.take() {
            Some(reading) if at > 0 => reading,
            _ => Reading {
                file: fs::open(rt, name)?,
                position: Some(0),
            },
        };
        let count = reading.read_at(at, into);
        self.reading = Some(reading);
        count
    }

    /// Creates a file, or empties it, and keeps it open.
    pub(crate) fn create<R: Files<File = F>>(&mut self, rt: &R, name: &str) -> io::Result<()> {
        self.writing = None;
        self.writing = Some(fs::create(rt, name)?);
        Ok(())
    }

    /// Writes a piece at the end of a file, by one write. The file stays open.
    pub(crate) fn append_once<R: Files<File = F>>(
        &mut self,
        rt: &R,
        name: &str,
        piece: &[u8],
    ) -> io::Result<usize>
        ensures { WritesAtMost result piece.now }
    {
        let mut writing = match self.writing.take() {
            Some(writing) => writing,
            None => OpenOptions::new().append(true).create(true).open(rt, name)?,
        };
        let count = writing.write(piece);
        self.writing = Some(writing);
        count
    }
}
