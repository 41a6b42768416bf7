//! Readers and writers of std as a source and a sink. Each counts the errors that it passes on.
ghost use Rattle.std.specs.Prelude.{◌≡◌, ◌<◌, ℕ, length, is_err, IfOk};
ghost use Rattle.std.specs.Io.{ReadsAtMost, WritesAtMost};
ghost use Rattle.std.specs.Io.KnownBytes.{Keeps, ReadConsumes, WriteAppends};
ghost use Rattle.mz_io.specs.Causes.{HasCause, Rose, faults_after};
ghost use Rattle.mz_io.specs.Adapters.{Reader, Writer};

use super::sink::Sink;
use super::source::{Failed, Source};
use std::io::{Read, Write};
use std::marker::Model;

/// A source over a reader. Each error of the reader is a fault.
#[derive(Drop)]
pub struct ReadSource<R: Read> {
    reader: R,
    faults: u64,
}

impl<R: Read> Model for ReadSource<R> {
    ghost Value = { Reader };

    ghost view = { λ s. record { left = R.remaining s.reader; faults = s.faults } };
}

impl<R: Read> ReadSource<R> {
    /// Reads from this reader. No fault was counted yet.
    pub fn new(reader: R) -> ReadSource<R>
        ensures left { result.left ≡ R.remaining reader }
        ensures faults { result.faults ≡ 0 }
    {
        ReadSource { reader, faults: 0 }
    }

    /// The reader, with what it has left.
    pub fn into_inner(self) -> R
        ensures { R.remaining result ≡ self.left }
    {
        let ReadSource { reader, faults: _ } = self;
        reader
    }
}

impl<R: Read> Source for ReadSource<R> {
    ghost left = { λ s. s.left };

    ghost faults = { λ s. s.faults };

    fn read(&mut self, into: &mut [u8]) -> Result<usize, Failed>
        ensures bound { ReadsAtMost result into.new }
        ensures bytes { ReadConsumes self.old.left self.new.left result into.new }
        ensures cause { HasCause self.old.faults self.new.faults result }

        // The count rises by one where this answers `Failed`, and only there.
        ensures counted { self.new.faults ≡ faults_after self.old.faults (is_err result) }
    {
        match self.reader.read(into) {
            Ok(count) => Ok(count),
            Err(_) => Err(Failed::counted(&mut self.faults)),
        }
    }
}

/// A sink over a writer. Each error of the writer is a fault, and so is each piece of which it takes nothing.
#[derive(Drop)]
pub struct WriteSink<W: Write> {
    writer: W,
    faults: u64,
}

impl<W: Write> Model for WriteSink<W> {
    ghost Value = { Writer };

    ghost view = { λ s. record { written = W.contents s.writer; faults = s.faults } };
}

impl<W: Write> WriteSink<W> {
    /// Writes to this writer. No fault was counted yet.
    pub fn new(writer: W) -> WriteSink<W>
        ensures written { result.written ≡ W.contents writer }
        ensures faults { result.faults ≡ 0 }
    {
        WriteSink { writer, faults: 0 }
    }

    /// The writer, with what it holds.
    pub fn into_inner(self) -> W
        ensures { W.contents result ≡ self.written }
    {
        let WriteSink { writer, faults: _ } = self;
        writer
    }
}

impl<W: Write> Sink for WriteSink<W> {
    ghost written = { λ s. s.written };

    ghost faults = { λ s. s.faults };

    fn write(&mut self, piece: &[u8]) -> Result<usize, Failed>
        ensures bound { WritesAtMost result piece.now }
        ensures bytes { WriteAppends self.old.written self.new.written result piece.now }
        ensures cause { HasCause self.old.faults self.new.faults result }
        ensures none { IfOk result (λ count.
            count ≡ 0 → 0 < length piece.now → Rose self.old.faults self.new.faults) }

        // The count rises by one where this answers `Failed`, and only there.
        ensures counted { self.new.faults ≡ faults_after self.old.faults (is_err result) }
    {
        match self.writer.write(piece) {
            Ok(0) if !piece.is_empty() => Err(Failed::counted(&mut self.faults)),
            Ok(count) => Ok(count),
            Err(_) => Err(Failed::counted(&mut self.faults)),
        }
    }

    fn flush(&mut self) -> Result<(), Failed>
        ensures bytes { Keeps self.old.written self.new.written }
        ensures cause { HasCause self.old.faults self.new.faults result }
        ensures counted { self.new.faults ≡ faults_after self.old.faults (is_err result) }
    {
        match self.writer.flush() {
            Ok(()) => Ok(()),
            Err(_) => Err(Failed::counted(&mut self.faults)),
        }
    }
}
