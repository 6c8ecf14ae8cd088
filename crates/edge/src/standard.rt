//! A source and a sink over std's readers and writers. What a file or a terminal gives is not known, so as a source and a sink they tell
//! no content; what they take from a reader and hand to a writer is told of those that tell it.
ghost use Rattle.std.specs.Prelude.{◌≡◌, ◌≤◌, ◌<◌, None, length, is_err, IfOk, OnOk, OnErr};
ghost use Rattle.std.specs.Io.KnownBytes.{Appends, ReadConsumes};
ghost use Rattle.tcmu_types.specs.Numbered.{HasCause, next_call};
ghost use Rattle.edge.specs.Outside.{CountsFailed};
ghost use Rattle.edge.specs.Standard.{AppendsFront};

use crate::{Failed, Sink, Source};
use std::io::{Read, Write};
use std::marker::Model;

/// A reader as a source, which contracts see as the reader beside its counts of reads and of faults.
#[derive(Drop)]
pub struct StdSource<R: Read> {
    reader: R,
    reads: u64,
    faults: u64,
}

impl<R: Read> Model for StdSource<R> {
    ghost use Rattle.edge.specs.Standard.{CountedReader};

    ghost Value = { CountedReader R };

    ghost view = { λ s. record { inner = s.reader; reads = s.reads; faults = s.faults } };
}

impl<R: Read> StdSource<R> {
    /// The reader as a source of which no call was made.
    pub fn new(reader: R) -> StdSource<R>
        ensures { result ≡ record { inner = reader; reads = 0; faults = 0 } }
    {
        StdSource {
            reader,
            reads: 0,
            faults: 0,
        }
    }
}

impl<R: Read> Source for StdSource<R> {
    ghost left = { λ _. None };

    ghost reads = { λ s. s.reads };

    ghost faults = { λ s. s.faults };

    /// One read of the reader. Where the reader tells what it has left, a call that did not fail took just what it gave from the front
    /// of it, and `Ok(0)` for an `into` that is not empty comes only at its end; a failed call took no byte.
    fn read(&mut self, into: &mut [u8]) -> Result<usize, Failed>
        ensures within { IfOk result (λ n. n ≤ length into.new) }
        ensures reads { self.new.reads ≡ next_call self.old.reads }
        ensures cause { HasCause self.old.faults self.new.faults result }
        ensures count { CountsFailed self.old.faults (is_err result) self.new.faults }
        ensures bytes { ReadConsumes (R.remaining self.old.inner) (R.remaining self.new.inner) result into.new }
    {
        self.reads = self.reads.saturating_add(1);
        match self.reader.read(into) {
            Ok(count) => Ok(count),
            Err(_) => {
                self.faults = self.faults.saturating_add(1);
                Err(Failed)
            }
        }
    }
}

/// A writer as a sink, which contracts see as the writer beside its count of faults. A writer that takes nothing of a piece that is not
/// empty has failed.
#[derive(Drop)]
pub struct StdSink<W: Write> {
    writer: W,
    faults: u64,
}

impl<W: Write> Model for StdSink<W> {
    ghost use Rattle.edge.specs.Standard.{CountedWriter};

    ghost Value = { CountedWriter W };

    ghost view = { λ s. record { inner = s.writer; faults = s.faults } };
}

impl<W: Write> StdSink<W> {
    /// The writer as a sink of which no call has failed.
    pub fn new(writer: W) -> StdSink<W>
        ensures { result ≡ record { inner = writer; faults = 0 } }
    {
        StdSink { writer, faults: 0 }
    }
}

impl<W: Write> Sink for StdSink<W> {
    ghost written = { λ _. None };

    ghost faults = { λ s. s.faults };

    /// Writes until the writer has the whole piece or fails. Where the writer tells its bytes, they grew by the piece, and in a failed
    /// call by a front of it.
    fn write(&mut self, piece: &[u8]) -> Result<(), Failed>
        ensures cause { HasCause self.old.faults self.new.faults result }
        ensures count { CountsFailed self.old.faults (is_err result) self.new.faults }
        ensures whole { OnOk result (Appends (W.contents self.old.inner) (W.contents self.new.inner) piece.now) }
        ensures front { OnErr result (AppendsFront (W.contents self.old.inner) (W.contents self.new.inner) piece.now) }
    {
        let mut rest = piece;
        while !rest.is_empty() {
            match self.writer.write(rest) {
                Ok(count) if count != 0 => rest = &rest[count..],
                _ => {
                    self.faults = self.faults.saturating_add(1);
                    return Err(Failed);
                }
            }
        }
        Ok(())
    }
}
