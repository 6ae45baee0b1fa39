// A reader and a writer of std as a source and a sink.
ghost use Rattle.std.specs.Prelude.{◌≡◌, ◌≤◌, ◌<◌, length};
ghost use Rattle.civl_outside.specs.Took.{TakesAtMost, TakesFrom, faults_after_read};
ghost use Rattle.civl_outside.specs.RealSource.{reader_of, read_faults};
ghost use Rattle.civl_outside.specs.RealSink.{writer_of, write_faults, write_stalls};
ghost use Rattle.civl_outside.specs.Wrote.{WritesAtMost, GivesTo, faults_after_write, stalls_after_write};

use crate::{Sink, Source, Took, Wrote};
use std::io::{Read, Write};

/// A source over a reader of std. It tells the bytes that the reader tells: none where it is the host's.
#[derive(Drop)]
pub struct RealSource<R> {
    reader: R,
    faults: u64,
}

impl<R: Read> RealSource<R> {
    /// No fault was counted yet.
    pub fn new(reader: R) -> RealSource<R>
        ensures reader { reader_of result ≡ reader }
        ensures faults { read_faults result ≡ 0 }
    {
        RealSource { reader, faults: 0 }
    }
}

impl<R: Read> Source for RealSource<R> {
    ghost left = { λ s. R.remaining (reader_of s) };

    ghost faults = { λ s. read_faults s };

    /// Counts a fault at each error of the reader, and at nothing else.
    fn read(&mut self, into: &mut [u8]) -> Took
        requires { 0 < length into.old }
        ensures counted { read_faults self.new ≡ faults_after_read (read_faults self.old) result }
        ensures bound { TakesAtMost result (length into.old) }
        ensures bytes { TakesFrom (R.remaining (reader_of self.old)) (R.remaining (reader_of self.new))
            result into.new }
        ensures never_falls { read_faults self.old ≤ read_faults self.new }
    {
        match self.reader.read(into) {
            Ok(0) => Took::End,
            Ok(count) => Took::Bytes(count),
            Err(_) => {
                self.faults = self.faults.saturating_add(1);
                Took::Failed
            }
        }
    }
}

/// A sink over a writer of std. It tells the bytes that the writer tells: none where it is the host's.
#[derive(Drop)]
pub struct RealSink<W> {
    writer: W,
    faults: u64,
    stalls: u64,
}

impl<W: Write> RealSink<W> {
    /// No fault and no stall was counted yet.
    pub fn new(writer: W) -> RealSink<W>
        ensures writer { writer_of result ≡ writer }
        ensures faults { write_faults result ≡ 0 }
        ensures stalls { write_stalls result ≡ 0 }
    {
        RealSink {
            writer,
            faults: 0,
            stalls: 0,
        }
    }
}

impl<W: Write> Sink for RealSink<W> {
    ghost written = { λ s. W.contents (writer_of s) };

    ghost faults = { λ s. write_faults s };

    ghost stalls = { λ s. write_stalls s };

    /// Counts a fault at each error of the writer, a stall where it took nothing of a piece that isn't empty,
    /// and neither at anything else.
    fn write(&mut self, bytes: &[u8]) -> Wrote
        ensures faults_counted { write_faults self.new ≡ faults_after_write (write_faults self.old) result }
        ensures stalls_counted { write_stalls self.new
            ≡ stalls_after_write (write_stalls self.old) result (length bytes.now) }
        ensures bound { WritesAtMost result (length bytes.now) }
        ensures bytes { GivesTo (W.contents (writer_of self.old)) (W.contents (writer_of self.new))
            result bytes.now }
        ensures faults_never_fall { write_faults self.old ≤ write_faults self.new }
        ensures stalls_never_fall { write_stalls self.old ≤ write_stalls self.new }
    {
        match self.writer.write(bytes) {
            Ok(count) => {
                if count == 0 && !bytes.is_empty() {
                    self.stalls = self.stalls.saturating_add(1);
                }
                Wrote::Bytes(count)
            }
            Err(_) => {
                self.faults = self.faults.saturating_add(1);
                Wrote::Failed
            }
        }
    }
}
