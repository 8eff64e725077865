// The streams of the standard library as a source and a sink.
//
// They tell no bytes: what a file or a terminal gives and takes is outside of every proof. What
// is proved is that no byte is lost or made up where the stream knows its bytes, and that each call
// that fails here is counted. That a call fails exactly where the stream's does, or where a writer
// takes nothing, is only tested: the library's streams say nothing of their errors in contracts.
ghost use Rattle.std.specs.Prelude.{◌≡◌, ◌<◌, ◌≤◌, length, None, IfOk, OnErr, OnOk};
ghost use Rattle.std.specs.Io.KnownBytes.{ReadConsumes, WriteAppends};
ghost use Rattle.hc_io.specs.Faults.{HasCause, one_more};
ghost use Rattle.hc_io.specs.Standard.{reader_of, writer_of, failed_reads, failed_writes};

use crate::counted::counted;
use crate::{Failed, Sink, Source};
use std::io::{Read, Write};

/// A reader of the standard library as a source that tells no bytes. What the reader gives is not
/// proved to be what a file holds or a user types.
#[derive(Drop)]
pub struct StdSource<R> {
    reader: R,
    faults: u64,
}

/// A writer of the standard library as a sink that tells no bytes. That what the writer took
/// reaches a file or a terminal is not proved.
#[derive(Drop)]
pub struct StdSink<W> {
    writer: W,
    faults: u64,
}

impl<R> StdSource<R> {
    /// A source over the reader, of which no read has failed yet.
    pub fn new(reader: R) -> StdSource<R>
        ensures reader { reader_of result ≡ reader }
        ensures faults { failed_reads result ≡ 0 }
    {
        StdSource { reader, faults: 0 }
    }
}

impl<W> StdSink<W> {
    /// A sink over the writer, of which no write has failed yet.
    pub fn new(writer: W) -> StdSink<W>
        ensures writer { writer_of result ≡ writer }
        ensures faults { failed_writes result ≡ 0 }
    {
        StdSink { writer, faults: 0 }
    }
}

impl<R: Read> Source for StdSource<R> {
    ghost left = { λ _. None };

    ghost faults = { failed_reads };

    /// One read of the reader. An error of the reader is `Failed`.
    fn read(&mut self, buffer: &mut [u8]) -> Result<usize, Failed>
        ensures within { IfOk result (λ n. n ≤ length buffer.new) }
        ensures cause { HasCause (failed_reads self.old) (failed_reads self.new) result }

        // What the reader promises of its bytes, and the exact count.
        ensures consumes { ReadConsumes (R.remaining (reader_of self.old))
            (R.remaining (reader_of self.new)) result buffer.new }
        ensures ok { OnOk result (failed_reads self.new ≡ failed_reads self.old) }
        ensures err { OnErr result (failed_reads self.new ≡ one_more (failed_reads self.old)) }
    {
        match self.reader.read(buffer) {
            Ok(count) => Ok(count),
            Err(_) => Err(counted(&mut self.faults)),
        }
    }
}

impl<W: Write> Sink for StdSink<W> {
    ghost written = { λ _. None };

    ghost faults = { failed_writes };

    /// One write of the writer. An error of the writer is `Failed`, and so is that it took nothing
    /// of a piece that is not empty: a caller that goes on until all is written would not end.
    fn write(&mut self, piece: &[u8]) -> Result<usize, Failed>
        ensures within { IfOk result (λ n. n ≤ length piece.now) }
        ensures some { 0 < length piece.now → IfOk result (λ n. 0 < n) }
        ensures cause { HasCause (failed_writes self.old) (failed_writes self.new) result }

        // What the writer promises of its bytes, and the exact count.
        ensures appends { WriteAppends (W.contents (writer_of self.old))
            (W.contents (writer_of self.new)) result piece.now }
        ensures ok { OnOk result (failed_writes self.new ≡ failed_writes self.old) }
        ensures err { OnErr result (failed_writes self.new ≡ one_more (failed_writes self.old)) }
    {
        match self.writer.write(piece) {
            Ok(count) if count > 0 || piece.is_empty() => Ok(count),
            _ => Err(counted(&mut self.faults)),
        }
    }
}
