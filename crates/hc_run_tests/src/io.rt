//! Tests of the public functions of `hc_io`: sources and sinks of a few bytes, with failures among the
//! calls. Expected bytes and counts were worked out by hand.
use hc_io::{Failed, MemSink, MemSource, Sink, Source, StdSink, StdSource, SureSource};
use hc_range::Bytes;
use sqlite_items::Items;
use std::io;
use std::io::{ErrorKind, Read, Write};
use std::test::Fail;

const FAILED: Result<usize, Failed> = Err(Failed);

// One read into three bytes, with the buffer after it.
fn read_three<S: Source>(source: &mut S) -> (Result<usize, Failed>, [u8; 3]) {
    let mut buffer = [0; 3];
    let answer = source.read(&mut buffer);
    (answer, buffer)
}

fn write_once<S: Sink>(sink: &mut S, piece: &[u8]) -> Result<usize, Failed> {
    sink.write(piece)
}

fn write_four_times<S: Sink>(sink: &mut S, piece: &[u8]) -> [Result<usize, Failed>; 4] {
    [
        sink.write(piece),
        sink.write(piece),
        sink.write(piece),
        sink.write(piece),
    ]
}

// A stream of which each read and each write fails.
#[derive(Drop)]
struct Broken;

impl Read for Broken {
    fn read(&mut self, _buffer: &mut [u8]) -> io::Result<usize> {
        Err(io::Error::from(ErrorKind::Other))
    }
}

impl Write for Broken {
    fn write(&mut self, _piece: &[u8]) -> io::Result<usize> {
        Err(io::Error::from(ErrorKind::Other))
    }

    fn flush(&mut self) -> io::Result<()> {
        Ok(())
    }
}

// A stream of which the first call alone fails.
#[derive(Drop)]
struct Faltering {
    has_failed: bool,
}

impl Read for Faltering {
    fn read(&mut self, buffer: &mut [u8]) -> io::Result<usize> {
        if self.has_failed {
            return Ok(buffer.len());
        }
        self.has_failed = true;
        Err(io::Error::from(ErrorKind::Interrupted))
    }
}

impl Write for Faltering {
    fn write(&mut self, piece: &[u8]) -> io::Result<usize> {
        if self.has_failed {
            return Ok(piece.len());
        }
        self.has_failed = true;
        Err(io::Error::from(ErrorKind::Interrupted))
    }

    fn flush(&mut self) -> io::Result<()> {
        Ok(())
    }
}

#[test]
fn memory_is_read_in_pieces_and_fails_where_listed(rt: HostRuntime) -> Result<(), Fail> {
    let bytes = Bytes::from_slice(rt.alloc(), b"abcdefg")?;
    let fails = Items::from_slice(rt.alloc(), &[2, 5])?;
    let mut source = MemSource::new(bytes, fails);
    let reads = [
        (Ok(3), *b"abc", 3, 0),
        (FAILED, [0; 3], 3, 1),
        (Ok(3), *b"def", 6, 1),
        (Ok(1), *b"g\0\0", 7, 1),
        (FAILED, [0; 3], 7, 2),
        (Ok(0), [0; 3], 7, 2),
    ];
    for (answer, buffer, at, faults) in reads {
        assert_eq!(rt; read_three(&mut source), (answer, buffer), "at {at}");
        assert_eq!(rt; (source.at, source.faults), (at, faults), "at {at}");
    }
    assert_eq!(rt; source.calls, 6);
    Ok(())
}

#[test]
fn nothing_is_left_past_the_end(rt: HostRuntime) -> Result<(), Fail> {
    let bytes = Bytes::from_slice(rt.alloc(), b"abc")?;
    let mut source = MemSource::new(bytes, Items::new(rt.alloc()));
    source.at = 9;
    assert_eq!(rt; read_three(&mut source), (Ok(0), [0; 3]));
    assert_eq!(rt; source.at, 9);
    Ok(())
}

#[test]
fn a_sure_source_is_read_to_its_end(rt: HostRuntime) -> Result<(), Fail> {
    let mut source = SureSource::new(Bytes::from_slice(rt.alloc(), b"abcd")?);
    for want in [(Ok(3), *b"abc"), (Ok(1), *b"d\0\0"), (Ok(0), [0; 3])] {
        assert_eq!(rt; read_three(&mut source), want);
    }
    Ok(())
}

#[test]
fn memory_takes_steps_until_its_room_is_gone(rt: HostRuntime) -> Result<(), Fail> {
    // The step, the room, a call that fails, four answers, the bytes and the faults after them.
    let cases = [
        (0, 9, 0, [Ok(1), Ok(1), Ok(1), Ok(1)], "aaaa", 0),
        (1, 2, 0, [Ok(1), Ok(1), FAILED, FAILED], "aa", 2),
        (3, 9, 0, [Ok(3), Ok(3), Ok(3), FAILED], "abcabcabc", 1),
        (3, 4, 2, [Ok(3), FAILED, Ok(1), FAILED], "abca", 2),
        (9, 9, 1, [FAILED, Ok(5), Ok(4), FAILED], "abcdeabcd", 2),
    ];
    for (step, room, failing, answers, written, faults) in cases {
        let fails = Items::from_slice(rt.alloc(), &[failing])?;
        let mut sink = MemSink::new(rt.alloc(), room, step, fails)?;
        assert_eq!(rt;
            write_four_times(&mut sink, b"abcde"),
            answers,
            "step {step}"
        );
        assert_eq!(rt; sink.written.as_slice(), written.as_bytes(), "step {step}");
        assert_eq!(rt; (sink.calls, sink.faults), (4, faults), "step {step}");
    }
    Ok(())
}

#[test]
fn an_empty_piece_fails_where_its_call_is_listed(rt: HostRuntime) -> Result<(), Fail> {
    let fails = Items::from_slice(rt.alloc(), &[1])?;
    let mut sink = MemSink::new(rt.alloc(), 0, 1, fails)?;
    assert_eq!(rt; write_once(&mut sink, b""), FAILED);
    assert_eq!(rt; write_once(&mut sink, b""), Ok(0));
    Ok(())
}

#[test]
fn a_reader_is_read_and_its_error_is_passed_on(rt: HostRuntime) {
    let mut source = StdSource::new(b"abcd".as_slice());
    for want in [(Ok(3), *b"abc"), (Ok(1), *b"d\0\0"), (Ok(0), [0; 3])] {
        assert_eq!(rt; read_three(&mut source), want);
    }
    let mut broken = StdSource::new(Broken);
    assert_eq!(rt; read_three(&mut broken).0, FAILED);
}

#[test]
fn a_writer_that_takes_nothing_has_failed(rt: HostRuntime) -> Result<(), Fail> {
    let mut written = Vec::new(rt.alloc());
    let mut sink = StdSink::new(&mut written);
    assert_eq!(rt; write_once(&mut sink, b"abc"), Ok(3));
    assert_eq!(rt; write_once(&mut sink, b"de"), Ok(2));
    assert_eq!(rt; written.as_slice(), b"abcde".as_slice());

    let mut memory = [0; 3];
    let mut small = StdSink::new(memory.as_mut_slice());
    assert_eq!(rt; write_once(&mut small, b"abcde"), Ok(3));
    assert_eq!(rt; write_once(&mut small, b"de"), FAILED);
    assert_eq!(rt; write_once(&mut small, b""), Ok(0));
    assert_eq!(rt; memory, *b"abc");

    let mut broken = StdSink::new(Broken);
    assert_eq!(rt; write_once(&mut broken, b""), FAILED);
    Ok(())
}

#[test]
fn a_failed_call_is_told_and_the_next_goes_through(rt: HostRuntime) {
    let mut source = StdSource::new(Faltering { has_failed: false });
    assert_eq!(rt; read_three(&mut source).0, FAILED);
    assert_eq!(rt; read_three(&mut source), (Ok(3), [0; 3]));

    let mut sink = StdSink::new(Faltering { has_failed: false });
    assert_eq!(rt; write_once(&mut sink, b"abc"), FAILED);
    assert_eq!(rt; write_once(&mut sink, b"abc"), Ok(3));
}
