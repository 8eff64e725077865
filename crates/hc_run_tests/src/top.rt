//! Tests of `top_step`, the whole program over memory. Expected outputs were worked out by hand from the
//! rules of docs/PROGRAM.md, and so was what is in the language and what is not.
use hc_io::{MemSink, MemSource};
use hc_range::Bytes;
use hc_top::{InputKind, Status, top_step};
use hc_value::{NoMemory, Str};
use sqlite_items::Items;
use std::alloc::Global;
use std::test::Fail;

const FIRST: &str = "INSERT INTO t VALUES(1,10); SELECT v FROM t WHERE id=1;";

const FIRST_OUTPUT: &str = "conn 0\nok 1\ncommit 1\nrow 10\nok 1\nsnapshot 1\n";

const THREE_OUTPUT: &str = "conn 0\nok 0\nsnapshot 0\nok 1\ncommit 1\nrow 4\nok 1\nsnapshot 1\n";

const UNBUILT: Status = Status::Input {
    at: 0,
    kind: InputKind::Unbuilt,
};

fn words_of(alloc: Global, words: &[&str]) -> Result<Vec<Str>, NoMemory> {
    let mut all = Vec::new(alloc);
    for word in words {
        all.push(Str::from_text(alloc, word)?)?;
    }
    Ok(all)
}

// Runs the program on an input, with a sink that takes seven bytes a call.
fn run(alloc: Global, words: &[&str], input: &[u8]) -> Result<(Status, MemSink), NoMemory> {
    let words = words_of(alloc, words)?;
    let mut source = MemSource::new(Bytes::from_slice(alloc, input)?, Items::new(alloc));
    let mut sink = MemSink::new(alloc, 4096, 7, Items::new(alloc))?;
    let status = top_step(alloc, &words, &mut source, &mut sink);
    Ok((status, sink))
}

#[test]
fn scripts_give_their_outputs_or_are_refused_whole(rt: HostRuntime) -> Result<(), Fail> {
    let cases = [
        (FIRST, Status::Done, FIRST_OUTPUT),
        (
            "INSERT INTO t VALUES(1,10); INSERT INTO t VALUES(1,11);",
            Status::Done,
            "conn 0\nok 1\ncommit 1\nerror 1555 't' 'id'\nrolled back 1\n",
        ),
        (
            "SELECT v FROM t WHERE id=9;",
            Status::Done,
            "conn 0\nok 0\nsnapshot 0\n",
        ),
        ("DELETE", UNBUILT, ""),
        ("", Status::Done, ""),
        (" ", Status::Done, ""),
        ("\n", Status::Done, ""),
        (" \n \n", Status::Done, ""),
        (" \n\n  ", Status::Done, ""),
        (
            "SELECT v FROM t WHERE id=3;INSERT INTO t VALUES(3,4);SELECT v FROM t WHERE id=3;",
            Status::Done,
            THREE_OUTPUT,
        ),
        (
            "\nSELECT v FROM t WHERE id=3;  INSERT INTO t VALUES(3,4);\n\nSELECT v FROM t WHERE id=3; \n",
            Status::Done,
            THREE_OUTPUT,
        ),
        (
            "\nINSERT INTO t VALUES(9223372036854775807,0);INSERT INTO t VALUES(0,9223372036854775807);\nSELECT v FROM t WHERE id=0;\nSELECT v FROM t WHERE id=9223372036854775807;\n",
            Status::Done,
            "conn 0\nok 1\ncommit 1\nok 1\ncommit 2\nrow 9223372036854775807\nok 1\nsnapshot 2\nrow 0\nok 1\nsnapshot 2\n",
        ),
        ("INSERT INTO t VALUES(1,10); DELETE", UNBUILT, ""),
        ("SELECT v FROM t WHERE id=-1;", UNBUILT, ""),
        ("\0", UNBUILT, ""),
    ];
    for (input, status, output) in cases {
        let (found, sink) = run(rt.alloc(), &[], input.as_bytes())?;
        assert_eq!(rt; found, status, "for {input}");
        assert_eq!(rt; sink.written.as_slice(), output.as_bytes(), "for {input}");
        // Nothing to write is no call of the sink.
        assert_eq!(rt; sink.calls > 0, !output.is_empty(), "for {input}");
    }
    Ok(())
}

#[test]
fn words_are_none_or_the_mode_step(rt: HostRuntime) -> Result<(), Fail> {
    let script = b"SELECT v FROM t WHERE id=9;".as_slice();
    let cases = [
        ([].as_slice(), Status::Done),
        (&["--mode", "step"], Status::Done),
        (&["--mode"], Status::Words),
        (&["--mode", "run"], Status::Words),
        (&["--mode=step"], Status::Words),
        (&["step", "--mode"], Status::Words),
        (&["--mode", "step", "--mode"], Status::Words),
        (&["--pages", "16"], Status::Words),
        (&[""], Status::Words),
    ];
    for (words, want) in cases {
        let (status, sink) = run(rt.alloc(), words, script)?;
        assert_eq!(rt; status, want, "for {words:?}");
        assert_eq!(rt;
            sink.written.is_empty(),
            want == Status::Words,
            "for {words:?}"
        );
    }
    Ok(())
}

// Runs the first script where these calls fail, and gives the source and the sink after it.
fn run_first(
    alloc: Global,
    failing_read: u64,
    failing_write: u64,
    room: u64,
) -> Result<(Status, MemSource, MemSink), NoMemory> {
    let words = words_of(alloc, &["--mode", "step"])?;
    let bytes = Bytes::from_slice(alloc, FIRST.as_bytes())?;
    let mut source = MemSource::new(bytes, Items::from_slice(alloc, &[failing_read])?);
    let mut sink = MemSink::new(alloc, room, 4, Items::from_slice(alloc, &[failing_write])?)?;
    let status = top_step(alloc, &words, &mut source, &mut sink);
    Ok((status, source, sink))
}

#[test]
fn a_failed_read_writes_nothing(rt: HostRuntime) -> Result<(), Fail> {
    // One read brings the whole input, the second finds its end, and there is no third.
    for (failing, want) in [
        (1, Status::ReadFault),
        (2, Status::ReadFault),
        (3, Status::Done),
    ] {
        let (status, source, sink) = run_first(rt.alloc(), failing, 0, 4096)?;
        assert_eq!(rt; status, want, "at read {failing}");
        let is_done = want == Status::Done;
        assert_eq!(rt; source.faults, u64::from(!is_done), "at read {failing}");
        let written = if is_done { FIRST_OUTPUT } else { "" };
        assert_eq!(rt;
            sink.written.as_slice(),
            written.as_bytes(),
            "at read {failing}"
        );
        assert_eq!(rt; sink.calls > 0, is_done, "at read {failing}");
    }
    Ok(())
}

#[test]
fn a_failed_write_leaves_a_front(rt: HostRuntime) -> Result<(), Fail> {
    // The output has 44 bytes, so it takes eleven writes of four bytes.
    for failing in 1..=12u64 {
        let (status, _source, sink) = run_first(rt.alloc(), 0, failing, 4096)?;
        let written = FIRST_OUTPUT.len().min(4 * (failing as usize - 1));
        let want = if failing < 12 {
            Status::WriteFault
        } else {
            Status::Done
        };
        assert_eq!(rt; status, want, "at write {failing}");
        assert_eq!(rt;
            sink.written.as_slice(),
            &FIRST_OUTPUT.as_bytes()[..written],
            "at write {failing}"
        );
        assert_eq!(rt; sink.calls, failing.min(11), "at write {failing}");
    }
    Ok(())
}

#[test]
fn a_full_sink_has_what_fitted(rt: HostRuntime) -> Result<(), Fail> {
    for room in [0u64, 1, 7, 43] {
        let (status, _source, sink) = run_first(rt.alloc(), 0, 0, room)?;
        assert_eq!(rt; status, Status::WriteFault, "with room for {room}");
        let fitted = FIRST_OUTPUT.len().min(room as usize);
        assert_eq!(rt;
            sink.written.as_slice(),
            &FIRST_OUTPUT.as_bytes()[..fitted],
            "with room for {room}"
        );
    }
    let (status, _source, _sink) = run_first(rt.alloc(), 0, 0, 44)?;
    assert_eq!(rt; status, Status::Done);
    Ok(())
}

#[test]
fn a_statement_is_read_with_its_numbers_and_the_blanks_around_it(
    rt: HostRuntime,
) -> Result<(), Fail> {
    // Each INSERT is followed by a SELECT of its id.
    let inserts = [
        ("INSERT INTO t VALUES(1,2);", "1", "2"),
        ("  \nINSERT INTO t VALUES(7,0);", "7", "0"),
        ("INSERT INTO t VALUES(0,10);\n \n", "0", "10"),
        (
            "INSERT INTO t VALUES(9223372036854775807,9223372036854775806);",
            "9223372036854775807",
            "9223372036854775806",
        ),
    ];
    for (text, id, v) in inserts {
        let script = format!(in rt.alloc(); "{text}SELECT v FROM t WHERE id={id};")?;
        let (status, sink) = run(rt.alloc(), &[], script.as_bytes())?;
        assert_eq!(rt; status, Status::Done, "{text:?}");
        let output = format!(in rt.alloc(); "conn 0\nok 1\ncommit 1\nrow {v}\nok 1\nsnapshot 1\n")?;
        assert_eq!(rt; sink.written.as_slice(), output.as_bytes(), "{text:?}");
    }
    // Each SELECT follows an INSERT of its id.
    let selects = [
        ("SELECT v FROM t WHERE id=0;", "0"),
        ("SELECT v FROM t WHERE id=10;", "10"),
        (
            "\n SELECT v FROM t WHERE id=9223372036854775807; ",
            "9223372036854775807",
        ),
    ];
    for (text, id) in selects {
        let script = format!(in rt.alloc(); "INSERT INTO t VALUES({id},7);{text}")?;
        let (status, sink) = run(rt.alloc(), &[], script.as_bytes())?;
        assert_eq!(rt; status, Status::Done, "{text:?}");
        assert_eq!(rt;
            sink.written.as_slice(),
            b"conn 0\nok 1\ncommit 1\nrow 7\nok 1\nsnapshot 1\n".as_slice(),
            "{text:?}"
        );
    }
    Ok(())
}

#[test]
fn what_is_not_in_the_language_is_unbuilt(rt: HostRuntime) -> Result<(), Fail> {
    let texts = [
        "SELECT v FROM t WHERE id=9223372036854775808;".as_bytes(),
        b"INSERT INTO t VALUES(1,9223372036854775808);",
        b"SELECT v FROM t WHERE id=100000000000000000000;",
        b"SELECT v FROM t WHERE id=01;",
        b"INSERT INTO t VALUES(00,1);",
        b"SELECT v FROM t WHERE id=-1;",
        b"SELECT v FROM t WHERE id=+1;",
        b"SELECT v FROM t WHERE id=;",
        b"SELECT v FROM t WHERE id=1",
        b"INSERT INTO t VALUES(1,2)",
        b"INSERT INTO t VALUES(1;2);",
        b"select v from t where id=1;",
        b"INSERT  INTO t VALUES(1,2);",
        b"INSERT INTO t VALUES(1, 2);",
        b"SELECT v FROM t WHERE id=1 ;",
        b"\tSELECT v FROM t WHERE id=1;",
        b"SELECT v FROM t WHERE id=1;\r\n",
        b"SELECT v FROM t WHERE id=1;x",
        b"SELECT v FROM t WHERE id=1;;",
        b"SELECT v FROM t WHERE id=1;SELECT v",
        "\u{e9}".as_bytes(),
        &[255],
    ];
    for text in texts {
        let (status, sink) = run(rt.alloc(), &[], text)?;
        assert_eq!(rt; status, UNBUILT, "{text:?}");
        assert_eq!(rt; sink.calls, 0, "{text:?}");
    }
    Ok(())
}

// Runs the program on this statement so many times, and answers how many bytes it writes.
fn output_len(alloc: Global, statement: &[u8], count: usize) -> Result<(Status, usize), NoMemory> {
    let mut script = Vec::new(alloc);
    for _ in 0..count {
        script.extend_from_slice(statement)?;
    }
    let mut source = MemSource::new(Bytes::from_vec(script), Items::new(alloc));
    let mut sink = MemSink::new(alloc, 2_000_000, 65_536, Items::new(alloc))?;
    let status = top_step(alloc, &[], &mut source, &mut sink);
    Ok((status, sink.written.len()))
}

#[test]
fn an_input_may_be_as_long_as_its_limits(rt: HostRuntime) -> Result<(), Fail> {
    // The line of the connection, and for each statement `ok 0` and `snapshot 0`.
    let written = 7 + 16 * 65_535;
    let select = b"SELECT v FROM t WHERE id=5;".as_slice();
    let cases = [
        (b" ".as_slice(), 16_777_216, (Status::Done, 0)),
        (b" ", 16_777_217, (UNBUILT, 0)),
        (select, 65_535, (Status::Done, written)),
        (select, 65_536, (UNBUILT, 0)),
    ];
    for (statement, count, want) in cases {
        let found = output_len(rt.alloc(), statement, count)?;
        assert_eq!(rt; found, want, "{count} of {statement:?}");
    }
    Ok(())
}

#[test]
fn each_status_is_told_in_one_line(rt: HostRuntime) -> Result<(), Fail> {
    let cases = [
        (
            Status::Done,
            0,
            "the script was run, and its output is written",
        ),
        (Status::ReadFault, 2, "standard input could not be read"),
        (
            Status::WriteFault,
            3,
            "standard output could not be written to its end",
        ),
        (
            Status::Words,
            4,
            "the words of the command line may be none, or `--mode step` (see `hctree --help`)",
        ),
        (Status::NoMemory, 7, "memory ran out"),
    ];
    for (status, number, text) in cases {
        assert_eq!(rt; status.exit_number(), number, "{text}");
        assert_eq!(rt; format!(in rt.alloc(); "{status}")?.as_str(), text);
    }
    assert_eq!(rt; UNBUILT.exit_number(), 1);
    let line = format!(in rt.alloc(); "{UNBUILT}")?;
    assert!(rt; line.starts_with("the input as a whole (byte 0, line 1, column 1) cannot be run"));
    Ok(())
}
