// What a run leaves where its input is cut, and where what it reads from and writes to fails or takes little.
ghost use Rattle.std.specs.Prelude.{◌<◌, None};

use crate::run::run;
use crate::tests::{Left, Ran, leaves, leaves_failing};
use sp_base::{MemSink, MemSource, OpenGate, Sink, WriteFault};
use std::alloc::{AllocError, Global};
use std::sync::Wait;
use std::test::Fail;
use std::thread::Threads;

// Two bare writes.
const TWO_WRITES: &[u8] = b"T0|w(X)|1\nT1|w(X)|2\n";

// The report of two bare writes.
const ONE_RACE: &[u8] = b"race 1 with 0 at 2 1 keep 0 0\nraces 1 deadlocks 0\n";

// The report of a trace in which nothing is found.
const NOTHING: &str = "races 0 deadlocks 0\n";

#[test]
fn inputs_cut_at_each_byte(rt: HostRuntime) -> Result<(), Fail> {
    for (from, to, out, err, code) in [
        (0, 0, NOTHING, "", 0),
        (1, 2, "", "line 1 fault 2 NoBar\n", 3),
        (3, 3, "", "line 1 fault 4 UnknownOperation\n", 3),
        (4, 6, "", "line 1 fault 5 BadOperand\n", 3),
        (7, 10, NOTHING, "", 0),
        (11, 12, "", "line 2 fault 2 NoBar\n", 3),
        (13, 13, "", "line 2 fault 4 UnknownOperation\n", 3),
        (14, 16, "", "line 2 fault 5 BadOperand\n", 3),
        (
            17,
            18,
            "race 1 with 0 at 0 1 keep 0 0\nraces 1 deadlocks 0\n",
            "",
            1,
        ),
        (
            19,
            20,
            "race 1 with 0 at 2 1 keep 0 0\nraces 1 deadlocks 0\n",
            "",
            1,
        ),
    ] {
        let left = Left {
            out: out.as_bytes(),
            err: err.as_bytes(),
            code,
        };
        for length in from..=to {
            assert!(rt;
                all_pieces_leave(&rt, rt.alloc(), length, &left)?,
                "at {length}"
            );
        }
    }
    Ok(())
}

// Whether the front of two bare writes leaves this in pieces of each size.
fn all_pieces_leave<R: Threads + Wait + Sync>(
    rt: &R,
    alloc: Global,
    length: usize,
    left: &Left,
) -> Result<bool, AllocError> {
    let text = &TWO_WRITES[..TWO_WRITES.len().min(length)];
    for piece in [1, 2, 3, 7, 4_096] {
        if !leaves(rt, alloc, "predict", text, piece, left)? {
            return Ok(false);
        }
    }
    Ok(true)
}

// Words of the command line.
fn words(alloc: Global, texts: &[&str]) -> Result<Vec<String>, AllocError> {
    let mut words = Vec::new(alloc);
    for text in texts {
        words.push(String::from_str(alloc, text)?)?;
    }
    Ok(words)
}

// Runs a mode on a text in pieces, where the read of that number fails.
fn ran_with_failing_read<R: Threads + Wait + Sync>(
    rt: &R,
    alloc: Global,
    mode: &str,
    text: &[u8],
    piece: u32,
    read: u32,
) -> Result<Ran, AllocError>
    requires { 0 < piece }
{
    let words = words(alloc, &["syncp", mode])?;
    let mut source = MemSource::new(text.to_vec(alloc)?, piece, [read].to_vec(alloc)?);
    let mut out = MemSink::new(alloc, 1, Vec::new(alloc));
    let mut err = MemSink::new(alloc, 1, Vec::new(alloc));
    let status = run(
        rt,
        alloc,
        &words,
        &mut source,
        &mut out,
        &mut err,
        &OpenGate,
    );
    Ok(Ran { status, out, err })
}

#[test]
fn reads_that_fail(rt: HostRuntime) -> Result<(), Fail> {
    for (mode, read) in [
        ("predict", 1),
        ("predict", 2),
        ("predict", 3),
        ("predict", 4),
        ("predict", 5),
        ("predict", 6),
        ("record", 1),
        ("run", 1),
        ("replay", 1),
        ("witness", 1),
    ] {
        let ran = ran_with_failing_read(&rt, rt.alloc(), mode, TWO_WRITES, 4, read)?;
        assert_eq!(rt; ran.status.code(), 5, "{mode} at {read}");
        assert!(rt; ran.out.text().is_empty(), "{mode} at {read}");
        assert!(rt;
            ran.err.text() == b"read fault\n".as_slice(),
            "{mode} at {read}"
        );
    }
    Ok(())
}

#[test]
fn a_fault_of_the_text_and_a_read_behind_it(rt: HostRuntime) -> Result<(), Fail> {
    let ran = ran_with_failing_read(&rt, rt.alloc(), "predict", b"T0 w(X)\n", 1, 9)?;
    assert_eq!(rt; ran.status.code(), 3);
    assert!(rt; ran.out.text().is_empty());
    assert!(rt; ran.err.text() == b"line 1 fault 2 NoBar\n".as_slice());
    Ok(())
}

#[test]
fn writes_that_fail(rt: HostRuntime) -> Result<(), Fail> {
    for written in 0..50u32 {
        let left = Left {
            out: &ONE_RACE[..ONE_RACE.len().min(written as usize)],
            err: b"write fault\n",
            code: 6,
        };
        assert!(rt;
            leaves_failing(
                &rt,
                rt.alloc(),
                "predict",
                TWO_WRITES,
                &[],
                &[written + 1],
                &[],
                &left
            )?,
            "after {written} bytes"
        );
    }
    Ok(())
}

#[test]
fn a_write_behind_the_last_fails(rt: HostRuntime) -> Result<(), Fail> {
    let left = Left {
        out: ONE_RACE,
        err: b"",
        code: 1,
    };
    assert!(rt;
        leaves_failing(
            &rt,
            rt.alloc(),
            "predict",
            TWO_WRITES,
            &[],
            &[51],
            &[],
            &left
        )?
    );
    Ok(())
}

/// A sink that always fails.
#[derive(Drop)]
struct Failing {
    faults: u64,
}

impl Sink for Failing {
    ghost text = { λ _. None };

    ghost faults = { λ s. s.faults };

    fn write(&mut self, _bytes: &[u8]) -> Result<usize, WriteFault> {
        self.faults = self.faults.saturating_add(1);
        Err(WriteFault::Failed)
    }
}

// The status of words on a text in pieces of 4 bytes, where some reads and writes fail, and so does each line of a fault.
fn status_of<R: Threads + Wait + Sync>(
    rt: &R,
    alloc: Global,
    texts: &[&str],
    text: &[u8],
    reads: &[u32],
    writes: &[u32],
) -> Result<u8, AllocError> {
    let words = words(alloc, texts)?;
    let mut source = MemSource::new(text.to_vec(alloc)?, 4, reads.to_vec(alloc)?);
    let mut out = MemSink::new(alloc, 1, writes.to_vec(alloc)?);
    let mut err = Failing { faults: 0 };
    let status = run(
        rt,
        alloc,
        &words,
        &mut source,
        &mut out,
        &mut err,
        &OpenGate,
    );
    Ok(status.code())
}

#[test]
fn statuses_without_a_line(rt: HostRuntime) -> Result<(), Fail> {
    let rows: [(&[&str], &[u8], &[u32], &[u32], u8); 8] = [
        (&["syncp", "predict"], b"", &[], &[], 0),
        (&["syncp", "predict"], TWO_WRITES, &[], &[], 1),
        (&["syncp", "predicts"], TWO_WRITES, &[], &[], 2),
        (&["syncp", "predict"], b"T0 w(X)\n", &[], &[], 3),
        (&["syncp", "record"], b"thread T\nlock\n", &[], &[], 3),
        (
            &["syncp", "witness", "--finding", "2"],
            TWO_WRITES,
            &[],
            &[],
            4,
        ),
        (&["syncp", "predict"], TWO_WRITES, &[2], &[], 5),
        (&["syncp", "predict"], TWO_WRITES, &[], &[2], 6),
    ];
    for (texts, text, reads, writes, code) in rows {
        assert_eq!(rt;
            status_of(&rt, rt.alloc(), texts, text, reads, writes)?,
            code
        );
    }
    Ok(())
}

/// A sink that takes one byte a write, or all, and counts the empty pieces that it was given.
#[derive(Drop)]
struct Counting {
    takes_all: bool,
    empty: u32,
}

impl Sink for Counting {
    ghost text = { λ _. None };

    ghost faults = { λ _. 0 };

    fn write(&mut self, bytes: &[u8]) -> Result<usize, WriteFault> {
        if bytes.is_empty() {
            self.empty = self.empty.saturating_add(1);
            return Ok(0);
        }
        if self.takes_all {
            Ok(bytes.len())
        } else {
            Ok(1)
        }
    }
}

// How many empty pieces words write on a text.
fn empty_pieces<R: Threads + Wait + Sync>(
    rt: &R,
    alloc: Global,
    texts: &[&str],
    text: &[u8],
    takes_all: bool,
) -> Result<u32, AllocError> {
    let words = words(alloc, texts)?;
    let mut source = MemSource::new(text.to_vec(alloc)?, 4, Vec::new(alloc));
    let mut out = Counting {
        takes_all,
        empty: 0,
    };
    let mut err = Counting {
        takes_all,
        empty: 0,
    };
    run(
        rt,
        alloc,
        &words,
        &mut source,
        &mut out,
        &mut err,
        &OpenGate,
    );
    Ok(out.empty.saturating_add(err.empty))
}

// A script, and a run of it in which two races are found.
const TWO_REPLAYS: &[u8] =
    b"thread T0\nwrite X 5\nwrite Y 1\nthread T1\nread X\nif 5\nwrite Y 2\nend\n%%\nT0|w(X)|2\nT1|r(X)|5\nT0|w(Y)|3\nT1|w(Y)|7\n";

// A trace with a deadlock, and no event behind it.
const ONE_DEADLOCK: &[u8] =
    b"T0|acq(A)\nT0|acq(B)\nT0|rel(B)\nT0|rel(A)\nT1|acq(B)\nT1|acq(A)\nT1|rel(A)\nT1|rel(B)\n";

#[test]
fn no_piece_is_empty(rt: HostRuntime) -> Result<(), Fail> {
    let rows: [(&[&str], &[u8]); 13] = [
        (&["syncp"], b""),
        (&["syncp", "predict"], b""),
        (&["syncp", "predict"], b"|w(X)\n"),
        (&["syncp", "predict"], TWO_WRITES),
        (&["syncp", "predict"], ONE_DEADLOCK),
        (&["syncp", "record"], b""),
        (&["syncp", "record"], b"thread T\nlock A\n"),
        (&["syncp", "run"], b""),
        (&["syncp", "run"], b"thread T\nlock A\nlock A\n"),
        (&["syncp", "replay"], TWO_REPLAYS),
        (&["syncp", "witness"], TWO_WRITES),
        (&["syncp", "witness"], ONE_DEADLOCK),
        (&["syncp", "bench", "--events", "16"], b""),
    ];
    for (texts, text) in rows {
        assert_eq!(rt; empty_pieces(&rt, rt.alloc(), texts, text, false)?, 0);
        assert_eq!(rt; empty_pieces(&rt, rt.alloc(), texts, text, true)?, 0);
    }
    Ok(())
}
