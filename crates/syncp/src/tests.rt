// What a run leaves: its status, and what it writes to its output and to its line of faults.
ghost use Rattle.std.specs.Prelude.{◌<◌};

use crate::outcome::Status;
use crate::run::run;
use sp_base::{Gate, MemSink, MemSource, OpenGate};
use std::alloc::{AllocError, Global};
use std::sync::Wait;
use std::test::Fail;
use std::thread::Threads;

// Two bare writes.
const TWO_WRITES: &[u8] = b"T0|w(X)|1\nT1|w(X)|2\n";

// Words of the command line.
fn words(alloc: Global, texts: &[&str]) -> Result<Vec<String>, AllocError> {
    let mut words = Vec::new(alloc);
    for text in texts {
        words.push(String::from_str(alloc, text)?)?;
    }
    Ok(words)
}

// A source of the bytes in pieces, which fails at some calls.
fn source(alloc: Global, bytes: &[u8], piece: u32, fails: &[u32]) -> Result<MemSource, AllocError>
    requires { 0 < piece }
{
    Ok(MemSource::new(bytes.to_vec(alloc)?, piece, fails.to_vec(alloc)?))
}

// A sink that takes so many bytes a write, and fails at some calls.
fn sink(alloc: Global, take: u32, fails: &[u32]) -> Result<MemSink, AllocError>
    requires { 0 < take }
{
    Ok(MemSink::new(alloc, take, fails.to_vec(alloc)?))
}

/// What a run is wanted to leave.
#[derive(Clone, Copy)]
pub(crate) struct Left<'a> {
    pub out: &'a [u8],
    pub err: &'a [u8],
    pub code: u8,
}

// What a run leaves for a text that is refused with this line.
fn refused(err: &[u8]) -> Left<'_> {
    Left {
        out: b"",
        err,
        code: 3,
    }
}

// What a run leaves for a text that passes a limit and is refused with this line.
fn limited(err: &[u8]) -> Left<'_> {
    Left {
        out: b"",
        err,
        code: 4,
    }
}

// Whether a run left this.
fn is_left(status: Status, out: &MemSink, err: &MemSink, left: &Left) -> bool {
    status.code() == left.code && out.text() == left.out && err.text() == left.err
}

/// What a run left.
#[derive(Drop)]
pub(crate) struct Ran {
    pub status: Status,
    pub out: MemSink,
    pub err: MemSink,
}

/// Runs words on a text in pieces, where nothing of the outside fails.
pub(crate) fn ran_by<R: Threads + Wait + Sync, G: Gate + Sync>(
    rt: &R,
    alloc: Global,
    texts: &[&str],
    text: &[u8],
    piece: u32,
    gate: &G,
) -> Result<Ran, AllocError>
    requires { 0 < piece }
{
    let words = words(alloc, texts)?;
    let mut source = source(alloc, text, piece, &[])?;
    let mut out = sink(alloc, 1_000, &[])?;
    let mut err = sink(alloc, 1_000, &[])?;
    let status = run(rt, alloc, &words, &mut source, &mut out, &mut err, gate);
    Ok(Ran { status, out, err })
}

/// Whether words leave this for a text in pieces, where nothing of the outside fails.
pub(crate) fn leaves_by<R: Threads + Wait + Sync>(
    rt: &R,
    alloc: Global,
    texts: &[&str],
    text: &[u8],
    piece: u32,
    left: &Left,
) -> Result<bool, AllocError>
    requires { 0 < piece }
{
    let ran = ran_by(rt, alloc, texts, text, piece, &OpenGate)?;
    Ok(is_left(ran.status, &ran.out, &ran.err, left))
}

/// Whether a mode leaves this for a text in pieces, where nothing of the outside fails.
pub(crate) fn leaves<R: Threads + Wait + Sync>(
    rt: &R,
    alloc: Global,
    mode: &str,
    text: &[u8],
    piece: u32,
    left: &Left,
) -> Result<bool, AllocError>
    requires { 0 < piece }
{
    leaves_by(rt, alloc, &["syncp", mode], text, piece, left)
}

#[test]
fn reports_of_traces(rt: HostRuntime) -> Result<(), Fail> {
    let alloc = rt.alloc();
    for (case, text, out, code) in [
        ("no bytes", "", "races 0 deadlocks 0\n", 0),
        (
            "two bare writes",
            "T0|w(X)|1\nT1|w(X)|2\n",
            "race 1 with 0 at 2 1 keep 0 0\nraces 1 deadlocks 0\n",
            1,
        ),
        (
            "one lock round both",
            "T0|acq(L)|1\nT0|w(X)|2\nT0|rel(L)|3\nT1|acq(L)|4\nT1|w(X)|5\nT1|rel(L)|6\n",
            "races 0 deadlocks 0\n",
            0,
        ),
        (
            "a pair that happens-before orders",
            "T0|w(X)|1\nT0|acq(L)|2\nT0|rel(L)|3\nT1|acq(L)|4\nT1|rel(L)|5\nT1|w(X)|6\n",
            "race 5 with 0 at 6 1 keep 0 2\nraces 1 deadlocks 0\n",
            1,
        ),
        (
            "a read of what a section wrote",
            "T0|w(X)|1\nT0|acq(L)|2\nT0|w(Y)|3\nT0|rel(L)|4\nT1|acq(L)|5\nT1|r(Y)|6\nT1|rel(L)|7\nT1|w(X)|8\n",
            "races 0 deadlocks 0\n",
            0,
        ),
        (
            "a race only by swapped acquires",
            "T0|acq(L)|1\nT0|w(X)|2\nT0|rel(L)|3\nT1|acq(L)|4\nT1|rel(L)|5\nT1|w(X)|6\n",
            "races 0 deadlocks 0\n",
            0,
        ),
        (
            "a lock cycle behind a read",
            "T0|acq(A)|1\nT0|acq(B)|2\nT0|rel(B)|3\nT0|rel(A)|4\nT0|w(Z)|5\nT1|r(Z)|6\nT1|acq(B)|7\nT1|acq(A)|8\nT1|rel(A)|9\nT1|rel(B)|10\n",
            "race 5 with 4 at 6 5 keep 4 0\nraces 1 deadlocks 0\n",
            1,
        ),
        (
            "one lock round a lock cycle",
            "T0|acq(G)|1\nT0|acq(A)|2\nT0|acq(B)|3\nT0|rel(B)|4\nT0|rel(A)|5\nT0|rel(G)|6\nT1|acq(G)|7\nT1|acq(B)|8\nT1|acq(A)|9\nT1|rel(A)|10\nT1|rel(B)|11\nT1|rel(G)|12\n",
            "races 0 deadlocks 0\n",
            0,
        ),
        (
            "an end inside a section",
            "T0|acq(L)|1\nT0|w(X)|2\nT1|w(X)|3\n",
            "race 2 with 1 at 3 2 keep 1 0\nraces 1 deadlocks 0\n",
            1,
        ),
        (
            "a partner that is not the last access",
            "T0|w(X)|1\nT0|acq(L)|2\nT0|w(X)|3\nT0|rel(L)|4\nT1|acq(L)|5\nT1|w(X)|6\nT1|rel(L)|7\n",
            "race 5 with 0 at 6 1 keep 0 1\nraces 1 deadlocks 0\n",
            1,
        ),
        (
            "the earliest of two partners",
            "T0|w(X)|1\nT0|w(X)|2\nT1|w(X)|3\n",
            "race 2 with 0 at 3 1 keep 0 0\nraces 1 deadlocks 0\n",
            1,
        ),
        (
            "a join that waits for the forker",
            "T0|w(X)|1\nT0|fork(T2)|2\nT1|join(T2)|3\nT1|w(X)|4\n",
            "races 0 deadlocks 0\n",
            0,
        ),
        (
            "a write behind a fork and one behind the join",
            "T0|fork(T2)|1\nT0|w(X)|2\nT1|join(T2)|3\nT1|w(X)|4\n",
            "race 3 with 1 at 4 2 keep 1 0 1\nraces 1 deadlocks 0\n",
            1,
        ),
        (
            "skipped lines and odd locations",
            "T9|begin(m)|1\nT0|w(V234.23[0])|12\nT9|end\nT1|r(V234.23[0])|a|b\n",
            "race 1 with 0 at 0 12 keep 0 0\nraces 1 deadlocks 0\n",
            1,
        ),
        (
            "empty lines, carriage returns and no locations",
            "T0|w(X)\r\n\r\n\nT1|w(X)|7 \n\nT0|r(Y)",
            "race 1 with 0 at 0 0 keep 0 0\nraces 1 deadlocks 0\n",
            1,
        ),
    ] {
        let left = Left {
            out: out.as_bytes(),
            err: b"",
            code,
        };
        for piece in [1, 3, 1_000] {
            assert!(rt;
                leaves(&rt, alloc, "predict", text.as_bytes(), piece, &left)?,
                "{case}"
            );
        }
    }
    Ok(())
}

#[test]
fn refused_traces(rt: HostRuntime) -> Result<(), Fail> {
    let alloc = rt.alloc();
    for (case, text, err) in [
        ("no bar", "T0 w(X)\n", "line 1 fault 2 NoBar\n"),
        (
            "no bar before a skipped word",
            "T0\nbegin\n",
            "line 1 fault 2 NoBar\n",
        ),
        ("no thread", "|w(X)\n", "line 1 fault 3 BadName\n"),
        (
            "a thread that is no name",
            "T(0)|w(X)\n",
            "line 1 fault 3 BadName\n",
        ),
        (
            "an unknown operation",
            "\nT0|write(X)\n",
            "line 2 fault 4 UnknownOperation\n",
        ),
        ("no operand", "T0|w|1\n", "line 1 fault 5 BadOperand\n"),
        ("an open operand", "T0|w(X", "line 1 fault 5 BadOperand\n"),
        ("an empty operand", "T0|w()|1\n", "line 1 fault 3 BadName\n"),
        (
            "an operand with a parenthesis",
            "T0|w(X(0))|1\n",
            "line 1 fault 3 BadName\n",
        ),
        (
            "a lock that another thread holds",
            "T0|acq(L)|1\nT1|acq(L)|2\n",
            "line 2 fault 11 LockHeld T0\n",
        ),
        (
            "a lock that the own thread holds",
            "T0|w(X)\nmain|acq(L)\n\nmain|acq(L)",
            "line 4 fault 12 Reentrant\n",
        ),
        (
            "a lock that nobody holds",
            "T0|rel(L)",
            "line 1 fault 13 NotHeld\n",
        ),
        (
            "a lock that another thread releases",
            "T0|acq(L)\nT1|rel(L)\n",
            "line 2 fault 13 NotHeld\n",
        ),
        (
            "a fork behind an event",
            "T1|w(X)\nT0|fork(T1)\n",
            "line 2 fault 14 ForkLate\n",
        ),
        (
            "a second fork",
            "T0|fork(T1)\nT0|fork(T1)\n",
            "line 2 fault 15 ForkTwice\n",
        ),
        (
            "a fork of the own thread",
            "T0|fork(T0)\n",
            "line 1 fault 16 SelfThread\n",
        ),
        (
            "a join of the own thread",
            "T0|join(T0)\n",
            "line 1 fault 16 SelfThread\n",
        ),
        (
            "an event behind the join",
            "T0|join(T1)\nT1|w(X)\n",
            "line 2 fault 17 AfterJoin\n",
        ),
        (
            "a fork behind the join",
            "T0|join(T1)\nT0|fork(T1)\n",
            "line 2 fault 17 AfterJoin\n",
        ),
        (
            "two faults, of which the first is told",
            "T0|w(X)\nT0|rel(L)\nT0\n",
            "line 2 fault 13 NotHeld\n",
        ),
    ] {
        let left = Left {
            out: b"",
            err: err.as_bytes(),
            code: 3,
        };
        for piece in [1, 3, 1_000] {
            assert!(rt;
                leaves(&rt, alloc, "predict", text.as_bytes(), piece, &left)?,
                "{case}"
            );
        }
    }
    Ok(())
}

/// So many copies of a text.
pub(crate) fn repeated(alloc: Global, text: &[u8], count: u32) -> Result<Vec<u8>, AllocError> {
    let mut all = Vec::new(alloc);
    for _ in 0..count {
        all.extend_from_slice(text)?;
    }
    Ok(all)
}

// A line for each of so many threads.
fn threads(alloc: Global, count: u32) -> Result<Vec<u8>, AllocError> {
    let mut all = Vec::new(alloc);
    for thread in 0..count {
        let line = format!(in alloc; "T{thread}|r(X)\n")?;
        all.extend_from_slice(line.as_bytes())?;
    }
    Ok(all)
}

#[test]
fn traces_past_a_limit(rt: HostRuntime) -> Result<(), Fail> {
    let alloc = rt.alloc();
    let name_fault = refused(b"line 1 fault 3 BadName\n");
    let line_fault = refused(b"line 1 fault 1 LineTooLong\n");
    let mut name = repeated(alloc, b"T", 256)?;
    name.extend_from_slice(b"|w(X)\n")?;
    assert!(rt;
        leaves(&rt, alloc, "predict", &name, 1_000, &name_fault)?,
        "a name of 256 bytes"
    );
    let mut line = repeated(alloc, b"T0|w(X)|", 1)?;
    line.extend_from_slice(&repeated(alloc, b"0", 4_089)?)?;
    assert!(rt;
        leaves(&rt, alloc, "predict", &line, 1_000, &line_fault)?,
        "a line of 4,097 bytes"
    );
    Ok(())
}

#[test]
fn threads_past_the_limit(rt: HostRuntime) -> Result<(), Fail> {
    let alloc = rt.alloc();
    let last = limited(b"line 65 fault 8 TooManyThreads\n");
    let text = threads(alloc, 65)?;
    assert!(rt; leaves(&rt, alloc, "predict", &text, 1_000, &last)?);
    Ok(())
}

#[test]
fn events_past_the_limit(rt: HostRuntime) -> Result<(), Fail> {
    let alloc = rt.alloc();
    let last = limited(b"line 65537 fault 7 TooManyEvents\n");
    let text = repeated(alloc, b"T0|r(X)\n", 65_537)?;
    assert!(rt; leaves(&rt, alloc, "predict", &text, 1_000, &last)?);
    Ok(())
}

#[test]
fn bytes_past_the_limit(rt: HostRuntime) -> Result<(), Fail> {
    let alloc = rt.alloc();
    let mut text = repeated(alloc, &[b'\n'; 64], 262_144)?;
    text.push(b'\n')?;
    let newline = limited(b"line 16777217 fault 6 InputTooLong\n");
    assert!(rt;
        leaves(&rt, alloc, "predict", &text, 65_536, &newline)?,
        "one newline more"
    );
    text.truncate(16_777_215);
    text.extend_from_slice(b"T0")?;
    let midst = limited(b"line 16777216 fault 6 InputTooLong\n");
    assert!(rt;
        leaves(&rt, alloc, "predict", &text, 65_536, &midst)?,
        "one byte more in the midst of a line"
    );
    Ok(())
}

#[test]
fn a_holder_whose_name_is_no_text(rt: HostRuntime) -> Result<(), Fail> {
    let alloc = rt.alloc();
    let left = refused(b"line 2 fault 11 LockHeld \xff \x00\n");
    assert!(rt;
        leaves(
            &rt,
            alloc,
            "predict",
            b"\xff \x00|acq(L)\nT1|acq(L)\n",
            3,
            &left
        )?
    );
    Ok(())
}

/// Whether a mode leaves this for a text in pieces of 4 bytes, where the listed calls of the outside fail and the sinks
/// take one byte a write.
pub(crate) fn leaves_failing<R: Threads + Wait + Sync>(
    rt: &R,
    alloc: Global,
    mode: &str,
    text: &[u8],
    reads: &[u32],
    writes: &[u32],
    told: &[u32],
    left: &Left,
) -> Result<bool, AllocError> {
    let words = words(alloc, &["syncp", mode])?;
    let mut source = source(alloc, text, 4, reads)?;
    let mut out = sink(alloc, 1, writes)?;
    let mut err = sink(alloc, 1, told)?;
    let status = run(
        rt,
        alloc,
        &words,
        &mut source,
        &mut out,
        &mut err,
        &OpenGate,
    );
    Ok(is_left(status, &out, &err, left))
}

#[test]
fn faults_of_the_source(rt: HostRuntime) -> Result<(), Fail> {
    let left = Left {
        out: b"",
        err: b"read fault\n",
        code: 5,
    };
    for (case, call) in [
        ("before the text", 1),
        ("in the text", 2),
        ("after the text", 6),
    ] {
        assert!(rt;
            leaves_failing(
                &rt,
                rt.alloc(),
                "predict",
                TWO_WRITES,
                &[call],
                &[],
                &[],
                &left
            )?,
            "{case}"
        );
    }
    Ok(())
}

#[test]
fn faults_of_the_output(rt: HostRuntime) -> Result<(), Fail> {
    for (case, call, out) in [("at the first call", 1, ""), ("at the third call", 3, "ra")] {
        let left = Left {
            out: out.as_bytes(),
            err: b"write fault\n",
            code: 6,
        };
        assert!(rt;
            leaves_failing(
                &rt,
                rt.alloc(),
                "predict",
                TWO_WRITES,
                &[],
                &[call],
                &[],
                &left
            )?,
            "{case}"
        );
    }
    Ok(())
}

#[test]
fn faults_of_the_line(rt: HostRuntime) -> Result<(), Fail> {
    for (case, call, err) in [
        ("at the first call", 1, ""),
        ("at the fifth call", 5, "read"),
    ] {
        let left = Left {
            out: b"",
            err: err.as_bytes(),
            code: 5,
        };
        assert!(rt;
            leaves_failing(
                &rt,
                rt.alloc(),
                "predict",
                TWO_WRITES,
                &[2],
                &[],
                &[call],
                &left
            )?,
            "{case}"
        );
    }
    Ok(())
}

#[test]
fn a_fault_of_the_text_before_one_of_the_source(rt: HostRuntime) -> Result<(), Fail> {
    let alloc = rt.alloc();
    let words = words(alloc, &["syncp", "predict"])?;
    let mut source = source(alloc, b"T0\nT1|w(X)\n", 4, &[2])?;
    let mut out = sink(alloc, 1_000, &[])?;
    let mut err = sink(alloc, 1_000, &[])?;
    let status = run(
        &rt,
        alloc,
        &words,
        &mut source,
        &mut out,
        &mut err,
        &OpenGate,
    );
    let left = refused(b"line 1 fault 2 NoBar\n");
    assert!(rt; is_left(status, &out, &err, &left));
    Ok(())
}

// Whether words that have no reading leave status 2, a text on `err` and nothing on `out`.
fn is_usage<R: Threads + Wait + Sync>(
    rt: &R,
    alloc: Global,
    texts: &[&str],
) -> Result<bool, AllocError> {
    let words = words(alloc, texts)?;
    let mut source = source(alloc, TWO_WRITES, 4, &[])?;
    let mut out = sink(alloc, 1, &[])?;
    let mut err = sink(alloc, 1_000, &[])?;
    let status = run(
        rt,
        alloc,
        &words,
        &mut source,
        &mut out,
        &mut err,
        &OpenGate,
    );
    Ok(status.code() == 2 && out.text().is_empty() && !err.text().is_empty())
}

#[test]
fn words_without_a_reading(rt: HostRuntime) -> Result<(), Fail> {
    let alloc = rt.alloc();
    assert!(rt;
        is_usage(&rt, alloc, &["syncp", "replays"])?,
        "another mode"
    );
    assert!(rt;
        is_usage(&rt, alloc, &["syncp", "predict", "--size", "5"])?,
        "a size past its range"
    );
    assert!(rt; is_usage(&rt, alloc, &["syncp", "--help"])?, "help");
    Ok(())
}
