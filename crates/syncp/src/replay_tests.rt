// What the mode `replay` leaves: the calls that stand side by side at each finding.
use crate::tests::{Left, leaves, leaves_failing, repeated};
use sp_base::MAX_INPUT;
use std::alloc::{AllocError, Global};
use std::test::Fail;

// Two threads, the second of which takes a branch only where it has read the first one's value.
const BRANCH: &str = "thread T0\nwrite X 5\nwrite Y 1\nthread T1\nread X\nif 5\nwrite Y 2\nend\n";

// Two bare accesses, and a run of them.
const BARE: &str = "thread T0\nwrite X 1\nthread T1\nread X\n%%\nT0|w(X)|2\nT1|r(X)|4\n";

// A script, the line `%%` and a trace.
fn input(alloc: Global, script: &str, trace: &str) -> Result<String, AllocError> {
    format!(in alloc; "{script}%%\n{trace}")
}

#[test]
fn replays_of_runs(rt: HostRuntime) -> Result<(), Fail> {
    let alloc = rt.alloc();
    for (case, script, trace, out, code) in [
        ("no bytes before the mark", "", "", "reached 0\n", 0),
        ("an empty run", BRANCH, "", "reached 0\n", 0),
        (
            "a branch that goes the same way",
            BRANCH,
            "T0|w(X)|2\nT1|r(X)|5\nT0|w(Y)|3\nT1|w(Y)|7\n",
            "replay 1 T1|r(X) T0|w(X)\nreplay 2 T1|w(Y) T0|w(Y)\nreached 2\n",
            1,
        ),
        (
            "a run that stops early, with other locations",
            BRANCH,
            "T0|w(X)|77\nT1|r(X)",
            "replay 1 T1|r(X) T0|w(X)\nreached 1\n",
            1,
        ),
        (
            "a fork that is kept and a lock that is taken",
            "thread main\nfork W\nwrite X 1\nthread W\nlock L\nread X\nunlock L\n",
            "main|fork(W)|2\nmain|w(X)|3\nW|acq(L)|5\nW|r(X)|6\nW|rel(L)|7\n",
            "replay 1 W|r(X) main|w(X)\nreached 1\n",
            1,
        ),
    ] {
        let left = Left {
            out: out.as_bytes(),
            err: b"",
            code,
        };
        let text = input(alloc, script, trace)?;
        assert!(rt;
            leaves(&rt, alloc, "replay", text.as_bytes(), 3, &left)?,
            "{case}"
        );
    }
    Ok(())
}

#[test]
fn marks_between_script_and_trace(rt: HostRuntime) -> Result<(), Fail> {
    for (case, text, out, code) in [
        ("no bytes", "", "reached 0\n", 0),
        ("no mark", BRANCH, "reached 0\n", 0),
        (
            "a mark without a newline",
            "thread T0\nwrite X 1\n%%",
            "reached 0\n",
            0,
        ),
        (
            "carriage returns",
            "thread T0\r\nwrite X 1\r\nthread T1\r\nread X\r\n%%\r\nT0|w(X)|2\r\nT1|r(X)|4\r\n",
            "replay 1 T1|r(X) T0|w(X)\nreached 1\n",
            1,
        ),
    ] {
        let left = Left {
            out: out.as_bytes(),
            err: b"",
            code,
        };
        assert!(rt;
            leaves(&rt, rt.alloc(), "replay", text.as_bytes(), 1_000, &left)?,
            "{case}"
        );
    }
    Ok(())
}

#[test]
fn refused_replays(rt: HostRuntime) -> Result<(), Fail> {
    let alloc = rt.alloc();
    for (case, script, trace, err) in [
        (
            "a fault of the script before one of the trace",
            "thread T0\nlok A\n",
            "T0 w(X)\n",
            "line 2 fault 21 UnknownWord\n",
        ),
        (
            "a line of the trace, counted from the script's first",
            "thread T0\nwrite X 1\n",
            "\nT0 w(X)\n",
            "line 5 fault 2 NoBar\n",
        ),
        (
            "a second mark",
            "thread T0\n",
            "%%\n",
            "line 3 fault 2 NoBar\n",
        ),
        (
            "a law before a step",
            "thread T0\nlock A\nthread T1\nlock A\n",
            "T0|acq(A)|2\nT1|acq(A)|4\n",
            "line 7 fault 11 LockHeld T0\n",
        ),
        (
            "another branch",
            BRANCH,
            "T1|w(Y)|7\n",
            "place 0 fault 33 NotAStep\n",
        ),
        (
            "the first of two, where skipped lines have no place",
            BRANCH,
            "T0|begin(m)\nT0|w(X)\nT0|w(X)\nT1|w(Y)\n",
            "place 1 fault 33 NotAStep\n",
        ),
        (
            "a thread of no script",
            "thread T0\nwrite X 1\n",
            "T1|w(X)\n",
            "place 0 fault 33 NotAStep\n",
        ),
        (
            "a variable of no script",
            "thread T0\nwrite X 1\n",
            "T0|w(Z)\n",
            "place 0 fault 33 NotAStep\n",
        ),
        (
            "a thread that waits for its fork",
            "thread M\nfork W\nthread W\nwrite X 1\n",
            "W|w(X)\n",
            "place 0 fault 33 NotAStep\n",
        ),
        (
            "a join of a thread that has not ended",
            "thread M\njoin W\nthread W\nwrite X 1\n",
            "M|join(W)\n",
            "place 0 fault 33 NotAStep\n",
        ),
    ] {
        let left = Left {
            out: b"",
            err: err.as_bytes(),
            code: 3,
        };
        let text = input(alloc, script, trace)?;
        assert!(rt;
            leaves(&rt, alloc, "replay", text.as_bytes(), 1_000, &left)?,
            "{case}"
        );
    }
    Ok(())
}

#[test]
fn a_thread_past_the_limit(rt: HostRuntime) -> Result<(), Fail> {
    let alloc = rt.alloc();
    let mut text = Vec::new(alloc);
    for thread in 0..64 {
        let line = format!(in alloc; "thread T{thread}\n")?;
        text.extend_from_slice(line.as_bytes())?;
    }
    text.extend_from_slice(b"%%\nT63|join(T0)\nT64|w(X)\n")?;
    let threads = Left {
        out: b"",
        err: b"line 67 fault 8 TooManyThreads\n",
        code: 4,
    };
    assert!(rt; leaves(&rt, alloc, "replay", &text, 1_000, &threads)?);
    Ok(())
}

#[test]
fn an_input_past_the_limit(rt: HostRuntime) -> Result<(), Fail> {
    let alloc = rt.alloc();
    let long = Left {
        out: b"",
        err: b"line 16777217 fault 6 InputTooLong\n",
        code: 4,
    };
    let text = repeated(alloc, b"\n", MAX_INPUT + 1)?;
    assert!(rt; leaves(&rt, alloc, "replay", &text, 4_096, &long)?);
    Ok(())
}

#[test]
fn faults_of_the_outside_in_replays(rt: HostRuntime) -> Result<(), Fail> {
    for (case, text, reads, writes, out, err, code) in [
        ("a read", BARE, 2, 0, "", "read fault\n", 5),
        ("a write", BARE, 0, 11, "replay 1 T", "write fault\n", 6),
    ] {
        let left = Left {
            out: out.as_bytes(),
            err: err.as_bytes(),
            code,
        };
        assert!(rt;
            leaves_failing(
                &rt,
                rt.alloc(),
                "replay",
                text.as_bytes(),
                &[reads],
                &[writes],
                &[],
                &left
            )?,
            "{case}"
        );
    }
    Ok(())
}
