// What the mode `record` leaves: its status, and what it writes to its output and to its line of faults.
use crate::tests::{Left, leaves, leaves_failing, repeated};
use sp_base::MAX_INPUT;
use std::alloc::{AllocError, Global};
use std::test::Fail;

#[test]
fn recorded_traces(rt: HostRuntime) -> Result<(), Fail> {
    let alloc = rt.alloc();
    for (case, text, out) in [
        ("no bytes", "", ""),
        (
            "one thread",
            "thread M\nwrite X 3\nread X\nadd 2\nwrite X\nlock L\nunlock L\n",
            "M|w(X)|2\nM|r(X)|3\nM|w(X)|5\nM|acq(L)|6\nM|rel(L)|7\n",
        ),
        (
            "both branches of a block that is repeated",
            "thread T0\nrepeat 2\nread X\nif 0\nwrite X 1\nelse\nwrite Y\nend\nend\n",
            "T0|r(X)|3\nT0|w(X)|5\nT0|r(X)|3\nT0|w(Y)|7\n",
        ),
        (
            "a thread that can never step again",
            "thread T0\nlock A\nlock A\n",
            "T0|acq(A)|2\n",
        ),
        (
            "a join of a thread that can never step again",
            "# two threads\nthread M\nfork W\njoin W\nwrite X\nthread W\n\twrite X 1\n\r\nunlock L",
            "M|fork(W)|3\nW|w(X)|7\n",
        ),
        (
            "a fork and a join",
            "thread M\nwrite X 3\nread X\nadd 2\nwrite X\nfork K\njoin K\nthread K\nlock L\nunlock L\n",
            "M|w(X)|2\nM|r(X)|3\nM|w(X)|5\nM|fork(K)|6\nK|acq(L)|9\nK|rel(L)|10\nM|join(K)|7\n",
        ),
    ] {
        let left = Left {
            out: out.as_bytes(),
            err: b"",
            code: 0,
        };
        assert!(rt;
            leaves(&rt, alloc, "record", text.as_bytes(), 3, &left)?,
            "{case}"
        );
    }
    Ok(())
}

#[test]
fn refused_scripts(rt: HostRuntime) -> Result<(), Fail> {
    let alloc = rt.alloc();
    for (text, err, code) in [
        ("thread T\nsleep\n", "line 2 fault 21 UnknownWord\n", 3),
        ("thread T\nlock\n", "line 2 fault 22 Operand\n", 3),
        ("thread T\nadd x\n", "line 2 fault 23 Number\n", 3),
        ("lock L\n", "line 1 fault 24 NoThread\n", 3),
        ("thread T\nthread T\n", "line 2 fault 25 TwiceNamed\n", 3),
        ("thread T\nfork U\n", "line 2 fault 26 UnknownThread\n", 3),
        (
            "thread T\nfork U\nfork U\nthread U\n",
            "line 3 fault 27 ForkedTwice\n",
            3,
        ),
        ("thread T\nif 0\n", "line 2 fault 28 OpenBlock\n", 3),
        ("thread T\nend\n", "line 2 fault 29 StrayEnd\n", 3),
        (
            "thread T\nrepeat 65536\nrepeat 2\nread X\nend\nend\n",
            "line 1 fault 31 TooManyInstructions\n",
            4,
        ),
    ] {
        let left = Left {
            out: b"",
            err: err.as_bytes(),
            code,
        };
        assert!(rt;
            leaves(&rt, alloc, "record", text.as_bytes(), 1_000, &left)?,
            "{err}"
        );
    }
    Ok(())
}

// A `thread` line for each of so many threads.
fn thread_lines(alloc: Global, count: u32) -> Result<Vec<u8>, AllocError> {
    let mut all = Vec::new(alloc);
    for thread in 0..count {
        let line = format!(in alloc; "thread T{thread}\n")?;
        all.extend_from_slice(line.as_bytes())?;
    }
    Ok(all)
}

#[test]
fn scripts_past_a_limit(rt: HostRuntime) -> Result<(), Fail> {
    let alloc = rt.alloc();
    let names = Left {
        out: b"",
        err: b"line 65 fault 32 TooManyNames\n",
        code: 4,
    };
    let text = thread_lines(alloc, 65)?;
    assert!(rt; leaves(&rt, alloc, "record", &text, 1_000, &names)?);
    let deep = Left {
        out: b"",
        err: b"line 66 fault 30 TooDeep\n",
        code: 3,
    };
    let mut text = thread_lines(alloc, 1)?;
    text.extend_from_slice(&repeated(alloc, b"if 0\n", 65)?)?;
    assert!(rt; leaves(&rt, alloc, "record", &text, 1_000, &deep)?);
    Ok(())
}

#[test]
fn inputs_at_the_limit_and_past_it(rt: HostRuntime) -> Result<(), Fail> {
    let alloc = rt.alloc();
    let most = MAX_INPUT as usize;
    let taken = Left {
        out: b"",
        err: b"",
        code: 0,
    };
    let text = vec![in alloc; b'\n'; most]?;
    assert!(rt; leaves(&rt, alloc, "record", &text, 4_096, &taken)?);
    let long = Left {
        out: b"",
        err: b"line 16777217 fault 6 InputTooLong\n",
        code: 4,
    };
    let text = vec![in alloc; b'\n'; most + 1]?;
    assert!(rt; leaves(&rt, alloc, "record", &text, 4_096, &long)?);
    Ok(())
}

#[test]
fn many_empty_blocks(rt: HostRuntime) -> Result<(), Fail> {
    let alloc = rt.alloc();
    let mut text = thread_lines(alloc, 1)?;
    text.extend_from_slice(&repeated(alloc, b"repeat 65536\nend\n", 986_894)?)?;
    let nothing = Left {
        out: b"",
        err: b"",
        code: 0,
    };
    assert!(rt; leaves(&rt, alloc, "record", &text, 65_536, &nothing)?);
    Ok(())
}

#[test]
fn faults_of_the_outside(rt: HostRuntime) -> Result<(), Fail> {
    let alloc = rt.alloc();
    for (case, text, reads, writes, out, err, code) in [
        (
            "a read before the text",
            "sleep\n",
            1,
            0,
            "",
            "read fault\n",
            5,
        ),
        (
            "a read after a fault of the script",
            "sleep\nlock\n",
            3,
            0,
            "",
            "read fault\n",
            5,
        ),
        (
            "a write",
            "thread T\nread X\n",
            0,
            3,
            "T|",
            "write fault\n",
            6,
        ),
    ] {
        let left = Left {
            out: out.as_bytes(),
            err: err.as_bytes(),
            code,
        };
        assert!(rt;
            leaves_failing(
                &rt,
                alloc,
                "record",
                text.as_bytes(),
                &[reads],
                &[writes],
                &[],
                &left
            )?,
            "{case}"
        );
    }
    Ok(())
}
