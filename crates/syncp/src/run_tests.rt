// What the mode `run` leaves, and what the modes that run scripts leave where several runs are possible.
use crate::meeting::Meeting;
use crate::tests::{Left, Ran, leaves, leaves_failing, ran_by};
use sp_base::{Gate, OpenGate};
use std::alloc::{AllocError, Global};
use std::sync::Wait;
use std::test::Fail;
use std::thread::Threads;

// The lines behind a trace in which nothing is found, before the lines of the threads.
const NOTHING_FOUND: &str = "%%\nraces 0 deadlocks 0\nreached 0\n";

// Two threads that write, each to a variable of its own.
const APART: &str = "thread T0\nwrite X 1\nthread T1\nwrite Y 1\n";

// Whether a run left one of these texts, and this status.
fn is_one_of(ran: &Ran, outs: &[&str], code: u8) -> bool {
    let written = outs.iter().any(|out| out.as_bytes() == ran.out.text());
    written && ran.err.text().is_empty() && ran.status.code() == code
}

// Whether a mode leaves one of these texts, and this status.
fn leaves_one_of<R: Threads + Wait + Sync, G: Gate + Sync>(
    rt: &R,
    alloc: Global,
    mode: &str,
    script: &str,
    gate: &G,
    outs: &[&str],
    code: u8,
) -> Result<bool, AllocError> {
    let ran = ran_by(rt, alloc, &["syncp", mode], script.as_bytes(), 1_000, gate)?;
    Ok(is_one_of(&ran, outs, code))
}

#[test]
fn runs_where_one_is_possible(rt: HostRuntime) -> Result<(), Fail> {
    let alloc = rt.alloc();
    for (case, script, trace, ends) in [
        ("no bytes", "", "", ""),
        (
            "a lock that nobody owns is given back",
            "thread T0\nunlock A\n",
            "",
            "blocked T0 at rel(A)\n",
        ),
        (
            "a fork and a join",
            "thread M\nwrite X 3\nread X\nadd 2\nwrite X\nfork K\njoin K\nthread K\nlock L\nunlock L\n",
            "M|w(X)|2\nM|r(X)|3\nM|w(X)|5\nM|fork(K)|6\nK|acq(L)|9\nK|rel(L)|10\nM|join(K)|7\n",
            "end M\nend K\n",
        ),
        (
            "a thread that is never forked",
            "thread W\nwrite X 1\nthread M\nlock A\nlock A\nfork W\n",
            "M|acq(A)|4\n",
            "waiting W\nblocked M at acq(A)\n",
        ),
    ] {
        let out = format!(in alloc; "{trace}{NOTHING_FOUND}{ends}")?;
        let left = Left {
            out: out.as_bytes(),
            err: b"",
            code: 0,
        };
        assert!(rt;
            leaves(&rt, alloc, "run", script.as_bytes(), 3, &left)?,
            "{case}"
        );
    }
    Ok(())
}

#[test]
fn runs_of_crossed_locks(rt: HostRuntime) -> Result<(), Fail> {
    let script =
        "thread T0\nlock A\nlock B\nunlock B\nunlock A\nthread T1\nlock B\nlock A\nunlock A\nunlock B\n";
    let whole = [
        "T0|acq(A)|2\nT0|acq(B)|3\nT0|rel(B)|4\nT0|rel(A)|5\nT1|acq(B)|7\nT1|acq(A)|8\nT1|rel(A)|9\nT1|rel(B)|10\n%%\ndeadlock 1 5 at 3 8 keep 1 1\nraces 0 deadlocks 1\nreplay 1 T0|acq(B) T1|acq(A)\nreached 1\nend T0\nend T1\n",
        "T0|acq(A)|2\nT0|acq(B)|3\nT0|rel(B)|4\nT1|acq(B)|7\nT0|rel(A)|5\nT1|acq(A)|8\nT1|rel(A)|9\nT1|rel(B)|10\n%%\ndeadlock 1 5 at 3 8 keep 1 1\nraces 0 deadlocks 1\nreplay 1 T0|acq(B) T1|acq(A)\nreached 1\nend T0\nend T1\n",
        "T1|acq(B)|7\nT1|acq(A)|8\nT1|rel(A)|9\nT1|rel(B)|10\nT0|acq(A)|2\nT0|acq(B)|3\nT0|rel(B)|4\nT0|rel(A)|5\n%%\ndeadlock 1 5 at 8 3 keep 1 1\nraces 0 deadlocks 1\nreplay 1 T1|acq(A) T0|acq(B)\nreached 1\nend T0\nend T1\n",
        "T1|acq(B)|7\nT1|acq(A)|8\nT1|rel(A)|9\nT0|acq(A)|2\nT1|rel(B)|10\nT0|acq(B)|3\nT0|rel(B)|4\nT0|rel(A)|5\n%%\ndeadlock 1 5 at 8 3 keep 1 1\nraces 0 deadlocks 1\nreplay 1 T1|acq(A) T0|acq(B)\nreached 1\nend T0\nend T1\n",
    ];
    let stood = [
        "T0|acq(A)|2\nT1|acq(B)|7\n%%\nraces 0 deadlocks 0\nreached 0\nblocked T0 at acq(B)\nblocked T1 at acq(A)\n",
        "T1|acq(B)|7\nT0|acq(A)|2\n%%\nraces 0 deadlocks 0\nreached 0\nblocked T0 at acq(B)\nblocked T1 at acq(A)\n",
    ];
    for _ in 0..20 {
        let ran = ran_by(
            &rt,
            rt.alloc(),
            &["syncp", "run"],
            script.as_bytes(),
            1_000,
            &OpenGate,
        )?;
        assert!(rt; is_one_of(&ran, &whole, 1) || is_one_of(&ran, &stood, 0));
    }
    Ok(())
}

#[test]
fn runs_with_a_race(rt: HostRuntime) -> Result<(), Fail> {
    // The threads have the numbers of the scripts, also in the keep.
    let script = "thread W\nread X\nthread M\nfork W\nwrite X 1\n";
    let outs = [
        "M|fork(W)|4\nM|w(X)|5\nW|r(X)|2\n%%\nrace 2 with 1 at 2 5 keep 0 1\nraces 1 deadlocks 0\nreplay 1 W|r(X) M|w(X)\nreached 1\nend W\nend M\n",
        "M|fork(W)|4\nW|r(X)|2\nM|w(X)|5\n%%\nrace 2 with 1 at 5 2 keep 0 1\nraces 1 deadlocks 0\nreplay 1 M|w(X) W|r(X)\nreached 1\nend W\nend M\n",
    ];
    for _ in 0..20 {
        assert!(rt; leaves_one_of(&rt, rt.alloc(), "run", script, &OpenGate, &outs, 1)?);
    }
    Ok(())
}

#[test]
fn recordings_of_two_threads(rt: HostRuntime) -> Result<(), Fail> {
    for (case, script, outs) in [
        (
            "one lock",
            "thread A\nlock L\nunlock L\nthread B\nlock L\nunlock L\n",
            [
                "A|acq(L)|2\nA|rel(L)|3\nB|acq(L)|5\nB|rel(L)|6\n",
                "B|acq(L)|5\nB|rel(L)|6\nA|acq(L)|2\nA|rel(L)|3\n",
            ],
        ),
        (
            "no lock",
            APART,
            ["T0|w(X)|2\nT1|w(Y)|4\n", "T1|w(Y)|4\nT0|w(X)|2\n"],
        ),
        (
            "a lock that is never given back",
            "thread A\nlock L\nthread B\nlock L\n",
            ["A|acq(L)|2\n", "B|acq(L)|4\n"],
        ),
    ] {
        assert!(rt;
            leaves_one_of(&rt, rt.alloc(), "record", script, &OpenGate, &outs, 0)?,
            "{case}"
        );
    }
    Ok(())
}

#[test]
fn refused_runs(rt: HostRuntime) -> Result<(), Fail> {
    for (text, err, code) in [
        ("thread T\n%%\n", "line 2 fault 21 UnknownWord\n", 3),
        ("thread T\nif 0\n", "line 2 fault 28 OpenBlock\n", 3),
        (
            "thread T\nrepeat 65536\nread X\nread X\nend\n",
            "line 1 fault 31 TooManyInstructions\n",
            4,
        ),
    ] {
        let left = Left {
            out: b"",
            err: err.as_bytes(),
            code,
        };
        assert!(rt;
            leaves(&rt, rt.alloc(), "run", text.as_bytes(), 1_000, &left)?,
            "{err}"
        );
    }
    Ok(())
}

#[test]
fn faults_of_the_outside_in_runs(rt: HostRuntime) -> Result<(), Fail> {
    for (case, reads, writes, out, err, code) in [
        ("a read", 2, 0, "", "read fault\n", 5),
        ("a write of the trace", 0, 3, "T|", "write fault\n", 6),
        (
            "a write of the report",
            0,
            15,
            "T|r(X)|2\n%%\nra",
            "write fault\n",
            6,
        ),
    ] {
        let left = Left {
            out: out.as_bytes(),
            err: err.as_bytes(),
            code,
        };
        assert!(rt;
            leaves_failing(
                &rt,
                rt.alloc(),
                "run",
                b"thread T\nread X\n",
                &[reads],
                &[writes],
                &[],
                &left
            )?,
            "{case}"
        );
    }
    Ok(())
}

#[test]
fn threads_of_scripts_meet(rt: HostRuntime) -> Result<(), Fail> {
    let gate = Meeting::new();
    let outs = ["T0|w(X)|2\nT1|w(Y)|4\n", "T1|w(Y)|4\nT0|w(X)|2\n"];
    assert!(rt; leaves_one_of(&rt, rt.alloc(), "record", APART, &gate, &outs, 0)?);
    assert!(rt; gate.have_met());
    Ok(())
}
