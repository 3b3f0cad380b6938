// What is left of deadlocks: in reports, witnesses and replays, and where there are too many patterns.
use crate::tests::{Left, leaves_by, ran_by};
use sp_base::OpenGate;
use std::alloc::{AllocError, Global};
use std::test::Fail;

// Two threads that take two locks crosswise.
const CROSSED: &str =
    "T0|acq(A)|1\nT0|acq(B)|2\nT0|rel(B)|3\nT0|rel(A)|4\nT1|acq(B)|5\nT1|acq(A)|6\nT1|rel(A)|7\nT1|rel(B)|8\n";

// Crossed locks where the read of what was written behind the first section rules the first instance out.
const READ_BETWEEN: &str =
    "T0|acq(A)|1\nT0|acq(B)|2\nT0|rel(B)|3\nT0|rel(A)|4\nT0|w(Z)|5\nT0|acq(A)|6\nT0|acq(B)|7\nT0|rel(B)|8\nT0|rel(A)|9\nT1|r(Z)|10\nT1|acq(B)|11\nT1|acq(A)|12\nT1|rel(A)|13\nT1|rel(B)|14\n";

// Three threads, each of which takes a lock and then the next one.
const ROUND: &str =
    "T0|acq(A)|1\nT0|acq(B)|2\nT0|rel(B)|3\nT0|rel(A)|4\nT1|acq(B)|5\nT1|acq(C)|6\nT1|rel(C)|7\nT1|rel(B)|8\nT2|acq(C)|9\nT2|acq(A)|10\nT2|rel(A)|11\nT2|rel(C)|12\n";

#[test]
fn reports_of_deadlocks(rt: HostRuntime) -> Result<(), Fail> {
    for (case, size, text, out, code) in [
        (
            "crossed locks",
            "2",
            CROSSED,
            "deadlock 1 5 at 2 6 keep 1 1\nraces 0 deadlocks 1\n",
            1,
        ),
        (
            "a read that rules the first instance out",
            "3",
            READ_BETWEEN,
            "race 9 with 4 at 10 5 keep 4 0\ndeadlock 6 11 at 7 12 keep 6 2\nraces 1 deadlocks 1\n",
            1,
        ),
        (
            "a cycle longer than the size",
            "2",
            ROUND,
            "races 0 deadlocks 0\n",
            0,
        ),
        (
            "a cycle of three",
            "3",
            ROUND,
            "deadlock 1 5 9 at 2 6 10 keep 1 1 1\nraces 0 deadlocks 1\n",
            1,
        ),
    ] {
        let texts = ["syncp", "predict", "--size", size];
        let left = Left {
            out: out.as_bytes(),
            err: b"",
            code,
        };
        assert!(rt;
            leaves_by(&rt, rt.alloc(), &texts, text.as_bytes(), 7, &left)?,
            "{case}"
        );
    }
    Ok(())
}

#[test]
fn witnesses_and_replays_of_deadlocks(rt: HostRuntime) -> Result<(), Fail> {
    let crossed =
        "thread T0\nlock A\nlock B\nunlock B\nunlock A\nthread T1\nlock B\nlock A\nunlock A\nunlock B\n%%\n";
    let both = format!(in rt.alloc(); "{crossed}{CROSSED}")?;
    for (mode, finding, text, out, err, code) in [
        (
            "witness",
            "2",
            READ_BETWEEN,
            "T0|acq(A)|1\nT0|acq(B)|2\nT0|rel(B)|3\nT0|rel(A)|4\nT0|w(Z)|5\nT0|acq(A)|6\nT1|r(Z)|10\nT1|acq(B)|11\n",
            "",
            1,
        ),
        ("witness", "3", READ_BETWEEN, "", "fault 41 NoFinding\n", 4),
        (
            "replay",
            "1",
            both.as_str(),
            "replay 1 T0|acq(B) T1|acq(A)\nreached 1\n",
            "",
            1,
        ),
    ] {
        let texts = ["syncp", mode, "--finding", finding];
        let left = Left {
            out: out.as_bytes(),
            err: err.as_bytes(),
            code,
        };
        assert!(rt;
            leaves_by(&rt, rt.alloc(), &texts, text.as_bytes(), 7, &left)?,
            "{mode} {finding}"
        );
    }
    Ok(())
}

// How a text takes and gives back a lock: what stands before its name, and behind it.
#[derive(Clone, Copy)]
struct Style<'a> {
    take: &'a str,
    give: &'a str,
    end: &'a str,
}

// The lines of a thread that takes pairs of locks, one within the other; crossed, the outer one of a pair is taken last.
fn add_pairs(
    alloc: Global,
    text: &mut Vec<u8>,
    style: &Style,
    count: u32,
    crossed: bool,
) -> Result<(), AllocError> {
    let (take, give, end) = (style.take, style.give, style.end);
    for pair in 0..count {
        let outer = format!(in alloc; "A{}{end}", pair / 64)?;
        let inner = format!(in alloc; "B{}{end}", pair % 64)?;
        let (first, second) = if crossed {
            (&inner, &outer)
        } else {
            (&outer, &inner)
        };
        let lines = format!(in alloc; "{take}{first}{take}{second}{give}{second}{give}{first}")?;
        text.extend_from_slice(lines.as_bytes())?;
    }
    Ok(())
}

// A trace with as many patterns as there are pairs of locks.
fn trace_of_pairs(alloc: Global, count: u32) -> Result<Vec<u8>, AllocError> {
    let mut text = Vec::new(alloc);
    let first = Style {
        take: "T0|acq(",
        give: "T0|rel(",
        end: ")\n",
    };
    let second = Style {
        take: "T1|acq(",
        give: "T1|rel(",
        end: ")\n",
    };
    add_pairs(alloc, &mut text, &first, count, false)?;
    add_pairs(alloc, &mut text, &second, count, true)?;
    Ok(text)
}

// Scripts whose only run has as many patterns as there are pairs of locks: one thread runs after the other.
fn scripts_of_pairs(alloc: Global, count: u32) -> Result<Vec<u8>, AllocError> {
    let mut text = Vec::new(alloc);
    let style = Style {
        take: "lock ",
        give: "unlock ",
        end: "\n",
    };
    text.extend_from_slice(b"thread M\nfork T0\njoin T0\nfork T1\njoin T1\nthread T0\n")?;
    add_pairs(alloc, &mut text, &style, count, false)?;
    text.extend_from_slice(b"thread T1\n")?;
    add_pairs(alloc, &mut text, &style, count, true)?;
    Ok(text)
}

#[test]
fn traces_with_many_patterns(rt: HostRuntime) -> Result<(), Fail> {
    let alloc = rt.alloc();
    let most = trace_of_pairs(alloc, 4_096)?;
    let ran = ran_by(&rt, alloc, &["syncp", "predict"], &most, 4_096, &OpenGate)?;
    assert!(rt;
        ran.out
            .text()
            .starts_with(b"deadlock 1 16385 at 0 0 keep 1 1\n")
    );
    assert!(rt; ran.out.text().ends_with(b"\nraces 0 deadlocks 64\n"));
    assert!(rt; ran.err.text().is_empty() && ran.status.code() == 1);
    let more = trace_of_pairs(alloc, 4_097)?;
    let left = Left {
        out: b"",
        err: b"fault 40 TooManyPatterns\n",
        code: 4,
    };
    assert!(rt; leaves_by(&rt, alloc, &["syncp", "predict"], &more, 4_096, &left)?);
    let far = ["syncp", "witness", "--finding", "69632"];
    assert!(rt; leaves_by(&rt, alloc, &far, &more, 4_096, &left)?);
    Ok(())
}

#[test]
fn runs_with_many_patterns(rt: HostRuntime) -> Result<(), Fail> {
    let alloc = rt.alloc();
    let most = scripts_of_pairs(alloc, 4_096)?;
    let ran = ran_by(&rt, alloc, &["syncp", "run"], &most, 4_096, &OpenGate)?;
    assert!(rt;
        ran.out
            .text()
            .ends_with(b"races 0 deadlocks 0\nreached 0\nend M\nend T0\nend T1\n")
    );
    assert!(rt; ran.err.text().is_empty() && ran.status.code() == 0);
    let more = scripts_of_pairs(alloc, 4_097)?;
    let ran = ran_by(&rt, alloc, &["syncp", "run"], &more, 4_096, &OpenGate)?;
    assert!(rt; ran.out.text().ends_with(b"M|join(T1)|5\n%%\n"));
    assert!(rt;
        ran.err.text() == b"fault 40 TooManyPatterns\n".as_slice() && ran.status.code() == 4
    );
    let mut replayed = more;
    replayed.extend_from_slice(b"%%\n")?;
    replayed.extend_from_slice(ran.out.text())?;
    // The second mark is a line of no operation.
    replayed.truncate(replayed.len().saturating_sub(3));
    let left = Left {
        out: b"",
        err: b"fault 40 TooManyPatterns\n",
        code: 4,
    };
    assert!(rt; leaves_by(&rt, alloc, &["syncp", "replay"], &replayed, 4_096, &left)?);
    Ok(())
}
