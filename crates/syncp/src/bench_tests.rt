// What the mode `bench` leaves, and that workers have no part in what a search leaves.
use crate::meeting::Meeting;
use crate::tests::{Left, leaves_by, leaves_failing, ran_by};
use sp_base::OpenGate;
use std::test::Fail;

#[test]
fn jobs_of_a_search_meet(rt: HostRuntime) -> Result<(), Fail> {
    let gate = Meeting::new();
    let texts = ["syncp", "predict", "--workers", "2"];
    let text = b"T0|w(X)\nT1|w(X)\nT0|w(Y)\nT1|w(Y)\n";
    let ran = ran_by(&rt, rt.alloc(), &texts, text, 7, &gate)?;
    let out: &[u8] =
        b"race 1 with 0 at 0 0 keep 0 0\nrace 3 with 2 at 0 0 keep 1 1\nraces 2 deadlocks 0\n";
    assert_eq!(rt; ran.out.text(), out);
    assert_eq!(rt; ran.status.code(), 1);
    assert!(rt; gate.have_met());
    Ok(())
}

#[test]
fn a_drawn_trace_for_every_number_of_workers(rt: HostRuntime) -> Result<(), Fail> {
    let alloc = rt.alloc();
    let one = ["syncp", "bench", "--seed", "7", "--workers", "1"];
    let ran = ran_by(&rt, alloc, &one, b"", 7, &OpenGate)?;
    assert!(rt; ran.out.text().starts_with(b"events 4000\nraces "));
    let left = Left {
        out: ran.out.text(),
        err: b"",
        code: 0,
    };
    for workers in ["2", "64"] {
        let texts = ["syncp", "bench", "--seed", "7", "--workers", workers];
        assert!(rt;
            leaves_by(&rt, alloc, &texts, b"", 7, &left)?,
            "{workers} workers"
        );
    }
    Ok(())
}

#[test]
fn a_drawn_trace_needs_no_source(rt: HostRuntime) -> Result<(), Fail> {
    let alloc = rt.alloc();
    let ran = ran_by(&rt, alloc, &["syncp", "bench"], b"", 7, &OpenGate)?;
    let whole = Left {
        out: ran.out.text(),
        err: b"",
        code: 0,
    };
    assert!(rt; leaves_failing(&rt, alloc, "bench", b"", &[1], &[], &[], &whole)?);
    let nothing = Left {
        out: b"",
        err: b"write fault\n",
        code: 6,
    };
    assert!(rt; leaves_failing(&rt, alloc, "bench", b"", &[], &[1], &[], &nothing)?);
    Ok(())
}
