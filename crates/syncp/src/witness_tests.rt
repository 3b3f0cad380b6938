// What the mode `witness` leaves: the events that lead to a finding.
use crate::tests::{Left, leaves_by};
use std::test::Fail;

// A race that happens-before hides: both accesses stand outside the sections of one lock.
const HIDDEN: &str = "T0|w(X)|1\nT0|acq(L)|2\nT0|rel(L)|3\nT1|acq(L)|4\nT1|rel(L)|5\nT1|w(X)|6\n";

// Two races, the second of which needs an event of each thread.
const TWO_RACES: &str = "A|begin(m)\nA|w(X)|1\nB|w(X)\nB|w(Y)|3\nA|w(Y)|4\n";

#[test]
fn witnesses_of_findings(rt: HostRuntime) -> Result<(), Fail> {
    for (case, text, number, out) in [
        (
            "a section that comes before the other",
            HIDDEN,
            "1",
            "T1|acq(L)|4\nT1|rel(L)|5\n",
        ),
        ("no events", TWO_RACES, "1", ""),
        (
            "an event of each thread",
            TWO_RACES,
            "2",
            "A|w(X)|1\nB|w(X)|0\n",
        ),
    ] {
        let texts = ["syncp", "witness", "--finding", number];
        let left = Left {
            out: out.as_bytes(),
            err: b"",
            code: 1,
        };
        assert!(rt;
            leaves_by(&rt, rt.alloc(), &texts, text.as_bytes(), 3, &left)?,
            "{case}"
        );
    }
    Ok(())
}

#[test]
fn refused_witnesses(rt: HostRuntime) -> Result<(), Fail> {
    for (case, text, number, err, code) in [
        (
            "a number past the findings",
            HIDDEN,
            "2",
            "fault 41 NoFinding\n",
            4,
        ),
        ("no findings", "", "1", "fault 41 NoFinding\n", 4),
        (
            "a refused trace",
            "T0|rel(L)\n",
            "9",
            "line 1 fault 13 NotHeld\n",
            3,
        ),
    ] {
        let texts = ["syncp", "witness", "--finding", number];
        let left = Left {
            out: b"",
            err: err.as_bytes(),
            code,
        };
        assert!(rt;
            leaves_by(&rt, rt.alloc(), &texts, text.as_bytes(), 3, &left)?,
            "{case}"
        );
    }
    Ok(())
}
