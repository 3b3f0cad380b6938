// What seeds draw, as another program drew it by the same rules.
use crate::draw;
use std::test::Fail;

#[test]
fn sixteen_events(rt: HostRuntime) -> Result<(), Fail> {
    let seven = draw(rt.alloc(), 7, 16)?;
    assert_eq!(rt;
        seven.as_slice(),
        b"T2|acq(L0)|0\nT3|acq(L3)|1\nT3|rel(L3)|2\nT0|w(X27)|3\n\
          T0|acq(L7)|4\nT3|r(X23)|5\nT1|r(X28)|6\nT1|r(X10)|7\n\
          T3|w(X30)|8\nT2|rel(L0)|9\nT0|w(X54)|10\nT0|w(X14)|11\n\
          T2|r(X21)|12\nT2|w(X36)|13\nT1|acq(L1)|14\nT1|rel(L1)|15\n"
            .as_slice()
    );
    // Here a thread takes two locks, first in the order of their numbers and then against it.
    let nested = draw(rt.alloc(), 136_190, 16)?;
    assert_eq!(rt;
        nested.as_slice(),
        b"T0|w(X8)|0\nT3|r(X61)|1\nT0|r(X1)|2\nT0|r(X44)|3\n\
          T3|acq(L4)|4\nT3|acq(L6)|5\nT2|acq(L5)|6\nT3|rel(L6)|7\n\
          T0|acq(L2)|8\nT0|acq(L6)|9\nT2|r(X49)|10\nT0|w(X3)|11\n\
          T0|rel(L6)|12\nT0|rel(L2)|13\nT3|acq(L3)|14\nT3|rel(L3)|15\n"
            .as_slice()
    );
    Ok(())
}

#[test]
fn fewer_events_are_a_front(rt: HostRuntime) -> Result<(), Fail> {
    let whole = draw(rt.alloc(), 7, 16)?;
    for events in 0..16 {
        let front = draw(rt.alloc(), 7, events)?;
        let more = draw(rt.alloc(), 7, events + 1)?;
        assert!(rt; more.starts_with(&front), "after {events} events");
        assert!(rt; whole.starts_with(&more), "after {events} events");
    }
    assert!(rt; draw(rt.alloc(), 7, 0)?.is_empty());
    Ok(())
}
