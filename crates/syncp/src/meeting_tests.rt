// Two threads of scripts that wait for each other, in the mode `run`.
use crate::meeting::Meeting;
use crate::tests::ran_by;
use std::test::Fail;

#[test]
fn threads_of_runs_meet(rt: HostRuntime) -> Result<(), Fail> {
    let gate = Meeting::new();
    let script = b"thread T0\nwrite X 1\nthread T1\nwrite Y 1\n".as_slice();
    let ran = ran_by(&rt, rt.alloc(), &["syncp", "run"], script, 1_000, &gate)?;
    assert!(rt; gate.have_met());
    let outs = [
        "T0|w(X)|2\nT1|w(Y)|4\n%%\nraces 0 deadlocks 0\nreached 0\nend T0\nend T1\n",
        "T1|w(Y)|4\nT0|w(X)|2\n%%\nraces 0 deadlocks 0\nreached 0\nend T0\nend T1\n",
    ];
    assert!(rt; outs.iter().any(|out| out.as_bytes() == ran.out.text()));
    assert_eq!(rt; ran.status.code(), 0);
    Ok(())
}
