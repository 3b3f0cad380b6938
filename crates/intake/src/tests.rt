// What is read of sources that give their bytes in pieces.
ghost use Rattle.std.specs.Prelude.{◌<◌};

use crate::{
    IntakeFault, count_newlines, input_parts, read_script, read_trace, script_of, trace_behind,
    whole_text,
};
use sp_base::{MAX_INPUT, MemSource};
use std::alloc::{AllocError, Global};
use std::test::Fail;
use trace_laws::Names;

// A source of the text in pieces, which fails at some calls.
fn source(alloc: Global, text: &str, piece: u32, fails: &[u32]) -> Result<MemSource, AllocError>
    requires { 0 < piece }
{
    let bytes = text.as_bytes().to_vec(alloc)?;
    Ok(MemSource::new(bytes, piece, fails.to_vec(alloc)?))
}

// How many events and threads the trace of a source has.
fn trace_size(alloc: Global, mut source: MemSource) -> Option<(u32, u16)> {
    let Ok((trace, names)) = read_trace(alloc, &mut source) else {
        return None;
    };
    Some((trace.len(), names.threads()))
}

// How many bytes the text of a source has.
fn text_len(alloc: Global, mut source: MemSource) -> Option<usize> {
    let Ok(text) = whole_text(alloc, &mut source) else {
        return None;
    };
    Some(text.len())
}

// How many threads the scripts of a source have.
fn script_threads(alloc: Global, mut source: MemSource) -> Option<u16> {
    let Ok(script) = read_script(alloc, &mut source) else {
        return None;
    };
    Some(script.threads())
}

const TRACE: &str = "T0|w(X)|1\nT1|r(X)|22";

const SCRIPTS: &str = "thread M\nfork W\nthread W\nread X";

#[test]
fn inputs_in_pieces(rt: HostRuntime) -> Result<(), Fail> {
    let alloc = rt.alloc();
    for piece in [1, 3, 11, 100] {
        let trace = trace_size(alloc, source(alloc, TRACE, piece, &[])?);
        assert_eq!(rt; trace, Some((2, 2)), "pieces of {piece}");
        let text = text_len(alloc, source(alloc, TRACE, piece, &[])?);
        assert_eq!(rt; text, Some(20), "pieces of {piece}");
        let threads = script_threads(alloc, source(alloc, SCRIPTS, piece, &[])?);
        assert_eq!(rt; threads, Some(2), "pieces of {piece}");
    }
    Ok(())
}

// Whether a source that fails is answered with `Read`.
fn fails_to_read(alloc: Global, mut source: MemSource) -> bool {
    matches!(read_trace(alloc, &mut source), Err(IntakeFault::Read))
}

// Whether so is the gathering of its text.
fn fails_to_gather(alloc: Global, mut source: MemSource) -> bool {
    matches!(whole_text(alloc, &mut source), Err(IntakeFault::Read))
}

#[test]
fn sources_that_fail(rt: HostRuntime) -> Result<(), Fail> {
    let alloc = rt.alloc();
    for call in [1, 2, 6] {
        let trace = source(alloc, TRACE, 4, &[call])?;
        assert!(rt; fails_to_read(alloc, trace), "at call {call}");
        let text = source(alloc, TRACE, 4, &[call])?;
        assert!(rt; fails_to_gather(alloc, text), "at call {call}");
    }
    Ok(())
}

#[test]
fn parts_of_inputs(rt: HostRuntime) {
    for (input, scripts, trace) in [
        ("", "", ""),
        ("a\nb", "a\nb", ""),
        ("%%", "", ""),
        ("a\n%%\nb\n%%\nc", "a\n", "b\n%%\nc"),
        ("a%%\n%%%\n%%\r\nb", "a%%\n%%%\n", "b"),
        ("%%\r\r\n%%\n", "%%\r\r\n", ""),
    ] {
        let parts = input_parts(input.as_bytes());
        assert_eq!(rt; parts.0, scripts.as_bytes(), "{input}");
        assert_eq!(rt; parts.1, trace.as_bytes(), "{input}");
    }
}

// How many events the trace behind a script has.
fn events_behind(alloc: Global, script: &str, text: &str) -> Option<u32> {
    let bytes = script.as_bytes();
    if bytes.len() > MAX_INPUT as usize {
        return None;
    }
    let Ok(script) = script_of(alloc, bytes) else {
        return None;
    };
    let Ok(trace) = trace_behind(alloc, script.names(), 6, text.as_bytes()) else {
        return None;
    };
    Some(trace.len())
}

// Whether the text of a trace without a script is refused.
fn is_refused(alloc: Global, text: &str) -> bool {
    let Ok(names) = Names::new(alloc) else {
        return false;
    };
    matches!(
        trace_behind(alloc, &names, 1, text.as_bytes()),
        Err(IntakeFault::Text { .. })
    )
}

#[test]
fn traces_behind_scripts(rt: HostRuntime) {
    let alloc = rt.alloc();
    assert_eq!(rt; count_newlines(SCRIPTS.as_bytes()), 3);
    assert_eq!(rt; events_behind(alloc, SCRIPTS, TRACE), Some(2));
    assert!(rt; is_refused(alloc, "M|w(X)\nM"));
    assert!(rt; is_refused(alloc, "Main|acq(L)\nT1|acq(L)\n"));
    assert!(rt; !is_refused(alloc, TRACE));
}
