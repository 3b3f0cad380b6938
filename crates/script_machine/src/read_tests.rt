//! Texts read as scripts: each fault with its line, and texts without one.

use crate::{Script, ScriptError, ScriptKind};
use sp_base::{LockId, MAX_INPUT, VarId};
use std::alloc::{AllocError, Global};
use trace_laws::Names;

// What a script counts, or nothing where the text is none.
#[derive(Clone, Copy, Debug)]
struct Counts {
    threads: u16,
    size: u32,
    locks: u32,
    variables: u32,
}

// What the script of the text counts.
fn counted(rt: &HostRuntime, text: &[u8]) -> Option<Counts> {
    if text.len() > MAX_INPUT as usize {
        return None;
    }
    match Script::read(rt.alloc(), text) {
        Ok(script) => Some(Counts {
            threads: script.threads(),
            size: script.size(),
            locks: script.locks(),
            variables: script.variables(),
        }),
        Err(_) => None,
    }
}

// Whether the text is a script of that size.
fn is_of_size(rt: &HostRuntime, text: &[u8], size: u32) -> bool {
    match counted(rt, text) {
        Some(found) => found.size == size,
        None => false,
    }
}

// Whether the text has this first fault.
fn has_fault(rt: &HostRuntime, text: &[u8], line: u32, kind: ScriptKind) -> bool {
    if text.len() > MAX_INPUT as usize {
        return false;
    }
    match Script::read(rt.alloc(), text) {
        Err(ScriptError::Fault(fault)) => fault.line == line && fault.kind == kind,
        _ => false,
    }
}

// The front, so many numbered lines of the word, and the back.
fn numbered_lines(
    alloc: Global,
    front: &str,
    word: &str,
    count: u32,
    back: &str,
) -> Result<Vec<u8>, AllocError> {
    let mut text = Vec::new(alloc);
    text.extend_from_slice(front.as_bytes())?;
    for number in 0..count {
        let line = format!(in alloc; "{word}{number}\n")?;
        text.extend_from_slice(line.as_bytes())?;
    }
    text.extend_from_slice(back.as_bytes())?;
    Ok(text)
}

// The front, the middle that many times, and the back.
fn many(
    alloc: Global,
    front: &[u8],
    middle: &[u8],
    count: u32,
    back: &[u8],
    again: u32,
) -> Result<Vec<u8>, AllocError> {
    let mut text = Vec::new(alloc);
    text.extend_from_slice(front)?;
    for _ in 0..count {
        text.extend_from_slice(middle)?;
    }
    for _ in 0..again {
        text.extend_from_slice(back)?;
    }
    Ok(text)
}

// Whether the front, the middle that many times and the back have this first fault.
fn many_has_fault(
    rt: &HostRuntime,
    front: &[u8],
    middle: &[u8],
    count: u32,
    line: u32,
    kind: ScriptKind,
) -> bool {
    match many(rt.alloc(), front, middle, count, b"", 0) {
        Ok(text) => has_fault(rt, text.as_slice(), line, kind),
        Err(_) => false,
    }
}

// Whether the front, the middle and the back, each that many times, are a script without instructions.
fn many_is_empty(rt: &HostRuntime, front: &[u8], middle: &[u8], count: u32, back: &[u8]) -> bool {
    match many(rt.alloc(), front, middle, count, back, count) {
        Ok(text) => is_of_size(rt, text.as_slice(), 0),
        Err(_) => false,
    }
}

// Whether the front, so many numbered lines of the word and the back have too many names at that line.
fn has_too_many_names(
    rt: &HostRuntime,
    front: &str,
    word: &str,
    count: u32,
    back: &str,
    line: u32,
) -> bool {
    match numbered_lines(rt.alloc(), front, word, count, back) {
        Ok(text) => has_fault(rt, text.as_slice(), line, ScriptKind::TooManyNames),
        Err(_) => false,
    }
}

// Whether the front, so many numbered lines of the word and the back are a script of that size.
fn numbered_is_of_size(
    rt: &HostRuntime,
    front: &str,
    word: &str,
    count: u32,
    back: &str,
    size: u32,
) -> bool {
    match numbered_lines(rt.alloc(), front, word, count, back) {
        Ok(text) => is_of_size(rt, text.as_slice(), size),
        Err(_) => false,
    }
}

// Whether the lock of that number has this name.
fn has_lock(names: &Names, number: u32, name: &[u8]) -> bool {
    match LockId::new(number) {
        Some(lock) => number < names.locks() && names.lock_name(lock) == name,
        None => false,
    }
}

// Whether the variable of that number has this name.
fn has_variable(names: &Names, number: u32, name: &[u8]) -> bool {
    match VarId::new(number) {
        Some(variable) => number < names.vars() && names.var_name(variable) == name,
        None => false,
    }
}

// Whether the lock and the variable of that number have these names in the script of the text.
fn has_names(rt: &HostRuntime, text: &[u8], number: u32, lock: &[u8], variable: &[u8]) -> bool {
    if text.len() > MAX_INPUT as usize {
        return false;
    }
    match Script::read(rt.alloc(), text) {
        Ok(script) => {
            let names = script.names();
            has_lock(names, number, lock) && has_variable(names, number, variable)
        }
        Err(_) => false,
    }
}

#[test]
fn faults_of_words(rt: HostRuntime) {
    for (text, line, kind) in [
        ("thread A\nlok x\n", 2, ScriptKind::UnknownWord),
        ("Lock x\n", 1, ScriptKind::UnknownWord),
        ("thread\n", 1, ScriptKind::Operand),
        ("thread A B\n", 1, ScriptKind::Operand),
        ("thread A\nlock a(b\n", 2, ScriptKind::Operand),
        ("thread A\nend 1\n", 2, ScriptKind::Operand),
        ("thread A\nwrite x|y z\n", 2, ScriptKind::Operand),
        ("thread A\nwrite x 1 2\n", 2, ScriptKind::Operand),
        ("thread A\nwrite x y\n", 2, ScriptKind::Number),
        (
            "thread A\nadd 18446744073709551616\n",
            2,
            ScriptKind::Number,
        ),
        ("repeat 65537\n", 1, ScriptKind::Number),
        ("thread A\nif -1\n", 2, ScriptKind::Number),
    ] {
        assert!(rt; has_fault(&rt, text.as_bytes(), line, kind), "{text}");
    }
}

#[test]
fn faults_of_places(rt: HostRuntime) {
    for (text, line, kind) in [
        ("# none yet\n\nlock a\nlok\n", 3, ScriptKind::NoThread),
        ("end\n", 1, ScriptKind::NoThread),
        ("thread A\nthread B\nthread A\n", 3, ScriptKind::TwiceNamed),
        (
            "thread A\nif 1\nlock l\nthread B\n",
            2,
            ScriptKind::OpenBlock,
        ),
        (
            "thread A\nrepeat 2\nif 1\nelse\nthread A\n",
            3,
            ScriptKind::OpenBlock,
        ),
        ("thread A\nend\n", 2, ScriptKind::StrayEnd),
        ("thread A\nelse\n", 2, ScriptKind::StrayEnd),
        ("thread A\nrepeat 1\nelse\n", 3, ScriptKind::StrayEnd),
        ("thread A\nif 1\nelse\nelse\n", 4, ScriptKind::StrayEnd),
    ] {
        assert!(rt; has_fault(&rt, text.as_bytes(), line, kind), "{text}");
    }
}

#[test]
fn blocks_within_blocks(rt: HostRuntime) {
    assert!(rt;
        many_has_fault(
            &rt,
            b"thread A\n",
            b"repeat 65536\n",
            65,
            66,
            ScriptKind::TooDeep
        )
    );
    assert!(rt; many_is_empty(&rt, b"thread A\n", b"repeat 65536\n", 64, b"end\n"));
}

#[test]
fn faults_of_the_end(rt: HostRuntime) {
    for (text, line, kind) in [
        ("thread A\njoin B\nif 1\nelse\n", 3, ScriptKind::OpenBlock),
        (
            "thread A\nrepeat 0\nfork B\nend\njoin B\n",
            3,
            ScriptKind::UnknownThread,
        ),
        (
            "thread A\nrepeat 65536\nread x\nread x\nend\njoin B\n",
            6,
            ScriptKind::UnknownThread,
        ),
        (
            "thread A\nlock l\nthread B\nrepeat 65536\nread x\nend\n",
            3,
            ScriptKind::TooManyInstructions,
        ),
        (
            "thread A\nfork B\nfork B\nrepeat 65535\nadd 1\nend\nthread B\n",
            1,
            ScriptKind::TooManyInstructions,
        ),
        (
            "thread A\nfork B\nrepeat 0\nfork B\nend\nrepeat 2\nfork B\nend\nthread B\n",
            7,
            ScriptKind::ForkedTwice,
        ),
        (
            "thread A\nif 1\nfork B\nelse\nfork B\nend\nthread B\n",
            5,
            ScriptKind::ForkedTwice,
        ),
        (
            "thread A\nfork B\nthread B\nfork C\nthread C\nfork B\n",
            6,
            ScriptKind::ForkedTwice,
        ),
        (
            "thread A\nrepeat 65536\nrepeat 65536\nread X\nend\nend\n",
            1,
            ScriptKind::TooManyInstructions,
        ),
    ] {
        assert!(rt; has_fault(&rt, text.as_bytes(), line, kind), "{text}");
    }
}

#[test]
fn names_within_their_limits(rt: HostRuntime) {
    for (front, word, count, back, size) in [
        ("", "thread ", 64, "", 0),
        ("thread A\n", "lock ", 4096, "lock 0\n", 4097),
        ("thread A\n", "read ", 65536, "", 65536),
    ] {
        assert!(rt;
            numbered_is_of_size(&rt, front, word, count, back, size),
            "{word}"
        );
    }
}

#[test]
fn names_beyond_their_limits(rt: HostRuntime) {
    for (front, word, count, back, line) in [
        ("", "thread ", 65, "", 65),
        ("thread A\n", "unlock ", 4096, "lock a\n", 4098),
        ("thread A\n", "read ", 65536, "write a\n", 65538),
    ] {
        assert!(rt;
            has_too_many_names(&rt, front, word, count, back, line),
            "{word}"
        );
    }
}

#[test]
fn lengths_of_names(rt: HostRuntime) {
    assert!(rt; many_is_empty(&rt, b"thread ", b"x", 255, b""));
    assert!(rt; many_has_fault(&rt, b"thread ", b"x", 256, 1, ScriptKind::Operand));
}

#[test]
fn white_space_and_sizes(rt: HostRuntime) {
    for (text, size) in [
        ("", 0),
        ("thread A\r\n\r\nlock l\r\nunlock l\r\n", 2),
        (" \tthread \t A  \n\tlock\tl \n \t\nunlock  l", 2),
        ("# a | comment\nthread A\n  #lock\nlock #l\n", 1),
        ("thread A\nadd 018446744073709551615\n", 1),
        (
            "thread A\nrepeat 65536\nrepeat 65536\nend\nend\nlock l\n",
            1,
        ),
        (
            "thread A\nrepeat 0\nrepeat 65536\nrepeat 65536\nread X\nend\nend\nend\n",
            0,
        ),
        ("thread A\nrepeat 65536\nread X\nend\n", 65536),
        (
            "thread A\nrepeat 3\nif 1\nread X\nelse\nadd 1\nend\nend\n",
            12,
        ),
    ] {
        assert!(rt; is_of_size(&rt, text.as_bytes(), size), "{text}");
    }
}

// Whether the text is a script with so many threads, locks and variables.
fn has_counts(rt: &HostRuntime, text: &[u8], threads: u16, locks: u32, variables: u32) -> bool {
    match counted(rt, text) {
        Some(found) => {
            found.threads == threads && found.locks == locks && found.variables == variables
        }
        None => false,
    }
}

#[test]
fn names_of_other_bytes(rt: HostRuntime) {
    let text = b"thread \xff\xfe\nlock \x80\nlock l\nunlock l\r\r\n";
    assert!(rt; has_counts(&rt, text, 1, 3, 0));
}

#[test]
fn names_are_numbered_by_the_text(rt: HostRuntime) {
    let text = b"thread A\nunlock b\nrepeat 0\nread y\nlock a\nend\nread x\nlock b\nlock a\n";
    assert!(rt; has_names(&rt, text, 0, b"b", b"y"));
    assert!(rt; has_names(&rt, text, 1, b"a", b"x"));
    assert!(rt; !has_names(&rt, text, 2, b"a", b"x"));
    assert!(rt; is_of_size(&rt, text, 4));
}
