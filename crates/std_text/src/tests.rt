// What the reader makes of lines at the edges of the format.
ghost use Rattle.std.specs.Prelude.{◌≡◌, false, IfSome};
ghost use Rattle.std_text.specs.Refusal.{IsHolderGiven};
ghost use Rattle.std_text.specs.Told.{IsHolderKnown};
ghost use Rattle.std_text.specs.Writing.{IsCallNamed};

use crate::{
    ReadFault, Reader, StdKind, computed_laws_are_the_laws, pieces_are_the_text, write_call,
    write_event, write_op, written_text_is_read,
};
use sp_base::{OutOfMemory, ThreadId};
use std::alloc::{AllocError, Global};
use std::test::Fail;
use trace_laws::{Event, Names, Op, Trace};

// Reads a whole text in one piece.
fn read_by(mut reader: Reader, text: &[u8]) -> Result<(Trace, Names), ReadFault>
    requires { reader.closed ≡ false }
{
    reader.feed(text)?;
    reader.close()?;
    Ok(reader.finish())
}

// Reads a whole text that stands alone.
fn read(alloc: Global, text: &[u8]) -> Result<(Trace, Names), ReadFault> {
    let Ok(reader) = Reader::new(alloc) else {
        return Err(ReadFault::OutOfMemory);
    };
    read_by(reader, text)
}

// The location of the first event of a text, where it has one and is taken.
fn first_location(alloc: Global, text: &[u8]) -> Option<u32> {
    let Ok((trace, _names)) = read(alloc, text) else {
        return None;
    };
    if trace.len() == 0 {
        return None;
    }
    let event = trace.event(0);
    Some(event.loc)
}

// The number of a kind.
fn number(kind: &StdKind) -> u32 {
    match kind {
        StdKind::LineTooLong => 1,
        StdKind::NoBar => 2,
        StdKind::BadName => 3,
        StdKind::UnknownOperation => 4,
        StdKind::BadOperand => 5,
        StdKind::InputTooLong => 6,
        StdKind::TooManyEvents => 7,
        StdKind::TooManyThreads => 8,
        StdKind::TooManyLocks => 9,
        StdKind::TooManyVars => 10,
        StdKind::LockHeld(_) => 11,
        StdKind::Reentrant => 12,
        StdKind::NotHeld => 13,
        StdKind::ForkLate => 14,
        StdKind::ForkTwice => 15,
        StdKind::SelfThread => 16,
        StdKind::AfterJoin => 17,
    }
}

// The line of a fault, and the number of its kind.
fn told_by(fault: &ReadFault) -> (u32, u32) {
    match fault {
        ReadFault::Text(fault) => (fault.line, number(&fault.kind)),
        ReadFault::OutOfMemory => (0, 0),
    }
}

// The line and the kind for which a text is refused, and zeros where it is taken.
fn refusal(alloc: Global, text: &[u8]) -> (u32, u32) {
    let Err(fault) = read(alloc, text) else {
        return (0, 0);
    };
    told_by(&fault)
}

// Whether a text is refused at that line for that kind, and taken where they are zeros.
fn is_told(alloc: Global, text: &[u8], line: u32, kind: u32) -> bool {
    refusal(alloc, text) == (line, kind)
}

#[test]
fn lines_that_are_taken(rt: HostRuntime) {
    for (case, text, location) in [
        ("a whole line", "T0|w(X)|12\n", 12),
        ("no newline at the end", "T0|w(X)|12", 12),
        ("a carriage return at the end", "T0|w(X)|12\r\n", 12),
        ("a carriage return and no newline", "T0|w(X)|12\r", 12),
        ("empty lines before", "\n\r\n\nT0|w(X)|12\n", 12),
        ("no location field", "T0|w(X)\n", 0),
        ("an empty location field", "T0|w(X)|\n", 0),
        ("leading zeros", "T0|w(X)|0012\n", 12),
        (
            "the greatest location",
            "T0|w(X)|4294967295\n",
            4_294_967_295,
        ),
        ("a greater number", "T0|w(X)|4294967296\n", 0),
        ("a location that is no number", "T0|w(X)|1a\n", 0),
        ("a location with a space", "T0|w(X)| 1\n", 0),
        ("a further bar", "T0|w(X)|1|2\n", 0),
        ("two carriage returns", "T0|w(X)|12\r\r\n", 0),
        ("names with other bytes", "T 0|w(V234.23[0])|12\n", 12),
        ("a name that is an operation", "w|w(w)|12\n", 12),
        ("a skipped line before", "T|begin(m)|3\nT0|w(X)|12\n", 12),
        ("a skipped word alone", "|end\nT0|w(X)|12\n", 12),
        (
            "a skipped line with bad names",
            "(|begin(()\nT0|w(X)|12\n",
            12,
        ),
        ("a fork", "T0|fork(T1)|12\n", 12),
        ("a join of a thread without events", "T0|join(T1)|12\n", 12),
        (
            "an end of a thread that was joined",
            "T0|join(T1)|12\nT1|end\n",
            12,
        ),
    ] {
        assert_eq!(rt;
            first_location(rt.alloc(), text.as_bytes()),
            Some(location),
            "{case}"
        );
    }
}

#[test]
fn lines_that_are_refused(rt: HostRuntime) {
    for (case, text, line, kind) in [
        ("no bar", "T0 w(X)\n", 1, 2),
        ("a carriage return alone before the last", "\r\r\n", 1, 2),
        ("a skipped word without a bar", "begin\n", 1, 2),
        ("no thread", "|w(X)\n", 1, 3),
        ("a thread with a parenthesis", "T(|w(X)\n", 1, 3),
        ("no thread and an unknown operation", "|x(X)\n", 1, 3),
        ("no operand", "T0|w()\n", 1, 3),
        ("an operand with a parenthesis", "T0|w((X)\n", 1, 3),
        ("two operands", "T0|w(X)(Y)\n", 1, 3),
        ("no operation", "T0|\n", 1, 4),
        ("an unknown operation", "T0|write(X)\n", 1, 4),
        ("an operation in capitals", "T0|W(X)\n", 1, 4),
        ("a longer skipped word", "T0|begins(m)\n", 1, 4),
        ("an unknown operation without an operand", "T0|x\n", 1, 4),
        ("no parenthesis", "T0|w\n", 1, 5),
        ("no closing parenthesis", "T0|w(X\n", 1, 5),
        ("an opening parenthesis alone", "T0|w(\n", 1, 5),
        ("bytes behind the operand", "T0|w(X) \n", 1, 5),
        ("a bar in the operand", "T0|w(X|Y)\n", 1, 5),
        ("a later line", "T0|w(X)\n\n\r\nT0|x(X)\nT0|\n", 4, 4),
        ("a last line without a newline", "T0|w(X)\nT0|w(X", 2, 5),
        ("a held lock", "T0|acq(L)\nT1|acq(L)\n", 2, 11),
        (
            "a lock that the thread holds",
            "T0|acq(L)\nT0|acq(L)\n",
            2,
            12,
        ),
        ("a free lock", "T0|rel(L)\n", 1, 13),
        ("another's lock", "T0|acq(L)\nT1|rel(L)\n", 2, 13),
        ("a fork behind an event", "T1|w(X)\nT0|fork(T1)\n", 2, 14),
        ("a second fork", "T0|fork(T1)\nT2|fork(T1)\n", 2, 15),
        ("a fork of itself", "T0|fork(T0)\n", 1, 16),
        ("a join of itself", "T0|join(T0)\n", 1, 16),
        ("an event behind a join", "T0|join(T1)\nT1|w(X)\n", 2, 17),
        ("a fork behind a join", "T0|join(T1)\nT0|fork(T1)\n", 2, 17),
        (
            "a joined thread's release",
            "T0|join(T1)\nT1|rel(L)\n",
            2,
            17,
        ),
    ] {
        assert!(rt; is_told(rt.alloc(), text.as_bytes(), line, kind), "{case}");
    }
}

// A text of a front, so many bytes, and a back.
fn padded(
    alloc: Global,
    front: &str,
    byte: u8,
    count: u32,
    back: &str,
) -> Result<Vec<u8>, AllocError> {
    let mut text = front.as_bytes().to_vec(alloc)?;
    for _ in 0..count {
        text.push(byte)?;
    }
    text.extend_from_slice(back.as_bytes())?;
    Ok(text)
}

// Whether the text of a front, so many bytes and a back is told so.
fn is_padded_told(
    alloc: Global,
    front: &str,
    byte: u8,
    count: u32,
    back: &str,
    told: (u32, u32),
) -> bool {
    match padded(alloc, front, byte, count, back) {
        Ok(text) => is_told(alloc, &text, told.0, told.1),
        Err(_) => false,
    }
}

#[test]
fn lengths_at_their_limits(rt: HostRuntime) {
    for (case, front, byte, count, back, told) in [
        ("a thread of 255 bytes", "", b'T', 255, "|w(X)\n", (0, 0)),
        ("a thread of 256 bytes", "", b'T', 256, "|w(X)\n", (1, 3)),
        ("an operand of 255 bytes", "T|w(", b'X', 255, ")\n", (0, 0)),
        ("an operand of 256 bytes", "T|w(", b'X', 256, ")\n", (1, 3)),
        (
            "a line of 4,096 bytes",
            "T|w(X)|",
            b'0',
            4_089,
            "\n",
            (0, 0),
        ),
        (
            "a line of 4,097 bytes",
            "T|w(X)|",
            b'0',
            4_090,
            "\n",
            (1, 1),
        ),
        (
            "byte 4,096 a return",
            "T|w(X)|",
            b'0',
            4_088,
            "\r\n",
            (0, 0),
        ),
        (
            "byte 4,097 a return",
            "T|w(X)|",
            b'0',
            4_089,
            "\r\n",
            (1, 1),
        ),
        ("4,097 bytes without a bar", "", b'0', 4_097, "", (1, 1)),
        ("4,096 bytes without a bar", "", b'0', 4_096, "", (1, 2)),
        ("a later line", "\nT|w(X)\n", b'0', 4_097, "\n", (3, 1)),
    ] {
        assert!(rt;
            is_padded_told(rt.alloc(), front, byte, count, back, told),
            "{case}"
        );
    }
}

// A text of so many lines, each with its number in a name, and a last line.
fn numbered(
    alloc: Global,
    front: &str,
    count: u32,
    back: &str,
    last: &str,
) -> Result<Vec<u8>, AllocError> {
    let mut text = Vec::new(alloc);
    for line in 0..count {
        let middle = format!(in alloc; "{line}")?;
        text.extend_from_slice(front.as_bytes())?;
        text.extend_from_slice(middle.as_bytes())?;
        text.extend_from_slice(back.as_bytes())?;
    }
    text.extend_from_slice(last.as_bytes())?;
    Ok(text)
}

// Whether the text of so many numbered lines and a last one is told so.
fn is_numbered_told(
    alloc: Global,
    front: &str,
    count: u32,
    back: &str,
    last: &str,
    told: (u32, u32),
) -> bool {
    match numbered(alloc, front, count, back, last) {
        Ok(text) => is_told(alloc, &text, told.0, told.1),
        Err(_) => false,
    }
}

#[test]
fn counts_at_their_limits(rt: HostRuntime) {
    for (case, front, count, back, last, told) in [
        ("64 threads", "T", 64, "|w(X)\n", "T0|w(X)", (0, 0)),
        ("65 threads", "T", 64, "|w(X)\n", "U|w(X)", (65, 8)),
        (
            "a 65th by a fork",
            "T",
            64,
            "|w(X)\n",
            "T0|fork(U)",
            (65, 8),
        ),
        ("65 that are skipped", "T", 65, "|end\n", "U|w(X)", (0, 0)),
        ("4,096 locks", "T|acq(", 4_096, ")\n", "T|rel(0)", (0, 0)),
        (
            "4,097 locks",
            "T|acq(",
            4_096,
            ")\n",
            "T|acq(L)",
            (4_097, 9),
        ),
        ("65,536 events", "T|w(", 65_536, ")\n", "T|end(m)", (0, 0)),
        (
            "65,537 events",
            "T|w(",
            65_536,
            ")\n",
            "T|w(0)",
            (65_537, 7),
        ),
        (
            "a new thread then",
            "T|w(",
            65_536,
            ")\n",
            "U|w(V)",
            (65_537, 7),
        ),
        ("no event then", "T|w(", 65_536, ")\n", "T|w", (65_537, 5)),
    ] {
        assert!(rt;
            is_numbered_told(rt.alloc(), front, count, back, last, told),
            "{case}"
        );
    }
}

// Whether the fault says that the thread of this name holds a lock.
fn names_holder(names: &Names, fault: &ReadFault, name: &[u8]) -> bool
    requires { IsHolderKnown names.now fault.now }
{
    match fault {
        ReadFault::Text(fault) => is_holder(names, &fault.kind, name),
        ReadFault::OutOfMemory => false,
    }
}

fn is_holder(names: &Names, kind: &StdKind, name: &[u8]) -> bool
    requires { IsHolderGiven names.now kind.now }
{
    match kind {
        StdKind::LockHeld(holder) => names.thread_name(*holder) == name,
        _ => false,
    }
}

// Whether a text is refused since the thread of this name holds a lock.
fn is_held_by(alloc: Global, text: &[u8], name: &[u8]) -> bool {
    let Ok(mut reader) = Reader::new(alloc) else {
        return false;
    };
    let Err(fault) = reader.feed(text) else {
        return false;
    };
    names_holder(reader.names(), &fault, name)
}

#[test]
fn the_holder_has_a_name(rt: HostRuntime) {
    let alloc = rt.alloc();
    let by_another = b"T0|w(X)\nmain|acq(L)\nT1|acq(L)\n";
    assert!(rt; is_held_by(alloc, by_another, b"main"));
}

// The line and the kind of the fault that a piece is answered with, or zeros.
fn told_at(reader: &mut Reader, piece: &[u8]) -> (u32, u32)
    requires { reader.old.closed ≡ false }
    ensures { reader.new.closed ≡ false }
{
    match reader.feed(piece) {
        Ok(()) => (0, 0),
        Err(fault) => told_by(&fault),
    }
}

// The same at the end of the text.
fn told_at_end(reader: &mut Reader) -> (u32, u32) {
    match reader.close() {
        Ok(()) => (0, 0),
        Err(fault) => told_by(&fault),
    }
}

// Whether a piece is answered with that line and kind, and taken where they are zeros.
fn is_told_at(reader: &mut Reader, piece: &[u8], line: u32, kind: u32) -> bool
    requires { reader.old.closed ≡ false }
    ensures { reader.new.closed ≡ false }
{
    told_at(reader, piece) == (line, kind)
}

// Whether a reader takes the first piece, answers the second with that line and kind, and the third and the end too.
fn stays(alloc: Global, pieces: [&[u8]; 3], line: u32, kind: u32) -> bool {
    let Ok(mut reader) = Reader::new(alloc) else {
        return false;
    };
    let is_taken = is_told_at(&mut reader, pieces[0], 0, 0);
    let is_refused = is_told_at(&mut reader, pieces[1], line, kind);
    let is_the_same = is_told_at(&mut reader, pieces[2], line, kind);
    is_taken && is_refused && is_the_same && told_at_end(&mut reader) == (line, kind)
}

#[test]
fn a_fault_stays(rt: HostRuntime) {
    let pieces = [
        b"T0|w(X)\nT0|rel".as_slice(),
        b"(L)\nT0|w(X)\n".as_slice(),
        b"T0|w\n".as_slice(),
    ];
    assert!(rt; stays(rt.alloc(), pieces, 2, 13));
}

// Whether a reader takes a piece, and answers the next with that line and kind.
fn is_told_behind(alloc: Global, piece: &[u8], next: &[u8], line: u32, kind: u32) -> bool {
    let Ok(mut reader) = Reader::new(alloc) else {
        return false;
    };
    let is_taken = is_told_at(&mut reader, piece, 0, 0);
    is_taken && is_told_at(&mut reader, next, line, kind)
}

#[test]
fn a_long_line_is_known_before_its_end(rt: HostRuntime) {
    let line = [b'0'; 4_096];
    assert!(rt; is_told_behind(rt.alloc(), &line, b"0", 1, 1));
}

// Takes a piece so many times.
fn feed_often(reader: &mut Reader, piece: &[u8], count: u32)
    requires { reader.old.closed ≡ false }
    ensures { reader.new.closed ≡ false }
{
    for _ in 0..count {
        let _ = told_at(reader, piece);
    }
}

// Whether a reader takes the lines so many times and then a piece, and answers the next with that line and kind.
fn is_told_behind_lines(
    alloc: Global,
    lines: &[u8],
    count: u32,
    piece: &[u8],
    next: &[u8],
    told: (u32, u32),
) -> bool {
    let Ok(mut reader) = Reader::new(alloc) else {
        return false;
    };
    feed_often(&mut reader, lines, count);
    let is_taken = is_told_at(&mut reader, piece, 0, 0);
    is_taken && is_told_at(&mut reader, next, told.0, told.1)
}

#[test]
fn an_input_at_its_limit(rt: HostRuntime) {
    let lines = [b'\n'; 4_096];
    let piece = [b'T'; 4_096];
    // The last byte makes the input and its line too long.
    let told = (16_773_121, 6);
    assert!(rt; is_told_behind_lines(rt.alloc(), &lines, 4_095, &piece, b"T", told));
}

// Whether the trace of a text and its names have so many threads, and it has so many events, locks and variables.
fn has_sizes(alloc: Global, text: &[u8], threads: u16, events: u32, locks: u32, vars: u32) -> bool {
    let Ok((trace, names)) = read(alloc, text) else {
        return false;
    };
    if trace.threads() != threads || names.threads() != threads {
        return false;
    }
    trace.len() == events && names.locks() == locks && names.vars() == vars
}

#[test]
fn skipped_lines_name_nothing(rt: HostRuntime) {
    let text = b"T1|begin(m)|3\nT0|fork(T2)|4\nT3|end\nT2|w(X)|5\n";
    assert!(rt; has_sizes(rt.alloc(), text, 2, 2, 0, 1));
}

// The names of a thread T, a lock L and a variable X.
fn three_names(alloc: Global) -> Option<Names> {
    let mut names = Names::new(alloc).ok()?;
    names.thread(b"T").ok()?;
    names.lock(b"L").ok()?;
    names.var(b"X").ok()?;
    Some(names)
}

// A reader behind six lines that name a thread T, a lock L and a variable X.
fn behind_others(alloc: Global) -> Option<Reader>
    ensures { IfSome result (λ r. r.closed ≡ false) }
{
    let Some(names) = three_names(alloc) else {
        return None;
    };
    let Ok(reader) = Reader::after(alloc, names, 7) else {
        return None;
    };
    Some(reader)
}

// The number of the thread of the first event.
fn first_thread(trace: &Trace) -> Option<u16> {
    match trace.is_empty() {
        true => None,
        false => Some(trace.event(0).thread.value()),
    }
}

// Whether there are so many threads, locks and variables.
fn are_counted(names: &Names, threads: u16, locks: u32, vars: u32) -> bool {
    names.threads() == threads && names.locks() == locks && names.vars() == vars
}

// Whether a text behind others begins with the thread of that number, and there are then so many threads, locks and
// variables.
fn goes_on(alloc: Global, text: &[u8], first: u16, threads: u16, locks: u32, vars: u32) -> bool {
    let Some(reader) = behind_others(alloc) else {
        return false;
    };
    let Ok((trace, names)) = read_by(reader, text) else {
        return false;
    };
    first_thread(&trace) == Some(first) && are_counted(&names, threads, locks, vars)
}

#[test]
fn names_go_on(rt: HostRuntime) {
    for (case, text, first, threads, locks, vars) in [
        ("the names alone", "T|acq(L)\nT|w(X)\n", 0, 1, 1, 1),
        ("a new thread first", "U|acq(L)\nT|w(X)\n", 1, 2, 1, 1),
        ("a new lock and variable", "T|acq(M)\nT|w(Y)\n", 0, 1, 2, 2),
    ] {
        assert!(rt;
            goes_on(rt.alloc(), text.as_bytes(), first, threads, locks, vars),
            "{case}"
        );
    }
}

// The line and the kind of the fault for which a piece behind others is refused, or zeros.
fn told_behind_others(alloc: Global, piece: &[u8]) -> (u32, u32) {
    match behind_others(alloc) {
        Some(mut reader) => told_at(&mut reader, piece),
        None => (0, 0),
    }
}

#[test]
fn lines_go_on(rt: HostRuntime) {
    assert!(rt; told_behind_others(rt.alloc(), b"T|acq(L)\nT|w(X\n") == (8, 5));
}

// The texts of a call, of the line of its event, and of its operation, one behind the other.
fn written(alloc: Global, thread: ThreadId, op: Op, names: &Names) -> Result<Vec<u8>, OutOfMemory>
    requires { IsCallNamed names.now thread op }
{
    let mut text = Vec::new(alloc);
    write_call(alloc, thread, &op, names, &mut text)?;
    let loc = 7;
    write_event(alloc, &Event { thread, op, loc }, names, &mut text)?;
    write_op(alloc, &op, names, &mut text)?;
    Ok(text)
}

// The texts of an acquire of a lock L by a thread T.
fn written_acquire(alloc: Global) -> Result<Vec<u8>, Fail> {
    let mut names = Names::new(alloc)?;
    let thread = names.thread(b"T")?;
    let lock = names.lock(b"L")?;
    Ok(written(alloc, thread, Op::Acquire(lock), &names)?)
}

#[test]
fn calls_and_lines_are_written(rt: HostRuntime) -> Result<(), Fail> {
    let text = written_acquire(rt.alloc())?;
    assert!(rt; text.as_slice() == b"T|acq(L)T|acq(L)|7\nacq(L)".as_slice());
    Ok(())
}

// Two threads with two locks and a variable.
const TWO_THREADS: &[u8] = b"T0|acq(L)|1\nT1|w(X)|2\nT0|rel(L)|3\nT1|acq(M)|4";

#[test]
fn the_trace_and_the_names(rt: HostRuntime) {
    assert!(rt; has_sizes(rt.alloc(), TWO_THREADS, 2, 4, 2, 1));
}

// Whether there is a trace of the text, of which the laws can be asked.
fn has_laws(alloc: Global, text: &[u8]) -> bool {
    let Ok((trace, _names)) = read(alloc, text) else {
        return false;
    };
    computed_laws_are_the_laws(&trace);
    true
}

#[test]
fn laws_of_the_reader(rt: HostRuntime) {
    pieces_are_the_text();
    written_text_is_read();
    assert!(rt; has_laws(rt.alloc(), TWO_THREADS));
}
