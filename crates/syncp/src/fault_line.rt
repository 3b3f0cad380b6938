// The line that a refusal writes.
ghost use Rattle.std.specs.Prelude.{◌≡◌, ◌++◌, IfOk, codes, string_bytes};
ghost use Rattle.std.specs.Fmt.{decimal};
ghost use Rattle.syncp.specs.Faults.{fault_line, kind_text, script_kind_text};

use crate::outcome::Fault;
use intake::HolderName;
use script_machine::{ScriptFault, ScriptKind};
use sp_base::OutOfMemory;
use std::alloc::Global;
use std_text::{StdFault, StdKind};

/// The line of a fault, with its newline. A holder's name stands in it as its bytes are.
pub fn line_of(alloc: Global, fault: &Fault) -> Result<Vec<u8>, OutOfMemory>
    ensures { IfOk result (λ line. line.items ≡ fault_line fault.now) }
{
    match fault {
        Fault::Text { fault, holder } => text_line(alloc, fault, holder),
        Fault::Script(fault) => script_line(alloc, fault),
        Fault::NotAStep(place) => place_line(alloc, *place),
        Fault::TooManyPatterns => owned(alloc, "fault 40 TooManyPatterns\n"),
        Fault::NoFinding => owned(alloc, "fault 41 NoFinding\n"),
        Fault::Read => owned(alloc, "read fault\n"),
        Fault::Write => owned(alloc, "write fault\n"),
        Fault::OutOfMemory => owned(alloc, "no memory\n"),
    }
}

// The line of a refusal of the text.
fn text_line(alloc: Global, fault: &StdFault, holder: &HolderName) -> Result<Vec<u8>, OutOfMemory>
    ensures { IfOk result (λ line. line.items ≡ fault_line (Fault.Text fault.now holder.now)) }
{
    let head = text_head(alloc, fault)?;
    let mut line = owned(alloc, head.as_str())?;
    let Ok(()) = line.extend_from_slice(holder.bytes()) else {
        return Err(OutOfMemory);
    };
    let Ok(()) = line.push(b'\n') else {
        return Err(OutOfMemory);
    };
    Ok(line)
}

// The line up to the holder's name.
fn text_head(alloc: Global, fault: &StdFault) -> Result<String, OutOfMemory>
    ensures { IfOk result (λ head. string_bytes head ≡ codes "line " ++ decimal fault.now.line ++ codes " fault " ++ kind_text fault.now.kind) }
{
    let line = fault.line;
    let kind = kind_name(&fault.kind);
    match format!(in alloc; "line {line} fault {kind}") {
        Ok(text) => Ok(text),
        Err(_) => Err(OutOfMemory),
    }
}

// The bytes of a text.
fn owned(alloc: Global, text: &str) -> Result<Vec<u8>, OutOfMemory>
    ensures { IfOk result (λ line. line.items ≡ text.now) }
{
    match text.as_bytes().to_vec(alloc) {
        Ok(text) => Ok(text),
        Err(_) => Err(OutOfMemory),
    }
}

// The number and the name of a kind, with a space where the holder's name follows.
fn kind_name(kind: &StdKind) -> &'static str
    ensures { result.now ≡ kind_text kind.now }
{
    match kind {
        StdKind::LineTooLong => "1 LineTooLong",
        StdKind::NoBar => "2 NoBar",
        StdKind::BadName => "3 BadName",
        StdKind::UnknownOperation => "4 UnknownOperation",
        StdKind::BadOperand => "5 BadOperand",
        StdKind::InputTooLong => "6 InputTooLong",
        StdKind::TooManyEvents => "7 TooManyEvents",
        StdKind::TooManyThreads => "8 TooManyThreads",
        StdKind::TooManyLocks => "9 TooManyLocks",
        StdKind::TooManyVars => "10 TooManyVars",
        StdKind::LockHeld(_) => "11 LockHeld ",
        StdKind::Reentrant => "12 Reentrant",
        StdKind::NotHeld => "13 NotHeld",
        StdKind::ForkLate => "14 ForkLate",
        StdKind::ForkTwice => "15 ForkTwice",
        StdKind::SelfThread => "16 SelfThread",
        StdKind::AfterJoin => "17 AfterJoin",
    }
}

// The line of a place that is no step.
fn place_line(alloc: Global, place: u32) -> Result<Vec<u8>, OutOfMemory>
    ensures { IfOk result (λ line. line.items ≡ fault_line (Fault.NotAStep place)) }
{
    match format!(in alloc; "place {place} fault 33 NotAStep\n") {
        Ok(text) => owned(alloc, text.as_str()),
        Err(_) => Err(OutOfMemory),
    }
}

// The line of a refusal of a script.
fn script_line(alloc: Global, fault: &ScriptFault) -> Result<Vec<u8>, OutOfMemory>
    ensures { IfOk result (λ line. line.items ≡ fault_line (Fault.Script fault.now)) }
{
    let text = script_text(alloc, fault)?;
    owned(alloc, text.as_str())
}

// The line of a refusal of a script, as a text.
fn script_text(alloc: Global, fault: &ScriptFault) -> Result<String, OutOfMemory>
    ensures { IfOk result (λ text. string_bytes text ≡ fault_line (Fault.Script fault.now)) }
{
    let line = fault.line;
    let kind = script_kind_name(&fault.kind);
    match format!(in alloc; "line {line} fault {kind}\n") {
        Ok(text) => Ok(text),
        Err(_) => Err(OutOfMemory),
    }
}

// The number and the name of a kind of fault that a script has.
fn script_kind_name(kind: &ScriptKind) -> &'static str
    ensures { result.now ≡ script_kind_text kind.now }
{
    match kind {
        ScriptKind::UnknownWord => "21 UnknownWord",
        ScriptKind::Operand => "22 Operand",
        ScriptKind::Number => "23 Number",
        ScriptKind::NoThread => "24 NoThread",
        ScriptKind::TwiceNamed => "25 TwiceNamed",
        ScriptKind::UnknownThread => "26 UnknownThread",
        ScriptKind::ForkedTwice => "27 ForkedTwice",
        ScriptKind::OpenBlock => "28 OpenBlock",
        ScriptKind::StrayEnd => "29 StrayEnd",
        ScriptKind::TooDeep => "30 TooDeep",
        ScriptKind::TooManyInstructions => "31 TooManyInstructions",
        ScriptKind::TooManyNames => "32 TooManyNames",
    }
}
