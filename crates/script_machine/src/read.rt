//! The first pass over a script text: its statements, or the fault of a line.

ghost use Rattle.std.specs.Prelude.{◌≡◌, ◌+◌, ◌^◌, ◌<◌, length, ◌++◌, map, Some, None, Result, Err, IfOk, OnOk, option_to_list};
ghost use Rattle.script_machine.specs.ScriptText.{lines_of, words_of, words_say, fault_of, statements_of, numbered_of, IsClean, FaultOnLine, tables_of};
ghost use Rattle.script_machine.specs.Spoken.{numbered, grown_by};
ghost use Rattle.script_machine.specs.declared.fault.ScriptFault.{ScriptFault as Fault};

use crate::lines::{first_line, line_statement};
use crate::tables::Tables;
use crate::text::Statement;
use crate::{ScriptError, ScriptFault};
use std::alloc::Global;

/// A statement with the number of its line.
#[derive(Clone, Copy, Debug)]
pub struct NumberedStatement<'a> {
    pub line: u32,
    pub says: Statement<'a>,
}

// Takes the next line in.
fn take_line<'a>(
    line: u32,
    front: &'a [u8],
    tables: &mut Tables,
    statements: &mut Vec<NumberedStatement<'a>>,
) -> Result<(), ScriptError>
    ensures fault { (f : Fault) → result ≡ Err (ScriptError.Fault f) → fault_of line tables.old (words_say (words_of front.now)) ≡ Some f }
    ensures clean { OnOk result (fault_of line tables.old (words_say (words_of front.now)) ≡ None) }
    ensures tables { OnOk result (tables.new ≡ grown_by tables.old (numbered_of line (words_say (words_of front.now)))) }
    ensures statements { OnOk result (map numbered statements.new.items ≡ map numbered statements.old.items ++ option_to_list (numbered_of line (words_say (words_of front.now)))) }
{
    match line_statement(front) {
        None => Ok(()),
        Some(Err(kind)) => Err(ScriptError::Fault(ScriptFault { line, kind })),
        Some(Ok(statement)) => {
            tables.take(line, statement)?;
            match statements.push(NumberedStatement {
                line,
                says: statement,
            }) {
                Ok(()) => Ok(()),
                Err(_) => Err(ScriptError::OutOfMemory),
            }
        }
    }
}

/// The statements of a text, or the fault of its first line that has one.
pub fn read_lines(
    alloc: Global,
    text: &[u8],
) -> Result<(Vec<NumberedStatement>, Tables), ScriptError>
    requires { length text.now < 2 ^ 32 }
    ensures ok { IfOk result (λ r. IsClean text.now × (map numbered r.0.items ≡ statements_of (lines_of text.now)) × (r.1 ≡ tables_of (statements_of (lines_of text.now)))) }
    ensures fault { (f : Fault) → result ≡ Err (ScriptError.Fault f) → FaultOnLine text.now f }
{
    let mut statements = Vec::new(alloc);
    let mut tables = Tables::new(alloc)?;
    let mut rest = text;
    let mut line = 0;
    while let Some((front, after)) = first_line(rest) {
        line += 1;
        take_line(line, front, &mut tables, &mut statements)?;
        rest = after;
    }
    Ok((statements, tables))
}
