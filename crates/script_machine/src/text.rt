//! The words of a script text.

ghost use Rattle.std.specs.Prelude.{◌≡◌, ◌<◌, ◌≤◌, not, length, [], ◌∷◌, MatchOption};
ghost use Rattle.std.specs.List.{prefix_len};
ghost use Rattle.script_machine.specs.ScriptText.{is_blank, words_of, name_in, number_in_words, no_more, with_ok, statement_of, write_of};
ghost use Rattle.script_machine.specs.Said.{said};

use crate::ScriptKind;
use sp_base::read_number;
use trace_laws::is_name;

/// The most times that a block is repeated.
pub const MAX_TIMES: u64 = 65_536;

fn is_blank(b: u8) -> bool
    ensures { result ≡ is_blank b }
{
    b == b' ' || b == b'\t'
}

/// How many blanks stand at the front.
fn blanks(line: &[u8]) -> usize
    ensures value { result ≡ prefix_len is_blank line.now }
    ensures within { result ≤ length line.now }
{
    for (i, b) in line.iter().enumerate() {
        if !is_blank(*b) {
            return i;
        }
    }
    line.len()
}

/// How many bytes stand before the first blank.
fn word_len(line: &[u8]) -> usize
    ensures value { result ≡ prefix_len (λ b. not (is_blank b)) line.now }
    ensures within { result ≤ length line.now }
{
    for (i, b) in line.iter().enumerate() {
        if is_blank(*b) {
            return i;
        }
    }
    line.len()
}

/// The first word of a line, and what follows it.
pub fn first_word(line: &[u8]) -> Option<(&[u8], &[u8])>
    ensures { MatchOption result (words_of line.now ≡ []) (λ r. words_of line.now ≡ r.0.now ∷ words_of r.1.now) }
{
    let line = &line[blanks(line)..];
    if line.is_empty() {
        return None;
    }
    let end = word_len(line);
    Some((&line[..end], &line[end..]))
}

/// What a line says; names are words of the text.
#[derive(Clone, Copy, Debug)]
pub enum Statement<'a> {
    Thread(&'a [u8]),
    Lock(&'a [u8]),
    Unlock(&'a [u8]),
    Read(&'a [u8]),
    Write(&'a [u8]),
    WriteNumber(&'a [u8], u64),
    Add(u64),
    Fork(&'a [u8]),
    Join(&'a [u8]),
    If(u64),
    Else,
    Repeat(u64),
    End,
}

/// The one name among the words.
fn one_name(words: &[u8]) -> Result<&[u8], ScriptKind>
    ensures { with_ok (λ r. r.now) result ≡ name_in (words_of words.now) }
{
    let Some((name, rest)) = first_word(words) else {
        return Err(ScriptKind::Operand);
    };
    if first_word(rest).is_some() || !is_name(name) {
        return Err(ScriptKind::Operand);
    }
    Ok(name)
}

/// The one number among the words.
fn one_number(words: &[u8], bound: u64) -> Result<u64, ScriptKind>
    ensures { result ≡ number_in_words bound (words_of words.now) }
{
    let Some((word, rest)) = first_word(words) else {
        return Err(ScriptKind::Operand);
    };
    if first_word(rest).is_some() {
        return Err(ScriptKind::Operand);
    }
    match read_number(word, bound) {
        Some(n) => Ok(n),
        None => Err(ScriptKind::Number),
    }
}

/// That no word is left.
fn no_word(words: &[u8]) -> Result<(), ScriptKind>
    ensures { with_ok (λ _. 0) result ≡ no_more (words_of words.now) }
{
    if first_word(words).is_some() {
        return Err(ScriptKind::Operand);
    }
    Ok(())
}

/// What the first word and the words after it say.
pub fn read_statement<'a>(word: &'a [u8], words: &'a [u8]) -> Result<Statement<'a>, ScriptKind>
    ensures { with_ok said result ≡ statement_of word.now (words_of words.now) }
{
    if word == b"thread".as_slice() {
        return Ok(Statement::Thread(one_name(words)?));
    }
    if word == b"lock".as_slice() {
        return Ok(Statement::Lock(one_name(words)?));
    }
    if word == b"unlock".as_slice() {
        return Ok(Statement::Unlock(one_name(words)?));
    }
    if word == b"read".as_slice() {
        return Ok(Statement::Read(one_name(words)?));
    }
    if word == b"write".as_slice() {
        return write(words);
    }
    if word == b"add".as_slice() {
        return Ok(Statement::Add(one_number(words, u64::MAX)?));
    }
    if word == b"fork".as_slice() {
        return Ok(Statement::Fork(one_name(words)?));
    }
    if word == b"join".as_slice() {
        return Ok(Statement::Join(one_name(words)?));
    }
    if word == b"if".as_slice() {
        return Ok(Statement::If(one_number(words, u64::MAX)?));
    }
    if word == b"else".as_slice() {
        no_word(words)?;
        return Ok(Statement::Else);
    }
    if word == b"repeat".as_slice() {
        return Ok(Statement::Repeat(one_number(words, MAX_TIMES)?));
    }
    if word == b"end".as_slice() {
        no_word(words)?;
        return Ok(Statement::End);
    }
    Err(ScriptKind::UnknownWord)
}

/// The words after `write`.
fn write<'a>(words: &'a [u8]) -> Result<Statement<'a>, ScriptKind>
    ensures { with_ok said result ≡ write_of (words_of words.now) }
{
    let Some((name, rest)) = first_word(words) else {
        return Err(ScriptKind::Operand);
    };
    let Some((word, more)) = first_word(rest) else {
        return if is_name(name) {
            Ok(Statement::Write(name))
        } else {
            Err(ScriptKind::Operand)
        };
    };
    if first_word(more).is_some() || !is_name(name) {
        return Err(ScriptKind::Operand);
    }
    match read_number(word, u64::MAX) {
        Some(n) => Ok(Statement::WriteNumber(name, n)),
        None => Err(ScriptKind::Number),
    }
}
