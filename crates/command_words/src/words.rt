// What the words of the command line mean.
ghost use Rattle.std.specs.Prelude.{◌≡◌, IfOk, codes, map, option_and_then, string_bytes};
ghost use Rattle.clap.specs.Words.{first_value, found_of, kind_of, rows_of};
ghost use Rattle.command_words.specs.ModeNames.{mode_named};
ghost use Rattle.command_words.specs.Parsed.{HasNumber, HasNumbers, Parses};
ghost use Rattle.command_words.specs.Words.{KeepsRanges, AnswersReading, option_value, reading_in, reading_of};

use crate::command::command;
use crate::mode::{Mode, list_of_modes, named};
use clap::ArgMatches;
use clap::error::ErrorKind;
use std::alloc::{AllocError, Global};
use thiserror::Error;

/// What the words of the command line mean. An option that the mode does not use has its range all the same.
#[derive(Clone, Copy, Debug, PartialEq, Eq)]
pub struct Words {
    /// What the program is to do.
    pub mode: Mode,
    /// The greatest size of a deadlock pattern, from `MIN_SIZE` to `MAX_SIZE`.
    pub size: u8,
    /// The workers, from 1 to `MAX_WORKERS`.
    pub workers: u8,
    /// The seed of a drawn trace, up to `MAX_SEED`.
    pub seed: u64,
    /// The events of a drawn trace, from `MIN_DRAWN_EVENTS` to `MAX_DRAWN_EVENTS`.
    pub events: u32,
    /// The number of a finding, from 1 to `MAX_FINDING`.
    pub finding: u32,
}

/// Why the words were not read.
#[derive(Debug, Drop, Error)]
pub enum WordsFault {
    /// The words have no reading. The text is for the user, and is that of help where help was asked for.
    #[error("{0}")]
    Usage(String),
    /// Memory ran out.
    #[error("out of memory")]
    OutOfMemory,
}

impl From<AllocError> for WordsFault {
    ghost use Rattle.command_words.specs.declared.words.WordsFault.TheVariants.{OutOfMemory};

    ghost from_gives = { λ _ e. e ≡ OutOfMemory };

    fn from(_fault: AllocError) -> WordsFault {
        WordsFault::OutOfMemory
    }
}

// The fault of clap's error, with its text for the user.
fn fault_with_text(alloc: Global, error: &clap::Error) -> WordsFault
    ensures { kind_of error.now ≡ ErrorKind.OutOfMemory → result ≡ WordsFault.OutOfMemory }
{
    if error.kind() == ErrorKind::OutOfMemory {
        return WordsFault::OutOfMemory;
    }
    match format!(in alloc; "{error}") {
        Ok(text) => WordsFault::Usage(text),
        Err(_) => WordsFault::OutOfMemory,
    }
}

// The matches of the words, where the command takes them. The text `modes` lists the modes.
fn parse<'a>(
    alloc: Global,
    modes: &'a str,
    words: &'a [String],
) -> Result<ArgMatches<'a>, WordsFault>
    ensures { Parses (map string_bytes words.entry.now) result }
{
    let command = command(alloc, modes)?;
    match command.try_get_matches_from(words) {
        Ok(matches) => Ok(matches),
        Err(error) => Err(fault_with_text(alloc, &error)),
    }
}

// The mode that the matches name.
fn named_mode(matches: &ArgMatches<'_>) -> Option<Mode>
    ensures { result ≡ option_and_then mode_named (first_value (found_of matches.now) (codes "mode")) }
{
    named(matches.get_str("mode")?)
}

// The text that refuses a name of no mode, in the form of clap's own.
fn unknown_mode(
    alloc: Global,
    modes: &str,
    matches: &ArgMatches<'_>,
) -> Result<String, AllocError> {
    let name = matches.get_str("mode").unwrap_or("");
    let message = format!(in alloc; "invalid value '{name}' for '<mode>'\n  {modes}")?;
    let mut command = command(alloc, modes)?;
    let error = command.error(ErrorKind::InvalidValue, message.as_str())?;
    format!(in alloc; "{error}")
}

// The number of an option.
fn number(matches: &ArgMatches<'_>, name: &str) -> u64
    requires { HasNumber (found_of matches.now) name.now }
    ensures { result ≡ option_value name.now (rows_of (found_of matches.now)) }
{
    let Some(number) = matches.get_one::<u64>(name) else {
        unreachable!()
    };
    number
}

// What the matches mean in a mode.
fn reading_in(matches: &ArgMatches<'_>, mode: Mode) -> Words
    requires { HasNumbers (found_of matches.now) }
    ensures reading { result ≡ reading_in (rows_of (found_of matches.now)) mode }
    ensures range { KeepsRanges result }
{
    Words {
        mode,
        size: number(matches, "size") as u8,
        workers: number(matches, "workers") as u8,
        seed: number(matches, "seed"),
        events: number(matches, "events") as u32,
        finding: number(matches, "finding") as u32,
    }
}

/// The reading of the words of the command line, of which the first is the program's name. Options may stand before
/// MODE.
///
/// `Usage` comes only where the words have no reading: where the command does not take them, help is asked for or MODE
/// names no mode. They are read wherever they have a reading, unless memory runs out.
pub fn read_words(alloc: Global, words: &[String]) -> Result<Words, WordsFault>
    ensures reading { AnswersReading (reading_of (map string_bytes words.now)) result }
    ensures range { IfOk result KeepsRanges }
{
    let modes = list_of_modes(alloc)?;
    let matches = parse(alloc, modes.as_str(), words)?;
    let Some(mode) = named_mode(&matches) else {
        return Err(WordsFault::Usage(unknown_mode(alloc, modes.as_str(), &matches)?));
    };
    Ok(reading_in(&matches, mode))
}
