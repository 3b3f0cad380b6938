// The modes of the program.
ghost use Rattle.std.specs.Prelude.{◌≡◌, ◌++◌, IfOk, map, string_bytes};
ghost use Rattle.command_words.specs.ModeNames.{list_text, mode_among, mode_named, modes, names_behind};

use std::alloc::{AllocError, Global};

/// What the program does with its input.
#[derive(Clone, Copy, Debug, PartialEq, Eq)]
pub enum Mode {
    /// It reads a trace and writes the report.
    Predict,
    /// It runs scripts on threads and writes the recorded trace.
    Record,
    /// It reads a trace and writes the witness of a finding.
    Witness,
    /// It reads a script and a run of it, and writes the replays of what is found in the run.
    Replay,
    /// It runs scripts on threads and writes the recorded trace, what is found in it, and how the threads ended.
    Run,
    /// It draws a trace from a seed, and writes how much is found in it.
    Bench,
}

/// The modes by their names, in the order in which a user is told of them.
const MODES: [(&str, Mode); 6] = [
    ("predict", Mode::Predict),
    ("record", Mode::Record),
    ("witness", Mode::Witness),
    ("replay", Mode::Replay),
    ("run", Mode::Run),
    ("bench", Mode::Bench),
];

// The mode of a word among modes by their names.
fn named_among(modes: &[(&str, Mode)], word: &str) -> Option<Mode>
    ensures { result ≡ mode_among (map (λ m. (m.0.now, m.1)) modes.now) word.now }
{
    for (name, mode) in modes {
        if word == *name {
            return Some(*mode);
        }
    }
    None
}

/// The mode of a word.
pub fn named(word: &str) -> Option<Mode>
    ensures { result ≡ mode_named word.now }
{
    named_among(&MODES, word)
}

// Adds the names of modes to a list, each behind a comma.
fn add_names(list: &mut String, modes: &[(&str, Mode)]) -> Result<(), AllocError>
    ensures { IfOk result (λ _. string_bytes list.new ≡ string_bytes list.old ++ names_behind (map (λ m. (m.0.now, m.1)) modes.now)) }
{
    for (name, _) in modes {
        list.push_str(", ")?;
        list.push_str(name)?;
    }
    Ok(())
}

/// The list of the modes, as texts for the user show it.
pub fn list_of_modes(alloc: Global) -> Result<String, AllocError>
    ensures { IfOk result (λ list. string_bytes list ≡ list_text modes) }
{
    let mut list = String::from_str(alloc, "[possible values: ")?;
    list.push_str(MODES[0].0)?;
    add_names(&mut list, &MODES[1..])?;
    list.push_str("]")?;
    Ok(list)
}
