// What the words of the command line mean.
use crate::{Mode, Words, WordsFault, read_words};
use std::alloc::{AllocError, Global};
use std::test::Fail;

// Words of the command line, where spaces divide them.
fn words(alloc: Global, line: &str) -> Result<Vec<String>, AllocError> {
    let mut words = Vec::new(alloc);
    for text in line.split(' ') {
        words.push(String::from_str(alloc, text)?)?;
    }
    Ok(words)
}

// What a line means, and none where it is refused.
fn meaning(alloc: Global, line: &str) -> Result<Option<Words>, AllocError> {
    let words = words(alloc, line)?;
    match read_words(alloc, &words) {
        Ok(reading) => Ok(Some(reading)),
        Err(WordsFault::Usage(_)) => Ok(None),
        Err(WordsFault::OutOfMemory) => Err(AllocError),
    }
}

// The text that refuses a line, and none where it has a reading.
fn refusal(alloc: Global, line: &str) -> Result<Option<String>, AllocError> {
    let words = words(alloc, line)?;
    match read_words(alloc, &words) {
        Ok(_) => Ok(None),
        Err(WordsFault::Usage(text)) => Ok(Some(text)),
        Err(WordsFault::OutOfMemory) => Err(AllocError),
    }
}

// What `syncp predict` means.
const PLAIN: Words = Words {
    mode: Mode::Predict,
    size: 3,
    workers: 4,
    seed: 1,
    events: 4_000,
    finding: 1,
};

// What `--help` shows.
const HELP: &str = "Predicts data races and deadlocks from a trace of lock events

Usage: syncp [OPTIONS] <mode>

Arguments:
  <mode>  [possible values: predict, record, witness, replay, run, bench]

Options:
      --size <size>        The greatest size of a deadlock pattern [default: 3]
      --workers <workers>  The workers of a search [default: 4]
      --seed <seed>        The seed of a drawn trace [default: 1]
      --events <events>    The events of a drawn trace [default: 4000]
      --finding <finding>  The number of a finding [default: 1]
  -h, --help               Print help
";

// What refuses `syncp explain`.
const NO_MODE: &str = "error: invalid value 'explain' for '<mode>'
  [possible values: predict, record, witness, replay, run, bench]

Usage: syncp [OPTIONS] <mode>

For more information, try '--help'.
";

// What refuses `syncp predict --size 5`.
const NO_SIZE: &str = "error: invalid value '5' for '--size <size>': 5 is not in 2..=4

For more information, try '--help'.
";

#[test]
fn refusals_have_a_text(rt: HostRuntime) -> Result<(), Fail> {
    let lines = [
        ("syncp --help", HELP),
        ("syncp explain", NO_MODE),
        ("syncp predict --size 5", NO_SIZE),
    ];
    for (line, wanted) in &lines {
        let text = refusal(rt.alloc(), line)?.ok_or("a refusal")?;
        assert!(rt; text.as_str() == *wanted);
    }
    let none = Vec::new(rt.alloc());
    assert!(rt; read_words(rt.alloc(), &none).is_err());
    Ok(())
}

#[test]
fn lines_are_read(rt: HostRuntime) -> Result<(), Fail> {
    let lines = [
        ("syncp predict", PLAIN),
        (
            "syncp record",
            Words {
                mode: Mode::Record,
                size: 3,
                workers: 4,
                seed: 1,
                events: 4_000,
                finding: 1,
            },
        ),
        (
            "any predict --size 2 --workers 1 --seed 0 --events 16 --finding 1",
            Words {
                mode: Mode::Predict,
                size: 2,
                workers: 1,
                seed: 0,
                events: 16,
                finding: 1,
            },
        ),
        (
            "syncp predict --size 4 --workers 64 --seed 9223372036854775807 --events 65536 --finding 69632",
            Words {
                mode: Mode::Predict,
                size: 4,
                workers: 64,
                seed: 9_223_372_036_854_775_807,
                events: 65_536,
                finding: 69_632,
            },
        ),
        (
            "syncp witness --finding 7",
            Words {
                mode: Mode::Witness,
                size: 3,
                workers: 4,
                seed: 1,
                events: 4_000,
                finding: 7,
            },
        ),
        (
            "syncp --size=4 record",
            Words {
                mode: Mode::Record,
                size: 4,
                workers: 4,
                seed: 1,
                events: 4_000,
                finding: 1,
            },
        ),
    ];
    for (line, reading) in &lines {
        assert!(rt; meaning(rt.alloc(), line)? == Some(*reading));
    }
    Ok(())
}

#[test]
fn lines_are_refused(rt: HostRuntime) -> Result<(), Fail> {
    let lines = [
        "syncp",
        "syncp explain",
        "syncp Predict",
        "syncp predict record",
        "syncp predict --size 1",
        "syncp predict --size 5",
        "syncp predict --workers 0",
        "syncp predict --workers 65",
        "syncp predict --seed 9223372036854775808",
        "syncp predict --events 15",
        "syncp predict --events 65537",
        "syncp predict --finding 0",
        "syncp predict --finding 69633",
        "syncp predict --size 3 --size 3",
        "syncp predict --size",
        "syncp predict --size three",
        "syncp predict --depth 3",
        "syncp predict --help",
        "syncp -h",
        "syncp --version",
    ];
    for line in &lines {
        assert!(rt; meaning(rt.alloc(), line)?.is_none());
    }
    Ok(())
}
