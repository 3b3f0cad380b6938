// The command of the program, with its options and their ranges.
ghost use Rattle.std.specs.Prelude.{◌≡◌, IfOk, false};
ghost use Rattle.clap.specs.Words.{app_of, rule_of, with_rule};
ghost use Rattle.command_words.specs.Words.{events_rule, mode_rule, number_rule, seed_rule, size_rule, the_command, workers_rule};

use clap::builder::ValueParser;
use clap::{Arg, ArgAction, Command};
use sp_base::{MAX_SIZE, MAX_WORKERS, MIN_SIZE};
use std::alloc::{AllocError, Global};

/// The greatest seed of a drawn trace.
pub const MAX_SEED: u64 = 9_223_372_036_854_775_807;

/// The fewest events of a drawn trace.
pub const MIN_DRAWN_EVENTS: u32 = 16;

/// The most events of a drawn trace.
pub const MAX_DRAWN_EVENTS: u32 = 65_536;

/// The greatest number of a finding.
pub const MAX_FINDING: u32 = 69_632;

// An option that takes a number from `least` to `most`.
fn number_option<'a>(
    alloc: Global,
    name: &'a str,
    least: u64,
    most: u64,
    default: &'a str,
    help: &'a str,
) -> Arg<'a>
    ensures rule { rule_of result ≡ number_rule name.now least most default.now }
    ensures local { result.global ≡ false }
{
    Arg::new(alloc, name)
        .long(name)
        .action(ArgAction::Set)
        .value_parser(ValueParser::Unsigned(least, most))
        .default_value(default)
        .help(help)
}

// MODE, the first positional argument, whose help is the list of the modes.
fn mode_argument<'a>(alloc: Global, modes: &'a str) -> Arg<'a>
    ensures rule { rule_of result ≡ mode_rule }
    ensures local { result.global ≡ false }
{
    Arg::new(alloc, "mode")
        .required(true)
        .action(ArgAction::Set)
        .help(modes)
}

// The options of the search for deadlocks.
fn with_search_options<'a>(alloc: Global, command: Command<'a>) -> Result<Command<'a>, AllocError>
    ensures { IfOk result (λ c. app_of c ≡ with_rule (with_rule (app_of command.entry) size_rule) workers_rule) }
{
    let (least, most) = (MIN_SIZE as u64, MAX_SIZE as u64);
    let help = "The greatest size of a deadlock pattern";
    let size = number_option(alloc, "size", least, most, "3", help);
    let most = MAX_WORKERS as u64;
    let workers = number_option(alloc, "workers", 1, most, "4", "The workers of a search");
    command.arg(size)?.arg(workers)
}

// The options of a drawn trace.
fn with_drawing_options<'a>(alloc: Global, command: Command<'a>) -> Result<Command<'a>, AllocError>
    ensures { IfOk result (λ c. app_of c ≡ with_rule (with_rule (app_of command.entry) seed_rule) events_rule) }
{
    let seed = number_option(alloc, "seed", 0, MAX_SEED, "1", "The seed of a drawn trace");
    let (least, most) = (MIN_DRAWN_EVENTS as u64, MAX_DRAWN_EVENTS as u64);
    let help = "The events of a drawn trace";
    let events = number_option(alloc, "events", least, most, "4000", help);
    command.arg(seed)?.arg(events)
}

/// The command of the program, as its users know it. Its name in texts is `syncp`, and the text `modes` lists the modes.
pub fn command<'a>(alloc: Global, modes: &'a str) -> Result<Command<'a>, AllocError>
    ensures { IfOk result (λ c. app_of c ≡ the_command) }
{
    let command = Command::new(alloc, "syncp")
        .about("Predicts data races and deadlocks from a trace of lock events")
        .arg(mode_argument(alloc, modes))?;
    let command = with_search_options(alloc, command)?;
    let command = with_drawing_options(alloc, command)?;
    let most = MAX_FINDING as u64;
    let finding = number_option(alloc, "finding", 1, most, "1", "The number of a finding");
    command.arg(finding)
}
