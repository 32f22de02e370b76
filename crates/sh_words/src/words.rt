//! The words that ask for a run.
ghost use Rattle.std.specs.Prelude.{◌≡◌, ◌≢◌, ◌≤◌, ◌<◌, ◌*◌, ◌^◌, [], false, IfOk, IfErr, IfSome, map, string_bytes, codes, pos};
ghost use Rattle.clap.specs.declared.builder.value_parser.ValueParser.TheVariants.{Signed, Unsigned};
ghost use Rattle.clap.specs.Words.{app_of, rule_of, rows_of, fault_of, found_of};
ghost use Rattle.sh_words.specs.Words.{number_option, run_command, HasNumber, AskFor};
ghost use Rattle.sh_words.specs.Errors.{IsCause};

use clap::error::ErrorKind;
use clap::{Arg, ArgMatches, Command, value_parser};
use std::alloc::{AllocError, Global};
use thiserror::Error;

/// A run: the number from which its requests are made, its drivers, and the requests of each.
#[derive(Clone, Copy, Debug, PartialEq, Eq)]
pub struct WorkOptions {
    pub start: u64,
    pub drivers: u32,
    pub requests: u32,
}

/// The most requests of all drivers of a run.
const MOST_REQUESTS: u64 = 20000;

/// Why words ask for no run.
#[derive(Debug, Drop, Error)]
pub enum WordsError {
    /// They aren't of the command, or they ask for its help.
    #[error("{0}")]
    Refused(clap::Error),
    /// There are more requests than a run may have.
    #[error("{0} requests are more than 20000")]
    Many(u64),
    /// Want of memory.
    #[error("out of memory")]
    Memory,
}

/// The option of the number from which the requests are made.
fn start_option<'a>(alloc: Global) -> Arg<'a>
    ensures rule { rule_of result ≡ number_option (codes "start") (Unsigned 0 9223372036854775807) (codes "1") }
    ensures local { result.global ≡ false }
{
    Arg::new(alloc, "start")
        .long("start")
        .value_name("N")
        .help("The number from which the requests are made, up to 9223372036854775807")
        .value_parser(value_parser!(u64).range(0..=i64::MAX))
        .default_value("1")
}

/// The option of how many drivers there are.
fn drivers_option<'a>(alloc: Global) -> Arg<'a>
    ensures rule { rule_of result ≡ number_option (codes "drivers") (Signed (pos 1) (pos 8)) (codes "4") }
    ensures local { result.global ≡ false }
{
    Arg::new(alloc, "drivers")
        .long("drivers")
        .value_name("N")
        .help("How many drivers there are, 1 to 8")
        .value_parser(value_parser!(u32).range(1..=8))
        .default_value("4")
}

/// The option of how many requests each driver has.
fn requests_option<'a>(alloc: Global) -> Arg<'a>
    ensures rule { rule_of result ≡ number_option (codes "requests") (Signed (pos 0) (pos 20000)) (codes "100") }
    ensures local { result.global ≡ false }
{
    Arg::new(alloc, "requests")
        .long("requests")
        .value_name("N")
        .help("How many requests each driver has, at most 20000 of all together")
        .value_parser(value_parser!(u32).range(0..=20000))
        .default_value("100")
}

/// The command and its options.
fn command<'a>(alloc: Global) -> Result<Command<'a>, AllocError>
    ensures { IfOk result (λ c. app_of c ≡ run_command) }
{
    let start = start_option(alloc);
    let drivers = drivers_option(alloc);
    let requests = requests_option(alloc);
    let bare = Command::new(alloc, "vduse_work")
        .about(
            "Block drivers and daemons as threads on one device, and a line that sums their run up",
        )
        .no_binary_name(true);
    bare.arg(start)?.arg(drivers)?.arg(requests)
}

/// The run that was matched, if each number is there and in its range.
fn options_in(matches: &ArgMatches) -> Option<WorkOptions>
    ensures start { IfSome result
        (λ o. (o.start < 2 ^ 63) × HasNumber (rows_of (found_of matches.now)) (codes "start") o.start) }
    ensures drivers { IfSome result (λ o. (1 ≤ o.drivers) × (o.drivers ≤ 8)
        × HasNumber (rows_of (found_of matches.now)) (codes "drivers") o.drivers) }
    ensures requests { IfSome result (λ o. (o.requests ≤ 20000)
        × HasNumber (rows_of (found_of matches.now)) (codes "requests") o.requests) }
{
    let start = matches.get_one::<u64>("start")?;
    let drivers = matches.get_one::<u32>("drivers")?;
    let requests = matches.get_one::<u32>("requests")?;
    if start >= 1 << 63 || drivers == 0 || drivers > 8 || requests > 20000 {
        return None;
    }
    Some(WorkOptions {
        start,
        drivers,
        requests,
    })
}

/// The run that words ask for, without the program's name before them.
pub fn read_words(alloc: Global, words: &Vec<String>) -> Result<WorkOptions, WordsError>
    ensures asked { IfOk result (AskFor (map string_bytes words.now.items)) }
    ensures taken { IfOk result (λ _. fault_of run_command (map string_bytes words.now.items) ≡ []) }
    ensures refused { IfErr result (IsCause (map string_bytes words.now.items)) }
    ensures ranges { IfOk result (λ o. (o.start < 2 ^ 63) × (1 ≤ o.drivers) × (o.drivers ≤ 8) × (o.requests ≤ 20000)) }
    ensures few { IfOk result (λ o. o.drivers * o.requests ≤ 20000) }
{
    let command = match command(alloc) {
        Ok(command) => command,
        Err(AllocError) => return Err(WordsError::Memory),
    };
    let matches = match command.try_get_matches_from(words.as_slice()) {
        Ok(matches) => matches,
        Err(error) if error.kind() == ErrorKind::OutOfMemory => return Err(WordsError::Memory),
        Err(error) => return Err(WordsError::Refused(error)),
    };
    let Some(options) = options_in(&matches) else {
        return Err(WordsError::Memory);
    };
    let all = u64::from(options.drivers) * u64::from(options.requests);
    if all > MOST_REQUESTS {
        return Err(WordsError::Many(all));
    }
    Ok(options)
}
