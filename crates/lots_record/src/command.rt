//! What the command line asks the program `lots` to do.
ghost use Rattle.std.specs.Prelude.{◌≡◌, ◌∷◌, codes};
ghost use Rattle.lots_core.specs.Arguments.{Asked, AsksFor, texts};
ghost use Rattle.lots_record.specs.Command.{IsCommand};
ghost use Rattle.lots_record.specs.declared.command.Command.TheVariants.{Draw};

use crate::announcement::Plan;
use lots_core::arguments::{Count, Request, count_of, read};

/// A command of the program.
#[derive(Drop)]
pub enum Command<'a> {
    /// Draw, as `lots_core::run` does with the arguments.
    Draw,
    /// Write an announcement.
    Announce {
        plan: Plan<'a>,
    },
    /// Draw, and write the record. `announcement` is the path of the announcement.
    Record {
        request: Request<'a>,
        announcement: Option<&'a str>,
    },
    /// Check a record. Both values are paths of files.
    Check {
        record: &'a str,
        announcement: Option<&'a str>,
    },
    /// Write the version of the program.
    Version,
    /// Write how the program is called.
    Help,
}

/// Returns the command of the arguments. A seed and a count are a draw, whatever the seed is.
/// `Draw` is also returned for arguments that are no command: `lots_core::run` then returns `Usage`.
pub fn read_command(arguments: &[String]) -> Command<'_>
    ensures is { IsCommand (texts arguments.now) result }
    ensures draws { (asked : Asked) → AsksFor (texts arguments.now) asked → result ≡ Draw }
{
    if read(arguments).is_some() {
        return Command::Draw;
    }
    let Some((name, values)) = arguments.split_first() else {
        return Command::Draw;
    };
    match name.as_str() {
        "--announce" => announce_command(values),
        "--record" => record_command(values),
        "--check" => check_command(values),
        "--version" if values.is_empty() => Command::Version,
        "--help" if values.is_empty() => Command::Help,
        _ => Command::Draw,
    }
}

/// Returns the command of the values after `--record`: SEED COUNT [ANNOUNCEMENT].
fn record_command(values: &[String]) -> Command<'_>
    ensures { IsCommand (codes "--record" ∷ texts values.now) result }
{
    let (asked, announcement) = match values {
        [_, _, announcement] => (&values[..2], Some(announcement.as_str())),
        _ => (values, None),
    };
    match read(asked) {
        Some(request) => Command::Record {
            request,
            announcement,
        },
        None => Command::Draw,
    }
}

/// Returns the command of the values after `--check`: RECORD [ANNOUNCEMENT].
fn check_command(values: &[String]) -> Command<'_>
    ensures { IsCommand (codes "--check" ∷ texts values.now) result }
{
    match values {
        [record] => Command::Check {
            record: record.as_str(),
            announcement: None,
        },
        [record, announcement] => Command::Check {
            record: record.as_str(),
            announcement: Some(announcement.as_str()),
        },
        _ => Command::Draw,
    }
}

/// Returns the command of the values after `--announce`: OCCASION WINNERS RESERVES SOURCE FORM
/// EXAMPLE TIME. If a text is empty or there is no winner, this is not a command, and `Draw` is
/// returned.
fn announce_command(values: &[String]) -> Command<'_>
    ensures { IsCommand (codes "--announce" ∷ texts values.now) result }
{
    let [occasion, winners, reserves, source, form, example, time] = values else {
        return Command::Draw;
    };
    let (Some(Count::Of(winners)), Some(Count::Of(reserves))) = (
        count_of(winners.as_str()),
        count_of(reserves.as_str()),
    ) else {
        return Command::Draw;
    };
    if winners == 0
        || occasion.is_empty()
        || source.is_empty()
        || form.is_empty()
        || example.is_empty()
        || time.is_empty()
    {
        return Command::Draw;
    }
    Command::Announce {
        plan: Plan {
            occasion: occasion.as_str(),
            winners,
            reserves,
            source: source.as_str(),
            form: form.as_str(),
            example: example.as_str(),
            time: time.as_str(),
        },
    }
}
