//! Draws by lot from a list, so that anyone can repeat the draw: `lots SEED COUNT|all < entrants`.
//!
//! - SEED is any non-empty text.
//! - COUNT is the number of entrants to draw, in decimal digits; `all` draws all of them.
//! - The entrants are the lines of standard input. No line may be empty.
//!
//! It prints the entrants drawn, one on each line, in the order in which they were drawn. The exit
//! status is 0 on success, 2 if the arguments are none of the commands on this page, 3 if there are
//! too few entrants, 4 if a line is empty, 5 if memory runs out, 6 if a read failed, 7 if a write
//! failed, and 8 if 128 words (random integers of 64 bits) in a row were rejected.
//!
//! `lots --announce OCCASION WINNERS RESERVES SOURCE FORM EXAMPLE TIME < entrants` prints an
//! announcement, which is published before the seed is known. `lots --record SEED COUNT|all
//! [ANNOUNCEMENT] < entrants` prints the record of the draw, which names the SHA-256 of the file
//! ANNOUNCEMENT; the status is 12 if that file is not the announcement of this draw. `lots --check
//! RECORD [ANNOUNCEMENT] < entrants` draws again, and compares. Its status is
//!
//! - 0 if the file RECORD is the record of a draw from these entrants; if ANNOUNCEMENT is given,
//!   the record also has to name it, and it has to be the announcement of this draw
//! - 9 if the file RECORD is not a record
//! - 10 if the record names another announcement, or none
//! - 11 if the record names another list, or is not the record of its draw from these entrants
//! - 12 if ANNOUNCEMENT is not the announcement of this draw
//! - otherwise that of the error, as above
//!
//! `lots --version` and `lots --help` print a text. A seed and a count are always a draw, even if
//! the seed is one of these options. So to check a record in a file named `all` or by digits, write
//! `lots --check ./all`.
#![tactic(auto)]

use lots_core::LotsError;
use lots_core::arguments::Request;
use lots_core::run::{read_list, report, run};
use lots_record::CheckError;
use lots_record::command::{Command, read_command};
use lots_record::program::{
    HELP, check_record, report_check, write_announcement, write_record, write_text,
};
use std::io::{ErrorKind, Input};
use std::process::ExitCode;
use std::{env, fs};

/// What `lots --version` prints. The version is that of the release.
const VERSION: &str = "lots 1.0.0\n";

/// Returns the bytes of the file at the path.
fn read_file(rt: &HostRuntime, path: &str) -> Result<Vec<u8>, LotsError> {
    let mut file = fs::open(rt, path).map_err(|_| LotsError::Read)?;
    read_list(rt.alloc(), &mut file)
}

/// Returns the arguments without the name of the program.
fn arguments_of(rt: &HostRuntime) -> Result<Vec<String>, LotsError> {
    match env::args(rt) {
        Ok(args) => args
            .skip(1)
            .collect::<Vec<String>>(rt.alloc())
            .map_err(|_| LotsError::Memory),
        // An argument is not valid text.
        Err(error) if error.kind() == ErrorKind::InvalidData => Err(LotsError::Usage),
        Err(_) => Err(LotsError::Memory),
    }
}

/// Writes the record of the draw.
fn record(
    rt: &HostRuntime,
    request: &Request<'_>,
    announcement: Option<&str>,
) -> Result<(), CheckError> {
    let input = &mut rt.reader();
    let out = &mut rt.stdout();
    match announcement {
        Some(path) => {
            let text = read_file(rt, path)?;
            write_record(rt.alloc(), request, Some(&text), input, out)
        }
        None => write_record(rt.alloc(), request, None, input, out),
    }
}

/// Checks a record.
fn check(rt: &HostRuntime, record: &str, announcement: Option<&str>) -> Result<(), CheckError> {
    let record = read_file(rt, record)?;
    let input = &mut rt.reader();
    let out = &mut rt.stdout();
    match announcement {
        Some(path) => {
            let text = read_file(rt, path)?;
            check_record(rt.alloc(), &record, Some(&text), input, out)
        }
        None => check_record(rt.alloc(), &record, None, input, out),
    }
}

/// Carries out the command of the arguments, and returns the exit status.
fn status_of(rt: &HostRuntime, arguments: &[String]) -> u8 {
    let out = &mut rt.stdout();
    let err = &mut rt.stderr();
    match read_command(arguments) {
        Command::Draw => report(run(rt.alloc(), arguments, &mut rt.reader(), out), err),
        Command::Announce { plan } => report(
            write_announcement(rt.alloc(), &plan, &mut rt.reader(), out),
            err,
        ),
        Command::Record {
            request,
            announcement,
        } => report_check(record(rt, &request, announcement), err),
        Command::Check {
            record,
            announcement,
        } => report_check(check(rt, record, announcement), err),
        Command::Version => report(write_text(VERSION.as_bytes(), out), err),
        Command::Help => report(write_text(HELP.as_bytes(), out), err),
    }
}

fn main(rt: HostRuntime) -> ExitCode {
    match arguments_of(&rt) {
        Ok(arguments) => ExitCode::from(status_of(&rt, &arguments)),
        Err(error) => ExitCode::from(report(Err(error), &mut rt.stderr())),
    }
}
