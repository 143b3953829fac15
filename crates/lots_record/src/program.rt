//! The commands that write and check a record, from the list to the text that is written.
ghost use Rattle.std.specs.Prelude.{◌≡◌, ◌≢◌, ◌+◌, ◌≤◌, ℕ, List, length, IfErr, IfSome, OnOk, codes, ◌⊎◌};
ghost use Rattle.std.specs.Io.KnownBytes.{Appends};
ghost use Rattle.lots_core.specs.Text.{WasRead};
ghost use Rattle.lots_core.specs.declared.error.LotsError.TheVariants.{Write as Unwritten};
ghost use Rattle.lots_record.specs.Program as spec;
ghost use Rattle.lots_core.specs.Arguments.{number_asked};
ghost use Rattle.lots_core.specs.Lists.{AreFull, lines_of};
ghost use Rattle.lots_record.specs.Announcement.{IsUnannounced, plan_of, text_of};
ghost use Rattle.lots_record.specs.Check.{IsAnnounced, IsRecord, IsRefusal, given};
ghost use Rattle.lots_record.specs.Record.{IsDrawable, record_text};
ghost use Rattle.lots_record.specs.declared.check_error.CheckError.TheVariants.{Draw};

use crate::announcement::{Plan, announcement};
use crate::check::{check, is_announced};
use crate::check_error::CheckError;
use crate::record::{Source, record};
use lots_core::arguments::Request;
use lots_core::run::read_list;
use lots_core::{LotsError, count_entrants};
use sha2::{Digest, Sha256};
use std::alloc::Allocator;
use std::io::{Read, Write};

/// What `lots --help` writes.
pub const HELP: &str = "\
usage: lots SEED COUNT|all < entrants
       lots --announce OCCASION WINNERS RESERVES SOURCE FORM EXAMPLE TIME < entrants
       lots --record SEED COUNT|all [ANNOUNCEMENT] < entrants
       lots --check RECORD [ANNOUNCEMENT] < entrants
       lots --version
       lots --help

Draws COUNT of the entrants, one per line of standard input, as the seed determines, and writes them
in the order drawn. `--announce` writes an announcement, to be published before the seed is known:
what is drawn for, how many winners and reserves, where the seed will come from, its form, a seed of
this form, and the time. `--record` writes the record of the draw. `--check` draws again: its status
is 0 only if the file RECORD is the record of a draw from these entrants. If a file ANNOUNCEMENT is
given, the record names its SHA-256, and it has to be the announcement of such a draw, whose winners
and reserves are COUNT together. A seed and a count are always a draw: write ./2026 for a file of
that name.
";

/// Writes a text to `out`, all at once, and then flushes. After an error, how much of the text `out`
/// accepted is unspecified.
pub fn write_text<W: Write>(text: &[u8], out: &mut W) -> Result<(), LotsError>
    ensures written { OnOk result (Appends (W.contents out.old) (W.contents out.new) text.now) }
    ensures failure { IfErr result (λ error. error ≡ Unwritten) }
{
    out.write_all(text).map_err(|_| LotsError::Write)?;
    out.flush().map_err(|_| LotsError::Write)
}

/// Returns the SHA-256 of the announcement, if there is one.
fn sum_of(announcement: Option<&[u8]>) -> Option<[u8; 32]>
    ensures { result ≡ spec.sum_of announcement.entry }
{
    match announcement {
        Some(text) => Some(Sha256::digest(text)),
        None => None,
    }
}

/// Draws what the request asks for from the list that `input` provides, writes the record to `out`,
/// all at once, and then flushes. The record names the SHA-256 of the announcement, if there is one.
///
/// Everything is read and drawn before anything is written. Returns `NotAnnounced` if the announcement
/// is not that of a draw of as many entrants from this list, and otherwise the errors that `LotsError`
/// lists, except `Usage`. After `Write`, how much of the text `out` accepted is unspecified. After
/// any other error, nothing was written.
pub fn write_record<A: Allocator, R: Read, W: Write>(
    alloc: A,
    request: &Request<'_>,
    announcement: Option<&[u8]>,
    input: &mut R,
    out: &mut W,
) -> Result<(), CheckError>
    // On success, the input was read to its end, and the record of the draw from the list that was
    // read was appended to `out`.
    ensures written { OnOk result ((list : List ℕ)
        × WasRead (R.remaining input.old) (R.remaining input.new) list
        × IsAnnounced (given announcement.entry) list (number_asked request.now.count (length (lines_of list)))
        × IsDrawable (spec.source_asked request.now announcement.entry list) list
        × Appends (W.contents out.old) (W.contents out.new)
        (record_text (spec.source_asked request.now announcement.entry list) list)) }
    // Otherwise memory, the reader or the writer failed, or there is no record for the list.
    ensures refusal { IfErr result (λ error. spec.IsFailedCheck error
        ⊎ spec.InList (R.remaining input.old) (R.remaining input.new)
        (λ list. spec.IsUnrecorded request.now announcement.entry list error)) }
    ensures untouched { IfErr result (λ error. error ≢ Draw Unwritten → out.new ≡ out.old) }
{
    let list = read_list(&alloc, input)?;
    let entrants = count_entrants(&list)?;
    let count = request.count.among(entrants);
    if !is_announced(&alloc, announcement, &list, entrants, count)? {
        return Err(CheckError::NotAnnounced);
    }
    let source = Source {
        seed: request.seed,
        count: request.count,
        announcement: sum_of(announcement),
        program: None,
    };
    let text = record(&alloc, &source, &list)?;
    write_text(text.as_bytes(), out)?;
    Ok(())
}

/// Writes the announcement of a draw from the list that `input` provides to `out`, all at once, and
/// then flushes.
///
/// Returns the errors of `announcement`, `Read` and `Write`. After `Write`, how much of the text `out`
/// accepted is unspecified. After any other error, nothing was written.
pub fn write_announcement<A: Allocator, R: Read, W: Write>(
    alloc: A,
    plan: &Plan<'_>,
    input: &mut R,
    out: &mut W,
) -> Result<(), LotsError>
    ensures written { OnOk result ((list : List ℕ)
        × WasRead (R.remaining input.old) (R.remaining input.new) list
        × AreFull (lines_of list)
        × (plan.now.winners + plan.now.reserves ≤ length (lines_of list))
        × Appends (W.contents out.old) (W.contents out.new)
        (text_of (plan_of plan.now) list (length (lines_of list)))) }
    ensures refusal { IfErr result (λ error. spec.IsFailure error
        ⊎ spec.InList (R.remaining input.old) (R.remaining input.new)
        (λ list. IsUnannounced (plan_of plan.now) list error)) }
    ensures untouched { IfErr result (λ error. error ≢ Unwritten → out.new ≡ out.old) }
{
    let list = read_list(&alloc, input)?;
    let text = announcement(&alloc, plan, &list)?;
    write_text(text.as_bytes(), out)
}

/// The line that says that a record agrees.
fn agreement(announcement: Option<&[u8]>) -> &'static str
    ensures { result.now ≡ spec.agreement announcement.entry }
{
    match announcement {
        Some(_) => "the record agrees with the list, and names the announcement\n",
        None => "the record agrees with the list; no announcement was compared\n",
    }
}

/// Checks a record with the list that `input` provides, and with the announcement, if one is given.
/// If it agrees, a line that says so is written to `out`, which is then flushed.
///
/// Returns the reason if the record does not agree. After `Write`, how much of the line `out`
/// accepted is unspecified. After any other error, nothing was written.
pub fn check_record<A: Allocator, R: Read, W: Write>(
    alloc: A,
    text: &[u8],
    announcement: Option<&[u8]>,
    input: &mut R,
    out: &mut W,
) -> Result<(), CheckError>
    // On success, the input was read to its end, the record is that of a draw from the list that was
    // read, it names the announcement if one is given, and the line was appended to `out`.
    ensures agrees { OnOk result ((list : List ℕ)
        × WasRead (R.remaining input.old) (R.remaining input.new) list
        × IsRecord text.now list (given announcement.entry)
        × Appends (W.contents out.old) (W.contents out.new) (spec.agreement announcement.entry)) }
    // So if the bytes of the reader are known and the record is one of theirs, only memory, the reader
    // or the writer can fail.
    ensures only { IfSome (R.remaining input.old) (λ list.
        IsRecord text.now list (given announcement.entry) → IfErr result spec.IsFailedCheck) }
    ensures refusal { IfErr result (λ error. spec.IsFailedCheck error
        ⊎ spec.InList (R.remaining input.old) (R.remaining input.new)
        (λ list. IsRefusal text.now list (given announcement.entry) error)) }
    ensures untouched { IfErr result (λ error. error ≢ Draw Unwritten → out.new ≡ out.old) }
{
    let list = read_list(&alloc, input)?;
    check(&alloc, text, announcement, &list)?;
    write_text(agreement(announcement).as_bytes(), out)?;
    Ok(())
}

/// Returns the exit status of a check. If the result is an error, it is written as one line to
/// `err`; a failure to write that line is ignored. After success nothing is written.
pub fn report_check<W: Write>(outcome: Result<(), CheckError>, err: &mut W) -> u8
    ensures status { result ≡ spec.check_status outcome }
    ensures quiet { OnOk outcome (err.new ≡ err.old) }
{
    let Err(error) = outcome else {
        return 0;
    };
    let _ = writeln!(err, "lots: {error}");
    error.status()
}
