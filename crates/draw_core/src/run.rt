//! The whole run, from the command-line arguments to the text that is written.

ghost use Rattle.std.specs.Prelude.{◌≡◌, ◌≢◌, ◌≤◌, ℕ, length, IfOk, IfErr, OnOk, string_bytes};
ghost use Rattle.std.specs.List.{range_with_len};
ghost use Rattle.std.specs.Io.KnownBytes.{Appends};
ghost use Rattle.draw_core.specs.Text.{text_asked, status_of};
ghost use Rattle.draw_core.specs.Arguments.{Asked, AsksFor, IsFirstUnreadable, asked_by, texts};

use crate::command::{Command, read};
use crate::error::DrawError;
use crate::generators::replay_seeded;
use crate::text::text_of;
use nanorand::replay::Answer;
use std::alloc::{AllocError, Allocator};
use std::io::Write;

/// Returns the initial items: the numbers 0, 1, .. below `count`.
fn items_below<A: Allocator>(alloc: A, count: u64) -> Result<Vec<u64, A>, AllocError>
    ensures { IfOk result (λ items. items.items ≡ range_with_len 0 count) }
{
    let mut items = Vec::new(alloc);
    'items: for item in 0..count {
        items.push(item)?;
    }
    Ok(items)
}

/// Runs the command and returns the text to write.
fn text_of_command<'a, A: Allocator>(
    alloc: &'a A,
    command: &Command<&'a A>,
) -> Result<String<&'a A>, AllocError>
    ensures { IfOk result (λ text. string_bytes text ≡ text_asked (asked_by command.now)) }
{
    let mut items = items_below(alloc, command.count)?;
    let calls = command.calls.as_slice();
    let mut answers = vec![in alloc; Answer::Truth(false); calls.len()]?;
    replay_seeded(
        command.generator,
        command.mode,
        calls,
        &mut items,
        &mut answers,
    );
    text_of(alloc, &answers, &items)
}

/// Parses and runs the arguments, and returns the text to write, or the error `BadWord` or
/// `Memory`.
fn text_for_arguments<'a, A: Allocator>(
    alloc: &'a A,
    arguments: &[String],
) -> Result<String<&'a A>, DrawError>
    ensures said { OnOk result ((asked : Asked) × AsksFor (texts arguments.now) asked) }
    ensures text { IfOk result (λ text. (asked : Asked) → AsksFor (texts arguments.now) asked →
        string_bytes text ≡ text_asked asked) }
    ensures not_write { result ≢ Err DrawError.Write }
    ensures bad_word { (k : ℕ) → result ≡ Err (DrawError.BadWord k) →
        IsFirstUnreadable (texts arguments.now) k }
    ensures early { (k : ℕ) → k ≤ 4 → IsFirstUnreadable (texts arguments.now) k →
        result ≡ Err (DrawError.BadWord k) }
{
    let command = read(alloc, arguments)?;
    Ok(text_of_command(alloc, &command)?)
}

/// Writes the whole text, and then flushes. `Write` is its only error.
fn write_text<W: Write>(out: &mut W, text: &str) -> Result<(), DrawError>
    ensures written { OnOk result (Appends (W.contents out.old) (W.contents out.new) text.now) }
    ensures refusal { IfErr result (λ error. error ≡ DrawError.Write) }
{
    out.write_all(text.as_bytes())
        .map_err(|_| DrawError::Write)?;
    out.flush().map_err(|_| DrawError::Write)
}

/// Writes the text that the arguments ask for, all at once, and then flushes. The arguments do not
/// include the name of the program.
///
/// Returns `BadWord` if an argument cannot be read, `Memory` if an allocation fails, and `Write` if
/// writing fails. After `Write`, how much of the text `out` accepted is unspecified. After any
/// other error, nothing was written.
pub fn run<A: Allocator, W: Write>(
    alloc: A,
    arguments: &[String],
    out: &mut W,
) -> Result<(), DrawError>
    // On success, the arguments can be read, and the text that they ask for was appended to `out`.
    ensures readable { OnOk result ((asked : Asked) × AsksFor (texts arguments.now) asked) }
    ensures written { OnOk result ((asked : Asked) → AsksFor (texts arguments.now) asked →
        Appends (W.contents out.old) (W.contents out.new) (text_asked asked)) }

    // `BadWord` holds the number of the first argument that cannot be read. `Write` is returned
    // only if all arguments can be read.
    ensures bad_word { (k : ℕ) → result ≡ Err (DrawError.BadWord k) →
        IsFirstUnreadable (texts arguments.now) k }
    ensures write { result ≡ Err DrawError.Write →
        (asked : Asked) × AsksFor (texts arguments.now) asked }

    // If one of the first four arguments cannot be read, `BadWord` is returned even if memory has
    // run out.
    ensures early { (k : ℕ) → k ≤ 4 → IsFirstUnreadable (texts arguments.now) k →
        result ≡ Err (DrawError.BadWord k) }

    // After any error but `Write`, nothing was written.
    ensures untouched { IfErr result (λ error. error ≢ DrawError.Write → out.new ≡ out.old) }
{
    let text = text_for_arguments(&alloc, arguments)?;
    write_text(out, text.as_str())
}

/// Returns the exit status of a result. If the result is an error, it is written as one line to
/// `err`; a failure to write that line is ignored. After success nothing is written.
pub fn report<W: Write>(outcome: Result<(), DrawError>, err: &mut W) -> u8
    ensures status { result ≡ status_of outcome }
    ensures quiet { OnOk outcome (err.new ≡ err.old) }
{
    let Err(error) = outcome else {
        return 0;
    };
    let _ = writeln!(err, "draw: {error}");
    match error {
        DrawError::BadWord(_) => 2,
        DrawError::Memory => 3,
        DrawError::Write => 4,
    }
}
