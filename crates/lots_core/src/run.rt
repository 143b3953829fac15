//! The whole run, from the arguments and the list to the text that is written.
ghost use Rattle.std.specs.Prelude.{◌≡◌, ◌≢◌, ◌⊎◌, ℕ, List, IfOk, IfErr, IfSome, OnOk};
ghost use Rattle.std.specs.Io.KnownBytes.{Appends};
ghost use Rattle.lots_core.specs.Arguments.{Asked, AsksFor, asked_by, texts};
ghost use Rattle.lots_core.specs.Lists.{IsFirstEmpty, AreFull, lines_of};
ghost use Rattle.lots_core.specs.Text.{AreTooFew, IsDrawn, IsRefused, Outcome, WasRead, status_of, text_drawn};
ghost use Rattle.lots_core.specs.declared.error.LotsError.TheVariants.{Usage, TooFew, EmptyLine, Memory, Read as Unread, Write as Unwritten, Exhausted};

use crate::arguments::{Request, read};
use crate::error::LotsError;
use crate::selection::draw_lines;
use crate::text::text_of;
use std::alloc::Allocator;
use std::io::{ErrorKind, Read, Write};

/// Returns all bytes of the reader.
pub fn read_list<A: Allocator, R: Read>(alloc: A, input: &mut R) -> Result<Vec<u8, A>, LotsError>
    ensures read { IfOk result (λ list.
        WasRead (R.remaining input.old) (R.remaining input.new) list.items) }
    ensures refusal { IfErr result (λ error. (error ≡ Memory) ⊎ (error ≡ Unread)) }
{
    let mut list = Vec::new(alloc);
    match input.read_to_end(&mut list) {
        Ok(_) => Ok(list),
        Err(error) if error.kind() == ErrorKind::OutOfMemory => Err(LotsError::Memory),
        Err(_) => Err(LotsError::Read),
    }
}

/// Returns the text of the selection that the request makes from the list, or the error.
fn select<'a, A: Allocator>(
    alloc: &'a A,
    request: &Request<'_>,
    list: &[u8],
) -> Result<Vec<u8, &'a A>, LotsError>
    ensures { Outcome (asked_by request.now) (lines_of list.now) result }
{
    let (entrants, count) = draw_lines(alloc, request.seed, request.count, list)?;
    Ok(text_of(alloc, &entrants[..count])?)
}

/// Draws what the arguments ask for from the list that `input` provides, writes the selection to
/// `out`, all at once, and then flushes. The arguments do not include the name of the program.
///
/// Everything is read and drawn before anything is written. Returns the errors that `LotsError`
/// lists. After `Write`, how much of the text `out` accepted is unspecified. After any other error,
/// nothing was written.
pub fn run<A: Allocator, R: Read, W: Write>(
    alloc: A,
    arguments: &[String],
    input: &mut R,
    out: &mut W,
) -> Result<(), LotsError>
    // On success, the input was read to its end, and the text of the selection was appended to
    // `out`.
    ensures drawn { OnOk result ((text : List ℕ)
        × IsDrawn (texts arguments.now) (R.remaining input.old) (R.remaining input.new) text
        × Appends (W.contents out.old) (W.contents out.new) text) }

    // So if the bytes of the reader are known, the text is that of the selection from them.
    ensures written { OnOk result ((asked : Asked) → AsksFor (texts arguments.now) asked →
        IfSome (R.remaining input.old) (λ list. Appends (W.contents out.old) (W.contents out.new)
        (text_drawn asked (lines_of list)))) }

    // `Usage` is returned if and only if the arguments are not a seed and a count. Nothing was read
    // then.
    ensures usage { result ≡ Err Usage →
        (asked : Asked) → AsksFor (texts arguments.now) asked → ⊥ }
    ensures unread { result ≡ Err Usage → input.new ≡ input.old }
    ensures unreadable { ((asked : Asked) → AsksFor (texts arguments.now) asked → ⊥) →
        result ≡ Err Usage }

    // The other errors of the draw: a line is empty, there are too few entrants, or 128 words in a
    // row were rejected.
    ensures empty { (k : ℕ) → result ≡ Err (EmptyLine k) → (list : List ℕ)
        × WasRead (R.remaining input.old) (R.remaining input.new) list
        × IsFirstEmpty (lines_of list) k }
    ensures few { (n k : ℕ) → result ≡ Err (TooFew n k) → (asked : Asked) × (list : List ℕ)
        × AsksFor (texts arguments.now) asked
        × WasRead (R.remaining input.old) (R.remaining input.new) list
        × AreFull (lines_of list) × AreTooFew asked (lines_of list) n k }
    ensures exhausted { result ≡ Err Exhausted → (asked : Asked) × (list : List ℕ)
        × AsksFor (texts arguments.now) asked
        × WasRead (R.remaining input.old) (R.remaining input.new) list
        × AreFull (lines_of list) × IsRefused asked (lines_of list) }

    // `Write` is returned only if there is a selection. After any other error, nothing was written.
    ensures write { result ≡ Err Unwritten → (text : List ℕ)
        × IsDrawn (texts arguments.now) (R.remaining input.old) (R.remaining input.new) text }
    ensures untouched { IfErr result (λ error. error ≢ Unwritten → out.new ≡ out.old) }
{
    let request = read(arguments).ok_or(LotsError::Usage)?;
    let list = read_list(&alloc, input)?;
    let text = select(&alloc, &request, &list)?;
    out.write_all(&text).map_err(|_| LotsError::Write)?;
    out.flush().map_err(|_| LotsError::Write)
}

/// Returns the exit status of a result. If the result is an error, it is written as one line to
/// `err`; a failure to write that line is ignored. After success nothing is written.
pub fn report<W: Write>(outcome: Result<(), LotsError>, err: &mut W) -> u8
    ensures status { result ≡ status_of outcome }
    ensures quiet { OnOk outcome (err.new ≡ err.old) }
{
    let Err(error) = outcome else {
        return 0;
    };
    let _ = writeln!(err, "lots: {error}");
    error.status()
}
