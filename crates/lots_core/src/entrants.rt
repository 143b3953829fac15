//! The entrants of a list, which are its lines.
ghost use Rattle.std.specs.Prelude.{◌≡◌, ◌≢◌, ◌⊎◌, ℕ, ◌<◌, ◌≤◌, ◌∷◌, ◌++◌, [], length, map, slice_index, MatchOption, drop, take, IfOk, IfErr, OnOk};
ghost use Rattle.lots_core.specs.Lists.{AreFull, HasNoLineFeed, IsFirstEmpty, lines_of};
ghost use Rattle.lots_core.specs.declared.error.LotsError.TheVariants.{EmptyLine, Memory};

use crate::error::LotsError;
use std::alloc::Allocator;

/// Returns the index of the first line feed, if there is one.
pub fn line_end(text: &[u8]) -> Option<usize>
    ensures { MatchOption result (HasNoLineFeed text.now)
        (λ end. (end < length text.now) × (slice_index text.now end ≡ 10)
        × HasNoLineFeed (take end text.now)) }
{
    text.iter().position(|byte| *byte == b'\n')
}

/// Returns the first line of a text, without its line feed, and the text after it.
fn first_line(text: &[u8]) -> (&[u8], &[u8])
    requires { 0 < length text.now }
    ensures lines { lines_of text.now ≡ result.0.now ∷ lines_of result.1.now }
    ensures shorter { length result.1.now < length text.now }
{
    match line_end(text) {
        Some(end) => (&text[..end], &text[end + 1..]),
        None => (text, &[]),
    }
}

/// Returns the entrants of a list, one for each line: the bytes of the line without its line feed,
/// which the last line need not have. Equal lines are separate entrants.
///
/// Returns `EmptyLine` with the number of the first empty line, counted from 1, or `Memory` if an
/// allocation fails.
pub fn entrants_of<'a, A: Allocator>(
    alloc: A,
    list: &'a [u8],
) -> Result<Vec<&'a [u8], A>, LotsError>
    ensures lines { IfOk result (λ entrants.
        map (λ entrant. entrant.now) entrants.items ≡ lines_of list.now) }
    ensures full { OnOk result (AreFull (lines_of list.now)) }
    ensures empty { (k : ℕ) → result ≡ Err (EmptyLine k) → IsFirstEmpty (lines_of list.now) k }
    ensures refusal { IfErr result (λ error.
        (error ≡ Memory) ⊎ ((k : ℕ) × (error ≡ EmptyLine k))) }
{
    let mut entrants = Vec::new(alloc);
    let mut rest = list;
    'lines: while !rest.is_empty() {
        let (line, after) = first_line(rest);
        if line.is_empty() {
            return Err(LotsError::EmptyLine(entrants.len() + 1));
        }
        entrants.push(line)?;
        rest = after;
    }
    Ok(entrants)
}

/// Returns the number of entrants of a list, as `entrants_of` counts them. Nothing is allocated.
///
/// Returns `EmptyLine`, the only error, as `entrants_of` does.
pub fn count_entrants(list: &[u8]) -> Result<usize, LotsError>
    ensures number { IfOk result (λ count. count ≡ length (lines_of list.now)) }
    ensures full { OnOk result (AreFull (lines_of list.now)) }
    ensures empty { (k : ℕ) → result ≡ Err (EmptyLine k) → IsFirstEmpty (lines_of list.now) k }
    ensures refusal { IfErr result (λ error. (k : ℕ) × (error ≡ EmptyLine k)) }
{
    let mut count = 0;
    let mut left = list;
    'lines: while !left.is_empty() {
        let (line, after) = first_line(left);
        count += 1;
        if line.is_empty() {
            return Err(LotsError::EmptyLine(count));
        }
        left = after;
    }
    Ok(count)
}
