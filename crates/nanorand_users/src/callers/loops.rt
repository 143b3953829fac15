//! Callers with a loop, whose invariant is a proof file of a few lines.
ghost use Rattle.std.specs.Prelude.{All, Contains, IfOk, OnOk};

use nanorand::choices::choose;
use nanorand::{ChaCha20, RangeError};

/// Fills the slice with letters of an alphabet. Returns the first error at once.
pub fn letters(rng: &mut ChaCha20, alphabet: &[u8], out: &mut [u8]) -> Result<(), RangeError>
    ensures { OnOk result (All (λ letter. Contains alphabet.now letter) out.new) }
{
    for place in 0..out.len() {
        out[place] = letter(rng, alphabet)?;
    }
    Ok(())
}

// Draws a letter of the alphabet.
fn letter(rng: &mut ChaCha20, alphabet: &[u8]) -> Result<u8, RangeError>
    ensures { IfOk result (λ letter. Contains alphabet.now letter) }
{
    Ok(*choose(rng, alphabet)?)
}
