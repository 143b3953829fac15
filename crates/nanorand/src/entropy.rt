//! Seeds from a source of random bytes that the caller provides.
ghost use Rattle.std.specs.Prelude.{◌≡◌, ◌<◌, ◌⊎◌, length, [], None, IfErr, OnOk, OnErr};
ghost use Rattle.std.specs.Io.KnownBytes.{Consumes};
ghost use Rattle.nanorand.specs.generators.Entropy.{HasFewer, TakesFewer};
ghost use Rattle.nanorand.specs.declared.entropy.EntropyError.TheVariants.{Short, Fault};

use std::io::Read;
use thiserror::Error;

/// The reasons why a source of entropy returned no bytes.
#[derive(Clone, Copy, Debug, PartialEq, Eq, Error)]
pub enum EntropyError {
    /// The reader ended too early: it returned 0 bytes although the slice was not full.
    #[error("the entropy reader ended early")]
    Short,

    /// The reader returned an error. An interruption counts as an error.
    #[error("the entropy reader failed")]
    Fault,

    /// There is no such source. Only `backup` returns this error.
    #[error("no entropy source is available")]
    Unavailable,
}

/// Fills the slice with the next bytes of the reader, and takes exactly that many. This is
/// guaranteed for every reader whose bytes a contract can name, such as a slice, but not a file.
/// The reader may return the bytes in pieces of any size. For an empty slice the function returns
/// `Ok` and reads nothing.
///
/// Returns `Short` if the reader returned 0 bytes before the slice was full, and `Fault` if the
/// reader returned an error, including an interruption. That `Fault` always has this cause is
/// tested, not proved. The same holds for `Short` if no contract can name the bytes of the reader.
/// After an error the contents of the slice and the position of the reader are unspecified. For a
/// reader such as a slice of bytes, an error means that it returned fewer bytes than were asked
/// for.
pub fn system<R: Read>(source: &mut R, out: &mut [u8]) -> Result<(), EntropyError>
    ensures next { let old = R.remaining source.old in
        OnOk result (Consumes old (R.remaining source.new) out.new) }

    // An empty slice is already full, so nothing is read.
    ensures nothing { out.old ≡ [] → result ≡ Ok tt }
    ensures unread { out.old ≡ [] → source.new ≡ source.old }

    // There is no other error. If a contract can name the bytes of the reader, `Short` means that
    // the reader had too few bytes.
    ensures error { IfErr result (λ e. (e ≡ Short) ⊎ (e ≡ Fault)) }
    ensures short { result ≡ Err Short → HasFewer (R.remaining source.old) (length out.old) }

    // Once all bytes are taken, no error can occur.
    ensures fewer { let old = R.remaining source.old in
        OnErr result (TakesFewer old (R.remaining source.new) (length out.old)) }
{
    let mut filled = 0;
    while filled < out.len() {
        match source.read(&mut out[filled..]) {
            Ok(0) => return Err(EntropyError::Short),
            Ok(count) => filled += count,
            Err(_) => return Err(EntropyError::Fault),
        }
    }
    Ok(())
}

/// Stands in for a random-number instruction of the processor, which this library does not use.
/// Always returns `None` and leaves the slice unchanged.
pub fn rdseed(out: &mut [u8]) -> Option<usize>
    ensures none { result ≡ None }
    ensures same { out.new ≡ out.old }
{
    let _ = out;
    None
}

/// Stands in for an entropy source of last resort. There is none. Always returns `Unavailable`,
/// even for an empty slice, and leaves the slice unchanged.
pub fn backup(out: &mut [u8]) -> Result<(), EntropyError>
    ensures unavailable { result ≡ Err EntropyError.Unavailable }
    ensures same { out.new ≡ out.old }
{
    let _ = out;
    Err(EntropyError::Unavailable)
}
