//! The errors of a draw.

ghost use Rattle.std.specs.Prelude.{◌≡◌, Err};
ghost use Rattle.lots_core.specs.Text.{status_of};
ghost use Rattle.lots_core.specs.declared.error.LotsError.TheVariants.{Memory};

use std::alloc::{AllocError, AllocFailed};
use thiserror::Error;

/// The reasons why nothing was drawn, or why the selection was not written.
#[derive(Clone, Copy, Debug, PartialEq, Eq, Error)]
pub enum LotsError {
    /// The arguments are not a seed and a count. Nothing was read.
    #[error("usage: lots SEED COUNT|all < entrants")]
    Usage,

    /// There are fewer entrants than were asked for.
    #[error("{entrants} entrants, {count} asked for")]
    TooFew { entrants: usize, count: usize },

    /// A line is empty. The value is the number of the first such line, counted from 1.
    #[error("line {0} is empty")]
    EmptyLine(usize),

    /// Out of memory: an allocation failed.
    #[error("no memory")]
    Memory,

    /// The reader returned an error.
    #[error("read failed")]
    Read,

    /// The writer returned an error, or accepted 0 bytes. How much of the text it accepted is
    /// unspecified.
    #[error("write failed")]
    Write,

    /// 128 words (random integers of 64 bits) in a row were rejected for one place. For each place,
    /// the probability is below 2^-128.
    #[error("128 words were rejected")]
    Exhausted,
}

impl LotsError {
    /// Returns the exit status for the error.
    pub fn status(self) -> u8
        ensures { result ≡ status_of (Err self) }
    {
        match self {
            LotsError::Usage => 2,
            LotsError::TooFew { .. } => 3,
            LotsError::EmptyLine(_) => 4,
            LotsError::Memory => 5,
            LotsError::Read => 6,
            LotsError::Write => 7,
            LotsError::Exhausted => 8,
        }
    }
}

impl From<AllocError> for LotsError {
    ghost from_gives = { λ _ e. e ≡ Memory };

    fn from(_error: AllocError) -> LotsError {
        LotsError::Memory
    }
}

impl<T: Drop> From<AllocFailed<T>> for LotsError {
    ghost from_gives = { λ _ e. e ≡ Memory };

    fn from(_error: AllocFailed<T>) -> LotsError {
        LotsError::Memory
    }
}
