//! The errors of a run.

ghost use Rattle.std.specs.Prelude.{◌≡◌};
ghost use Rattle.draw_core.specs.declared.error.DrawError.TheVariants.{Memory};

use std::alloc::{AllocError, AllocFailed};
use thiserror::Error;

/// The reasons why `run` failed.
#[derive(Clone, Copy, Debug, PartialEq, Eq, Error)]
pub enum DrawError {
    /// An argument cannot be read. The value is the number of the first such argument, counted from
    /// 1; a missing argument among the first four counts as one. Nothing was written.
    #[error("bad word {0}")]
    BadWord(usize),

    /// Out of memory: an allocation failed. Nothing was written.
    #[error("no memory")]
    Memory,

    /// The writer returned an error, or accepted 0 bytes. How much of the text it accepted is
    /// unspecified.
    #[error("write failed")]
    Write,
}

impl From<AllocError> for DrawError {
    ghost from_gives = { λ _ e. e ≡ Memory };

    fn from(_error: AllocError) -> DrawError {
        DrawError::Memory
    }
}

impl<T: Drop> From<AllocFailed<T>> for DrawError {
    ghost from_gives = { λ _ e. e ≡ Memory };

    fn from(_error: AllocFailed<T>) -> DrawError {
        DrawError::Memory
    }
}
