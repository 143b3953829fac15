//! The reasons why a record does not agree.
ghost use Rattle.std.specs.Prelude.{◌≡◌, Err};
ghost use Rattle.lots_record.specs.Program.{check_status};
ghost use Rattle.lots_record.specs.declared.check_error.CheckError.TheVariants.{Draw};
ghost use Rattle.lots_core.specs.declared.error.LotsError.TheVariants.{Memory};

use lots_core::LotsError;
use std::alloc::{AllocError, AllocFailed};
use thiserror::Error;

/// The reasons why a text does not agree with a list as the record of a draw.
#[derive(Clone, Copy, Debug, PartialEq, Eq, Error)]
pub enum CheckError {
    /// The text is not a record of format 2: its first lines, down to the number of entrants drawn
    /// and the module, cannot be read.
    #[error("this is no record of format 2")]
    Unreadable,

    /// The record names the SHA-256 of another list.
    #[error("the record is that of a draw from another list")]
    OtherList,

    /// The record names another announcement, or none.
    #[error("the record names another announcement, or none")]
    OtherAnnouncement,

    /// The announcement is not that of a draw from the list of as many entrants as are drawn.
    #[error("the announcement does not fit this list and the number of entrants drawn")]
    NotAnnounced,

    /// The record is not the one that its draw from this list makes.
    #[error("the record is not that of a draw from this list")]
    Differs,

    /// The draw that the record describes fails.
    #[error("{0}")]
    Draw(LotsError),
}

impl From<AllocError> for CheckError {
    ghost from_gives = { λ _ e. e ≡ Draw Memory };

    fn from(_error: AllocError) -> CheckError {
        CheckError::Draw(LotsError::Memory)
    }
}

impl<T: Drop> From<AllocFailed<T>> for CheckError {
    ghost from_gives = { λ _ e. e ≡ Draw Memory };

    fn from(_error: AllocFailed<T>) -> CheckError {
        CheckError::Draw(LotsError::Memory)
    }
}

impl From<LotsError> for CheckError {
    ghost from_gives = { λ error e. e ≡ Draw error };

    fn from(error: LotsError) -> CheckError {
        CheckError::Draw(error)
    }
}

impl CheckError {
    /// Returns the exit status for the error.
    pub fn status(self) -> u8
        ensures { result ≡ check_status (Err self) }
    {
        match self {
            CheckError::Draw(error) => error.status(),
            CheckError::Unreadable => 9,
            CheckError::OtherAnnouncement => 10,
            CheckError::OtherList | CheckError::Differs => 11,
            CheckError::NotAnnounced => 12,
        }
    }
}
