//! How C receives a result: as a status, with the number written separately.
ghost use Rattle.std.specs.Prelude.{◌≡◌, Ok};
ghost use Rattle.nanorand_calls.specs.Status.{drawn_or, status};

use nanorand::RangeError;

/// The status of a call: 0, or the reason why it failed, such as 1 or 2.
pub type Status = u32;

// Returns 0 on success, 1 if the range is empty, and 2 if 128 words in a row were rejected.
pub(crate) fn status<T>(outcome: &Result<T, RangeError>) -> Status
    ensures { result ≡ status outcome.now }
{
    match outcome {
        Ok(_) => 0,
        Err(RangeError::Empty) => 1,
        Err(RangeError::Exhausted) => 2,
    }
}

// Writes the number if one was drawn, and returns the status.
pub(crate) fn hand_over<T: Copy>(outcome: &Result<T, RangeError>, number: &mut T) -> Status
    ensures status { result ≡ status outcome.now }
    ensures number { number.new ≡ drawn_or number.old outcome.now }
    ensures drawn { result ≡ 0 → outcome.now ≡ Ok number.new }
{
    if let Ok(drawn) = outcome {
        *number = *drawn;
    }
    status(outcome)
}
