//! The calls of `nanorand` in the form that C needs: the state of a generator is the caller's
//! memory, and a call writes its results there and returns a status.
//!
//! Statuses: 0 for success; 1 if the range is empty, if a sample has more places than numbers, or
//! if a sample that is continued has fewer places than are to be kept; 2 if 128 words in a row were
//! rejected; 3 if a part ends past the period. A word is a random number of 32 or 64 bits. Nothing
//! is exported here: `nanorand_c` has an export for each call.
#![tactic(auto)]

pub mod calls;
pub mod chacha;
mod first_word;
mod items;
pub mod keystream;
pub mod pcg64;
pub mod status;
pub mod stream;
pub mod wide;
pub mod wyrand;
