//! Seeded random generators, unbiased values and ranges, shuffles, and lists of calls that can be
//! replayed.
//!
//! Equal generators draw equal values: nothing here reads a clock, a device, or memory that the
//! caller did not pass in. The contract of each call states what it returns and the state that it
//! leaves.
//!
//! The traits, values, ranges, choices, samples and shuffles are those of `nanorand_core`, and the
//! buffers and replays those of `nanorand_replay`. These two crates contain no generator. This
//! crate exports their items under the same paths.
//!
//! `WyRand` and `Pcg64` are not cryptographically secure: never use them to generate a key, a token
//! or a password. `ChaCha` and its streams are not vetted cryptographic generators either: they do
//! not erase keys from memory, and do not reseed themselves. For keys, tokens and passwords, or if
//! there is an adversary, use a vetted generator.
//!
//! `seed_from_u64` makes a generator from any number, such as 0, 1, 2, ..; it mixes the number. The
//! seed that `new_seed` of `WyRand` or `Pcg64` takes is the state itself: generators with
//! neighbouring seeds draw correlated numbers.
#![tactic(auto)]

pub mod crypto;
pub mod entropy;
pub mod laws;
pub mod parts;
pub mod rand;

pub use nanorand_core::{RandomGen, RandomRange, RangeError, choices, samples, shuffles, values};
pub use nanorand_replay::{BufferedRng, buffer, replay};
pub use parts::{Parts, PastPeriod};
pub use rand::chacha::{ChaCha, ChaCha8, ChaCha12, ChaCha20};
pub use rand::chacha_groups::ChaChaGroups;
pub use rand::keystream::{
    ChaCha8Stream, ChaCha12Stream, ChaCha20Stream, ChaChaStream, Keystream, chacha_stream,
    chacha_stream_at, chacha_stream_from_u64,
};
pub use rand::pcg64::Pcg64;
pub use rand::wyrand::WyRand;
pub use rand::{Blocks, Rng, SeedableRng};
