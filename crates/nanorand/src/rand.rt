//! The generators, and the traits that they implement.
pub mod chacha;
pub mod chacha_groups;
mod halves;
mod hexadecimal;
pub mod keystream;
pub mod pcg64;
mod split_mix;
pub mod wyrand;

pub use chacha::{ChaCha, ChaCha8, ChaCha12, ChaCha20};
pub use chacha_groups::ChaChaGroups;
pub use keystream::{
    ChaCha8Stream, ChaCha12Stream, ChaCha20Stream, ChaChaStream, Keystream, chacha_stream,
    chacha_stream_at, chacha_stream_from_u64,
};
pub use nanorand_core::rand::{Blocks, Rng, SeedableRng, fill_by_blocks};
pub use pcg64::Pcg64;
pub use wyrand::WyRand;
