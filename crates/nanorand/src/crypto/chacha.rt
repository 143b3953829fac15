//! The block function of ChaCha, after Daniel J. Bernstein, "ChaCha, a variant of Salsa20" (2008),
//! in its original layout: a 64-bit counter and a 64-bit nonce.
//!
//! A word of ChaCha has 32 bits. The state is a matrix of 4 by 4 words, row by row: four words of
//! constants, eight of the key, two of the counter and two of the nonce. Words are read and written
//! in little-endian byte order.
//!
//! These functions do not erase keys from memory, and they have not been audited. For encryption,
//! or if there is an adversary, use a vetted implementation.

mod block;
mod eight_blocks;
mod four_blocks;
mod inverse;
mod lanes;
mod side_by_side;
mod state;
mod vectors;
mod wide;

pub use block::{chacha_block, chacha_rounds};
pub(crate) use eight_blocks::eight_blocks;
pub(crate) use four_blocks::{FourBlocks, four_blocks};
pub use inverse::chacha_unrounds;
pub(crate) use state::{counter, set_counter};
pub use state::{chacha_increment_counter, chacha_init};
pub(crate) use wide::{EightLanes, Wide};
