//! The shortest callers.

use nanorand::choices::between;
use nanorand::entropy::EntropyError;
use nanorand::{BufferedRng, RangeError, Rng, WyRand};
use std::io::Read;

pub fn number(seed: u64) -> u64 {
    WyRand::seed_from_u64(seed).generate()
}

pub fn percent(rng: &mut WyRand) -> Result<u64, RangeError> {
    between(rng, 1, 100)
}

pub fn deal(rng: &mut WyRand, deck: &mut [u8]) -> Result<(), RangeError> {
    rng.shuffle(deck)
}

pub fn byte_after_byte(seed: u64, out: &mut [u8]) {
    BufferedRng::new(WyRand::seed_from_u64(seed)).fill_bytes(out);
}

pub fn seeded<R: Read>(source: &mut R) -> Result<WyRand, EntropyError> {
    WyRand::new(source)
}
