//! Arrays of bytes: an array takes one request of its length.

use super::{RandomGen, next_bytes};
use crate::rand::Rng;

/// Takes `N` bytes by one request. An array of no bytes makes a request of 0 bytes.
impl<G: Rng<OUTPUT>, const N: usize, const OUTPUT: usize> RandomGen<G, OUTPUT> for [u8; N] {
    ghost value = { λ g. G.requests.bytes g N };

    ghost state_after = { λ g. G.requests.after g N };

    #[inline]
    fn random(rng: &mut G) -> [u8; N] {
        next_bytes(rng)
    }
}
