//! The unsigned types: one request for their bytes, in little-endian order.
ghost use Rattle.nanorand_core.specs.values.Values.{number_of};

use super::{RandomGen, next_bytes};
use crate::rand::Rng;

impl<G: Rng<OUTPUT>, const OUTPUT: usize> RandomGen<G, OUTPUT> for u8 {
    ghost value = { λ g. number_of (G.requests.bytes g 1) };

    ghost state_after = { λ g. G.requests.after g 1 };

    #[inline]
    fn random(rng: &mut G) -> u8 {
        u8::from_le_bytes(next_bytes(rng))
    }
}

impl<G: Rng<OUTPUT>, const OUTPUT: usize> RandomGen<G, OUTPUT> for u16 {
    ghost value = { λ g. number_of (G.requests.bytes g 2) };

    ghost state_after = { λ g. G.requests.after g 2 };

    #[inline]
    fn random(rng: &mut G) -> u16 {
        u16::from_le_bytes(next_bytes(rng))
    }
}

impl<G: Rng<OUTPUT>, const OUTPUT: usize> RandomGen<G, OUTPUT> for u32 {
    ghost value = { λ g. number_of (G.requests.bytes g 4) };

    ghost state_after = { λ g. G.requests.after g 4 };

    #[inline]
    fn random(rng: &mut G) -> u32 {
        u32::from_le_bytes(next_bytes(rng))
    }
}

impl<G: Rng<OUTPUT>, const OUTPUT: usize> RandomGen<G, OUTPUT> for u64 {
    ghost value = { λ g. number_of (G.requests.bytes g 8) };

    ghost state_after = { λ g. G.requests.after g 8 };

    #[inline]
    fn random(rng: &mut G) -> u64 {
        u64::from_le_bytes(next_bytes(rng))
    }
}

impl<G: Rng<OUTPUT>, const OUTPUT: usize> RandomGen<G, OUTPUT> for u128 {
    ghost value = { λ g. number_of (G.requests.bytes g 16) };

    ghost state_after = { λ g. G.requests.after g 16 };

    #[inline]
    fn random(rng: &mut G) -> u128 {
        u128::from_le_bytes(next_bytes(rng))
    }
}

impl<G: Rng<OUTPUT>, const OUTPUT: usize> RandomGen<G, OUTPUT> for usize {
    ghost value = { λ g. number_of (G.requests.bytes g 8) };

    ghost state_after = { λ g. G.requests.after g 8 };

    #[inline]
    fn random(rng: &mut G) -> usize {
        usize::from_le_bytes(next_bytes(rng))
    }
}
