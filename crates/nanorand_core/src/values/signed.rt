//! The signed types: one request for their bytes, in little-endian order and two's complement.
ghost use Rattle.std.specs.Int.{w8, w16, w32, w64, w128};
ghost use Rattle.nanorand_core.specs.values.Values.{signed_number_of};

use super::RandomGen;
use crate::rand::Rng;

impl<G: Rng<OUTPUT>, const OUTPUT: usize> RandomGen<G, OUTPUT> for i8 {
    ghost value = { λ g. signed_number_of w8 (G.requests.bytes g 1) };

    ghost state_after = { λ g. G.requests.after g 1 };

    #[inline]
    fn random(rng: &mut G) -> i8 {
        u8::random(rng).cast_signed()
    }
}

impl<G: Rng<OUTPUT>, const OUTPUT: usize> RandomGen<G, OUTPUT> for i16 {
    ghost value = { λ g. signed_number_of w16 (G.requests.bytes g 2) };

    ghost state_after = { λ g. G.requests.after g 2 };

    #[inline]
    fn random(rng: &mut G) -> i16 {
        u16::random(rng).cast_signed()
    }
}

impl<G: Rng<OUTPUT>, const OUTPUT: usize> RandomGen<G, OUTPUT> for i32 {
    ghost value = { λ g. signed_number_of w32 (G.requests.bytes g 4) };

    ghost state_after = { λ g. G.requests.after g 4 };

    #[inline]
    fn random(rng: &mut G) -> i32 {
        u32::random(rng).cast_signed()
    }
}

impl<G: Rng<OUTPUT>, const OUTPUT: usize> RandomGen<G, OUTPUT> for i64 {
    ghost value = { λ g. signed_number_of w64 (G.requests.bytes g 8) };

    ghost state_after = { λ g. G.requests.after g 8 };

    #[inline]
    fn random(rng: &mut G) -> i64 {
        u64::random(rng).cast_signed()
    }
}

impl<G: Rng<OUTPUT>, const OUTPUT: usize> RandomGen<G, OUTPUT> for i128 {
    ghost value = { λ g. signed_number_of w128 (G.requests.bytes g 16) };

    ghost state_after = { λ g. G.requests.after g 16 };

    #[inline]
    fn random(rng: &mut G) -> i128 {
        u128::random(rng).cast_signed()
    }
}

impl<G: Rng<OUTPUT>, const OUTPUT: usize> RandomGen<G, OUTPUT> for isize {
    ghost value = { λ g. signed_number_of w64 (G.requests.bytes g 8) };

    ghost state_after = { λ g. G.requests.after g 8 };

    #[inline]
    fn random(rng: &mut G) -> isize {
        usize::random(rng).cast_signed()
    }
}
