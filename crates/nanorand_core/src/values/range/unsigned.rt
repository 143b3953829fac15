//! Ranges of the unsigned types.
ghost use Rattle.std.specs.Prelude.{◌≡◌};
ghost use Rattle.nanorand_core.specs.values.Draws.{unsigned_outcome};
ghost use Rattle.nanorand_core.specs.values.RangeLimits.{UnsignedLimits};

use super::{RandomRange, RangeError, draw_number};
use crate::rand::Rng;
use std::ops::Bound;

impl<G: Rng<OUTPUT>, const OUTPUT: usize> RandomRange<G, OUTPUT> for u8 {
    ghost outcome = { unsigned_outcome G.requests 8 };

    ghost limits = { UnsignedLimits G.requests 8 };

    #[inline]
    fn random_range(rng: &mut G, low: Bound<u8>, high: Bound<u8>) -> Result<u8, RangeError>
        ensures value { result ≡ (unsigned_outcome G.requests 8 rng.old low high).0 }
        ensures state { rng.new ≡ (unsigned_outcome G.requests 8 rng.old low high).1 }
        ensures limits { UnsignedLimits G.requests 8 rng.old low high (result, rng.new) }
    {
        draw_number(rng, low, high)
    }
}

impl<G: Rng<OUTPUT>, const OUTPUT: usize> RandomRange<G, OUTPUT> for u16 {
    ghost outcome = { unsigned_outcome G.requests 16 };

    ghost limits = { UnsignedLimits G.requests 16 };

    #[inline]
    fn random_range(rng: &mut G, low: Bound<u16>, high: Bound<u16>) -> Result<u16, RangeError>
        ensures value { result ≡ (unsigned_outcome G.requests 16 rng.old low high).0 }
        ensures state { rng.new ≡ (unsigned_outcome G.requests 16 rng.old low high).1 }
        ensures limits { UnsignedLimits G.requests 16 rng.old low high (result, rng.new) }
    {
        draw_number(rng, low, high)
    }
}

impl<G: Rng<OUTPUT>, const OUTPUT: usize> RandomRange<G, OUTPUT> for u32 {
    ghost outcome = { unsigned_outcome G.requests 32 };

    ghost limits = { UnsignedLimits G.requests 32 };

    #[inline]
    fn random_range(rng: &mut G, low: Bound<u32>, high: Bound<u32>) -> Result<u32, RangeError>
        ensures value { result ≡ (unsigned_outcome G.requests 32 rng.old low high).0 }
        ensures state { rng.new ≡ (unsigned_outcome G.requests 32 rng.old low high).1 }
        ensures limits { UnsignedLimits G.requests 32 rng.old low high (result, rng.new) }
    {
        draw_number(rng, low, high)
    }
}

impl<G: Rng<OUTPUT>, const OUTPUT: usize> RandomRange<G, OUTPUT> for u64 {
    ghost outcome = { unsigned_outcome G.requests 64 };

    ghost limits = { UnsignedLimits G.requests 64 };

    #[inline]
    fn random_range(rng: &mut G, low: Bound<u64>, high: Bound<u64>) -> Result<u64, RangeError>
        ensures value { result ≡ (unsigned_outcome G.requests 64 rng.old low high).0 }
        ensures state { rng.new ≡ (unsigned_outcome G.requests 64 rng.old low high).1 }
        ensures limits { UnsignedLimits G.requests 64 rng.old low high (result, rng.new) }
    {
        draw_number(rng, low, high)
    }
}

impl<G: Rng<OUTPUT>, const OUTPUT: usize> RandomRange<G, OUTPUT> for usize {
    ghost outcome = { unsigned_outcome G.requests 64 };

    ghost limits = { UnsignedLimits G.requests 64 };

    #[inline]
    fn random_range(rng: &mut G, low: Bound<usize>, high: Bound<usize>) -> Result<usize, RangeError>
        ensures value { result ≡ (unsigned_outcome G.requests 64 rng.old low high).0 }
        ensures state { rng.new ≡ (unsigned_outcome G.requests 64 rng.old low high).1 }
        ensures limits { UnsignedLimits G.requests 64 rng.old low high (result, rng.new) }
    {
        draw_number(rng, low, high)
    }
}
