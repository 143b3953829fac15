//! Ranges of the signed types.
ghost use Rattle.std.specs.Prelude.{◌≡◌};
ghost use Rattle.nanorand_core.specs.values.Draws.{signed_outcome};
ghost use Rattle.nanorand_core.specs.values.RangeLimits.{SignedLimits};

use super::{RandomRange, RangeError, draw_number};
use crate::rand::Rng;
use std::ops::Bound;

impl<G: Rng<OUTPUT>, const OUTPUT: usize> RandomRange<G, OUTPUT> for i8 {
    ghost outcome = { signed_outcome G.requests 8 };

    ghost limits = { SignedLimits G.requests 8 };

    #[inline]
    fn random_range(rng: &mut G, low: Bound<i8>, high: Bound<i8>) -> Result<i8, RangeError>
        ensures value { result ≡ (signed_outcome G.requests 8 rng.old low high).0 }
        ensures state { rng.new ≡ (signed_outcome G.requests 8 rng.old low high).1 }
        ensures limits { SignedLimits G.requests 8 rng.old low high (result, rng.new) }
    {
        draw_number(rng, low, high)
    }
}

impl<G: Rng<OUTPUT>, const OUTPUT: usize> RandomRange<G, OUTPUT> for i16 {
    ghost outcome = { signed_outcome G.requests 16 };

    ghost limits = { SignedLimits G.requests 16 };

    #[inline]
    fn random_range(rng: &mut G, low: Bound<i16>, high: Bound<i16>) -> Result<i16, RangeError>
        ensures value { result ≡ (signed_outcome G.requests 16 rng.old low high).0 }
        ensures state { rng.new ≡ (signed_outcome G.requests 16 rng.old low high).1 }
        ensures limits { SignedLimits G.requests 16 rng.old low high (result, rng.new) }
    {
        draw_number(rng, low, high)
    }
}

impl<G: Rng<OUTPUT>, const OUTPUT: usize> RandomRange<G, OUTPUT> for i32 {
    ghost outcome = { signed_outcome G.requests 32 };

    ghost limits = { SignedLimits G.requests 32 };

    #[inline]
    fn random_range(rng: &mut G, low: Bound<i32>, high: Bound<i32>) -> Result<i32, RangeError>
        ensures value { result ≡ (signed_outcome G.requests 32 rng.old low high).0 }
        ensures state { rng.new ≡ (signed_outcome G.requests 32 rng.old low high).1 }
        ensures limits { SignedLimits G.requests 32 rng.old low high (result, rng.new) }
    {
        draw_number(rng, low, high)
    }
}

impl<G: Rng<OUTPUT>, const OUTPUT: usize> RandomRange<G, OUTPUT> for i64 {
    ghost outcome = { signed_outcome G.requests 64 };

    ghost limits = { SignedLimits G.requests 64 };

    #[inline]
    fn random_range(rng: &mut G, low: Bound<i64>, high: Bound<i64>) -> Result<i64, RangeError>
        ensures value { result ≡ (signed_outcome G.requests 64 rng.old low high).0 }
        ensures state { rng.new ≡ (signed_outcome G.requests 64 rng.old low high).1 }
        ensures limits { SignedLimits G.requests 64 rng.old low high (result, rng.new) }
    {
        draw_number(rng, low, high)
    }
}

impl<G: Rng<OUTPUT>, const OUTPUT: usize> RandomRange<G, OUTPUT> for isize {
    ghost outcome = { signed_outcome G.requests 64 };

    ghost limits = { SignedLimits G.requests 64 };

    #[inline]
    fn random_range(rng: &mut G, low: Bound<isize>, high: Bound<isize>) -> Result<isize, RangeError>
        ensures value { result ≡ (signed_outcome G.requests 64 rng.old low high).0 }
        ensures state { rng.new ≡ (signed_outcome G.requests 64 rng.old low high).1 }
        ensures limits { SignedLimits G.requests 64 rng.old low high (result, rng.new) }
    {
        draw_number(rng, low, high)
    }
}
