//! Adapts a generator of `rand_core` to `nanorand`.
ghost use Rattle.std.specs.Prelude.{refl};
ghost use Rattle.nanorand_rand.specs.Words.{words32, words64};
ghost use Rattle.nanorand_rand.specs.support.WordLemmas.{length-block32, length-block64, delivers32, delivers64, after_nothing32, after_nothing64};
ghost use Rattle.std.proofs.Common.{rules};

use nanorand::{Blocks, Rng};
use rand_core::utils::{NextWord, fill_bytes_via_u32, fill_bytes_via_u64};
use std::alloc::AllocError;
use std::marker::Model;

/// Adapts a generator of `rand_core` that draws words of 32 bits to `nanorand`:
/// `FromCore32(ChaCha20Rng::seed_from_u64(42))`. The generator is the field `0`.
///
/// A block is two words, which are 8 bytes in little-endian order. A request of n bytes takes
/// `ceil(n / 4)` words, and drops the unused bytes of the last word.
///
/// If the words are below 2^32, `generate::<u32>` is the generator's own `next_u32`, and
/// `generate::<u64>` is its own `next_u64`, with the low half first. `fill_bytes` is its own
/// `fill_bytes` (`laws::requests_are_calls_32`).
///
/// The contracts of `rand_core`'s `Rng` state what a generator will return, but not the state that
/// a call leaves, which all contracts of `nanorand` need. So the bound is `NextWord<u32>` of
/// `rand_core`, which states both. The generators of the kit's `rand_chacha`, `Pcg32` of `rand_pcg`
/// and the 32-bit generators of `rand_xoshiro` implement it; `StdRng` and `SmallRng` of `rand` do
/// not. A generator of your own must implement `NextWord<u32>` and `Clone`.
#[derive(Debug, PartialEq, Eq, Drop)]
pub struct FromCore32<R: NextWord<u32>>(pub R);

// The view is the inner generator.
impl<R: NextWord<u32>> Model for FromCore32<R> {
    ghost Value = { R };

    ghost coded = { R.code };

    ghost view = { λ wrapped. wrapped.0 };

    ghost inverse = { λ r. record { 0 = r } };
}

/// The clone wraps a clone of the inner generator. It fails if that clone fails.
impl<R: NextWord<u32> + Clone> Clone for FromCore32<R> {
    ghost is_clone = { R.is_clone };

    ghost is_infallible = { R.is_infallible };

    #[inline]
    fn clone(&self) -> Result<Self, AllocError> {
        Ok(FromCore32(self.0.clone()?))
    }
}

impl<R: NextWord<u32> + Clone> Blocks<8> for FromCore32<R> {
    ghost block = { λ r. (words32 R.step).bytes r 8 };

    ghost step = { λ r. (words32 R.step).after r 8 };

    #[inline]
    fn rand(&mut self) -> [u8; 8] {
        let mut block = [0; 8];
        fill_bytes_via_u32(&mut self.0, &mut block);
        block
    }

    ghost positive = { Prim.search rules };

    ghost in_memory = { Prim.search rules };

    ghost block_length = { length-block32 R.step };
}

impl<R: NextWord<u32> + Clone> Rng<8> for FromCore32<R> {
    ghost requests = { words32 R.step };

    #[inline]
    fn fill_bytes(&mut self, buffer: &mut [u8]) {
        fill_bytes_via_u32(&mut self.0, buffer);
    }

    ghost delivers = { delivers32 R.step };

    ghost after_nothing = { after_nothing32 R.step };

    ghost after_block = { λ _. refl };
}

/// Adapts a generator of `rand_core` that draws words of 64 bits to `nanorand`:
/// `FromCore64(rand_pcg::Pcg64::new(42, 54))`. The generator is the field `0`.
///
/// A block is one word, which is 8 bytes in little-endian order. A request of n bytes takes `ceil(n
/// / 8)` words, and drops the unused bytes of the last word.
///
/// If the word is below 2^64, `generate::<u64>` is the generator's own `next_u64`. `fill_bytes` is
/// the generator's own `fill_bytes`. `generate::<u32>` is the low half of a word, whereas
/// `next_u32` of some generators is the high half (`laws::requests_are_calls_64`).
///
/// The bound is `NextWord<u64>` of `rand_core`, for the same reason as in `FromCore32`. `Pcg64` of
/// the kit's `rand_pcg` and the 64-bit generators of `rand_xoshiro` implement it.
#[derive(Debug, PartialEq, Eq, Drop)]
pub struct FromCore64<R: NextWord<u64>>(pub R);

// The view is the inner generator.
impl<R: NextWord<u64>> Model for FromCore64<R> {
    ghost Value = { R };

    ghost coded = { R.code };

    ghost view = { λ wrapped. wrapped.0 };

    ghost inverse = { λ r. record { 0 = r } };
}

/// The clone wraps a clone of the inner generator. It fails if that clone fails.
impl<R: NextWord<u64> + Clone> Clone for FromCore64<R> {
    ghost is_clone = { R.is_clone };

    ghost is_infallible = { R.is_infallible };

    #[inline]
    fn clone(&self) -> Result<Self, AllocError> {
        Ok(FromCore64(self.0.clone()?))
    }
}

impl<R: NextWord<u64> + Clone> Blocks<8> for FromCore64<R> {
    ghost block = { λ r. (words64 R.step).bytes r 8 };

    ghost step = { λ r. (words64 R.step).after r 8 };

    #[inline]
    fn rand(&mut self) -> [u8; 8] {
        let mut block = [0; 8];
        fill_bytes_via_u64(&mut self.0, &mut block);
        block
    }

    ghost positive = { Prim.search rules };

    ghost in_memory = { Prim.search rules };

    ghost block_length = { length-block64 R.step };
}

impl<R: NextWord<u64> + Clone> Rng<8> for FromCore64<R> {
    ghost requests = { words64 R.step };

    #[inline]
    fn fill_bytes(&mut self, buffer: &mut [u8]) {
        fill_bytes_via_u64(&mut self.0, buffer);
    }

    ghost delivers = { delivers64 R.step };

    ghost after_nothing = { after_nothing64 R.step };

    ghost after_block = { λ _. refl };
}
