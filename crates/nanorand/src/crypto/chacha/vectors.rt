//! Vectors of 32-bit words: the operations that the rounds need, and their implementation on four
//! lanes.
ghost use Rattle.std.specs.Prelude.{◌≡◌, ℕ, ◌<◌, slice_index};
ghost use Rattle.nanorand.specs.generators.ChaChaRounds.{add, xor_rotate};

use std::simd::u32x4;

// The operations of the rounds on a vector. Each applies to all lanes alike.
pub(crate) trait Vector: Copy {
    ghost width: { ℕ };

    // The word in lane j.
    ghost lane: { ℕ → Self → ℕ };

    // Adds lane by lane, modulo 2^32.
    fn add(self, other: Self) -> Self
        ensures { (j : ℕ) → j < width → lane j result ≡ add (lane j self) (lane j other) };

    // Computes the xor of each lane with that of `other`, and rotates it left by `n` bits.
    fn xor_rotate(self, other: Self, n: u32) -> Self
        requires { (0 < n) × (n < 32) }
        ensures { (j : ℕ) → j < width
            → lane j result ≡ xor_rotate (lane j self) (lane j other) n };
}

impl Vector for u32x4 {
    ghost width = { 4 };

    ghost lane = { λ j v. slice_index v j };

    #[inline(always)]
    fn add(self, other: Self) -> Self {
        self + other
    }

    #[inline(always)]
    fn xor_rotate(self, other: Self, n: u32) -> Self {
        let x = self ^ other;
        (x << u32x4::splat(n)) | (x >> u32x4::splat(32 - n))
    }
}
