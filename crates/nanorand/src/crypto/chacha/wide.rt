//! Vectors of eight lanes.
ghost use Rattle.std.specs.Prelude.{◌≡◌, ℕ, ◌<◌, [], ◌∷◌, ◌++◌, length, replicate, slice_index};
ghost use Rattle.nanorand.specs.support.ChaChaRows.{lanes, last_lanes};

use super::vectors::Vector;
use std::simd::u32x8;

// A token that allows computing on eight lanes. Its methods make vectors from words.
#[derive(Clone, Copy, Drop)]
pub(crate) struct EightLanes;

impl EightLanes {
    // Returns the token if eight lanes are faster than four. The blocks are the same in either
    // case. Here it always returns `None`.
    #[inline]
    pub(crate) fn find() -> Option<EightLanes> {
        None
    }

    #[inline(always)]
    pub(crate) fn splat(self, word: u32) -> u32x8
        ensures { result ≡ replicate 8 word }
    {
        u32x8::splat(word)
    }

    #[inline(always)]
    pub(crate) fn vector(self, words: [u32; 8]) -> u32x8
        ensures { result ≡ words }
    {
        u32x8::from_array(words)
    }
}

// A generator that can compute eight blocks at once, on eight lanes.
pub(crate) trait Wide {
    // Writes the next eight blocks to the slice.
    fn fill_eight(&mut self, lanes: EightLanes, out: &mut [u8])
        requires { length out.old ≡ 512 };

    // Returns the next eight blocks.
    fn next_eight(&mut self, lanes: EightLanes) -> [u8; 512];
}

impl Vector for u32x8 {
    ghost width = { 8 };

    ghost lane = { λ j v. slice_index v j };

    #[inline(always)]
    fn add(self, other: Self) -> Self {
        self + other
    }

    #[inline(always)]
    fn xor_rotate(self, other: Self, n: u32) -> Self {
        let x = self ^ other;
        (x << u32x8::splat(n)) | (x >> u32x8::splat(32 - n))
    }
}

// Interleaves the words of two vectors: first the words of lanes 0, 1, 4 and 5, then the words of
// the other lanes.
#[inline(always)]
pub(crate) fn woven(a: u32x8, b: u32x8) -> (u32x8, u32x8)
    ensures front { result.0
        ≡ slice_index a 0 ∷ slice_index b 0 ∷ slice_index a 1 ∷ slice_index b 1
        ∷ slice_index a 4 ∷ slice_index b 4 ∷ slice_index a 5 ∷ slice_index b 5 ∷ [] }
    ensures back { result.1
        ≡ slice_index a 2 ∷ slice_index b 2 ∷ slice_index a 3 ∷ slice_index b 3
        ∷ slice_index a 6 ∷ slice_index b 6 ∷ slice_index a 7 ∷ slice_index b 7 ∷ [] }
{
    let [a0, a1, a2, a3, a4, a5, a6, a7] = a.to_array();
    let [b0, b1, b2, b3, b4, b5, b6, b7] = b.to_array();
    (
        u32x8::from_array([a0, b0, a1, b1, a4, b4, a5, b5]),
        u32x8::from_array([a2, b2, a3, b3, a6, b6, a7, b7]),
    )
}

// Does the same with pairs of words in place of words.
#[inline(always)]
pub(crate) fn woven_pairs(a: u32x8, b: u32x8) -> (u32x8, u32x8)
    ensures front { result.0
        ≡ slice_index a 0 ∷ slice_index a 1 ∷ slice_index b 0 ∷ slice_index b 1
        ∷ slice_index a 4 ∷ slice_index a 5 ∷ slice_index b 4 ∷ slice_index b 5 ∷ [] }
    ensures back { result.1
        ≡ slice_index a 2 ∷ slice_index a 3 ∷ slice_index b 2 ∷ slice_index b 3
        ∷ slice_index a 6 ∷ slice_index a 7 ∷ slice_index b 6 ∷ slice_index b 7 ∷ [] }
{
    let [a0, a1, a2, a3, a4, a5, a6, a7] = a.to_array();
    let [b0, b1, b2, b3, b4, b5, b6, b7] = b.to_array();
    (
        u32x8::from_array([a0, a1, b0, b1, a4, a5, b4, b5]),
        u32x8::from_array([a2, a3, b2, b3, a6, a7, b6, b7]),
    )
}

// Returns the first halves of both vectors, and then their second halves.
#[inline(always)]
pub(crate) fn joined(a: u32x8, b: u32x8) -> (u32x8, u32x8)
    ensures front { result.0 ≡ lanes a ++ lanes b }
    ensures back { result.1 ≡ last_lanes a ++ last_lanes b }
{
    let [a0, a1, a2, a3, a4, a5, a6, a7] = a.to_array();
    let [b0, b1, b2, b3, b4, b5, b6, b7] = b.to_array();
    (
        u32x8::from_array([a0, a1, a2, a3, b0, b1, b2, b3]),
        u32x8::from_array([a4, a5, a6, a7, b4, b5, b6, b7]),
    )
}
