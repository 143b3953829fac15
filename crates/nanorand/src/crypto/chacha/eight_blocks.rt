//! The blocks of eight consecutive counters, computed at once on vectors of eight lanes.
ghost use Rattle.std.specs.Prelude.{◌≡◌, ℕ, ◌%◌, ◌<◌, ◌++◌, replicate, slice_index};
ghost use Rattle.std.specs.Fn.{iterate};
ghost use Rattle.nanorand.specs.generators.ChaChaRounds.{block};
ghost use Rattle.nanorand.specs.generators.ChaCha.{next_state, chacha_after};
ghost use Rattle.nanorand.specs.support.ChaChaRows.{lanes, last_lanes, row_of, lane};

use super::four_blocks::FourBlocks;
use super::side_by_side::{Matrices, Row, blocks_of};
use super::state::{counter, high, low};
use super::wide::{EightLanes, joined, woven, woven_pairs};
use std::simd::u32x8;

// Four vectors, each with one word in all of its lanes.
#[inline(always)]
fn splat_row(lanes: EightLanes, a: u32, b: u32, c: u32, d: u32) -> Row<u32x8>
    ensures { result ≡ (replicate 8 a, replicate 8 b, replicate 8 c, replicate 8 d) }
{
    (
        lanes.splat(a),
        lanes.splat(b),
        lanes.splat(c),
        lanes.splat(d),
    )
}

// The given state and the seven that follow it. The counter may wrap around within the eight.
#[inline(always)]
fn eight_states(lanes: EightLanes, x: &[u32; 16]) -> Matrices<u32x8>
    ensures { (j : ℕ) → j < 8 → lane j result ≡ chacha_after j x.now }
{
    let first = counter(x);
    let counters = [
        first,
        first.wrapping_add(1),
        first.wrapping_add(2),
        first.wrapping_add(3),
        first.wrapping_add(4),
        first.wrapping_add(5),
        first.wrapping_add(6),
        first.wrapping_add(7),
    ];
    (
        splat_row(lanes, x[0], x[1], x[2], x[3]),
        splat_row(lanes, x[4], x[5], x[6], x[7]),
        splat_row(lanes, x[8], x[9], x[10], x[11]),
        (
            lanes.vector(counters.map(low)),
            lanes.vector(counters.map(high)),
            lanes.splat(x[14]),
            lanes.splat(x[15]),
        ),
    )
}

// Vector k of the result holds lane k of each of the four vectors, and then lane 4 + k of each.
#[inline(always)]
fn woven_row(row: Row<u32x8>) -> Row<u32x8>
    ensures first { result.0
        ≡ row_of (λ v. slice_index v 0) row ++ row_of (λ v. slice_index v 4) row }
    ensures second { result.1
        ≡ row_of (λ v. slice_index v 1) row ++ row_of (λ v. slice_index v 5) row }
    ensures third { result.2
        ≡ row_of (λ v. slice_index v 2) row ++ row_of (λ v. slice_index v 6) row }
    ensures fourth { result.3
        ≡ row_of (λ v. slice_index v 3) row ++ row_of (λ v. slice_index v 7) row }
{
    let (a, b, c, d) = row;
    let (p, r) = woven(a, b);
    let (q, s) = woven(c, d);
    let (first, second) = woven_pairs(p, q);
    let (third, fourth) = woven_pairs(r, s);
    (first, second, third, fourth)
}

// The words of `a`, and then those of `b`.
#[inline(always)]
fn sixteen_of(a: u32x8, b: u32x8) -> [u32; 16]
    ensures { result ≡ lanes a ++ last_lanes a ++ lanes b ++ last_lanes b }
{
    let [a0, a1, a2, a3, a4, a5, a6, a7] = a.to_array();
    let [b0, b1, b2, b3, b4, b5, b6, b7] = b.to_array();
    [
        a0, a1, a2, a3, a4, a5, a6, a7, b0, b1, b2, b3, b4, b5, b6, b7,
    ]
}

// Each of the four vectors holds a row of one matrix and then the same row of another. Returns the
// two matrices.
#[inline(always)]
fn two_matrices(p: u32x8, q: u32x8, r: u32x8, s: u32x8) -> ([u32; 16], [u32; 16])
    ensures front { result.0 ≡ lanes p ++ lanes q ++ lanes r ++ lanes s }
    ensures back { result.1 ≡ last_lanes p ++ last_lanes q ++ last_lanes r ++ last_lanes s }
{
    let (a, c) = joined(p, q);
    let (b, d) = joined(r, s);
    (sixteen_of(a, b), sixteen_of(c, d))
}

#[inline(always)]
fn eight_matrices(x: Matrices<u32x8>) -> (FourBlocks, FourBlocks)
    ensures front { (result.0.0 ≡ lane 0 x) × (result.0.1 ≡ lane 1 x) × (result.0.2 ≡ lane 2 x)
        × (result.0.3 ≡ lane 3 x) }
    ensures back { (result.1.0 ≡ lane 4 x) × (result.1.1 ≡ lane 5 x) × (result.1.2 ≡ lane 6 x)
        × (result.1.3 ≡ lane 7 x) }
{
    let (p0, p1, p2, p3) = woven_row(x.0);
    let (q0, q1, q2, q3) = woven_row(x.1);
    let (r0, r1, r2, r3) = woven_row(x.2);
    let (s0, s1, s2, s3) = woven_row(x.3);
    let (first, fifth) = two_matrices(p0, q0, r0, s0);
    let (second, sixth) = two_matrices(p1, q1, r1, s1);
    let (third, seventh) = two_matrices(p2, q2, r2, s2);
    let (fourth, eighth) = two_matrices(p3, q3, r3, s3);
    (
        (first, second, third, fourth),
        (fifth, sixth, seventh, eighth),
    )
}

// Returns the block of the given state and those of the seven states that follow it.
#[inline(always)]
pub(crate) fn eight_blocks<const ROUNDS: u8>(
    lanes: EightLanes,
    x: &[u32; 16],
) -> (FourBlocks, FourBlocks)
    requires { ROUNDS % 2 ≡ 0 }
    ensures first { result.0.0 ≡ block ROUNDS (iterate next_state 0 x.now) }
    ensures second { result.0.1 ≡ block ROUNDS (iterate next_state 1 x.now) }
    ensures third { result.0.2 ≡ block ROUNDS (iterate next_state 2 x.now) }
    ensures fourth { result.0.3 ≡ block ROUNDS (iterate next_state 3 x.now) }
    ensures fifth { result.1.0 ≡ block ROUNDS (iterate next_state 4 x.now) }
    ensures sixth { result.1.1 ≡ block ROUNDS (iterate next_state 5 x.now) }
    ensures seventh { result.1.2 ≡ block ROUNDS (iterate next_state 6 x.now) }
    ensures eighth { result.1.3 ≡ block ROUNDS (iterate next_state 7 x.now) }
{
    eight_matrices(blocks_of::<u32x8, ROUNDS>(eight_states(lanes, x)))
}
