//! The blocks of four consecutive counters, computed at once on vectors of four lanes.
ghost use Rattle.std.specs.Prelude.{◌≡◌, ℕ, ◌%◌, ◌<◌, [], slice_index, slice_index_or};
ghost use Rattle.std.specs.Fn.{iterate};
ghost use Rattle.nanorand.specs.generators.ChaChaRounds.{block};
ghost use Rattle.nanorand.specs.generators.ChaCha.{next_state, chacha_after};
ghost use Rattle.nanorand.specs.support.ChaChaRows.{lanes, row_of, lane};

use super::lanes::{Rows, matrix_of};
use super::side_by_side::{Matrices, Row, blocks_of};
use super::state::{counter, high, low};
use std::simd::u32x4;

pub(crate) type FourBlocks = ([u32; 16], [u32; 16], [u32; 16], [u32; 16]);

// The given state and the three that follow it. The counter may wrap around within the four.
#[inline(always)]
fn four_states(x: &[u32; 16]) -> Matrices<u32x4>
    ensures { (j : ℕ) → j < 4 → lane j result ≡ chacha_after j x.now }
{
    let first = counter(x);
    let second = first.wrapping_add(1);
    let third = first.wrapping_add(2);
    let fourth = first.wrapping_add(3);
    (
        (
            u32x4::splat(x[0]),
            u32x4::splat(x[1]),
            u32x4::splat(x[2]),
            u32x4::splat(x[3]),
        ),
        (
            u32x4::splat(x[4]),
            u32x4::splat(x[5]),
            u32x4::splat(x[6]),
            u32x4::splat(x[7]),
        ),
        (
            u32x4::splat(x[8]),
            u32x4::splat(x[9]),
            u32x4::splat(x[10]),
            u32x4::splat(x[11]),
        ),
        (
            u32x4::from_array([low(first), low(second), low(third), low(fourth)]),
            u32x4::from_array([high(first), high(second), high(third), high(fourth)]),
            u32x4::splat(x[14]),
            u32x4::splat(x[15]),
        ),
    )
}

// Vector j of the result holds lane j of each of the four vectors.
#[inline(always)]
fn transposed(row: Row<u32x4>) -> Rows
    ensures { (j : ℕ) → j < 4 → lanes (slice_index_or result j [])
        ≡ row_of (λ v. slice_index v j) row }
{
    let (a, b, c, d) = row;
    let [a0, a1, a2, a3] = a.to_array();
    let [b0, b1, b2, b3] = b.to_array();
    let [c0, c1, c2, c3] = c.to_array();
    let [d0, d1, d2, d3] = d.to_array();
    [
        u32x4::from_array([a0, b0, c0, d0]),
        u32x4::from_array([a1, b1, c1, d1]),
        u32x4::from_array([a2, b2, c2, d2]),
        u32x4::from_array([a3, b3, c3, d3]),
    ]
}

#[inline(always)]
fn matrices(x: Matrices<u32x4>) -> FourBlocks
    ensures { (result.0 ≡ lane 0 x) × (result.1 ≡ lane 1 x) × (result.2 ≡ lane 2 x)
        × (result.3 ≡ lane 3 x) }
{
    let [a0, a1, a2, a3] = transposed(x.0);
    let [b0, b1, b2, b3] = transposed(x.1);
    let [c0, c1, c2, c3] = transposed(x.2);
    let [d0, d1, d2, d3] = transposed(x.3);
    (
        matrix_of([a0, b0, c0, d0]),
        matrix_of([a1, b1, c1, d1]),
        matrix_of([a2, b2, c2, d2]),
        matrix_of([a3, b3, c3, d3]),
    )
}

// Returns the block of the given state and those of the three states that follow it.
#[inline(always)]
pub(crate) fn four_blocks<const ROUNDS: u8>(x: &[u32; 16]) -> FourBlocks
    requires { ROUNDS % 2 ≡ 0 }
    ensures first { result.0 ≡ block ROUNDS (iterate next_state 0 x.now) }
    ensures second { result.1 ≡ block ROUNDS (iterate next_state 1 x.now) }
    ensures third { result.2 ≡ block ROUNDS (iterate next_state 2 x.now) }
    ensures fourth { result.3 ≡ block ROUNDS (iterate next_state 3 x.now) }
{
    matrices(blocks_of::<u32x4, ROUNDS>(four_states(x)))
}
