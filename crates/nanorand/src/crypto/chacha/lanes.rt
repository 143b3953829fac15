//! The rounds on four vectors of four lanes, one vector for each row of the matrix.
ghost use Rattle.std.specs.Prelude.{◌≡◌, ℕ, ◌+◌, ◌%◌, ◌<◌, slice_index};
ghost use Rattle.nanorand.specs.generators.ChaChaRounds.{quarter_round, on_columns, on_diagonals, rounds};
ghost use Rattle.nanorand.specs.support.ChaChaRows.{matrix};

use super::side_by_side::quarter_round;
use std::simd::u32x4;

pub(crate) type Rows = [u32x4; 4];

#[inline(always)]
pub(crate) fn mix<const ROUNDS: u8>(rows: Rows) -> Rows
    requires { ROUNDS % 2 ≡ 0 }
    ensures { matrix result ≡ rounds ROUNDS (matrix rows) }
{
    let mut mixed = rows;
    'pairs: for _pair in 0..ROUNDS / 2 {
        mixed = mix_diagonals(mix_columns(mixed));
    }
    mixed
}

// A lane is a column, so this mixes all four columns at once.
#[inline(always)]
fn mix_columns(rows: Rows) -> Rows
    ensures { matrix result ≡ on_columns quarter_round (matrix rows) }
{
    let [a, b, c, d] = rows;
    let (a, b, c, d) = quarter_round(a, b, c, d);
    [a, b, c, d]
}

// Rotates row r by r lanes, which turns each diagonal into a column, and rotates it back after the
// mixing.
#[inline(always)]
fn mix_diagonals(rows: Rows) -> Rows
    ensures { matrix result ≡ on_diagonals quarter_round (matrix rows) }
{
    let [a, b, c, d] = rows;
    let [a, b, c, d] = mix_columns([a, from_lane(1, b), from_lane(2, c), from_lane(3, d)]);
    let b = from_lane(3, b);
    let c = from_lane(2, c);
    let d = from_lane(1, d);
    [a, b, c, d]
}

// Returns the row rotated so that lane `n` comes first.
#[inline(always)]
fn from_lane(n: usize, row: u32x4) -> u32x4
    requires { n < 4 }
    ensures { (j : ℕ) → j < 4 → slice_index result j ≡ slice_index row ((n + j) % 4) }
{
    let lanes = row.to_array();
    u32x4::from_array([
        lanes[n],
        lanes[(n + 1) % 4],
        lanes[(n + 2) % 4],
        lanes[(n + 3) % 4],
    ])
}

#[inline(always)]
pub(crate) fn rows_of(x: &[u32; 16]) -> Rows
    ensures { matrix result ≡ x.now }
{
    [
        u32x4::from_array([x[0], x[1], x[2], x[3]]),
        u32x4::from_array([x[4], x[5], x[6], x[7]]),
        u32x4::from_array([x[8], x[9], x[10], x[11]]),
        u32x4::from_array([x[12], x[13], x[14], x[15]]),
    ]
}

#[inline(always)]
pub(crate) fn matrix_of(rows: Rows) -> [u32; 16]
    ensures { result ≡ matrix rows }
{
    let [a, b, c, d] = rows;
    let [a0, a1, a2, a3] = a.to_array();
    let [b0, b1, b2, b3] = b.to_array();
    let [c0, c1, c2, c3] = c.to_array();
    let [d0, d1, d2, d3] = d.to_array();
    [
        a0, a1, a2, a3, b0, b1, b2, b3, c0, c1, c2, c3, d0, d1, d2, d3,
    ]
}
