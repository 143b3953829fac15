//! The rounds on several matrices at once: sixteen vectors, one for each word, with one lane for
//! each matrix.
ghost use Rattle.std.specs.Prelude.{◌≡◌, ℕ, ◌%◌, ◌<◌};
ghost use Rattle.std.specs.Simd.Lanes.{zip2};
ghost use Rattle.nanorand.specs.generators.ChaChaRounds.{add, quarter_round, on_columns, on_diagonals, rounds, block};
ghost use Rattle.nanorand.specs.support.ChaChaRows.{row_of, matrix_of};

use super::vectors::Vector;

pub(crate) type Row<V> = (V, V, V, V);

// The sixteen vectors, as four rows. Lane j of all vectors together is matrix j.
pub(crate) type Matrices<V> = (Row<V>, Row<V>, Row<V>, Row<V>);

#[inline(always)]
pub(crate) fn quarter_round<V: Vector>(a: V, b: V, c: V, d: V) -> Row<V>
    ensures { (j : ℕ) → j < V.width
        → (V.lane j result.0, V.lane j result.1, V.lane j result.2, V.lane j result.3)
        ≡ quarter_round (V.lane j a, V.lane j b, V.lane j c, V.lane j d) }
{
    let a1 = a.add(b);
    let d1 = d.xor_rotate(a1, 16);
    let c1 = c.add(d1);
    let b1 = b.xor_rotate(c1, 12);
    let a2 = a1.add(b1);
    let d2 = d1.xor_rotate(a2, 8);
    let c2 = c1.add(d2);
    let b2 = b1.xor_rotate(c2, 7);
    (a2, b2, c2, d2)
}

#[inline(always)]
fn mix_columns<V: Vector>(x: Matrices<V>) -> Matrices<V>
    ensures { (j : ℕ) → j < V.width
        → matrix_of (V.lane j) result ≡ on_columns quarter_round (matrix_of (V.lane j) x) }
{
    let ((x0, x1, x2, x3), (x4, x5, x6, x7), (x8, x9, x10, x11), (x12, x13, x14, x15)) = x;
    let (x0, x4, x8, x12) = quarter_round(x0, x4, x8, x12);
    let (x1, x5, x9, x13) = quarter_round(x1, x5, x9, x13);
    let (x2, x6, x10, x14) = quarter_round(x2, x6, x10, x14);
    let (x3, x7, x11, x15) = quarter_round(x3, x7, x11, x15);
    (
        (x0, x1, x2, x3),
        (x4, x5, x6, x7),
        (x8, x9, x10, x11),
        (x12, x13, x14, x15),
    )
}

#[inline(always)]
fn mix_diagonals<V: Vector>(x: Matrices<V>) -> Matrices<V>
    ensures { (j : ℕ) → j < V.width
        → matrix_of (V.lane j) result ≡ on_diagonals quarter_round (matrix_of (V.lane j) x) }
{
    let ((x0, x1, x2, x3), (x4, x5, x6, x7), (x8, x9, x10, x11), (x12, x13, x14, x15)) = x;
    let (x0, x5, x10, x15) = quarter_round(x0, x5, x10, x15);
    let (x1, x6, x11, x12) = quarter_round(x1, x6, x11, x12);
    let (x2, x7, x8, x13) = quarter_round(x2, x7, x8, x13);
    let (x3, x4, x9, x14) = quarter_round(x3, x4, x9, x14);
    (
        (x0, x1, x2, x3),
        (x4, x5, x6, x7),
        (x8, x9, x10, x11),
        (x12, x13, x14, x15),
    )
}

#[inline(always)]
fn mix<V: Vector, const ROUNDS: u8>(x: Matrices<V>) -> Matrices<V>
    requires { ROUNDS % 2 ≡ 0 }
    ensures { (j : ℕ) → j < V.width
        → matrix_of (V.lane j) result ≡ rounds ROUNDS (matrix_of (V.lane j) x) }
{
    let mut mixed = x;
    'pairs: for _pair in 0..ROUNDS / 2 {
        mixed = mix_diagonals(mix_columns(mixed));
    }
    mixed
}

#[inline(always)]
fn sum_row<V: Vector>(x: Row<V>, y: Row<V>) -> Row<V>
    ensures { (j : ℕ) → j < V.width
        → row_of (V.lane j) result ≡ zip2 add (row_of (V.lane j) x) (row_of (V.lane j) y) }
{
    (x.0.add(y.0), x.1.add(y.1), x.2.add(y.2), x.3.add(y.3))
}

// Returns the block of each matrix.
#[inline(always)]
pub(crate) fn blocks_of<V: Vector, const ROUNDS: u8>(x: Matrices<V>) -> Matrices<V>
    requires { ROUNDS % 2 ≡ 0 }
    ensures { (j : ℕ) → j < V.width
        → matrix_of (V.lane j) result ≡ block ROUNDS (matrix_of (V.lane j) x) }
{
    let mixed = mix::<V, ROUNDS>(x);
    (
        sum_row(mixed.0, x.0),
        sum_row(mixed.1, x.1),
        sum_row(mixed.2, x.2),
        sum_row(mixed.3, x.3),
    )
}
