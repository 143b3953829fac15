//! The rounds of ChaCha and its block function.
ghost use Rattle.std.specs.Prelude.{◌≡◌, ◌%◌};
ghost use Rattle.nanorand.specs.generators.ChaChaRounds.{rounds, block};

use super::lanes::{matrix_of, mix, rows_of};
use super::vectors::Vector;

/// Returns the matrix after `ROUNDS` rounds, without the final addition of the input.
///
/// A double round is one round on the columns and then one on the diagonals. Precondition: `ROUNDS`
/// is even.
pub fn chacha_rounds<const ROUNDS: u8>(input: [u32; 16]) -> [u32; 16]
    requires { ROUNDS % 2 ≡ 0 }
    ensures { result ≡ rounds ROUNDS input }
{
    matrix_of(mix::<ROUNDS>(rows_of(&input)))
}

/// Returns the block of a state: the matrix after the rounds plus the input, word by word, modulo
/// 2^32.
///
/// With 0 rounds the block is the input plus itself. Precondition: `ROUNDS` is even.
pub fn chacha_block<const ROUNDS: u8>(input: [u32; 16]) -> [u32; 16]
    requires { ROUNDS % 2 ≡ 0 }
    ensures { result ≡ block ROUNDS input }
{
    let rows = rows_of(&input);
    let [a, b, c, d] = rows;
    let [p, q, r, s] = mix::<ROUNDS>(rows);
    matrix_of([p.add(a), q.add(b), r.add(c), s.add(d)])
}
