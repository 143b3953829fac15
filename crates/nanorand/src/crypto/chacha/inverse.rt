//! The inverse of the rounds, computed in place.
ghost use Rattle.std.specs.Prelude.{◌≡◌, ℕ, ◌%◌, ◌<◌, List};
ghost use Rattle.nanorand.specs.generators.ChaChaRounds.{quarter_round, on_columns, on_diagonals, rounds, IsMatrix};
ghost use Rattle.nanorand.specs.support.ChaChaInverse.{unquarter_round};
ghost use Rattle.nanorand.specs.support.ChaChaLines.{with_line};

/// Returns the matrix that the rounds turn into `output`. There is exactly one: this function is
/// the inverse of `chacha_rounds`.
///
/// Precondition: `ROUNDS` is even.
pub fn chacha_unrounds<const ROUNDS: u8>(output: [u32; 16]) -> [u32; 16]
    requires { ROUNDS % 2 ≡ 0 }
    ensures undone { rounds ROUNDS result ≡ output }
    ensures only { (x : List ℕ) → IsMatrix x → rounds ROUNDS x ≡ output → result ≡ x }
{
    unmix::<ROUNDS>(output)
}

// Undoes the double rounds, the last one first.
#[inline(always)]
fn unmix<const ROUNDS: u8>(output: [u32; 16]) -> [u32; 16]
    requires { ROUNDS % 2 ≡ 0 }
    ensures { rounds ROUNDS result ≡ output }
{
    let mut x = output;
    'pairs: for _pair in 0..ROUNDS / 2 {
        unmix_diagonals(&mut x);
        unmix_columns(&mut x);
    }
    x
}

#[inline(always)]
fn unmix_columns(x: &mut [u32; 16])
    ensures { on_columns quarter_round x.new ≡ x.old }
{
    unmix_line(x, 0, 4, 8, 12);
    unmix_line(x, 1, 5, 9, 13);
    unmix_line(x, 2, 6, 10, 14);
    unmix_line(x, 3, 7, 11, 15);
}

#[inline(always)]
fn unmix_diagonals(x: &mut [u32; 16])
    ensures { on_diagonals quarter_round x.new ≡ x.old }
{
    unmix_line(x, 0, 5, 10, 15);
    unmix_line(x, 1, 6, 11, 12);
    unmix_line(x, 2, 7, 8, 13);
    unmix_line(x, 3, 4, 9, 14);
}

// Undoes the quarter round of one column or one diagonal.
#[inline(always)]
fn unmix_line(x: &mut [u32; 16], a: usize, b: usize, c: usize, d: usize)
    requires { (a < 16) × (b < 16) × (c < 16) × (d < 16) }
    ensures { x.new ≡ with_line unquarter_round x.old a b c d }
{
    let (p, q, r, s) = unquarter_round(x[a], x[b], x[c], x[d]);
    x[a] = p;
    x[b] = q;
    x[c] = r;
    x[d] = s;
}

// Undoes the steps of the quarter round, the last one first.
#[inline(always)]
fn unquarter_round(a: u32, b: u32, c: u32, d: u32) -> (u32, u32, u32, u32)
    ensures { result ≡ unquarter_round (a, b, c, d) }
{
    let b = b.rotate_right(7) ^ c;
    let c = c.wrapping_sub(d);
    let d = d.rotate_right(8) ^ a;
    let a = a.wrapping_sub(b);
    let b = b.rotate_right(12) ^ c;
    let c = c.wrapping_sub(d);
    let d = d.rotate_right(16) ^ a;
    let a = a.wrapping_sub(b);
    (a, b, c, d)
}
