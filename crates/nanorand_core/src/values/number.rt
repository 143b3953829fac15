//! The integer types that have ranges.
ghost use Rattle.std.specs.Prelude.{◌≡◌, ℕ, Bool, ◌^◌, ◌<◌, nat_le, nat_lt};
ghost use Rattle.std.specs.declared.ops.Bound.{Bound};
ghost use Rattle.nanorand_core.specs.values.Range.{Admits, IfBound, IsNumber};
ghost use Rattle.nanorand_core.specs.values.Runs.{IsWordWidth};

mod signed;
mod unsigned;

/// An integer type of `BITS` bits: 8, 16, 32 or 64.
///
/// Each number has a rank, from 0 for the least number to 2^BITS - 1 for the greatest. For a type
/// of your own you choose the order of the ranks: it is not compared with the type's `<`.
pub trait Number: Copy + Drop {
    /// The width of the type, in bits.
    const BITS: u32;

    ghost BITS: { ℕ };

    // The number of a rank.
    ghost number: { ℕ → Self };

    // The rank of a number.
    ghost rank: { Self → ℕ };

    ghost le: { Self → Self → Bool };

    ghost lt: { Self → Self → Bool };

    // The two bounds admit a number.
    ghost has_number: { Bound Self → Bound Self → Type 0 };

    /// Returns the rank of a number.
    fn place(self) -> u64
        ensures number { number result ≡ self }
        ensures fits { result < 2 ^ BITS };

    /// Returns the number of a rank. Precondition: the rank is below 2^BITS.
    fn at_place(place: u64) -> Self
        requires { place < 2 ^ BITS }
        ensures { result ≡ number place };

    ghost width: { IsWordWidth BITS };

    ghost ranked: { (k : ℕ) → k < 2 ^ BITS → rank (number k) ≡ k };

    // The order of the numbers is the order of their ranks.
    ghost le_rises: { (j k : ℕ) → le (number j) (number k) ≡ nat_le j k };

    ghost lt_rises: { (j k : ℕ) → lt (number j) (number k) ≡ nat_lt j k };

    // Let the two bounds be numbers of the type. If they admit a number, then a number of rank
    // below 2^BITS lies within both (`has_place`). The converse holds too (`knows_place`).
    ghost has_place: { (low high : Bound Self)
        → IfBound low (IsNumber BITS number) → IfBound high (IsNumber BITS number)
        → has_number low high → (k : ℕ) × (k < 2 ^ BITS) × Admits le lt low high (number k) };

    ghost knows_place: { (low high : Bound Self) (k : ℕ) → k < 2 ^ BITS
        → Admits le lt low high (number k) → has_number low high };
}
