//! Numbers within two bounds.
ghost use Rattle.std.specs.Prelude.{◌≡◌, ℕ, ◌^◌, ◌<◌, ◌≤◌, true, Result, Err, IfOk, IfErr, IsOk, length, nat_le, nat_lt};
ghost use Rattle.std.specs.declared.ops.Bound.{Bound};
ghost use Rattle.nanorand_core.specs.values.Range.{end_rank, first_rank, is_above, is_below, range_size, range_within, Admits, IfBound, IsNumber};
ghost use Rattle.nanorand_core.specs.values.Runs.{rejected};
ghost use Rattle.nanorand_core.specs.values.Draws.{word_limit, after_limit, after_word, after_words, range_outcome};
ghost use Rattle.nanorand_core.specs.declared.values.range.RangeError.{RangeError};
ghost use Rattle.nanorand_core.specs.declared.values.range.RangeError.TheVariants.{Empty, Exhausted};

mod signed;
mod unsigned;

use crate::rand::Rng;
use crate::values::RandomGen;
use crate::values::number::Number;
use crate::values::word::draw_below;
use std::ops::Bound;
use thiserror::Error;

/// The reasons why a draw from a range, a slice, a ratio or a sample returned nothing. The meanings
/// given here are those of the integer types; a type of your own defines when it returns each
/// error.
#[derive(Clone, Copy, Debug, PartialEq, Eq, Error)]
pub enum RangeError {
    /// The range or the slice is empty, or the denominator of a ratio is 0. Nothing was drawn.
    #[error("there is nothing to draw from")]
    Empty,
    /// 128 words (random integers of the type's width) were drawn, and all were rejected. They stay
    /// consumed.
    #[error("128 words in a row were rejected")]
    Exhausted,
}

/// A type whose values can be drawn within two bounds: the integer types of 8 to 64 bits, `usize`
/// and `isize`. `u128` and `i128` have no ranges, since a word has at most 64 bits.
///
/// A word is a random integer of the type's width (64 bits for `usize` and `isize`), read by one
/// request. At most 128 words are drawn, and the first that is not rejected decides. Each number
/// within both bounds is produced by the same number of words. A type of your own defines what its
/// bounds mean and when a draw fails.
pub trait RandomRange<G: Rng<OUTPUT>, const OUTPUT: usize>: RandomGen<G, OUTPUT> {
    // The result of a draw between two bounds, and the state after it.
    ghost outcome: { G → Bound Self → Bound Self → Result Self RangeError × G };

    // What the outcome of every call is guaranteed to satisfy. A type of your own guarantees
    // nothing here unless it defines this.
    ghost limits: { G → Bound Self → Bound Self
        → Result Self RangeError × G → Type 0 } = { λ _ _ _ _. Unit {0} };

    /// Draws a value within the bounds.
    ///
    /// Returns an error as the type defines. The integer types return `Empty` if the range is
    /// empty; nothing is drawn then. They return `Exhausted` if 128 words in a row were rejected;
    /// these words stay consumed.
    fn random_range(rng: &mut G, low: Bound<Self>, high: Bound<Self>) -> Result<Self, RangeError>
        ensures value { result ≡ (outcome rng.old low high).0 }
        ensures state { rng.new ≡ (outcome rng.old low high).1 }
        ensures limits { limits rng.old low high (result, rng.new) };
}

/// Draws a number within both bounds. Each number is produced by the same number of words, by the
/// method of Daniel Lemire ("Fast Random Integer Generation in an Interval", 2019).
///
/// At most 128 words of the type's width are drawn, each by one request, and the first that is not
/// rejected decides.
///
/// Returns `Empty` if there is no number within the bounds; nothing is drawn then. Returns
/// `Exhausted` if 128 words in a row were rejected; they stay consumed.
pub fn draw_number<T: Number, G: Rng<OUTPUT>, const OUTPUT: usize>(
    rng: &mut G,
    low: Bound<T>,
    high: Bound<T>,
) -> Result<T, RangeError>
    ensures value { let numbers = range_within T.le T.lt T.BITS T.number low high in
        result ≡ (range_outcome G.requests T.BITS numbers rng.old).0 }
    ensures state { let numbers = range_within T.le T.lt T.BITS T.number low high in
        rng.new ≡ (range_outcome G.requests T.BITS numbers rng.old).1 }
    ensures within { IfOk result (Admits T.le T.lt low high) }
    ensures refusal { T.has_number low high → IfErr result (λ refusal. refusal ≡ Exhausted) }
    ensures words { (n : ℕ) × (n ≤ word_limit)
        × (rng.new ≡ after_words G.requests T.BITS n rng.old) }
    ensures some { (k : ℕ) → k < 2 ^ T.BITS
        → is_above T.le T.lt low (T.number k) ≡ true → is_below T.le T.lt high (T.number k) ≡ true
        → IfErr result (λ refusal. refusal ≡ Exhausted) }
    ensures empty { result ≡ Err Empty → rng.new ≡ rng.old }
    ensures exhausted { result ≡ Err Exhausted
        → rng.new ≡ after_limit (after_word G.requests T.BITS) rng.old }
    ensures divisor { let numbers = range_within T.le T.lt T.BITS T.number low high in
        rejected T.BITS (length numbers) ≡ 0 → IfErr result (λ refusal. refusal ≡ Empty) }
    ensures unrefused { let size = range_size T.rank T.BITS low high in
        T.has_number low high → rejected T.BITS size ≡ 0 → IsOk result }
{
    let first = first_place(low);
    let end = end_place(high);
    if end <= first {
        return Err(RangeError::Empty);
    }
    match draw_below(rng, end - first, T::BITS) {
        Some(k) => Ok(T::at_place((first + u128::from(k)) as u64)),
        None => Err(RangeError::Exhausted),
    }
}

// Returns the least rank whose number the low bound admits, or 2^BITS if there is none.
fn first_place<T: Number>(low: Bound<T>) -> u128
    ensures admits { (k : ℕ) → is_above T.le T.lt low (T.number k) ≡ nat_le result k }
    ensures within { result ≤ 2 ^ T.BITS }
    ensures number { IfBound low (IsNumber T.BITS T.number) }
    ensures rank { result ≡ first_rank T.rank low }
{
    match low {
        Bound::Included(number) => u128::from(number.place()),
        Bound::Excluded(number) => u128::from(number.place()) + 1,
        Bound::Unbounded => 0,
    }
}

// Returns the greatest rank whose number the high bound admits, plus 1, or 0 if there is none.
fn end_place<T: Number>(high: Bound<T>) -> u128
    ensures admits { (k : ℕ) → k < 2 ^ T.BITS
        → is_below T.le T.lt high (T.number k) ≡ nat_lt k result }
    ensures within { result ≤ 2 ^ T.BITS }
    ensures number { IfBound high (IsNumber T.BITS T.number) }
    ensures rank { result ≡ end_rank T.rank T.BITS high }
{
    match high {
        Bound::Included(number) => u128::from(number.place()) + 1,
        Bound::Excluded(number) => u128::from(number.place()),
        Bound::Unbounded => 1 << T::BITS,
    }
}
