//! Unbiased choices: every outcome is produced by the same number of words, where a word is a
//! random integer of N bits.
ghost use Rattle.std.specs.Prelude.{◌≡◌, ℕ, ◌+◌, ◌-◌, ◌/◌, ◌^◌, ◌<◌, ◌≤◌, [], true, false, length, slice_get, nat_lt, Some, Ok, Err, IsOk, IsOkAnd, IfOk, IfErr, MatchResult};
ghost use Rattle.std.specs.declared.ops.Bound.TheVariants.{Excluded, Included, Unbounded};
ghost use Rattle.nanorand_core.specs.values.Range.{range_within};
ghost use Rattle.nanorand_core.specs.values.Runs.{rejected};
ghost use Rattle.nanorand_core.specs.values.Draws.{word_limit, after_limit, after_word, after_words, drawn_below, next_word, range_outcome};
ghost use Rattle.nanorand_core.specs.choices.Uniform.{index_drawn};
ghost use Rattle.nanorand_core.specs.declared.values.range.RangeError.TheVariants.{Empty, Exhausted};

use crate::rand::Rng;
use crate::values::number::Number;
use crate::values::range::draw_number;
use crate::values::word::draw_word;
use crate::values::{RandomRange, RangeError};
use std::ops::Bound;

/// Draws a number below `n`: for an unsigned type one of 0, 1, .., `n` - 1, and for a signed type a
/// number from the type's least number up to `n` - 1.
///
/// Returns `Exhausted`, the only error, if 128 words in a row were rejected; they stay consumed. If
/// the count of the numbers below `n` is a power of two (for an unsigned type: if `n` itself is a
/// power of two), no word is rejected, and no error is returned.
///
/// Precondition: the type has a number below `n`.
#[inline]
pub fn below<T: Number, G: Rng<OUTPUT>, const OUTPUT: usize>(
    rng: &mut G,
    n: T,
) -> Result<T, RangeError>
    requires { T.has_number Unbounded (Excluded n) }
    ensures value { let numbers = range_within T.le T.lt T.BITS T.number Unbounded (Excluded n) in
        result ≡ (range_outcome G.requests T.BITS numbers rng.old).0 }
    ensures state { let numbers = range_within T.le T.lt T.BITS T.number Unbounded (Excluded n) in
        rng.new ≡ (range_outcome G.requests T.BITS numbers rng.old).1 }
    ensures below { IfOk result (λ number. T.lt number n ≡ true) }
    ensures refusal { IfErr result (λ refusal. refusal ≡ Exhausted) }
    ensures power { (k : ℕ) → k < T.BITS → n ≡ T.number (2 ^ k) → IsOk result }
    ensures divisor { (size : ℕ) → n ≡ T.number size → 0 < size
        → rejected T.BITS size ≡ 0 → IsOk result }
    ensures unrefused { rejected T.BITS (T.rank n) ≡ 0 → IsOk result }
    ensures words { (m : ℕ) × (m ≤ word_limit)
        × (rng.new ≡ after_words G.requests T.BITS m rng.old) }
{
    draw_number(rng, Bound::Unbounded, Bound::Excluded(n))
}

/// Draws a number from `low..=high`, such as `1..=6` for a die. Each number is produced by the same
/// number of words.
///
/// Returns `Exhausted`, the only error, if 128 words in a row were rejected; they stay consumed. If
/// the count of the numbers is a power of two, no word is rejected, and no error is returned.
///
/// Precondition: `low` is at most `high`.
#[inline]
pub fn between<T: Number, G: Rng<OUTPUT>, const OUTPUT: usize>(
    rng: &mut G,
    low: T,
    high: T,
) -> Result<T, RangeError>
    requires { T.has_number (Included low) (Included high) }
    ensures value { let within = range_within T.le T.lt T.BITS T.number in
        let numbers = within (Included low) (Included high) in
        result ≡ (range_outcome G.requests T.BITS numbers rng.old).0 }
    ensures state { let within = range_within T.le T.lt T.BITS T.number in
        let numbers = within (Included low) (Included high) in
        rng.new ≡ (range_outcome G.requests T.BITS numbers rng.old).1 }
    ensures low { IfOk result (λ number. T.le low number ≡ true) }
    ensures high { IfOk result (λ number. T.le number high ≡ true) }
    ensures refusal { IfErr result (λ refusal. refusal ≡ Exhausted) }
    ensures unrefused { rejected T.BITS (T.rank high + 1 - T.rank low) ≡ 0 → IsOk result }
    ensures words { (m : ℕ) × (m ≤ word_limit)
        × (rng.new ≡ after_words G.requests T.BITS m rng.old) }
    ensures exhausted { result ≡ Err Exhausted
        → rng.new ≡ after_limit (after_word G.requests T.BITS) rng.old }
{
    draw_number(rng, Bound::Included(low), Bound::Included(high))
}

/// Draws one of 2^`count` numbers: for an unsigned type one of 0, 1, .., 2^`count` - 1, and for a
/// signed type one of the 2^`count` numbers that begin with the type's least number.
///
/// This function has no error to return: it draws exactly one word of the type's width, and uses
/// its top `count` bits. `values::word::draw_below` with the size 2^`count` draws the same number.
///
/// Precondition: `count` is at most the width of the type.
#[inline]
pub fn bits<T: Number, G: Rng<OUTPUT>, const OUTPUT: usize>(rng: &mut G, count: u32) -> T
    requires { count ≤ T.BITS }
    ensures value { let word = next_word G.requests T.BITS rng.old in
        result ≡ T.number (word / 2 ^ (T.BITS - count)) }
    ensures state { rng.new ≡ after_word G.requests T.BITS rng.old }
    ensures below { T.rank result < 2 ^ count }
    ensures drawn { let draw = drawn_below G.requests T.BITS (2 ^ count) rng.old in
        draw.number ≡ Some (T.rank result) }
    ensures left { rng.new ≡ (drawn_below G.requests T.BITS (2 ^ count) rng.old).state }
{
    let word = draw_word(rng, T::BITS);
    // For `count` 0 the shift is by the whole width, which a `u64` does not allow.
    T::at_place((u128::from(word) >> (T::BITS - count)) as u64)
}

/// Chooses an item of the slice. Each item is chosen by the same number of words.
///
/// Returns `Empty` if the slice is empty; nothing is drawn then. Returns `Exhausted` if 128 words
/// in a row were rejected; they stay consumed.
#[inline]
pub fn choose<'a, T, G: Rng<OUTPUT>, const OUTPUT: usize>(
    rng: &mut G,
    items: &'a [T],
) -> Result<&'a T, RangeError>
    ensures item { MatchResult (index_drawn G.requests (length items.now) rng.old).0
        (λ i. IsOkAnd result (λ item. slice_get items.now i ≡ Some item.now))
        (λ refusal. result ≡ Err refusal) }
    ensures state { rng.new ≡ (index_drawn G.requests (length items.now) rng.old).1 }
    ensures refusal { 0 < length items.now → IfErr result (λ refusal. refusal ≡ Exhausted) }
    ensures unrefused { 0 < length items.now → rejected 64 (length items.now) ≡ 0 → IsOk result }
    ensures empty { result ≡ Err Empty → rng.new ≡ rng.old }
    ensures words { (m : ℕ) × (m ≤ word_limit) × (rng.new ≡ after_words G.requests 64 m rng.old) }
{
    let index = usize::random_range(rng, Bound::Included(0), Bound::Excluded(items.len()))?;
    Ok(&items[index])
}

/// Chooses an item of the slice as `choose` does, and returns a mutable reference to it.
///
/// Returns `Empty` if the slice is empty; nothing is drawn then. Returns `Exhausted` if 128 words
/// in a row were rejected; they stay consumed.
///
/// The contract does not say what the slice holds after a write through the reference: a contract
/// cannot express that for a reference inside a `Result`. If your proof needs it, draw the index
/// instead, by `let i = below(rng, items.len())?`, and write to `items[i]`.
#[inline]
pub fn choose_mut<'a, T, G: Rng<OUTPUT>, const OUTPUT: usize>(
    rng: &mut G,
    items: &'a mut [T],
) -> Result<&'a mut T, RangeError>
    ensures item { MatchResult (index_drawn G.requests (length items.old) rng.old).0
        (λ i. IsOkAnd result (λ item. slice_get items.old i ≡ Some item.now))
        (λ refusal. result ≡ Err refusal) }
    ensures state { rng.new ≡ (index_drawn G.requests (length items.old) rng.old).1 }
    ensures refusal { 0 < length items.old → IfErr result (λ refusal. refusal ≡ Exhausted) }
    ensures unrefused { 0 < length items.old → rejected 64 (length items.old) ≡ 0 → IsOk result }
    ensures empty { result ≡ Err Empty → rng.new ≡ rng.old }
    ensures words { (m : ℕ) × (m ≤ word_limit) × (rng.new ≡ after_words G.requests 64 m rng.old) }
{
    let index = usize::random_range(rng, Bound::Included(0), Bound::Excluded(items.len()))?;
    Ok(&mut items[index])
}

/// Returns true with probability `numerator` / `denominator`: a number below `denominator` is
/// drawn, and the result is whether it is below `numerator`.
///
/// So, for `numerator` up to `denominator`, the number of words that give true is exactly
/// `numerator` times the number of words that each number below `denominator` has. If `numerator`
/// is `denominator` or more, the function never returns false.
///
/// Returns `Empty` if `denominator` is 0; nothing is drawn then. Returns `Exhausted` if 128 words
/// in a row were rejected; they stay consumed.
#[inline]
pub fn ratio<G: Rng<OUTPUT>, const OUTPUT: usize>(
    rng: &mut G,
    numerator: u64,
    denominator: u64,
) -> Result<bool, RangeError>
    ensures truth { MatchResult (index_drawn G.requests denominator rng.old).0
        (λ number. result ≡ Ok (nat_lt number numerator)) (λ refusal. result ≡ Err refusal) }
    ensures state { rng.new ≡ (index_drawn G.requests denominator rng.old).1 }
    ensures always { denominator ≤ numerator → IfOk result (λ truth. truth ≡ true) }
    ensures never { numerator ≡ 0 → IfOk result (λ truth. truth ≡ false) }
    ensures refusal { 0 < denominator → IfErr result (λ refusal. refusal ≡ Exhausted) }
    ensures unrefused { 0 < denominator → rejected 64 denominator ≡ 0 → IsOk result }
    ensures empty { result ≡ Err Empty → rng.new ≡ rng.old }
    ensures words { (m : ℕ) × (m ≤ word_limit) × (rng.new ≡ after_words G.requests 64 m rng.old) }
{
    let number = u64::random_range(rng, Bound::Included(0), Bound::Excluded(denominator))?;
    Ok(number < numerator)
}
