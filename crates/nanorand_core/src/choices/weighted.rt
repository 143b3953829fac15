//! Weighted choices. The weights are integers, and the choice is exact: no floating-point
//! arithmetic is used.
ghost use Rattle.std.specs.Prelude.{◌≡◌, ℕ, ◌^◌, ◌<◌, ◌≤◌, ◌↔◌, ◌⊎◌, length, slice_index, sum, Err, IfOk, IfSome};
ghost use Rattle.nanorand_core.specs.values.Draws.{after_limit, after_word, after_words};
ghost use Rattle.nanorand_core.specs.declared.choices.weighted.WeightError.TheVariants.{NoWeight, TooHeavy, Exhausted};
ghost use Rattle.nanorand_core.specs.choices.Weighted.{IsInShare, choice_answer, choice_state, item_at, number_for, total_of};

use crate::rand::Rng;
use crate::values::word::draw_below;
use thiserror::Error;

/// The reasons why no item was chosen.
#[derive(Clone, Copy, Debug, PartialEq, Eq, Error)]
pub enum WeightError {
    /// There are no weights, or all of them are 0. Nothing was drawn.
    #[error("no item has a weight")]
    NoWeight,

    /// The sum of the weights is 2^64 or more. Nothing was drawn.
    #[error("the weights add up to 2^64 or more")]
    TooHeavy,

    /// 128 words in a row were rejected. They stay consumed.
    #[error("128 words in a row were rejected")]
    Exhausted,
}

/// Chooses an item by weight, and returns its index: `weights[i]` is the weight of item i.
///
/// A number below the sum of the weights is drawn, from at most 128 words (random integers of 64
/// bits). Item i has `weights[i]` of these numbers, so an item of weight 0 is never chosen.
///
/// Each call takes time O(n) for n weights: it adds up all weights, and then searches for the item
/// from the first one on.
///
/// Returns `NoWeight` if there are no weights or all of them are 0, `TooHeavy` if their sum is 2^64
/// or more, and `Exhausted` if 128 words in a row were rejected. After `Exhausted` exactly 128
/// words were drawn, and they stay consumed. After any other error nothing was drawn.
///
/// The law `weighted_choices_are_fair` counts the words that choose an item.
pub fn choose_weighted<G: Rng<OUTPUT>, const OUTPUT: usize>(
    rng: &mut G,
    weights: &[u64],
) -> Result<usize, WeightError>
    ensures answer { result ≡ choice_answer G.requests weights.now rng.old }
    ensures state { rng.new ≡ choice_state G.requests weights.now rng.old }

    // The chosen item.
    ensures share { let number = number_for G.requests weights.now rng.old in
        IfOk result (λ i. IfSome number (λ k. IsInShare weights.now k i)) }
    ensures within { IfOk result (λ i. i < length weights.now) }
    ensures weight { IfOk result (λ i. 0 < slice_index weights.now i) }

    // The errors, and the number of words that are drawn.
    ensures no_weight { (result ≡ Err NoWeight) ↔ (sum weights.now ≡ 0) }
    ensures too_heavy { (result ≡ Err TooHeavy) ↔ (2 ^ 64 ≤ sum weights.now) }
    ensures undrawn { (result ≡ Err NoWeight) ⊎ (result ≡ Err TooHeavy) → rng.new ≡ rng.old }
    ensures exhausted { result ≡ Err Exhausted
        → rng.new ≡ after_limit (after_word G.requests 64) rng.old }
    ensures words { (n : ℕ) × (n ≤ 128) × (rng.new ≡ after_words G.requests 64 n rng.old) }
{
    let total = total_weight(weights)?;
    match draw_below(rng, u128::from(total), 64) {
        Some(number) => Ok(item_at(weights, number)),
        None => Err(WeightError::Exhausted),
    }
}

// Returns the sum of the weights, or an error if the sum is 0, or 2^64 or more.
fn total_weight(weights: &[u64]) -> Result<u64, WeightError>
    ensures { result ≡ total_of weights.now }
{
    let mut total: u64 = 0;
    for weight in weights {
        total = total.checked_add(*weight).ok_or(WeightError::TooHeavy)?;
    }
    if total == 0 {
        return Err(WeightError::NoWeight);
    }
    Ok(total)
}

// Returns the index of the item whose share contains the number.
fn item_at(weights: &[u64], number: u64) -> usize
    requires { number < sum weights.now }
    ensures item { result ≡ item_at weights.now number }
    ensures share { IsInShare weights.now number result }
    ensures within { result < length weights.now }
{
    let mut left = number;
    for (i, weight) in weights.iter().enumerate() {
        if left < *weight {
            return i;
        }
        left -= *weight;
    }
    unreachable!()
}
