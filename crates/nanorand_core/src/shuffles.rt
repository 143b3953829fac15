//! Shuffles as lists of choices, which can be stored, applied and recovered; a partial shuffle; and
//! the shuffle of `nanorand` 0.7.0.
ghost use Rattle.std.specs.Prelude.{◌≡◌, ◌≢◌, ℕ, ◌*◌, ◌<◌, ◌≤◌, length, min, slice_index, MatchOption, IfErr, OnOk, OnErr, List, IsPermutation};
ghost use Rattle.nanorand_core.specs.shuffles.Arrangements.{completed, rising, IsValid, IsArrangement};
ghost use Rattle.nanorand_core.specs.shuffles.Shuffles.{arranged, from_all, from_itself, partly_shuffled, shuffled};
ghost use Rattle.nanorand_core.specs.values.Draws.{after_words, word_limit};
ghost use Rattle.nanorand_core.specs.declared.values.range.RangeError.TheVariants.{Exhausted};

use crate::rand::{Rng, draw_partner};
use crate::swap::swap;
use crate::values::{RandomRange, RangeError};
use std::ops::Bound;
use thiserror::Error;

/// The error of `choices_of`: the list is not a permutation of the numbers below its length.
#[derive(Clone, Copy, Debug, PartialEq, Eq, Error)]
#[error("the list is no arrangement")]
pub struct NotArrangement;

/// Writes the identity permutation to the slice: 0, 1, .., one number into each slot. These can be
/// the cards of a deck in order, or the positions in a list.
pub fn identity(slots: &mut [usize])
    ensures { slots.new ≡ rising (length slots.old) }
{
    for (place, slot) in slots.iter_mut().enumerate() {
        *slot = place;
    }
}

/// Applies stored choices to the items: for each index i, from 0 up, swaps the items at i and
/// `choices[i]`.
///
/// The result is a permutation of the items. Applying the choices that `shuffle_and_record`
/// recorded to the items that it started from repeats its shuffle.
///
/// Preconditions: there is one choice for each item, and the choice of index i is i or a later
/// index.
pub fn apply_choices<T>(choices: &[usize], items: &mut [T])
    requires lengths { length choices.now ≡ length items.old }
    requires valid { IsValid choices.now }
    ensures items { items.new ≡ arranged choices.now items.old }
    ensures arrangement { IsPermutation items.old items.new }
{
    for (place, choice) in choices.iter().enumerate() {
        swap(items, place, *choice);
    }
}

/// Writes to `out` the choices that turn the identity 0, 1, .. into `order`. There is exactly one
/// such list of valid choices.
///
/// The old contents of `out` and `scratch` are ignored, and nothing is allocated. The time is
/// O(n^2) for n numbers.
///
/// Returns `NotArrangement` if and only if `order` is not a permutation of the numbers below its
/// length. The contents of `out` are unspecified then. The contents of `scratch` are always
/// unspecified afterwards.
///
/// Precondition: `out` and `scratch` are as long as `order`.
pub fn choices_of(
    order: &[usize],
    out: &mut [usize],
    scratch: &mut [usize],
) -> Result<(), NotArrangement>
    requires out { length out.old ≡ length order.now }
    requires scratch { length scratch.old ≡ length order.now }
    ensures valid { OnOk result (IsValid out.new) }
    ensures makes { OnOk result (arranged out.new (rising (length order.now)) ≡ order.now) }
    ensures alone { OnOk result ((choices : List ℕ)
        → length choices ≡ length order.now → IsValid choices
        → arranged choices (rising (length order.now)) ≡ order.now → choices ≡ out.new) }
    ensures exact { OnOk result (IsArrangement order.now) }
    ensures refused { OnErr result (¬ IsArrangement order.now) }
{
    identity(scratch);
    for (place, wanted) in order.iter().enumerate() {
        match place_from(scratch, place, *wanted) {
            Some(choice) => {
                out[place] = choice;
                swap(scratch, place, choice);
            }
            None => return Err(NotArrangement),
        }
    }
    Ok(())
}

// Returns an index, `from` or later, whose item is `wanted`.
fn place_from(items: &[usize], from: usize, wanted: usize) -> Option<usize>
    requires { from ≤ length items.now }
    ensures { MatchOption result
        ((k : ℕ) → from ≤ k → k < length items.now → slice_index items.now k ≢ wanted)
        (λ j. (from ≤ j) × (j < length items.now) × (slice_index items.now j ≡ wanted)) }
{
    for place in from..items.len() {
        if items[place] == wanted {
            return Some(place);
        }
    }
    None
}

/// Shuffles the slice as `Rng::shuffle` does, and records the drawn choices in `choices`.
///
/// The result, the items and the generator are those of `Rng::shuffle`. The old contents of
/// `choices` are overwritten. Nothing is allocated. An empty slice draws nothing.
///
/// Returns `Exhausted` if 128 words (random integers of 64 bits) in a row were rejected for one
/// index. The swaps before that stay, and the words stay consumed. `choices` then holds the choices
/// drawn before the failure and, for each index from there on, the index itself, which moves
/// nothing. So the choices are valid in this case too, and `apply_choices` repeats what was done.
///
/// Precondition: `choices` is as long as `target`.
pub fn shuffle_and_record<G: Rng<OUTPUT>, T, const OUTPUT: usize>(
    rng: &mut G,
    target: &mut [T],
    choices: &mut [usize],
) -> Result<(), RangeError>
    requires { length choices.old ≡ length target.old }
    ensures answer { result ≡ (shuffled G.requests from_itself rng.old target.old).answer }
    ensures items { target.new ≡ (shuffled G.requests from_itself rng.old target.old).items }
    ensures state { rng.new ≡ (shuffled G.requests from_itself rng.old target.old).state }
    ensures arrangement { IsPermutation target.old target.new }
    ensures refusal { IfErr result (λ refusal. refusal ≡ Exhausted) }
    ensures drawn { let shuffle = shuffled G.requests from_itself rng.old target.old in
        OnOk result (choices.new ≡ shuffle.choices) }
    ensures recorded { let shuffle = shuffled G.requests from_itself rng.old target.old in
        choices.new ≡ completed (length target.old) shuffle.choices }
    ensures valid { IsValid choices.new }
    ensures makes { arranged choices.new target.old ≡ target.new }
    ensures words { (n : ℕ) × (n ≤ word_limit * length target.old)
        × (rng.new ≡ after_words G.requests 64 n rng.old) }
{
    identity(choices);
    let count = target.len();
    for place in 0..count {
        let partner = draw_partner(rng, place, count)?;
        swap(target, place, partner);
        choices[place] = partner;
    }
    Ok(())
}

/// Shuffles the beginning of the slice: makes the first `count` steps of `Rng::shuffle`, or all of
/// them if there are fewer items.
///
/// The first `count` items are then a random selection from all items, in random order, and the
/// other items follow. For each index i below `count`, from 0 up, an index is drawn from i to the
/// last one, and the items at i and at that index are swapped. The time is O(`count`).
///
/// Returns `Exhausted` if 128 words (random integers of 64 bits) in a row were rejected for one
/// index. The swaps before that stay, and the words stay consumed. If `count` is 0 or the slice is
/// empty, nothing is drawn.
///
/// The law `partial_shuffles` compares it with the whole shuffle.
pub fn partial_shuffle<G: Rng<OUTPUT>, T, const OUTPUT: usize>(
    rng: &mut G,
    target: &mut [T],
    count: usize,
) -> Result<(), RangeError>
    ensures answer { let part = partly_shuffled G.requests from_itself count rng.old target.old in
        result ≡ part.answer }
    ensures items { let part = partly_shuffled G.requests from_itself count rng.old target.old in
        target.new ≡ part.items }
    ensures state { let part = partly_shuffled G.requests from_itself count rng.old target.old in
        rng.new ≡ part.state }
    ensures arrangement { IsPermutation target.old target.new }
    ensures refusal { IfErr result (λ refusal. refusal ≡ Exhausted) }
    ensures whole { let part = partly_shuffled G.requests from_itself count rng.old target.old in
        OnOk result (length part.choices ≡ min count (length target.old)) }
    ensures valid { let part = partly_shuffled G.requests from_itself count rng.old target.old in
        IsValid (completed (length target.old) part.choices) }
    ensures words { (n : ℕ) × (n ≤ word_limit * min count (length target.old))
        × (rng.new ≡ after_words G.requests 64 n rng.old) }
{
    let items = target.len();
    for place in 0..count.min(items) {
        let chosen = draw_partner(rng, place, items)?;
        swap(target, place, chosen);
    }
    Ok(())
}

/// Shuffles the slice as the Rust crate `nanorand` 0.7.0 does: for each index i, from 0 up, swaps
/// the item at i with the one at an index drawn from the whole slice.
///
/// This is not the Fisher-Yates shuffle, which draws only from i and the indices after it. The
/// result is a permutation of the items. Several lists of choices produce the same permutation, so
/// the shuffle is biased for three or more items.
///
/// Returns `Exhausted` if 128 words (random integers of 64 bits) in a row were rejected for one
/// index. The swaps before that stay, and the words stay consumed. An empty slice draws nothing.
pub fn shuffle_full<G: Rng<OUTPUT>, T, const OUTPUT: usize>(
    rng: &mut G,
    target: &mut [T],
) -> Result<(), RangeError>
    ensures answer { result ≡ (shuffled G.requests from_all rng.old target.old).answer }
    ensures items { target.new ≡ (shuffled G.requests from_all rng.old target.old).items }
    ensures state { rng.new ≡ (shuffled G.requests from_all rng.old target.old).state }
    ensures arrangement { IsPermutation target.old target.new }
    ensures refusal { IfErr result (λ refusal. refusal ≡ Exhausted) }
    ensures words { (n : ℕ) × (n ≤ word_limit * length target.old)
        × (rng.new ≡ after_words G.requests 64 n rng.old) }
{
    let count = target.len();
    for place in 0..count {
        let other = usize::random_range(rng, Bound::Included(0), Bound::Excluded(count))?;
        swap(target, place, other);
    }
    Ok(())
}
