//! The calls on any generator of the library, in the library's own type.
ghost use Rattle.std.specs.Prelude.{◌≡◌, ◌≢◌, ◌<◌, ◌≤◌, ◌≤ℤ◌, ◌*◌, ◌/◌, ◌+◌, ◌-◌, All, IsPermutation, ℕ, drop, length, take};
ghost use Rattle.std.specs.Float.{◌≤ᶠ◌, ◌<ᶠ◌, float_one, float_zero};
ghost use Rattle.std.specs.List.{AllPairs};
ghost use Rattle.nanorand_core.specs.values.Draws.{after_words};
ghost use Rattle.nanorand_core.specs.values.Values.{number_of};
ghost use Rattle.nanorand_core.specs.shuffles.Shuffles.{from_all, from_itself, shuffled};
ghost use Rattle.nanorand_calls.specs.Between.{between, between_signed};
ghost use Rattle.nanorand_calls.specs.Fractions.{IsFractionOf};
ghost use Rattle.nanorand_calls.specs.Items.{items_of};
ghost use Rattle.nanorand_calls.specs.Parts.{parting};
ghost use Rattle.nanorand_core.specs.samples.Samples.{DifferentBelow};
ghost use Rattle.nanorand_calls.specs.Sampling.{extending, sampling};
ghost use Rattle.nanorand_calls.specs.Status.{drawn_or, status};
ghost use Rattle.nanorand_calls.specs.Words.{IsAfterAtMost};

use crate::items::swap_items;
use crate::status::{Status, hand_over, status};
use nanorand::values::range::draw_number;
use nanorand::{Parts, Rng, samples, shuffles};
use std::ops::Bound;

/// Draws a number in [0, 1): the top 53 bits of a 64-bit word as a fraction, floor(word / 2^11) /
/// 2^53. The word is the next 8 bytes, in little-endian order.
pub fn float<G: Rng<OUTPUT>, const OUTPUT: usize>(rng: &mut G) -> f64
    ensures value { IsFractionOf (number_of (G.requests.bytes rng.old 8)) result }
    ensures within { (float_zero ≤ᶠ result) × (result <ᶠ float_one) }
    ensures state { rng.new ≡ G.requests.after rng.old 8 }
{
    fraction(rng.generate())
}

// Returns the top 53 bits of the word as a fraction: floor(word / 2^11) / 2^53.
pub(crate) fn fraction(word: u64) -> f64
    ensures value { IsFractionOf word result }
    ensures within { (float_zero ≤ᶠ result) × (result <ᶠ float_one) }
{
    (word >> 11) as f64 / 9007199254740992.0
}

/// Draws a number below `n`, by rejection sampling of 64-bit words, and returns the number itself.
/// If `n` is 0, the function returns 0 and draws nothing. If 128 words in a row were rejected, it
/// returns `n`; the words stay consumed. The probability of that is below 2^-128.
pub fn below<G: Rng<OUTPUT>, const OUTPUT: usize>(rng: &mut G, n: u64) -> u64
    ensures zero { n ≡ 0 → (result ≡ 0) × (rng.new ≡ rng.old) }
    ensures number { n ≢ 0 → result ≡ drawn_or n (between G.requests 64 0 (n - 1) rng.old).0 }
    ensures within { result ≤ n }
    ensures state { n ≢ 0 → rng.new ≡ (between G.requests 64 0 (n - 1) rng.old).1 }
    ensures words { IsAfterAtMost 128 (λ k. after_words G.requests 64 k rng.old) rng.new }
{
    if n == 0 {
        return 0;
    }
    match draw_number(rng, Bound::Included(0), Bound::Included(n - 1)) {
        Ok(number) => number,
        Err(_) => n,
    }
}

/// Draws a number from `first..=last`, by rejection sampling of 32-bit words. Returns the status 0,
/// 1 or 2, and writes `number` only if the status is 0.
pub fn range_u32<G: Rng<OUTPUT>, const OUTPUT: usize>(
    rng: &mut G,
    first: u32,
    last: u32,
    number: &mut u32,
) -> Status
    ensures status { result ≡ status (between G.requests 32 first last rng.old).0 }
    ensures number { let draw = between G.requests 32 first last rng.old in
        number.new ≡ drawn_or number.old draw.0 }
    ensures within { result ≡ 0 → (first ≤ number.new) × (number.new ≤ last) }
    ensures state { rng.new ≡ (between G.requests 32 first last rng.old).1 }
    ensures words { IsAfterAtMost 128 (λ n. after_words G.requests 32 n rng.old) rng.new }
{
    let outcome = draw_number(rng, Bound::Included(first), Bound::Included(last));
    hand_over(&outcome, number)
}

/// Draws a number from `first..=last` as `range_u32` does, but by 64-bit words.
pub fn range_u64<G: Rng<OUTPUT>, const OUTPUT: usize>(
    rng: &mut G,
    first: u64,
    last: u64,
    number: &mut u64,
) -> Status
    ensures status { result ≡ status (between G.requests 64 first last rng.old).0 }
    ensures number { let draw = between G.requests 64 first last rng.old in
        number.new ≡ drawn_or number.old draw.0 }
    ensures within { result ≡ 0 → (first ≤ number.new) × (number.new ≤ last) }
    ensures state { rng.new ≡ (between G.requests 64 first last rng.old).1 }
    ensures words { IsAfterAtMost 128 (λ n. after_words G.requests 64 n rng.old) rng.new }
{
    let outcome = draw_number(rng, Bound::Included(first), Bound::Included(last));
    hand_over(&outcome, number)
}

/// Draws a signed number from `first..=last` as `range_u32` does, but by 64-bit words.
pub fn range_i64<G: Rng<OUTPUT>, const OUTPUT: usize>(
    rng: &mut G,
    first: i64,
    last: i64,
    number: &mut i64,
) -> Status
    ensures status { result ≡ status (between_signed G.requests 64 first last rng.old).0 }
    ensures number { let draw = between_signed G.requests 64 first last rng.old in
        number.new ≡ drawn_or number.old draw.0 }
    ensures within { result ≡ 0 → (first ≤ℤ number.new) × (number.new ≤ℤ last) }
    ensures state { rng.new ≡ (between_signed G.requests 64 first last rng.old).1 }
    ensures words { IsAfterAtMost 128 (λ n. after_words G.requests 64 n rng.old) rng.new }
{
    let outcome = draw_number(rng, Bound::Included(first), Bound::Included(last));
    hand_over(&outcome, number)
}

/// Draws an index or a length from `first..=last` as `range_u32` does, but by 64-bit words.
pub fn range_usize<G: Rng<OUTPUT>, const OUTPUT: usize>(
    rng: &mut G,
    first: usize,
    last: usize,
    number: &mut usize,
) -> Status
    ensures status { result ≡ status (between G.requests 64 first last rng.old).0 }
    ensures number { let draw = between G.requests 64 first last rng.old in
        number.new ≡ drawn_or number.old draw.0 }
    ensures within { result ≡ 0 → (first ≤ number.new) × (number.new ≤ last) }
    ensures state { rng.new ≡ (between G.requests 64 first last rng.old).1 }
    ensures words { IsAfterAtMost 128 (λ n. after_words G.requests 64 n rng.old) rng.new }
{
    let outcome = draw_number(rng, Bound::Included(first), Bound::Included(last));
    hand_over(&outcome, number)
}

/// Shuffles the items as `Rng::shuffle` does. Returns the status 0 or 2; after 2, the swaps that
/// were made stay.
pub fn shuffle<G: Rng<OUTPUT>, const OUTPUT: usize>(rng: &mut G, items: &mut [usize]) -> Status
    ensures status { let shuffle = shuffled G.requests from_itself rng.old items.old in
        result ≡ status shuffle.answer }
    ensures items { items.new ≡ (shuffled G.requests from_itself rng.old items.old).items }
    ensures state { rng.new ≡ (shuffled G.requests from_itself rng.old items.old).state }
    ensures words { let after = λ (n : ℕ). after_words G.requests 64 n rng.old in
        IsAfterAtMost (128 * length items.old) after rng.new }
    ensures arrangement { IsPermutation items.old items.new }
{
    let outcome = rng.shuffle(items);
    status(&outcome)
}

/// Shuffles the items as the crate `nanorand` 0.7.0 does: see `shuffles::shuffle_full`. Returns the
/// status 0 or 2, as `shuffle` does.
pub fn shuffle_full<G: Rng<OUTPUT>, const OUTPUT: usize>(rng: &mut G, items: &mut [usize]) -> Status
    ensures status { let shuffle = shuffled G.requests from_all rng.old items.old in
        result ≡ status shuffle.answer }
    ensures items { items.new ≡ (shuffled G.requests from_all rng.old items.old).items }
    ensures state { rng.new ≡ (shuffled G.requests from_all rng.old items.old).state }
    ensures words { let after = λ (n : ℕ). after_words G.requests 64 n rng.old in
        IsAfterAtMost (128 * length items.old) after rng.new }
    ensures arrangement { IsPermutation items.old items.new }
{
    let outcome = shuffles::shuffle_full(rng, items);
    status(&outcome)
}

/// Shuffles items of any type, which are given as the bytes that they are in memory: items of
/// `size` bytes each, one after another. Bytes at the end that are fewer than `size` are no item,
/// and stay. The items are shuffled as `shuffle` shuffles as many numbers, by the same draws.
/// Returns the status 0 or 2; after 2, the swaps that were made stay. If `size` is 0, there is no
/// item, and nothing is drawn.
pub fn shuffle_items<G: Rng<OUTPUT>, const OUTPUT: usize>(
    rng: &mut G,
    items: &mut [u8],
    size: usize,
) -> Status
    ensures status { let before = items_of size items.old in
        result ≡ status (shuffled G.requests from_itself rng.old before).answer }
    ensures items { let before = items_of size items.old in
        items_of size items.new ≡ (shuffled G.requests from_itself rng.old before).items }
    ensures rest { let whole = length items.old / size * size in
        drop whole items.new ≡ drop whole items.old }
    ensures state { let before = items_of size items.old in
        rng.new ≡ (shuffled G.requests from_itself rng.old before).state }
    ensures words { let after = λ (n : ℕ). after_words G.requests 64 n rng.old in
        IsAfterAtMost (128 * length (items_of size items.old)) after rng.new }
    ensures arrangement { IsPermutation (items_of size items.old) (items_of size items.new) }
{
    if size == 0 {
        return 0;
    }
    let count = items.len() / size;
    for place in 0..count {
        match draw_number(rng, Bound::Included(place), Bound::Excluded(count)) {
            Ok(partner) => swap_items(items, size, place, partner),
            Err(_) => return 2,
        }
    }
    0
}

/// Draws a sample as `samples::sample` does: different numbers below `count`, one into each place.
/// Returns the status 0, 1 or 2. The status is 1, and nothing is drawn, if there are more places
/// than numbers.
pub fn sample<G: Rng<OUTPUT>, const OUTPUT: usize>(
    rng: &mut G,
    count: usize,
    places: &mut [usize],
) -> Status
    ensures status { result ≡ (sampling G.requests count rng.old places.old).status }
    ensures places { places.new ≡ (sampling G.requests count rng.old places.old).places }
    ensures state { rng.new ≡ (sampling G.requests count rng.old places.old).state }
    ensures words { let after = λ (n : ℕ). after_words G.requests 64 n rng.old in
        IsAfterAtMost (128 * length places.old) after rng.new }
    ensures below { result ≡ 0 → All (λ number. number < count) places.new }
    ensures apart { result ≡ 0 → AllPairs (λ number other. number ≢ other) places.new }
{
    if count < places.len() {
        return 1;
    }
    let outcome = samples::sample(rng, count, places);
    status(&outcome)
}

/// Continues a sample as `samples::extend_sample` does: keeps the first `filled` places and fills
/// the others, by a table that the caller provides. Returns the status 0, 1 or 2. The status is 1,
/// and nothing is drawn, if there are more places than numbers, or fewer places than `filled`.
pub fn extend_sample<G: Rng<OUTPUT>, const OUTPUT: usize>(
    rng: &mut G,
    count: usize,
    places: &mut [usize],
    filled: usize,
    table: &mut [usize],
) -> Status
    ensures status { result ≡ (extending G.requests count rng.old places.old filled).status }
    ensures places { places.new ≡ (extending G.requests count rng.old places.old filled).places }
    ensures state { rng.new ≡ (extending G.requests count rng.old places.old filled).state }
    ensures words { let after = λ (n : ℕ). after_words G.requests 64 n rng.old in
        IsAfterAtMost (128 * length places.old) after rng.new }
    ensures different { let limit = count - length places.old + filled in
        DifferentBelow limit (take filled places.old)
        → result ≡ 0 → DifferentBelow count places.new }
{
    if count < places.len() || places.len() < filled {
        return 1;
    }
    let outcome = samples::extend_sample(rng, count, places, filled, table);
    status(&outcome)
}

/// Moves to the beginning of part `index` of parts of `draws` draws each. Returns the status 0, or
/// 3 if the part ends past the period; the generator does not move then.
pub fn part<G: Parts<OUTPUT> + Drop, const OUTPUT: usize>(
    rng: &mut G,
    index: u64,
    draws: u64,
) -> Status
    ensures status { result ≡ (parting G.requests G.period draws index rng.old).0 }
    ensures state { rng.new ≡ (parting G.requests G.period draws index rng.old).1 }
{
    if let Ok(part) = rng.part(index, draws) {
        *rng = part;
        0
    } else {
        3
    }
}
