//! The calls on `Pcg64`, whose seed is in the caller's memory. Not cryptographically secure.
ghost use Rattle.std.specs.Prelude.{◌≡◌, ◌≢◌, ◌<◌, ◌≤◌, ◌≤ℤ◌, ◌^◌, ◌*◌, ◌/◌, ◌+◌, ◌-◌, ◌⊎◌, ◌↔◌, All, IsPermutation, drop, length, ℕ, take};
ghost use Rattle.std.specs.Float.{◌≤ᶠ◌, ◌<ᶠ◌, float_one, float_zero};
ghost use Rattle.std.specs.List.{AllPairs};
ghost use Rattle.nanorand_core.specs.values.Draws.{after_words};
ghost use Rattle.nanorand_core.specs.shuffles.Shuffles.{from_all, from_itself, shuffled};
ghost use Rattle.nanorand_core.specs.values.Values.{number_of};
ghost use Rattle.nanorand.specs.generators.Pcg64.{SameCycle, pcg64_requests, seed_after, seeded_generator};
ghost use Rattle.nanorand.specs.generators.SplitMix.{seed_from};
ghost use Rattle.nanorand_calls.specs.Between.{between, between_signed};
ghost use Rattle.nanorand_calls.specs.Fractions.{IsFractionOf};
ghost use Rattle.nanorand_calls.specs.Items.{items_of};
ghost use Rattle.nanorand_calls.specs.Parts.{parting};
ghost use Rattle.nanorand_core.specs.samples.Samples.{DifferentBelow};
ghost use Rattle.nanorand_calls.specs.Sampling.{extending, sampling};
ghost use Rattle.nanorand_calls.specs.Status.{drawn_or, status};
ghost use Rattle.nanorand_calls.specs.Words.{IsAfterAtMost};
ghost use Rattle.nanorand_calls.specs.WideNumber.{at_seed, wide_number};

use crate::calls;
use crate::first_word::{number_u32, number_u64};
use crate::status::Status;
use crate::wide::{Wide, joined, split};
use nanorand::laws::pcg64_cycles;
use nanorand::{Pcg64, Rng};

/// Makes the seed from a number, as `Pcg64::seed_from_u64` does.
pub fn seed_from_u64(seed: &mut Wide, number: u64)
    ensures { at_seed seed.new ≡ seeded_generator (seed_from 16 number) }
{
    *seed = split(Pcg64::seed_from_u64(number).seed());
}

/// Draws a 64-bit number: the next 8 bytes, in little-endian order.
pub fn number(seed: &mut Wide) -> u64
    ensures value { result ≡ number_of (pcg64_requests.bytes (at_seed seed.old) 8) }
    ensures seed { wide_number seed.new ≡ (pcg64_requests.after (at_seed seed.old) 8).seed }
{
    let mut rng = Pcg64::new_seed(joined(seed));
    let value = rng.generate();
    *seed = split(rng.seed());
    value
}

/// Fills the slice with the next bytes, by one request.
pub fn fill_bytes(seed: &mut Wide, buffer: &mut [u8])
    ensures bytes { buffer.new ≡ pcg64_requests.bytes (at_seed seed.old) (length buffer.old) }
    ensures seed { let left = pcg64_requests.after (at_seed seed.old) (length buffer.old) in
        wide_number seed.new ≡ left.seed }
{
    let mut rng = Pcg64::new_seed(joined(seed));
    rng.fill_bytes(buffer);
    *seed = split(rng.seed());
}

/// Draws a number in [0, 1): the top 53 bits of a 64-bit word as a fraction, floor(word / 2^11) /
/// 2^53. The word is the next 8 bytes, in little-endian order.
pub fn float(seed: &mut Wide) -> f64
    ensures value { IsFractionOf (number_of (pcg64_requests.bytes (at_seed seed.old) 8)) result }
    ensures within { (float_zero ≤ᶠ result) × (result <ᶠ float_one) }
    ensures seed { wide_number seed.new ≡ (pcg64_requests.after (at_seed seed.old) 8).seed }
{
    let mut rng = Pcg64::new_seed(joined(seed));
    let number = calls::float(&mut rng);
    *seed = split(rng.seed());
    number
}

/// Draws a number below `n`, by rejection sampling of 64-bit words, and returns the number itself.
/// If `n` is 0, the function returns 0 and draws nothing. If 128 words in a row were rejected, it
/// returns `n`; the words stay consumed. The probability of that is below 2^-128.
pub fn below(seed: &mut Wide, n: u64) -> u64
    ensures zero { n ≡ 0 → (result ≡ 0) × (wide_number seed.new ≡ wide_number seed.old) }
    ensures number { let draw = between pcg64_requests 64 0 (n - 1) (at_seed seed.old) in
        n ≢ 0 → result ≡ drawn_or n draw.0 }
    ensures within { result ≤ n }
    ensures seed { let draw = between pcg64_requests 64 0 (n - 1) (at_seed seed.old) in
        n ≢ 0 → wide_number seed.new ≡ draw.1.seed }
    ensures words { let start = at_seed seed.old in
        let after = λ (k : ℕ). (after_words pcg64_requests 64 k start).seed in
        IsAfterAtMost 128 after (wide_number seed.new) }
{
    if n > 0 {
        let mut ahead = Pcg64::new_seed(joined(seed));
        if let Some(drawn) = number_u64(&mut ahead, 0, n - 1) {
            *seed = split(ahead.seed());
            return drawn;
        }
    }
    searched_below(seed, n)
}

// Does the same, by testing each word in turn.
#[cold]
#[inline(never)]
fn searched_below(seed: &mut Wide, n: u64) -> u64
    ensures zero { n ≡ 0 → (result ≡ 0) × (wide_number seed.new ≡ wide_number seed.old) }
    ensures number { let draw = between pcg64_requests 64 0 (n - 1) (at_seed seed.old) in
        n ≢ 0 → result ≡ drawn_or n draw.0 }
    ensures within { result ≤ n }
    ensures seed { let draw = between pcg64_requests 64 0 (n - 1) (at_seed seed.old) in
        n ≢ 0 → wide_number seed.new ≡ draw.1.seed }
    ensures words { let start = at_seed seed.old in
        let after = λ (k : ℕ). (after_words pcg64_requests 64 k start).seed in
        IsAfterAtMost 128 after (wide_number seed.new) }
{
    let mut rng = Pcg64::new_seed(joined(seed));
    let number = calls::below(&mut rng, n);
    *seed = split(rng.seed());
    number
}

/// Draws a number from `first..=last`, by rejection sampling of 32-bit words. Returns the status 0,
/// 1 or 2, and writes `number` only if the status is 0.
pub fn range_u32(seed: &mut Wide, first: u32, last: u32, number: &mut u32) -> Status
    ensures status { let draw = between pcg64_requests 32 first last (at_seed seed.old) in
        result ≡ status draw.0 }
    ensures number { let draw = between pcg64_requests 32 first last (at_seed seed.old) in
        number.new ≡ drawn_or number.old draw.0 }
    ensures within { result ≡ 0 → (first ≤ number.new) × (number.new ≤ last) }
    ensures seed { let draw = between pcg64_requests 32 first last (at_seed seed.old) in
        wide_number seed.new ≡ draw.1.seed }
    ensures words { let start = at_seed seed.old in
        let after = λ (n : ℕ). (after_words pcg64_requests 32 n start).seed in
        IsAfterAtMost 128 after (wide_number seed.new) }
{
    if first <= last {
        let mut ahead = Pcg64::new_seed(joined(seed));
        if let Some(drawn) = number_u32(&mut ahead, first, last) {
            *seed = split(ahead.seed());
            *number = drawn;
            return 0;
        }
    }
    searched_u32(seed, first, last, number)
}

// Does the same, by testing each word in turn.
#[cold]
#[inline(never)]
fn searched_u32(seed: &mut Wide, first: u32, last: u32, number: &mut u32) -> Status
    ensures status { let draw = between pcg64_requests 32 first last (at_seed seed.old) in
        result ≡ status draw.0 }
    ensures number { let draw = between pcg64_requests 32 first last (at_seed seed.old) in
        number.new ≡ drawn_or number.old draw.0 }
    ensures within { result ≡ 0 → (first ≤ number.new) × (number.new ≤ last) }
    ensures seed { let draw = between pcg64_requests 32 first last (at_seed seed.old) in
        wide_number seed.new ≡ draw.1.seed }
    ensures words { let start = at_seed seed.old in
        let after = λ (n : ℕ). (after_words pcg64_requests 32 n start).seed in
        IsAfterAtMost 128 after (wide_number seed.new) }
{
    let mut rng = Pcg64::new_seed(joined(seed));
    let status = calls::range_u32(&mut rng, first, last, number);
    *seed = split(rng.seed());
    status
}

/// Draws a number from `first..=last` as `range_u32` does, but by 64-bit words.
pub fn range_u64(seed: &mut Wide, first: u64, last: u64, number: &mut u64) -> Status
    ensures status { let draw = between pcg64_requests 64 first last (at_seed seed.old) in
        result ≡ status draw.0 }
    ensures number { let draw = between pcg64_requests 64 first last (at_seed seed.old) in
        number.new ≡ drawn_or number.old draw.0 }
    ensures within { result ≡ 0 → (first ≤ number.new) × (number.new ≤ last) }
    ensures seed { let draw = between pcg64_requests 64 first last (at_seed seed.old) in
        wide_number seed.new ≡ draw.1.seed }
    ensures words { let start = at_seed seed.old in
        let after = λ (n : ℕ). (after_words pcg64_requests 64 n start).seed in
        IsAfterAtMost 128 after (wide_number seed.new) }
{
    if first <= last {
        let mut ahead = Pcg64::new_seed(joined(seed));
        if let Some(drawn) = number_u64(&mut ahead, first, last) {
            *seed = split(ahead.seed());
            *number = drawn;
            return 0;
        }
    }
    searched_u64(seed, first, last, number)
}

// Does the same, by testing each word in turn.
#[cold]
#[inline(never)]
fn searched_u64(seed: &mut Wide, first: u64, last: u64, number: &mut u64) -> Status
    ensures status { let draw = between pcg64_requests 64 first last (at_seed seed.old) in
        result ≡ status draw.0 }
    ensures number { let draw = between pcg64_requests 64 first last (at_seed seed.old) in
        number.new ≡ drawn_or number.old draw.0 }
    ensures within { result ≡ 0 → (first ≤ number.new) × (number.new ≤ last) }
    ensures seed { let draw = between pcg64_requests 64 first last (at_seed seed.old) in
        wide_number seed.new ≡ draw.1.seed }
    ensures words { let start = at_seed seed.old in
        let after = λ (n : ℕ). (after_words pcg64_requests 64 n start).seed in
        IsAfterAtMost 128 after (wide_number seed.new) }
{
    let mut rng = Pcg64::new_seed(joined(seed));
    let status = calls::range_u64(&mut rng, first, last, number);
    *seed = split(rng.seed());
    status
}

/// Draws a signed number from `first..=last` as `range_u32` does, but by 64-bit words.
pub fn range_i64(seed: &mut Wide, first: i64, last: i64, number: &mut i64) -> Status
    ensures status { let draw = between_signed pcg64_requests 64 first last (at_seed seed.old) in
        result ≡ status draw.0 }
    ensures number { let draw = between_signed pcg64_requests 64 first last (at_seed seed.old) in
        number.new ≡ drawn_or number.old draw.0 }
    ensures within { result ≡ 0 → (first ≤ℤ number.new) × (number.new ≤ℤ last) }
    ensures seed { let draw = between_signed pcg64_requests 64 first last (at_seed seed.old) in
        wide_number seed.new ≡ draw.1.seed }
    ensures words { let start = at_seed seed.old in
        let after = λ (n : ℕ). (after_words pcg64_requests 64 n start).seed in
        IsAfterAtMost 128 after (wide_number seed.new) }
{
    let mut rng = Pcg64::new_seed(joined(seed));
    let status = calls::range_i64(&mut rng, first, last, number);
    *seed = split(rng.seed());
    status
}

/// Draws an index or a length from `first..=last` as `range_u32` does, but by 64-bit words.
pub fn range_usize(seed: &mut Wide, first: usize, last: usize, number: &mut usize) -> Status
    ensures status { let draw = between pcg64_requests 64 first last (at_seed seed.old) in
        result ≡ status draw.0 }
    ensures number { let draw = between pcg64_requests 64 first last (at_seed seed.old) in
        number.new ≡ drawn_or number.old draw.0 }
    ensures within { result ≡ 0 → (first ≤ number.new) × (number.new ≤ last) }
    ensures seed { let draw = between pcg64_requests 64 first last (at_seed seed.old) in
        wide_number seed.new ≡ draw.1.seed }
    ensures words { let start = at_seed seed.old in
        let after = λ (n : ℕ). (after_words pcg64_requests 64 n start).seed in
        IsAfterAtMost 128 after (wide_number seed.new) }
{
    let mut drawn = *number as u64;
    let status = range_u64(seed, first as u64, last as u64, &mut drawn);
    *number = drawn as usize;
    status
}

/// Shuffles the items as `Rng::shuffle` does. Returns the status 0 or 2; after 2, the swaps that
/// were made stay.
pub fn shuffle(seed: &mut Wide, items: &mut [usize]) -> Status
    ensures status { let start = at_seed seed.old in
        let shuffle = shuffled pcg64_requests from_itself start items.old in
        result ≡ status shuffle.answer }
    ensures items { let start = at_seed seed.old in
        let shuffle = shuffled pcg64_requests from_itself start items.old in
        items.new ≡ shuffle.items }
    ensures seed { let shuffle = shuffled pcg64_requests from_itself (at_seed seed.old) items.old in
        wide_number seed.new ≡ shuffle.state.seed }
    ensures words { let start = at_seed seed.old in
        let after = λ (n : ℕ). (after_words pcg64_requests 64 n start).seed in
        IsAfterAtMost (128 * length items.old) after (wide_number seed.new) }
    ensures arrangement { IsPermutation items.old items.new }
{
    let mut rng = Pcg64::new_seed(joined(seed));
    let status = calls::shuffle(&mut rng, items);
    *seed = split(rng.seed());
    status
}

/// Shuffles the items as the crate `nanorand` 0.7.0 does: see `shuffles::shuffle_full`. Returns the
/// status 0 or 2, as `shuffle` does.
pub fn shuffle_full(seed: &mut Wide, items: &mut [usize]) -> Status
    ensures status { let shuffle = shuffled pcg64_requests from_all (at_seed seed.old) items.old in
        result ≡ status shuffle.answer }
    ensures items { let shuffle = shuffled pcg64_requests from_all (at_seed seed.old) items.old in
        items.new ≡ shuffle.items }
    ensures seed { let shuffle = shuffled pcg64_requests from_all (at_seed seed.old) items.old in
        wide_number seed.new ≡ shuffle.state.seed }
    ensures words { let start = at_seed seed.old in
        let after = λ (n : ℕ). (after_words pcg64_requests 64 n start).seed in
        IsAfterAtMost (128 * length items.old) after (wide_number seed.new) }
    ensures arrangement { IsPermutation items.old items.new }
{
    let mut rng = Pcg64::new_seed(joined(seed));
    let status = calls::shuffle_full(&mut rng, items);
    *seed = split(rng.seed());
    status
}

/// Shuffles items of any type, which are given as the bytes that they are in memory: items of
/// `size` bytes each, one after another. Bytes at the end that are fewer than `size` are no item,
/// and stay. The items are shuffled as `shuffle` shuffles as many numbers, by the same draws.
/// Returns the status 0 or 2; after 2, the swaps that were made stay. If `size` is 0, there is no
/// item, and nothing is drawn.
pub fn shuffle_items(seed: &mut Wide, items: &mut [u8], size: usize) -> Status
    ensures status { let before = items_of size items.old in
        let shuffle = shuffled pcg64_requests from_itself (at_seed seed.old) before in
        result ≡ status shuffle.answer }
    ensures items { let before = items_of size items.old in
        let shuffle = shuffled pcg64_requests from_itself (at_seed seed.old) before in
        items_of size items.new ≡ shuffle.items }
    ensures rest { let whole = length items.old / size * size in
        drop whole items.new ≡ drop whole items.old }
    ensures seed { let before = items_of size items.old in
        let shuffle = shuffled pcg64_requests from_itself (at_seed seed.old) before in
        wide_number seed.new ≡ shuffle.state.seed }
    ensures words { let start = at_seed seed.old in
        let after = λ (n : ℕ). (after_words pcg64_requests 64 n start).seed in
        IsAfterAtMost (128 * length (items_of size items.old)) after (wide_number seed.new) }
    ensures arrangement { IsPermutation (items_of size items.old) (items_of size items.new) }
{
    let mut rng = Pcg64::new_seed(joined(seed));
    let status = calls::shuffle_items(&mut rng, items, size);
    *seed = split(rng.seed());
    status
}

/// Draws a sample as `samples::sample` does: different numbers below `count`, one into each place.
/// Returns the status 0, 1 or 2. The status is 1, and nothing is drawn, if there are more places
/// than numbers.
pub fn sample(seed: &mut Wide, count: usize, places: &mut [usize]) -> Status
    ensures status { let sampling = sampling pcg64_requests count (at_seed seed.old) places.old in
        result ≡ sampling.status }
    ensures places { let sampling = sampling pcg64_requests count (at_seed seed.old) places.old in
        places.new ≡ sampling.places }
    ensures seed { let sample = sampling pcg64_requests count (at_seed seed.old) places.old in
        wide_number seed.new ≡ sample.state.seed }
    ensures words { let start = at_seed seed.old in
        let after = λ (n : ℕ). (after_words pcg64_requests 64 n start).seed in
        IsAfterAtMost (128 * length places.old) after (wide_number seed.new) }
    ensures below { result ≡ 0 → All (λ number. number < count) places.new }
    ensures apart { result ≡ 0 → AllPairs (λ number other. number ≢ other) places.new }
{
    let mut rng = Pcg64::new_seed(joined(seed));
    let status = calls::sample(&mut rng, count, places);
    *seed = split(rng.seed());
    status
}

/// Continues a sample as `samples::extend_sample` does: keeps the first `filled` places and fills
/// the others, by a table that the caller provides. Returns the status 0, 1 or 2. The status is 1,
/// and nothing is drawn, if there are more places than numbers, or fewer places than `filled`.
pub fn extend_sample(
    seed: &mut Wide,
    count: usize,
    places: &mut [usize],
    filled: usize,
    table: &mut [usize],
) -> Status
    ensures status { let start = at_seed seed.old in
        let sampling = extending pcg64_requests count start places.old filled in
        result ≡ sampling.status }
    ensures places { let start = at_seed seed.old in
        let sampling = extending pcg64_requests count start places.old filled in
        places.new ≡ sampling.places }
    ensures seed { let start = at_seed seed.old in
        let sample = extending pcg64_requests count start places.old filled in
        wide_number seed.new ≡ sample.state.seed }
    ensures words { let start = at_seed seed.old in
        let after = λ (n : ℕ). (after_words pcg64_requests 64 n start).seed in
        IsAfterAtMost (128 * length places.old) after (wide_number seed.new) }
    ensures different { let limit = count - length places.old + filled in
        DifferentBelow limit (take filled places.old)
        → result ≡ 0 → DifferentBelow count places.new }
{
    let mut rng = Pcg64::new_seed(joined(seed));
    let status = calls::extend_sample(&mut rng, count, places, filled, table);
    *seed = split(rng.seed());
    status
}

/// Jumps ahead by `draws` draws, in at most 128 steps and one draw.
pub fn jump(seed: &mut Wide, draws: &Wide)
    ensures { wide_number seed.new ≡ seed_after (wide_number draws.now) (wide_number seed.old) }
{
    pcg64_cycles();
    let mut rng = Pcg64::new_seed(joined(seed));
    rng.jump(joined(draws));
    *seed = split(rng.seed());
}

/// Moves to the beginning of part `index` of parts of `draws` draws each. Returns the status 0, or
/// 3 if the part ends past the period; the generator does not move then.
pub fn part(seed: &mut Wide, index: u64, draws: u64) -> Status
    ensures status { let start = at_seed seed.old in
        result ≡ (parting pcg64_requests (2 ^ 126) draws index start).0 }
    ensures seed { let start = at_seed seed.old in
        wide_number seed.new ≡ (parting pcg64_requests (2 ^ 126) draws index start).1.seed }
{
    let mut rng = Pcg64::new_seed(joined(seed));
    let status = calls::part(&mut rng, index, draws);
    *seed = split(rng.seed());
    status
}

/// Writes to `draws` the number of draws, below 2^126, that lead from the first seed to the second.
/// Returns the status 0, or 4 if no number of draws does; `draws` is unchanged then.
pub fn distance(seed: &Wide, other: &Wide, draws: &mut Wide) -> Status
    ensures status { (result ≡ 0) ⊎ (result ≡ 4) }
    ensures reached { result ≡ 0 ↔ SameCycle (wide_number seed.now) (wide_number other.now) }
    ensures below { result ≡ 0 → wide_number draws.new < 2 ^ 126 }
    ensures leads { let left = seed_after (wide_number draws.new) (wide_number seed.now) in
        result ≡ 0 → left ≡ wide_number other.now }
    ensures only { (n : ℕ) → n < 2 ^ 126
        → seed_after n (wide_number seed.now) ≡ wide_number other.now
        → (result ≡ 0) × (wide_number draws.new ≡ n) }
    ensures kept { result ≡ 4 → draws.new ≡ draws.old }
{
    match Pcg64::new_seed(joined(seed)).distance(&Pcg64::new_seed(joined(other))) {
        Some(number) => {
            *draws = split(number);
            0
        }
        None => 4,
    }
}
