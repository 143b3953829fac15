//! The calls on ChaCha, whose key, nonce and counter are in the caller's memory. Each request
//! starts with a new block.
//!
//! The docs of `nanorand::ChaCha` say what it is suitable for and what not.
ghost use Rattle.std.specs.Prelude.{◌≡◌, ◌+◌, ◌%◌, ◌^◌, ◌≢◌, ◌<◌, ◌≤◌, ◌≤ℤ◌, ◌*◌, ◌/◌, ◌-◌};
ghost use Rattle.std.specs.Prelude.{ℕ, drop, length, All, IsPermutation, take};
ghost use Rattle.std.specs.Fn.{iterate};
ghost use Rattle.std.specs.Int.{div_ceil};
ghost use Rattle.nanorand_core.specs.values.Values.{number_of};
ghost use Rattle.nanorand.specs.generators.ChaCha.{chacha_block, chacha_requests, counter, key_of, next_state, nonce_of, seeded_state};
ghost use Rattle.nanorand.specs.generators.SplitMix.{seed_from};
ghost use Rattle.nanorand_calls.specs.ChaChaStates.{chacha_at};
ghost use Rattle.std.specs.Float.{◌≤ᶠ◌, ◌<ᶠ◌, float_one, float_zero};
ghost use Rattle.std.specs.List.{AllPairs};
ghost use Rattle.nanorand_core.specs.values.Draws.{after_words};
ghost use Rattle.nanorand_core.specs.shuffles.Shuffles.{from_all, from_itself, shuffled};
ghost use Rattle.nanorand_calls.specs.Between.{between, between_signed};
ghost use Rattle.nanorand_calls.specs.Fractions.{IsFractionOf};
ghost use Rattle.nanorand_calls.specs.Items.{items_of};
ghost use Rattle.nanorand_calls.specs.Parts.{parting};
ghost use Rattle.nanorand_core.specs.samples.Samples.{DifferentBelow};
ghost use Rattle.nanorand_calls.specs.Sampling.{extending, sampling};
ghost use Rattle.nanorand_calls.specs.Status.{drawn_or, status};
ghost use Rattle.nanorand_calls.specs.Words.{IsAfterAtMost};

use crate::calls;
use crate::status::Status;
use nanorand::laws::chacha_counter;
use nanorand::{Blocks, ChaCha, Rng};

/// The state of ChaCha: its key, its nonce, and its counter, which is the index of the next block.
/// Each request starts with a new block. After the block of the greatest counter, 2^64 - 1, the
/// counter is 0 again.
#[derive(Clone, Copy)]
#[repr(C)]
pub struct ChaChaState {
    pub key: [u8; 32],
    pub nonce: [u8; 8],
    pub counter: u64,
}

// Returns the generator in this state. After n draws, its counter is greater by n, modulo 2^64, and
// its key and nonce are the same.
pub(crate) fn loaded<const ROUNDS: u8>(state: &ChaChaState) -> ChaCha<ROUNDS>
    requires { ROUNDS % 2 ≡ 0 }
    ensures state { result ≡ chacha_at state.now }
    ensures places { (n : ℕ)
        → counter (iterate next_state n result) ≡ (state.now.counter + n) % 2 ^ 64 }
    ensures keys { (n : ℕ) → key_of (iterate next_state n result) ≡ state.now.key }
    ensures nonces { (n : ℕ) → nonce_of (iterate next_state n result) ≡ state.now.nonce }
{
    chacha_counter();
    ChaCha::at(state.key, state.nonce, state.counter)
}

pub(crate) fn store<const ROUNDS: u8>(state: &mut ChaChaState, rng: &ChaCha<ROUNDS>)
    ensures state { chacha_at state.new ≡ rng.now }
    ensures counter { state.new.counter ≡ counter rng.now }
    ensures key { state.new.key ≡ key_of rng.now }
    ensures nonce { state.new.nonce ≡ nonce_of rng.now }
{
    *state = ChaChaState {
        key: rng.key(),
        nonce: rng.nonce(),
        counter: rng.counter(),
    };
}

/// Makes the key and the nonce from a number, as `ChaCha::seed_from_u64` does. The counter is 0.
pub fn seed_from_u64<const ROUNDS: u8>(state: &mut ChaChaState, number: u64)
    requires { ROUNDS % 2 ≡ 0 }
    ensures { chacha_at state.new ≡ seeded_state (seed_from 40 number) }
{
    store(state, &ChaCha::<ROUNDS>::seed_from_u64(number));
}

/// Writes the block at the counter to `out`, and adds 1 to the counter, modulo 2^64.
pub fn block<const ROUNDS: u8>(state: &mut ChaChaState, out: &mut [u8; 64])
    requires { ROUNDS % 2 ≡ 0 }
    ensures block { out.new ≡ chacha_block ROUNDS (chacha_at state.old) }
    ensures counter { state.new.counter ≡ (state.old.counter + 1) % 2 ^ 64 }
    ensures key { state.new.key ≡ state.old.key }
    ensures nonce { state.new.nonce ≡ state.old.nonce }
    ensures state { chacha_at state.new ≡ next_state (chacha_at state.old) }
{
    let mut rng = loaded::<ROUNDS>(state);
    *out = rng.rand();
    store(state, &rng);
}

/// Draws a 64-bit number: the next 8 bytes, in little-endian order.
pub fn number<const ROUNDS: u8>(state: &mut ChaChaState) -> u64
    requires { ROUNDS % 2 ≡ 0 }
    ensures value { result ≡ number_of ((chacha_requests ROUNDS).bytes (chacha_at state.old) 8) }
    ensures key { state.new.key ≡ state.old.key }
    ensures nonce { state.new.nonce ≡ state.old.nonce }
    ensures state { chacha_at state.new ≡ (chacha_requests ROUNDS).after (chacha_at state.old) 8 }
{
    let mut rng = loaded::<ROUNDS>(state);
    let value = rng.generate();
    store(state, &rng);
    value
}

/// Fills the slice with the next bytes, by one request.
pub fn fill_bytes<const ROUNDS: u8>(state: &mut ChaChaState, buffer: &mut [u8])
    requires { ROUNDS % 2 ≡ 0 }
    ensures bytes { let start = chacha_at state.old in
        buffer.new ≡ (chacha_requests ROUNDS).bytes start (length buffer.old) }
    ensures counter { let blocks = div_ceil (length buffer.old) 64 in
        state.new.counter ≡ (state.old.counter + blocks) % 2 ^ 64 }
    ensures key { state.new.key ≡ state.old.key }
    ensures nonce { state.new.nonce ≡ state.old.nonce }
    ensures state { let left = (chacha_requests ROUNDS).after (chacha_at state.old) in
        chacha_at state.new ≡ left (length buffer.old) }
{
    let mut rng = loaded::<ROUNDS>(state);
    rng.fill_bytes(buffer);
    store(state, &rng);
}

/// Draws a number in [0, 1): the top 53 bits of a 64-bit word as a fraction, floor(word / 2^11) /
/// 2^53. The word is the next 8 bytes, in little-endian order.
pub fn float<const ROUNDS: u8>(state: &mut ChaChaState) -> f64
    requires { ROUNDS % 2 ≡ 0 }
    ensures value { let word = number_of ((chacha_requests ROUNDS).bytes (chacha_at state.old) 8) in
        IsFractionOf word result }
    ensures within { (float_zero ≤ᶠ result) × (result <ᶠ float_one) }
    ensures key { state.new.key ≡ state.old.key }
    ensures nonce { state.new.nonce ≡ state.old.nonce }
    ensures state { chacha_at state.new ≡ (chacha_requests ROUNDS).after (chacha_at state.old) 8 }
{
    let mut rng = loaded::<ROUNDS>(state);
    let number = calls::float(&mut rng);
    store(state, &rng);
    number
}

/// Draws a number below `n`, by rejection sampling of 64-bit words, and returns the number itself.
/// If `n` is 0, the function returns 0 and draws nothing. If 128 words in a row were rejected, it
/// returns `n`; the words stay consumed. The probability of that is below 2^-128.
pub fn below<const ROUNDS: u8>(state: &mut ChaChaState, n: u64) -> u64
    requires { ROUNDS % 2 ≡ 0 }
    ensures zero { n ≡ 0 → (result ≡ 0) × (chacha_at state.new ≡ chacha_at state.old) }
    ensures number { let start = chacha_at state.old in
        let draw = between (chacha_requests ROUNDS) 64 0 (n - 1) start in
        n ≢ 0 → result ≡ drawn_or n draw.0 }
    ensures within { result ≤ n }
    ensures state { let start = chacha_at state.old in
        let draw = between (chacha_requests ROUNDS) 64 0 (n - 1) start in
        n ≢ 0 → chacha_at state.new ≡ draw.1 }
    ensures words { let start = chacha_at state.old in
        let after = λ (k : ℕ). after_words (chacha_requests ROUNDS) 64 k start in
        IsAfterAtMost 128 after (chacha_at state.new) }
{
    let mut rng = loaded::<ROUNDS>(state);
    let number = calls::below(&mut rng, n);
    store(state, &rng);
    number
}

/// Draws a number from `first..=last`, by rejection sampling of 32-bit words. Returns the status 0,
/// 1 or 2, and writes `number` only if the status is 0.
pub fn range_u32<const ROUNDS: u8>(
    state: &mut ChaChaState,
    first: u32,
    last: u32,
    number: &mut u32,
) -> Status
    requires { ROUNDS % 2 ≡ 0 }
    ensures status { let start = chacha_at state.old in
        let draw = between (chacha_requests ROUNDS) 32 first last start in
        result ≡ status draw.0 }
    ensures number { let start = chacha_at state.old in
        let draw = between (chacha_requests ROUNDS) 32 first last start in
        number.new ≡ drawn_or number.old draw.0 }
    ensures within { result ≡ 0 → (first ≤ number.new) × (number.new ≤ last) }
    ensures state { let start = chacha_at state.old in
        let draw = between (chacha_requests ROUNDS) 32 first last start in
        chacha_at state.new ≡ draw.1 }
    ensures words { let start = chacha_at state.old in
        let after = λ (n : ℕ). after_words (chacha_requests ROUNDS) 32 n start in
        IsAfterAtMost 128 after (chacha_at state.new) }
{
    let mut rng = loaded::<ROUNDS>(state);
    let status = calls::range_u32(&mut rng, first, last, number);
    store(state, &rng);
    status
}

/// Draws a number from `first..=last` as `range_u32` does, but by 64-bit words.
pub fn range_u64<const ROUNDS: u8>(
    state: &mut ChaChaState,
    first: u64,
    last: u64,
    number: &mut u64,
) -> Status
    requires { ROUNDS % 2 ≡ 0 }
    ensures status { let start = chacha_at state.old in
        let draw = between (chacha_requests ROUNDS) 64 first last start in
        result ≡ status draw.0 }
    ensures number { let start = chacha_at state.old in
        let draw = between (chacha_requests ROUNDS) 64 first last start in
        number.new ≡ drawn_or number.old draw.0 }
    ensures within { result ≡ 0 → (first ≤ number.new) × (number.new ≤ last) }
    ensures state { let start = chacha_at state.old in
        let draw = between (chacha_requests ROUNDS) 64 first last start in
        chacha_at state.new ≡ draw.1 }
    ensures words { let start = chacha_at state.old in
        let after = λ (n : ℕ). after_words (chacha_requests ROUNDS) 64 n start in
        IsAfterAtMost 128 after (chacha_at state.new) }
{
    let mut rng = loaded::<ROUNDS>(state);
    let status = calls::range_u64(&mut rng, first, last, number);
    store(state, &rng);
    status
}

/// Draws a signed number from `first..=last` as `range_u32` does, but by 64-bit words.
pub fn range_i64<const ROUNDS: u8>(
    state: &mut ChaChaState,
    first: i64,
    last: i64,
    number: &mut i64,
) -> Status
    requires { ROUNDS % 2 ≡ 0 }
    ensures status { let start = chacha_at state.old in
        let draw = between_signed (chacha_requests ROUNDS) 64 first last start in
        result ≡ status draw.0 }
    ensures number { let start = chacha_at state.old in
        let draw = between_signed (chacha_requests ROUNDS) 64 first last start in
        number.new ≡ drawn_or number.old draw.0 }
    ensures within { result ≡ 0 → (first ≤ℤ number.new) × (number.new ≤ℤ last) }
    ensures state { let start = chacha_at state.old in
        let draw = between_signed (chacha_requests ROUNDS) 64 first last start in
        chacha_at state.new ≡ draw.1 }
    ensures words { let start = chacha_at state.old in
        let after = λ (n : ℕ). after_words (chacha_requests ROUNDS) 64 n start in
        IsAfterAtMost 128 after (chacha_at state.new) }
{
    let mut rng = loaded::<ROUNDS>(state);
    let status = calls::range_i64(&mut rng, first, last, number);
    store(state, &rng);
    status
}

/// Draws an index or a length from `first..=last` as `range_u32` does, but by 64-bit words.
pub fn range_usize<const ROUNDS: u8>(
    state: &mut ChaChaState,
    first: usize,
    last: usize,
    number: &mut usize,
) -> Status
    requires { ROUNDS % 2 ≡ 0 }
    ensures status { let start = chacha_at state.old in
        let draw = between (chacha_requests ROUNDS) 64 first last start in
        result ≡ status draw.0 }
    ensures number { let start = chacha_at state.old in
        let draw = between (chacha_requests ROUNDS) 64 first last start in
        number.new ≡ drawn_or number.old draw.0 }
    ensures within { result ≡ 0 → (first ≤ number.new) × (number.new ≤ last) }
    ensures state { let start = chacha_at state.old in
        let draw = between (chacha_requests ROUNDS) 64 first last start in
        chacha_at state.new ≡ draw.1 }
    ensures words { let start = chacha_at state.old in
        let after = λ (n : ℕ). after_words (chacha_requests ROUNDS) 64 n start in
        IsAfterAtMost 128 after (chacha_at state.new) }
{
    let mut rng = loaded::<ROUNDS>(state);
    let status = calls::range_usize(&mut rng, first, last, number);
    store(state, &rng);
    status
}

/// Shuffles the items as `Rng::shuffle` does. Returns the status 0 or 2; after 2, the swaps that
/// were made stay.
pub fn shuffle<const ROUNDS: u8>(state: &mut ChaChaState, items: &mut [usize]) -> Status
    requires { ROUNDS % 2 ≡ 0 }
    ensures status { let start = chacha_at state.old in
        let shuffle = shuffled (chacha_requests ROUNDS) from_itself start items.old in
        result ≡ status shuffle.answer }
    ensures items { let start = chacha_at state.old in
        let shuffle = shuffled (chacha_requests ROUNDS) from_itself start items.old in
        items.new ≡ shuffle.items }
    ensures state { let start = chacha_at state.old in
        let shuffle = shuffled (chacha_requests ROUNDS) from_itself start items.old in
        chacha_at state.new ≡ shuffle.state }
    ensures words { let start = chacha_at state.old in
        let after = λ (n : ℕ). after_words (chacha_requests ROUNDS) 64 n start in
        IsAfterAtMost (128 * length items.old) after (chacha_at state.new) }
    ensures arrangement { IsPermutation items.old items.new }
{
    let mut rng = loaded::<ROUNDS>(state);
    let status = calls::shuffle(&mut rng, items);
    store(state, &rng);
    status
}

/// Shuffles the items as the crate `nanorand` 0.7.0 does: see `shuffles::shuffle_full`. Returns the
/// status 0 or 2, as `shuffle` does.
pub fn shuffle_full<const ROUNDS: u8>(state: &mut ChaChaState, items: &mut [usize]) -> Status
    requires { ROUNDS % 2 ≡ 0 }
    ensures status { let start = chacha_at state.old in
        let shuffle = shuffled (chacha_requests ROUNDS) from_all start items.old in
        result ≡ status shuffle.answer }
    ensures items { let start = chacha_at state.old in
        let shuffle = shuffled (chacha_requests ROUNDS) from_all start items.old in
        items.new ≡ shuffle.items }
    ensures state { let start = chacha_at state.old in
        let shuffle = shuffled (chacha_requests ROUNDS) from_all start items.old in
        chacha_at state.new ≡ shuffle.state }
    ensures words { let start = chacha_at state.old in
        let after = λ (n : ℕ). after_words (chacha_requests ROUNDS) 64 n start in
        IsAfterAtMost (128 * length items.old) after (chacha_at state.new) }
    ensures arrangement { IsPermutation items.old items.new }
{
    let mut rng = loaded::<ROUNDS>(state);
    let status = calls::shuffle_full(&mut rng, items);
    store(state, &rng);
    status
}

/// Shuffles items of any type, which are given as the bytes that they are in memory: items of
/// `size` bytes each, one after another. Bytes at the end that are fewer than `size` are no item,
/// and stay. The items are shuffled as `shuffle` shuffles as many numbers, by the same draws.
/// Returns the status 0 or 2; after 2, the swaps that were made stay. If `size` is 0, there is no
/// item, and nothing is drawn.
pub fn shuffle_items<const ROUNDS: u8>(
    state: &mut ChaChaState,
    items: &mut [u8],
    size: usize,
) -> Status
    requires { ROUNDS % 2 ≡ 0 }
    ensures status { let before = items_of size items.old in
        let shuffle = shuffled (chacha_requests ROUNDS) from_itself (chacha_at state.old) before in
        result ≡ status shuffle.answer }
    ensures items { let before = items_of size items.old in
        let shuffle = shuffled (chacha_requests ROUNDS) from_itself (chacha_at state.old) before in
        items_of size items.new ≡ shuffle.items }
    ensures rest { let whole = length items.old / size * size in
        drop whole items.new ≡ drop whole items.old }
    ensures state { let before = items_of size items.old in
        let shuffle = shuffled (chacha_requests ROUNDS) from_itself (chacha_at state.old) before in
        chacha_at state.new ≡ shuffle.state }
    ensures words { let start = chacha_at state.old in
        let after = λ (n : ℕ). after_words (chacha_requests ROUNDS) 64 n start in
        IsAfterAtMost (128 * length (items_of size items.old)) after (chacha_at state.new) }
    ensures arrangement { IsPermutation (items_of size items.old) (items_of size items.new) }
{
    let mut rng = loaded::<ROUNDS>(state);
    let status = calls::shuffle_items(&mut rng, items, size);
    store(state, &rng);
    status
}

/// Draws a sample as `samples::sample` does: different numbers below `count`, one into each place.
/// Returns the status 0, 1 or 2. The status is 1, and nothing is drawn, if there are more places
/// than numbers.
pub fn sample<const ROUNDS: u8>(
    state: &mut ChaChaState,
    count: usize,
    places: &mut [usize],
) -> Status
    requires { ROUNDS % 2 ≡ 0 }
    ensures status { let start = chacha_at state.old in
        let sampling = sampling (chacha_requests ROUNDS) count start places.old in
        result ≡ sampling.status }
    ensures places { let start = chacha_at state.old in
        let sampling = sampling (chacha_requests ROUNDS) count start places.old in
        places.new ≡ sampling.places }
    ensures state { let start = chacha_at state.old in
        let sample = sampling (chacha_requests ROUNDS) count start places.old in
        chacha_at state.new ≡ sample.state }
    ensures words { let start = chacha_at state.old in
        let after = λ (n : ℕ). after_words (chacha_requests ROUNDS) 64 n start in
        IsAfterAtMost (128 * length places.old) after (chacha_at state.new) }
    ensures below { result ≡ 0 → All (λ number. number < count) places.new }
    ensures apart { result ≡ 0 → AllPairs (λ number other. number ≢ other) places.new }
{
    let mut rng = loaded::<ROUNDS>(state);
    let status = calls::sample(&mut rng, count, places);
    store(state, &rng);
    status
}

/// Continues a sample as `samples::extend_sample` does: keeps the first `filled` places and fills
/// the others, by a table that the caller provides. Returns the status 0, 1 or 2. The status is 1,
/// and nothing is drawn, if there are more places than numbers, or fewer places than `filled`.
pub fn extend_sample<const ROUNDS: u8>(
    state: &mut ChaChaState,
    count: usize,
    places: &mut [usize],
    filled: usize,
    table: &mut [usize],
) -> Status
    requires { ROUNDS % 2 ≡ 0 }
    ensures status { let start = chacha_at state.old in
        let sampling = extending (chacha_requests ROUNDS) count start places.old filled in
        result ≡ sampling.status }
    ensures places { let start = chacha_at state.old in
        let sampling = extending (chacha_requests ROUNDS) count start places.old filled in
        places.new ≡ sampling.places }
    ensures state { let start = chacha_at state.old in
        let sample = extending (chacha_requests ROUNDS) count start places.old filled in
        chacha_at state.new ≡ sample.state }
    ensures words { let start = chacha_at state.old in
        let after = λ (n : ℕ). after_words (chacha_requests ROUNDS) 64 n start in
        IsAfterAtMost (128 * length places.old) after (chacha_at state.new) }
    ensures different { let limit = count - length places.old + filled in
        DifferentBelow limit (take filled places.old)
        → result ≡ 0 → DifferentBelow count places.new }
{
    let mut rng = loaded::<ROUNDS>(state);
    let status = calls::extend_sample(&mut rng, count, places, filled, table);
    store(state, &rng);
    status
}

/// Moves to the beginning of part `index` of parts of `draws` draws each. Returns the status 0, or
/// 3 if the part ends past the period; the generator does not move then.
pub fn part<const ROUNDS: u8>(state: &mut ChaChaState, index: u64, draws: u64) -> Status
    requires { ROUNDS % 2 ≡ 0 }
    ensures status { let start = chacha_at state.old in
        result ≡ (parting (chacha_requests ROUNDS) (2 ^ 64) draws index start).0 }
    ensures state { let start = chacha_at state.old in
        chacha_at state.new ≡ (parting (chacha_requests ROUNDS) (2 ^ 64) draws index start).1 }
{
    let mut rng = loaded::<ROUNDS>(state);
    let status = calls::part(&mut rng, index, draws);
    store(state, &rng);
    status
}
