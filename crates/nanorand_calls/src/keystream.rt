//! The keystream of ChaCha with 20 rounds as one unbroken stream, computed eight blocks at once.
//!
//! Starting with the same state and nothing buffered, it delivers the same bytes as `Stream`, by
//! the law `nanorand::laws::streams_deliver_chacha`.
ghost use Rattle.std.specs.Prelude.{◌≡◌, ◌≢◌, ◌<◌, ◌≤◌, ◌≤ℤ◌, ◌^◌, ◌*◌, ◌/◌, ◌+◌, ◌-◌, All, IsPermutation, drop, length, ℕ, take};
ghost use Rattle.std.specs.Bool.{OnFalse, OnTrue};
ghost use Rattle.std.specs.Float.{◌≤ᶠ◌, ◌<ᶠ◌, float_one, float_zero};
ghost use Rattle.std.specs.List.{AllPairs};
ghost use Rattle.nanorand_core.specs.values.Draws.{after_words};
ghost use Rattle.nanorand_core.specs.shuffles.Shuffles.{from_all, from_itself, shuffled};
ghost use Rattle.nanorand_core.specs.values.Values.{number_of};
ghost use Rattle.nanorand.specs.generators.ChaCha.{seeded_state};
ghost use Rattle.nanorand.specs.generators.SplitMix.{seed_from};
ghost use Rattle.nanorand_calls.specs.Between.{between, between_signed};
ghost use Rattle.nanorand_calls.specs.Fractions.{IsFractionOf};
ghost use Rattle.nanorand_calls.specs.ChaChaStates.{fresh_stream, groups_at, by_groups};
ghost use Rattle.nanorand_calls.specs.Items.{items_of};
ghost use Rattle.nanorand_calls.specs.Parts.{parting};
ghost use Rattle.nanorand_core.specs.samples.Samples.{DifferentBelow};
ghost use Rattle.nanorand_calls.specs.Sampling.{extending, sampling};
ghost use Rattle.nanorand_calls.specs.Status.{drawn_or, status};
ghost use Rattle.nanorand_calls.specs.Words.{IsAfterAtMost};

use crate::calls;
use crate::chacha::{self, ChaChaState};
use crate::status::Status;
use nanorand::{BufferedRng, ChaCha20Stream, ChaChaGroups, Rng};

/// A stream that computes eight blocks at once: the state of its ChaCha, and a group of eight
/// blocks, whose last `buffered` bytes are delivered first. The bytes before them are ignored. At
/// most 511 bytes are buffered: a greater `buffered` counts as 511, and no call leaves a greater
/// one. If it is 0, the stream starts at the next block of its ChaCha.
#[derive(Clone, Copy)]
#[repr(C)]
pub struct GroupStream {
    pub chacha: ChaChaState,
    pub group: [u8; 512],
    pub buffered: u64,
}

fn loaded(stream: &GroupStream) -> ChaCha20Stream
    ensures { result ≡ groups_at stream.now }
{
    let chacha = &stream.chacha;
    let rng = ChaChaGroups::at(chacha.key, chacha.nonce, chacha.counter);
    let buffered = 511.min(stream.buffered) as usize;
    let group = &stream.group[..];
    BufferedRng::with_rest(rng, &group[512 - buffered..]).unwrap()
}

fn store(stream: &mut GroupStream, rng: &ChaCha20Stream)
    ensures state { groups_at stream.new ≡ rng.now }
    ensures buffered { stream.new.buffered < 512 }
{
    let rest = rng.rest();
    let group = &mut stream.group[..];
    group[512 - rest.len()..].copy_from_slice(rest);
    stream.buffered = rest.len() as u64;
    let rng = rng.inner();
    stream.chacha = ChaChaState {
        key: rng.key(),
        nonce: rng.nonce(),
        counter: rng.counter(),
    };
}

/// Fills the slice from the buffered bytes, and returns whether there were enough of them. If not,
/// nothing changes.
#[inline]
fn served(stream: &mut GroupStream, buffer: &mut [u8]) -> bool
    ensures bytes { OnTrue result
        (buffer.new ≡ by_groups.bytes (groups_at stream.old) (length buffer.old)) }
    ensures state { OnTrue result
        (groups_at stream.new ≡ by_groups.after (groups_at stream.old) (length buffer.old)) }
    ensures buffered { OnTrue result (stream.new.buffered < 512) }
    ensures refused { OnFalse result ((stream.new ≡ stream.old) × (buffer.new ≡ buffer.old)) }
{
    let buffered = 511.min(stream.buffered) as usize;
    let length = buffer.len();
    if buffered < length {
        return false;
    }
    let group = &stream.group[..];
    let start = 512 - buffered;
    buffer.copy_from_slice(&group[start..start + length]);
    stream.buffered = (buffered - length) as u64;
    true
}

/// Makes the key and the nonce from a number, as `Keystream::seed_from_u64` does. Nothing is
/// buffered.
pub fn seed_from_u64(stream: &mut GroupStream, number: u64)
    ensures state { groups_at stream.new ≡ fresh_stream (seeded_state (seed_from 40 number)) }
    ensures buffered { stream.new.buffered ≡ 0 }
{
    chacha::seed_from_u64::<20>(&mut stream.chacha, number);
    stream.buffered = 0;
}

/// Draws a 64-bit number: the next 8 bytes, in little-endian order.
pub fn number(stream: &mut GroupStream) -> u64
    ensures value { result ≡ number_of (by_groups.bytes (groups_at stream.old) 8) }
    ensures state { groups_at stream.new ≡ by_groups.after (groups_at stream.old) 8 }
    ensures buffered { stream.new.buffered < 512 }
{
    let mut bytes = [0; 8];
    fill_bytes(stream, &mut bytes[..]);
    u64::from_le_bytes(bytes)
}

/// Fills the slice with the next bytes, by one request.
pub fn fill_bytes(stream: &mut GroupStream, buffer: &mut [u8])
    ensures bytes { buffer.new ≡ by_groups.bytes (groups_at stream.old) (length buffer.old) }
    ensures state { let start = groups_at stream.old in
        groups_at stream.new ≡ by_groups.after start (length buffer.old) }
    ensures buffered { stream.new.buffered < 512 }
{
    if served(stream, buffer) {
        return;
    }
    let mut rng = loaded(stream);
    rng.fill_bytes(buffer);
    store(stream, &rng);
}

/// Draws a number in [0, 1): the top 53 bits of a 64-bit word as a fraction, floor(word / 2^11) /
/// 2^53. The word is the next 8 bytes, in little-endian order.
pub fn float(stream: &mut GroupStream) -> f64
    ensures value { IsFractionOf (number_of (by_groups.bytes (groups_at stream.old) 8)) result }
    ensures within { (float_zero ≤ᶠ result) × (result <ᶠ float_one) }
    ensures state { groups_at stream.new ≡ by_groups.after (groups_at stream.old) 8 }
    ensures buffered { stream.new.buffered < 512 }
{
    calls::fraction(number(stream))
}

/// Draws a number below `n`, by rejection sampling of 64-bit words, and returns the number itself.
/// If `n` is 0, the function returns 0 and draws nothing. If 128 words in a row were rejected, it
/// returns `n`; the words stay consumed. The probability of that is below 2^-128.
pub fn below(stream: &mut GroupStream, n: u64) -> u64
    ensures zero { n ≡ 0 → (result ≡ 0) × (groups_at stream.new ≡ groups_at stream.old) }
    ensures number { let draw = between by_groups 64 0 (n - 1) (groups_at stream.old) in
        n ≢ 0 → result ≡ drawn_or n draw.0 }
    ensures within { result ≤ n }
    ensures state { let draw = between by_groups 64 0 (n - 1) (groups_at stream.old) in
        n ≢ 0 → groups_at stream.new ≡ draw.1 }
    ensures words { let start = groups_at stream.old in
        let after = λ (k : ℕ). after_words by_groups 64 k start in
        IsAfterAtMost 128 after (groups_at stream.new) }
    ensures buffered { stream.new.buffered < 512 }
{
    let mut rng = loaded(stream);
    let number = calls::below(&mut rng, n);
    store(stream, &rng);
    number
}

/// Draws a number from `first..=last`, by rejection sampling of 32-bit words. Returns the status 0,
/// 1 or 2, and writes `number` only if the status is 0.
pub fn range_u32(stream: &mut GroupStream, first: u32, last: u32, number: &mut u32) -> Status
    ensures status { let draw = between by_groups 32 first last (groups_at stream.old) in
        result ≡ status draw.0 }
    ensures number { let draw = between by_groups 32 first last (groups_at stream.old) in
        number.new ≡ drawn_or number.old draw.0 }
    ensures within { result ≡ 0 → (first ≤ number.new) × (number.new ≤ last) }
    ensures state { let draw = between by_groups 32 first last (groups_at stream.old) in
        groups_at stream.new ≡ draw.1 }
    ensures words { let start = groups_at stream.old in
        let after = λ (n : ℕ). after_words by_groups 32 n start in
        IsAfterAtMost 128 after (groups_at stream.new) }
    ensures buffered { stream.new.buffered < 512 }
{
    let mut rng = loaded(stream);
    let status = calls::range_u32(&mut rng, first, last, number);
    store(stream, &rng);
    status
}

/// Draws a number from `first..=last` as `range_u32` does, but by 64-bit words.
pub fn range_u64(stream: &mut GroupStream, first: u64, last: u64, number: &mut u64) -> Status
    ensures status { let draw = between by_groups 64 first last (groups_at stream.old) in
        result ≡ status draw.0 }
    ensures number { let draw = between by_groups 64 first last (groups_at stream.old) in
        number.new ≡ drawn_or number.old draw.0 }
    ensures within { result ≡ 0 → (first ≤ number.new) × (number.new ≤ last) }
    ensures state { let draw = between by_groups 64 first last (groups_at stream.old) in
        groups_at stream.new ≡ draw.1 }
    ensures words { let start = groups_at stream.old in
        let after = λ (n : ℕ). after_words by_groups 64 n start in
        IsAfterAtMost 128 after (groups_at stream.new) }
    ensures buffered { stream.new.buffered < 512 }
{
    let mut rng = loaded(stream);
    let status = calls::range_u64(&mut rng, first, last, number);
    store(stream, &rng);
    status
}

/// Draws a signed number from `first..=last` as `range_u32` does, but by 64-bit words.
pub fn range_i64(stream: &mut GroupStream, first: i64, last: i64, number: &mut i64) -> Status
    ensures status { let start = groups_at stream.old in
        let draw = between_signed by_groups 64 first last start in
        result ≡ status draw.0 }
    ensures number { let start = groups_at stream.old in
        let draw = between_signed by_groups 64 first last start in
        number.new ≡ drawn_or number.old draw.0 }
    ensures within { result ≡ 0 → (first ≤ℤ number.new) × (number.new ≤ℤ last) }
    ensures state { let start = groups_at stream.old in
        let draw = between_signed by_groups 64 first last start in
        groups_at stream.new ≡ draw.1 }
    ensures words { let start = groups_at stream.old in
        let after = λ (n : ℕ). after_words by_groups 64 n start in
        IsAfterAtMost 128 after (groups_at stream.new) }
    ensures buffered { stream.new.buffered < 512 }
{
    let mut rng = loaded(stream);
    let status = calls::range_i64(&mut rng, first, last, number);
    store(stream, &rng);
    status
}

/// Draws an index or a length from `first..=last` as `range_u32` does, but by 64-bit words.
pub fn range_usize(
    stream: &mut GroupStream,
    first: usize,
    last: usize,
    number: &mut usize,
) -> Status
    ensures status { let draw = between by_groups 64 first last (groups_at stream.old) in
        result ≡ status draw.0 }
    ensures number { let draw = between by_groups 64 first last (groups_at stream.old) in
        number.new ≡ drawn_or number.old draw.0 }
    ensures within { result ≡ 0 → (first ≤ number.new) × (number.new ≤ last) }
    ensures state { let draw = between by_groups 64 first last (groups_at stream.old) in
        groups_at stream.new ≡ draw.1 }
    ensures words { let start = groups_at stream.old in
        let after = λ (n : ℕ). after_words by_groups 64 n start in
        IsAfterAtMost 128 after (groups_at stream.new) }
    ensures buffered { stream.new.buffered < 512 }
{
    let mut rng = loaded(stream);
    let status = calls::range_usize(&mut rng, first, last, number);
    store(stream, &rng);
    status
}

/// Shuffles the items as `Rng::shuffle` does. Returns the status 0 or 2; after 2, the swaps that
/// were made stay.
pub fn shuffle(stream: &mut GroupStream, items: &mut [usize]) -> Status
    ensures status { let start = groups_at stream.old in
        let shuffle = shuffled by_groups from_itself start items.old in
        result ≡ status shuffle.answer }
    ensures items { let start = groups_at stream.old in
        let shuffle = shuffled by_groups from_itself start items.old in
        items.new ≡ shuffle.items }
    ensures state { let start = groups_at stream.old in
        let shuffle = shuffled by_groups from_itself start items.old in
        groups_at stream.new ≡ shuffle.state }
    ensures words { let start = groups_at stream.old in
        let after = λ (n : ℕ). after_words by_groups 64 n start in
        IsAfterAtMost (128 * length items.old) after (groups_at stream.new) }
    ensures arrangement { IsPermutation items.old items.new }
    ensures buffered { stream.new.buffered < 512 }
{
    let mut rng = loaded(stream);
    let status = calls::shuffle(&mut rng, items);
    store(stream, &rng);
    status
}

/// Shuffles the items as the crate `nanorand` 0.7.0 does: see `shuffles::shuffle_full`. Returns the
/// status 0 or 2, as `shuffle` does.
pub fn shuffle_full(stream: &mut GroupStream, items: &mut [usize]) -> Status
    ensures status { let start = groups_at stream.old in
        let shuffle = shuffled by_groups from_all start items.old in
        result ≡ status shuffle.answer }
    ensures items { let start = groups_at stream.old in
        let shuffle = shuffled by_groups from_all start items.old in
        items.new ≡ shuffle.items }
    ensures state { let start = groups_at stream.old in
        let shuffle = shuffled by_groups from_all start items.old in
        groups_at stream.new ≡ shuffle.state }
    ensures words { let start = groups_at stream.old in
        let after = λ (n : ℕ). after_words by_groups 64 n start in
        IsAfterAtMost (128 * length items.old) after (groups_at stream.new) }
    ensures arrangement { IsPermutation items.old items.new }
    ensures buffered { stream.new.buffered < 512 }
{
    let mut rng = loaded(stream);
    let status = calls::shuffle_full(&mut rng, items);
    store(stream, &rng);
    status
}

/// Shuffles items of any type, which are given as the bytes that they are in memory: items of
/// `size` bytes each, one after another. Bytes at the end that are fewer than `size` are no item,
/// and stay. The items are shuffled as `shuffle` shuffles as many numbers, by the same draws.
/// Returns the status 0 or 2; after 2, the swaps that were made stay. If `size` is 0, there is no
/// item, and nothing is drawn.
pub fn shuffle_items(stream: &mut GroupStream, items: &mut [u8], size: usize) -> Status
    ensures status { let before = items_of size items.old in
        let shuffle = shuffled by_groups from_itself (groups_at stream.old) before in
        result ≡ status shuffle.answer }
    ensures items { let before = items_of size items.old in
        let shuffle = shuffled by_groups from_itself (groups_at stream.old) before in
        items_of size items.new ≡ shuffle.items }
    ensures rest { let whole = length items.old / size * size in
        drop whole items.new ≡ drop whole items.old }
    ensures state { let before = items_of size items.old in
        let shuffle = shuffled by_groups from_itself (groups_at stream.old) before in
        groups_at stream.new ≡ shuffle.state }
    ensures words { let start = groups_at stream.old in
        let after = λ (n : ℕ). after_words by_groups 64 n start in
        IsAfterAtMost (128 * length (items_of size items.old)) after (groups_at stream.new) }
    ensures arrangement { IsPermutation (items_of size items.old) (items_of size items.new) }
    ensures buffered { stream.new.buffered < 512 }
{
    let mut rng = loaded(stream);
    let status = calls::shuffle_items(&mut rng, items, size);
    store(stream, &rng);
    status
}

/// Draws a sample as `samples::sample` does: different numbers below `count`, one into each place.
/// Returns the status 0, 1 or 2. The status is 1, and nothing is drawn, if there are more places
/// than numbers.
pub fn sample(stream: &mut GroupStream, count: usize, places: &mut [usize]) -> Status
    ensures status { let start = groups_at stream.old in
        let sampling = sampling by_groups count start places.old in
        result ≡ sampling.status }
    ensures places { let start = groups_at stream.old in
        let sampling = sampling by_groups count start places.old in
        places.new ≡ sampling.places }
    ensures state { let sample = sampling by_groups count (groups_at stream.old) places.old in
        groups_at stream.new ≡ sample.state }
    ensures words { let start = groups_at stream.old in
        let after = λ (n : ℕ). after_words by_groups 64 n start in
        IsAfterAtMost (128 * length places.old) after (groups_at stream.new) }
    ensures below { result ≡ 0 → All (λ number. number < count) places.new }
    ensures apart { result ≡ 0 → AllPairs (λ number other. number ≢ other) places.new }
    ensures buffered { stream.new.buffered < 512 }
{
    let mut rng = loaded(stream);
    let status = calls::sample(&mut rng, count, places);
    store(stream, &rng);
    status
}

/// Continues a sample as `samples::extend_sample` does: keeps the first `filled` places and fills
/// the others, by a table that the caller provides. Returns the status 0, 1 or 2. The status is 1,
/// and nothing is drawn, if there are more places than numbers, or fewer places than `filled`.
pub fn extend_sample(
    stream: &mut GroupStream,
    count: usize,
    places: &mut [usize],
    filled: usize,
    table: &mut [usize],
) -> Status
    ensures status { let start = groups_at stream.old in
        let sampling = extending by_groups count start places.old filled in
        result ≡ sampling.status }
    ensures places { let start = groups_at stream.old in
        let sampling = extending by_groups count start places.old filled in
        places.new ≡ sampling.places }
    ensures state { let start = groups_at stream.old in
        let sample = extending by_groups count start places.old filled in
        groups_at stream.new ≡ sample.state }
    ensures words { let start = groups_at stream.old in
        let after = λ (n : ℕ). after_words by_groups 64 n start in
        IsAfterAtMost (128 * length places.old) after (groups_at stream.new) }
    ensures different { let limit = count - length places.old + filled in
        DifferentBelow limit (take filled places.old)
        → result ≡ 0 → DifferentBelow count places.new }
    ensures buffered { stream.new.buffered < 512 }
{
    let mut rng = loaded(stream);
    let status = calls::extend_sample(&mut rng, count, places, filled, table);
    store(stream, &rng);
    status
}

/// Moves to the beginning of part `index` of parts of `draws` draws each. Returns the status 0, or
/// 3 if the part ends past the period; the generator does not move then.
pub fn part(stream: &mut GroupStream, index: u64, draws: u64) -> Status
    ensures status { let start = groups_at stream.old in
        result ≡ (parting by_groups (2 ^ 67) draws index start).0 }
    ensures state { let start = groups_at stream.old in
        groups_at stream.new ≡ (parting by_groups (2 ^ 67) draws index start).1 }
    ensures buffered { stream.new.buffered < 512 }
{
    let mut rng = loaded(stream);
    let status = calls::part(&mut rng, index, draws);
    store(stream, &rng);
    status
}
