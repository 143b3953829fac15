//! The keystream of ChaCha with 20 rounds as one unbroken stream, computed eight blocks at once.
//!
//! Starting with the same state and nothing buffered, it delivers the same bytes as `Stream`, by
//! the law `nanorand::laws::streams_deliver_chacha`.
ghost use Rattle.std.specs.Prelude.{◌/◌, drop, ◌≡◌, ◌≢◌, ◌<◌, ◌≤◌, ◌≤ℤ◌, ◌^◌, ◌*◌, ◌+◌, ◌-◌, All, IsPermutation, length, ℕ, take};
ghost use Rattle.std.specs.Float.{◌≤ᶠ◌, ◌<ᶠ◌, float_one, float_zero};
ghost use Rattle.std.specs.List.{AllPairs};
ghost use Rattle.nanorand_core.specs.values.Draws.{after_words};
ghost use Rattle.nanorand_core.specs.shuffles.Shuffles.{from_all, from_itself, shuffled};
ghost use Rattle.nanorand_core.specs.values.Values.{number_of};
ghost use Rattle.nanorand.specs.generators.ChaCha.{seeded_state};
ghost use Rattle.nanorand.specs.generators.SplitMix.{seed_from};
ghost use Rattle.nanorand_calls.specs.Between.{between, between_signed};
ghost use Rattle.nanorand_calls.specs.ChaChaStates.{fresh_stream, groups_at, by_groups};
ghost use Rattle.nanorand_calls.specs.Fractions.{IsFractionOf};
ghost use Rattle.nanorand_calls.specs.Items.{items_of};
ghost use Rattle.nanorand_calls.specs.Parts.{parting};
ghost use Rattle.nanorand_core.specs.samples.Samples.{DifferentBelow};
ghost use Rattle.nanorand_calls.specs.Sampling.{extending, sampling};
ghost use Rattle.nanorand_calls.specs.Status.{drawn_or, status};
ghost use Rattle.nanorand_calls.specs.Words.{IsAfterAtMost};

use nanorand_calls::chacha::ChaChaState;
use nanorand_calls::keystream::{self, GroupStream};
use nanorand_calls::status::Status;

/// Makes the state from a number, which may be small: 0, 1, 2, .., a port, a year. Different
/// numbers produce different states.
///
/// The seed consists of the first words of 64 bits that SplitMix64 produces from the number, in
/// little-endian order (Guy Steele, Doug Lea and Christine Flood, 2014, with the constants of
/// Sebastiano Vigna). For ChaCha and its streams, the seed is the key followed by the nonce, the
/// counter is 0, and a stream has nothing buffered.
#[unsafe(no_mangle)]
pub extern "C" fn nanorand_v1_keystream_seed_from_u64(rng: &mut GroupStream, number: u64)
    ensures state { groups_at rng.new ≡ fresh_stream (seeded_state (seed_from 40 number)) }
    ensures buffered { rng.new.buffered ≡ 0 }
{
    keystream::seed_from_u64(rng, number);
}

/// Returns the stream of ChaCha with 20 rounds, this key and this nonce, from its first byte on.
/// Without a nonce of your own, pass 8 zeros.
#[unsafe(no_mangle)]
pub extern "C" fn nanorand_v1_keystream_new_key(key: &[u8; 32], nonce: &[u8; 8]) -> GroupStream
    ensures key { result.chacha.key ≡ key.now }
    ensures nonce { result.chacha.nonce ≡ nonce.now }
    ensures counter { result.chacha.counter ≡ 0 }
    ensures buffered { result.buffered ≡ 0 }
{
    GroupStream {
        chacha: ChaChaState {
            key: *key,
            nonce: *nonce,
            counter: 0,
        },
        group: [0; 512],
        buffered: 0,
    }
}

/// Draws a 64-bit number: the next 8 bytes, in little-endian order.
#[unsafe(no_mangle)]
pub extern "C" fn nanorand_v1_keystream_u64(rng: &mut GroupStream) -> u64
    ensures value { result ≡ number_of (by_groups.bytes (groups_at rng.old) 8) }
    ensures state { groups_at rng.new ≡ by_groups.after (groups_at rng.old) 8 }
    ensures buffered { rng.new.buffered < 512 }
{
    keystream::number(rng)
}

/// Draws a number from 0 to below 1, a multiple of 2^-53: the top 53 bits of a 64-bit word, divided
/// by 2^53. Each of the 2^53 numbers is produced by 2^11 of the 2^64 words.
#[unsafe(no_mangle)]
pub extern "C" fn nanorand_v1_keystream_f64(rng: &mut GroupStream) -> f64
    ensures value { IsFractionOf (number_of (by_groups.bytes (groups_at rng.old) 8)) result }
    ensures within { (float_zero ≤ᶠ result) × (result <ᶠ float_one) }
    ensures state { groups_at rng.new ≡ by_groups.after (groups_at rng.old) 8 }
    ensures buffered { rng.new.buffered < 512 }
{
    keystream::float(rng)
}

/// Fills the slice with the next bytes, by one request. A length of 0 draws nothing.
#[unsafe(no_mangle)]
pub extern "C" fn nanorand_v1_keystream_fill_bytes(rng: &mut GroupStream, buffer: &mut [u8])
    ensures bytes { buffer.new ≡ by_groups.bytes (groups_at rng.old) (length buffer.old) }
    ensures state { let start = groups_at rng.old in
        groups_at rng.new ≡ by_groups.after start (length buffer.old) }
    ensures buffered { rng.new.buffered < 512 }
{
    keystream::fill_bytes(rng, buffer);
}

/// Draws a number from `first..=last`, by rejection sampling of 32-bit words, and writes it to
/// `number`. Returns NANORAND_OK; or NANORAND_EMPTY if the range is empty, and then draws nothing;
/// or NANORAND_EXHAUSTED if 128 words in a row were rejected, which stay consumed. After the last
/// two, `number` is unchanged.
#[unsafe(no_mangle)]
pub extern "C" fn nanorand_v1_keystream_range_u32(
    rng: &mut GroupStream,
    first: u32,
    last: u32,
    number: &mut u32,
) -> Status
    ensures status { let draw = between by_groups 32 first last (groups_at rng.old) in
        result ≡ status draw.0 }
    ensures number { let draw = between by_groups 32 first last (groups_at rng.old) in
        number.new ≡ drawn_or number.old draw.0 }
    ensures within { result ≡ 0 → (first ≤ number.new) × (number.new ≤ last) }
    ensures state { let draw = between by_groups 32 first last (groups_at rng.old) in
        groups_at rng.new ≡ draw.1 }
    ensures words { let start = groups_at rng.old in
        let after = λ (n : ℕ). after_words by_groups 32 n start in
        IsAfterAtMost 128 after (groups_at rng.new) }
    ensures buffered { rng.new.buffered < 512 }
{
    keystream::range_u32(rng, first, last, number)
}

/// Draws a number from `first..=last`, by rejection sampling of 64-bit words, and writes it to
/// `number`. Returns NANORAND_OK; or NANORAND_EMPTY if the range is empty, and then draws nothing;
/// or NANORAND_EXHAUSTED if 128 words in a row were rejected, which stay consumed. After the last
/// two, `number` is unchanged.
#[unsafe(no_mangle)]
pub extern "C" fn nanorand_v1_keystream_range_u64(
    rng: &mut GroupStream,
    first: u64,
    last: u64,
    number: &mut u64,
) -> Status
    ensures status { let draw = between by_groups 64 first last (groups_at rng.old) in
        result ≡ status draw.0 }
    ensures number { let draw = between by_groups 64 first last (groups_at rng.old) in
        number.new ≡ drawn_or number.old draw.0 }
    ensures within { result ≡ 0 → (first ≤ number.new) × (number.new ≤ last) }
    ensures state { let draw = between by_groups 64 first last (groups_at rng.old) in
        groups_at rng.new ≡ draw.1 }
    ensures words { let start = groups_at rng.old in
        let after = λ (n : ℕ). after_words by_groups 64 n start in
        IsAfterAtMost 128 after (groups_at rng.new) }
    ensures buffered { rng.new.buffered < 512 }
{
    keystream::range_u64(rng, first, last, number)
}

/// Draws a signed number from `first..=last`, by rejection sampling of 64-bit words, and writes it
/// to `number`. Returns NANORAND_OK; or NANORAND_EMPTY if the range is empty, and then draws
/// nothing; or NANORAND_EXHAUSTED if 128 words in a row were rejected, which stay consumed. After
/// the last two, `number` is unchanged.
#[unsafe(no_mangle)]
pub extern "C" fn nanorand_v1_keystream_range_i64(
    rng: &mut GroupStream,
    first: i64,
    last: i64,
    number: &mut i64,
) -> Status
    ensures status { let start = groups_at rng.old in
        let draw = between_signed by_groups 64 first last start in
        result ≡ status draw.0 }
    ensures number { let start = groups_at rng.old in
        let draw = between_signed by_groups 64 first last start in
        number.new ≡ drawn_or number.old draw.0 }
    ensures within { result ≡ 0 → (first ≤ℤ number.new) × (number.new ≤ℤ last) }
    ensures state { let start = groups_at rng.old in
        let draw = between_signed by_groups 64 first last start in
        groups_at rng.new ≡ draw.1 }
    ensures words { let start = groups_at rng.old in
        let after = λ (n : ℕ). after_words by_groups 64 n start in
        IsAfterAtMost 128 after (groups_at rng.new) }
    ensures buffered { rng.new.buffered < 512 }
{
    keystream::range_i64(rng, first, last, number)
}

/// Draws an index or a length from `first..=last`, by rejection sampling of 64-bit words, and
/// writes it to `number`. Returns NANORAND_OK; or NANORAND_EMPTY if the range is empty, and then
/// draws nothing; or NANORAND_EXHAUSTED if 128 words in a row were rejected, which stay consumed.
/// After the last two, `number` is unchanged.
#[unsafe(no_mangle)]
pub extern "C" fn nanorand_v1_keystream_range_usize(
    rng: &mut GroupStream,
    first: usize,
    last: usize,
    number: &mut usize,
) -> Status
    ensures status { let draw = between by_groups 64 first last (groups_at rng.old) in
        result ≡ status draw.0 }
    ensures number { let draw = between by_groups 64 first last (groups_at rng.old) in
        number.new ≡ drawn_or number.old draw.0 }
    ensures within { result ≡ 0 → (first ≤ number.new) × (number.new ≤ last) }
    ensures state { let draw = between by_groups 64 first last (groups_at rng.old) in
        groups_at rng.new ≡ draw.1 }
    ensures words { let start = groups_at rng.old in
        let after = λ (n : ℕ). after_words by_groups 64 n start in
        IsAfterAtMost 128 after (groups_at rng.new) }
    ensures buffered { rng.new.buffered < 512 }
{
    keystream::range_usize(rng, first, last, number)
}

/// Draws a number below `n`, by rejection sampling of 64-bit words, and returns it. It is the
/// number that `range_u64` draws from 0 to `n - 1`. If `n` is 0, it returns 0 and draws nothing. If
/// 128 words in a row were rejected, which happens with probability below 2^-128, it returns `n`,
/// and the words stay consumed.
#[unsafe(no_mangle)]
pub extern "C" fn nanorand_v1_keystream_below(rng: &mut GroupStream, n: u64) -> u64
    ensures zero { n ≡ 0 → (result ≡ 0) × (groups_at rng.new ≡ groups_at rng.old) }
    ensures number { let draw = between by_groups 64 0 (n - 1) (groups_at rng.old) in
        n ≢ 0 → result ≡ drawn_or n draw.0 }
    ensures within { result ≤ n }
    ensures state { let draw = between by_groups 64 0 (n - 1) (groups_at rng.old) in
        n ≢ 0 → groups_at rng.new ≡ draw.1 }
    ensures words { let start = groups_at rng.old in
        let after = λ (k : ℕ). after_words by_groups 64 k start in
        IsAfterAtMost 128 after (groups_at rng.new) }
    ensures buffered { rng.new.buffered < 512 }
{
    keystream::below(rng, n)
}

/// Shuffles the items, by Fisher-Yates: swaps each item, from the first on, with one drawn from it
/// and the items after it. A length of 0 draws nothing. Returns NANORAND_OK, or NANORAND_EXHAUSTED
/// if 128 words in a row were rejected for one index; the swaps before that stay, and the words
/// stay consumed.
#[unsafe(no_mangle)]
pub extern "C" fn nanorand_v1_keystream_shuffle(
    rng: &mut GroupStream,
    items: &mut [usize],
) -> Status
    ensures status { let start = groups_at rng.old in
        let shuffle = shuffled by_groups from_itself start items.old in
        result ≡ status shuffle.answer }
    ensures items { let start = groups_at rng.old in
        let shuffle = shuffled by_groups from_itself start items.old in
        items.new ≡ shuffle.items }
    ensures state { let start = groups_at rng.old in
        let shuffle = shuffled by_groups from_itself start items.old in
        groups_at rng.new ≡ shuffle.state }
    ensures words { let start = groups_at rng.old in
        let after = λ (n : ℕ). after_words by_groups 64 n start in
        IsAfterAtMost (128 * length items.old) after (groups_at rng.new) }
    ensures arrangement { IsPermutation items.old items.new }
    ensures buffered { rng.new.buffered < 512 }
{
    keystream::shuffle(rng, items)
}

/// Shuffles the items as the Rust crate nanorand 0.7.0 does: swaps each item, from the first on,
/// with one drawn from all items. This is biased: for three or more items, not all orders are
/// equally frequent. Returns NANORAND_OK, or NANORAND_EXHAUSTED if 128 words in a row were rejected
/// for one index; the swaps before that stay, and the words stay consumed.
#[unsafe(no_mangle)]
pub extern "C" fn nanorand_v1_keystream_shuffle_full(
    rng: &mut GroupStream,
    items: &mut [usize],
) -> Status
    ensures status { let start = groups_at rng.old in
        let shuffle = shuffled by_groups from_all start items.old in
        result ≡ status shuffle.answer }
    ensures items { let start = groups_at rng.old in
        let shuffle = shuffled by_groups from_all start items.old in
        items.new ≡ shuffle.items }
    ensures state { let start = groups_at rng.old in
        let shuffle = shuffled by_groups from_all start items.old in
        groups_at rng.new ≡ shuffle.state }
    ensures words { let start = groups_at rng.old in
        let after = λ (n : ℕ). after_words by_groups 64 n start in
        IsAfterAtMost (128 * length items.old) after (groups_at rng.new) }
    ensures arrangement { IsPermutation items.old items.new }
    ensures buffered { rng.new.buffered < 512 }
{
    keystream::shuffle_full(rng, items)
}

/// Shuffles items of any type, which are `size` bytes each, one after another: `length` is the
/// number of all their bytes. The draws and the order are those of `shuffle` for that many items.
/// Bytes after the last whole item stay where they are. If `size` is 0, there is no item, and
/// nothing is drawn. From C and C++, `shuffle_items` is easier, since it takes the number of items.
/// Returns NANORAND_OK, or NANORAND_EXHAUSTED if 128 words in a row were rejected for one index;
/// the swaps before that stay, and the words stay consumed.
#[unsafe(no_mangle)]
pub extern "C" fn nanorand_v1_keystream_shuffle_bytes(
    rng: &mut GroupStream,
    items: &mut [u8],
    size: usize,
) -> Status
    ensures status { let start = groups_at rng.old in
        let shuffle = shuffled by_groups from_itself start (items_of size items.old) in
        result ≡ status shuffle.answer }
    ensures items { let start = groups_at rng.old in
        let shuffle = shuffled by_groups from_itself start (items_of size items.old) in
        items_of size items.new ≡ shuffle.items }
    ensures rest { let whole = length items.old / size * size in
        drop whole items.new ≡ drop whole items.old }
    ensures state { let start = groups_at rng.old in
        let shuffle = shuffled by_groups from_itself start (items_of size items.old) in
        groups_at rng.new ≡ shuffle.state }
    ensures words { let start = groups_at rng.old in
        let after = λ (n : ℕ). after_words by_groups 64 n start in
        IsAfterAtMost (128 * length (items_of size items.old)) after (groups_at rng.new) }
    ensures arrangement { IsPermutation (items_of size items.old) (items_of size items.new) }
    ensures buffered { rng.new.buffered < 512 }
{
    keystream::shuffle_items(rng, items, size)
}

/// Draws a sample without replacement, by Floyd's algorithm: writes different numbers below
/// `population`, one to each of the `wanted` places. Each set of numbers is produced by the same
/// number of sequences of words. The order of the places is not uniform: shuffle them if it
/// matters. The time is O(k^2) for k places, since each number drawn is compared with those before
/// it.
///
/// Returns NANORAND_OK; or NANORAND_EMPTY if more numbers are wanted than the population has, and
/// then draws and writes nothing; or NANORAND_EXHAUSTED if 128 words in a row were rejected for one
/// place. Then the places before that one are written, the others are unchanged, and the words stay
/// consumed. If 0 numbers are wanted, nothing is drawn.
#[unsafe(no_mangle)]
pub extern "C" fn nanorand_v1_keystream_sample(
    rng: &mut GroupStream,
    population: usize,
    places: &mut [usize],
) -> Status
    ensures status { let start = groups_at rng.old in
        let sampling = sampling by_groups population start places.old in
        result ≡ sampling.status }
    ensures places { let start = groups_at rng.old in
        let sampling = sampling by_groups population start places.old in
        places.new ≡ sampling.places }
    ensures state { let sample = sampling by_groups population (groups_at rng.old) places.old in
        groups_at rng.new ≡ sample.state }
    ensures words { let start = groups_at rng.old in
        let after = λ (n : ℕ). after_words by_groups 64 n start in
        IsAfterAtMost (128 * length places.old) after (groups_at rng.new) }
    ensures below { result ≡ 0 → All (λ number. number < population) places.new }
    ensures apart { result ≡ 0 → AllPairs (λ number other. number ≢ other) places.new }
    ensures buffered { rng.new.buffered < 512 }
{
    keystream::sample(rng, population, places)
}

/// Continues a sample: keeps the first `filled` of the `wanted` places and fills the others, in
/// expected time O(k) for k places, by a table that the caller provides. If `filled` is 0, it draws
/// a whole sample, with the same results as `sample`.
///
/// The length and the contents of the table change only the time. With 3k items, a number drawn is
/// compared with at most one place on average; with k items or fewer, with all of them. The table
/// must not overlap the places. Its contents are unspecified afterwards.
///
/// To draw a long sample in pieces, first pass only the first places, and a `population` that is
/// smaller by the number of places left out; then continue. After NANORAND_OK, all places hold
/// different numbers below `population`, provided that the places kept held different numbers below
/// `population` minus the number of the other places.
///
/// Returns NANORAND_OK; or NANORAND_EMPTY if more numbers are wanted than the population has, or
/// fewer than `filled`, and then draws and writes nothing; or NANORAND_EXHAUSTED if 128 words in a
/// row were rejected for one place. Then the places before that one are written, the others are
/// unchanged, and the words stay consumed.
#[unsafe(no_mangle)]
pub extern "C" fn nanorand_v1_keystream_extend_sample(
    rng: &mut GroupStream,
    population: usize,
    places: &mut [usize],
    filled: usize,
    table: &mut [usize],
) -> Status
    ensures status { let start = groups_at rng.old in
        let sampling = extending by_groups population start places.old filled in
        result ≡ sampling.status }
    ensures places { let start = groups_at rng.old in
        let sampling = extending by_groups population start places.old filled in
        places.new ≡ sampling.places }
    ensures state { let start = groups_at rng.old in
        let sample = extending by_groups population start places.old filled in
        groups_at rng.new ≡ sample.state }
    ensures words { let start = groups_at rng.old in
        let after = λ (n : ℕ). after_words by_groups 64 n start in
        IsAfterAtMost (128 * length places.old) after (groups_at rng.new) }
    ensures different { let limit = population - length places.old + filled in
        DifferentBelow limit (take filled places.old)
        → result ≡ 0 → DifferentBelow population places.new }
    ensures buffered { rng.new.buffered < 512 }
{
    keystream::extend_sample(rng, population, places, filled, table)
}

/// Moves to the beginning of part `index`, counted from 0 and from the present state, where each
/// part is `draws` draws long: moves ahead by `index * draws` draws. A draw is what a `u64` takes:
/// 8 bytes for WyRand, Pcg64 and the keystream, a block of 64 bytes for ChaCha. Parts of the same
/// length from copies of the same state do not overlap, as long as no task draws more than `draws`
/// draws. Take an odd length: if a large power of two divides the distance between two parts of
/// WyRand or Pcg64, their numbers are correlated.
///
/// Returns NANORAND_OK, or NANORAND_PAST_PERIOD if the part ends past the period; the state does
/// not move then. The period is 2^64 draws for WyRand and ChaCha, 2^126 for Pcg64, and 2^67 for the
/// keystream.
#[unsafe(no_mangle)]
pub extern "C" fn nanorand_v1_keystream_part(
    rng: &mut GroupStream,
    index: u64,
    draws: u64,
) -> Status
    ensures status { let start = groups_at rng.old in
        result ≡ (parting by_groups (2 ^ 67) draws index start).0 }
    ensures state { let start = groups_at rng.old in
        groups_at rng.new ≡ (parting by_groups (2 ^ 67) draws index start).1 }
    ensures buffered { rng.new.buffered < 512 }
{
    keystream::part(rng, index, draws)
}
