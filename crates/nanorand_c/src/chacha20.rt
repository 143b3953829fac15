//! ChaCha with the standard's 20 rounds. Each request starts with a new block.
ghost use Rattle.std.specs.Prelude.{◌/◌, drop, ◌≡◌, ◌≢◌, ◌<◌, ◌≤◌, ◌≤ℤ◌, ◌+◌, ◌%◌, ◌^◌, ◌*◌, ◌-◌};
ghost use Rattle.std.specs.Prelude.{All, IsPermutation, length, ℕ, take};
ghost use Rattle.std.specs.Float.{◌≤ᶠ◌, ◌<ᶠ◌, float_one, float_zero};
ghost use Rattle.std.specs.List.{AllPairs};
ghost use Rattle.nanorand_core.specs.values.Draws.{after_words};
ghost use Rattle.nanorand_core.specs.shuffles.Shuffles.{from_all, from_itself, shuffled};
ghost use Rattle.nanorand_core.specs.values.Values.{number_of};
ghost use Rattle.std.specs.Int.{div_ceil};
ghost use Rattle.nanorand.specs.generators.ChaCha.{chacha_block, chacha_requests, next_state, seeded_state};
ghost use Rattle.nanorand.specs.generators.SplitMix.{seed_from};
ghost use Rattle.nanorand_calls.specs.Between.{between, between_signed};
ghost use Rattle.nanorand_calls.specs.ChaChaStates.{chacha_at};
ghost use Rattle.nanorand_calls.specs.Fractions.{IsFractionOf};
ghost use Rattle.nanorand_calls.specs.Items.{items_of};
ghost use Rattle.nanorand_calls.specs.Parts.{parting};
ghost use Rattle.nanorand_core.specs.samples.Samples.{DifferentBelow};
ghost use Rattle.nanorand_calls.specs.Sampling.{extending, sampling};
ghost use Rattle.nanorand_calls.specs.Status.{drawn_or, status};
ghost use Rattle.nanorand_calls.specs.Words.{IsAfterAtMost};

use nanorand_calls::chacha::{self, ChaChaState};
use nanorand_calls::status::Status;

/// Makes the state from a number, which may be small: 0, 1, 2, .., a port, a year. Different
/// numbers produce different states.
///
/// The seed consists of the first words of 64 bits that SplitMix64 produces from the number, in
/// little-endian order (Guy Steele, Doug Lea and Christine Flood, 2014, with the constants of
/// Sebastiano Vigna). For ChaCha and its streams, the seed is the key followed by the nonce, the
/// counter is 0, and a stream has nothing buffered.
#[unsafe(no_mangle)]
pub extern "C" fn nanorand_v1_chacha20_seed_from_u64(rng: &mut ChaChaState, number: u64)
    ensures { chacha_at rng.new ≡ seeded_state (seed_from 40 number) }
{
    chacha::seed_from_u64::<20>(rng, number);
}

/// Writes the block at the counter to `out`, and adds 1 to the counter, modulo 2^64.
#[unsafe(no_mangle)]
pub extern "C" fn nanorand_v1_chacha20_block(rng: &mut ChaChaState, out: &mut [u8; 64])
    ensures block { out.new ≡ chacha_block 20 (chacha_at rng.old) }
    ensures counter { rng.new.counter ≡ (rng.old.counter + 1) % 2 ^ 64 }
    ensures key { rng.new.key ≡ rng.old.key }
    ensures nonce { rng.new.nonce ≡ rng.old.nonce }
    ensures state { chacha_at rng.new ≡ next_state (chacha_at rng.old) }
{
    chacha::block::<20>(rng, out);
}

/// Draws a 64-bit number: the first 8 bytes of the block at the counter, in little-endian order. The
/// rest of the block is dropped, and the counter advances by 1.
#[unsafe(no_mangle)]
pub extern "C" fn nanorand_v1_chacha20_u64(rng: &mut ChaChaState) -> u64
    ensures value { result ≡ number_of ((chacha_requests 20).bytes (chacha_at rng.old) 8) }
    ensures key { rng.new.key ≡ rng.old.key }
    ensures nonce { rng.new.nonce ≡ rng.old.nonce }
    ensures state { chacha_at rng.new ≡ (chacha_requests 20).after (chacha_at rng.old) 8 }
{
    chacha::number::<20>(rng)
}

/// Draws a number from 0 to below 1, a multiple of 2^-53: the top 53 bits of a 64-bit word, divided
/// by 2^53. Each of the 2^53 numbers is produced by 2^11 of the 2^64 words.
#[unsafe(no_mangle)]
pub extern "C" fn nanorand_v1_chacha20_f64(rng: &mut ChaChaState) -> f64
    ensures value { let word = number_of ((chacha_requests 20).bytes (chacha_at rng.old) 8) in
        IsFractionOf word result }
    ensures within { (float_zero ≤ᶠ result) × (result <ᶠ float_one) }
    ensures key { rng.new.key ≡ rng.old.key }
    ensures nonce { rng.new.nonce ≡ rng.old.nonce }
    ensures state { chacha_at rng.new ≡ (chacha_requests 20).after (chacha_at rng.old) 8 }
{
    chacha::float::<20>(rng)
}

/// Fills the slice with blocks, by one request. The first one is the block at the counter. The
/// counter advances by the number of blocks; a last block of which only a part is used counts as a
/// whole one, and the rest of it is dropped. A length of 0 draws nothing.
#[unsafe(no_mangle)]
pub extern "C" fn nanorand_v1_chacha20_fill_bytes(rng: &mut ChaChaState, buffer: &mut [u8])
    ensures bytes { let start = chacha_at rng.old in
        buffer.new ≡ (chacha_requests 20).bytes start (length buffer.old) }
    ensures counter { let blocks = div_ceil (length buffer.old) 64 in
        rng.new.counter ≡ (rng.old.counter + blocks) % 2 ^ 64 }
    ensures key { rng.new.key ≡ rng.old.key }
    ensures nonce { rng.new.nonce ≡ rng.old.nonce }
    ensures state { let left = (chacha_requests 20).after (chacha_at rng.old) in
        chacha_at rng.new ≡ left (length buffer.old) }
{
    chacha::fill_bytes::<20>(rng, buffer);
}

/// Draws a number from `first..=last`, by rejection sampling of 32-bit words, and writes it to
/// `number`. Returns NANORAND_OK; or NANORAND_EMPTY if the range is empty, and then draws nothing;
/// or NANORAND_EXHAUSTED if 128 words in a row were rejected, which stay consumed. After the last
/// two, `number` is unchanged.
#[unsafe(no_mangle)]
pub extern "C" fn nanorand_v1_chacha20_range_u32(
    rng: &mut ChaChaState,
    first: u32,
    last: u32,
    number: &mut u32,
) -> Status
    ensures status { let draw = between (chacha_requests 20) 32 first last (chacha_at rng.old) in
        result ≡ status draw.0 }
    ensures number { let draw = between (chacha_requests 20) 32 first last (chacha_at rng.old) in
        number.new ≡ drawn_or number.old draw.0 }
    ensures within { result ≡ 0 → (first ≤ number.new) × (number.new ≤ last) }
    ensures state { let draw = between (chacha_requests 20) 32 first last (chacha_at rng.old) in
        chacha_at rng.new ≡ draw.1 }
    ensures words { let start = chacha_at rng.old in
        let after = λ (n : ℕ). after_words (chacha_requests 20) 32 n start in
        IsAfterAtMost 128 after (chacha_at rng.new) }
{
    chacha::range_u32::<20>(rng, first, last, number)
}

/// Draws a number from `first..=last`, by rejection sampling of 64-bit words, and writes it to
/// `number`. Returns NANORAND_OK; or NANORAND_EMPTY if the range is empty, and then draws nothing;
/// or NANORAND_EXHAUSTED if 128 words in a row were rejected, which stay consumed. After the last
/// two, `number` is unchanged.
#[unsafe(no_mangle)]
pub extern "C" fn nanorand_v1_chacha20_range_u64(
    rng: &mut ChaChaState,
    first: u64,
    last: u64,
    number: &mut u64,
) -> Status
    ensures status { let draw = between (chacha_requests 20) 64 first last (chacha_at rng.old) in
        result ≡ status draw.0 }
    ensures number { let draw = between (chacha_requests 20) 64 first last (chacha_at rng.old) in
        number.new ≡ drawn_or number.old draw.0 }
    ensures within { result ≡ 0 → (first ≤ number.new) × (number.new ≤ last) }
    ensures state { let draw = between (chacha_requests 20) 64 first last (chacha_at rng.old) in
        chacha_at rng.new ≡ draw.1 }
    ensures words { let start = chacha_at rng.old in
        let after = λ (n : ℕ). after_words (chacha_requests 20) 64 n start in
        IsAfterAtMost 128 after (chacha_at rng.new) }
{
    chacha::range_u64::<20>(rng, first, last, number)
}

/// Draws a signed number from `first..=last`, by rejection sampling of 64-bit words, and writes it
/// to `number`. Returns NANORAND_OK; or NANORAND_EMPTY if the range is empty, and then draws
/// nothing; or NANORAND_EXHAUSTED if 128 words in a row were rejected, which stay consumed. After
/// the last two, `number` is unchanged.
#[unsafe(no_mangle)]
pub extern "C" fn nanorand_v1_chacha20_range_i64(
    rng: &mut ChaChaState,
    first: i64,
    last: i64,
    number: &mut i64,
) -> Status
    ensures status { let start = chacha_at rng.old in
        let draw = between_signed (chacha_requests 20) 64 first last start in
        result ≡ status draw.0 }
    ensures number { let start = chacha_at rng.old in
        let draw = between_signed (chacha_requests 20) 64 first last start in
        number.new ≡ drawn_or number.old draw.0 }
    ensures within { result ≡ 0 → (first ≤ℤ number.new) × (number.new ≤ℤ last) }
    ensures state { let start = chacha_at rng.old in
        let draw = between_signed (chacha_requests 20) 64 first last start in
        chacha_at rng.new ≡ draw.1 }
    ensures words { let start = chacha_at rng.old in
        let after = λ (n : ℕ). after_words (chacha_requests 20) 64 n start in
        IsAfterAtMost 128 after (chacha_at rng.new) }
{
    chacha::range_i64::<20>(rng, first, last, number)
}

/// Draws an index or a length from `first..=last`, by rejection sampling of 64-bit words, and
/// writes it to `number`. Returns NANORAND_OK; or NANORAND_EMPTY if the range is empty, and then
/// draws nothing; or NANORAND_EXHAUSTED if 128 words in a row were rejected, which stay consumed.
/// After the last two, `number` is unchanged.
#[unsafe(no_mangle)]
pub extern "C" fn nanorand_v1_chacha20_range_usize(
    rng: &mut ChaChaState,
    first: usize,
    last: usize,
    number: &mut usize,
) -> Status
    ensures status { let draw = between (chacha_requests 20) 64 first last (chacha_at rng.old) in
        result ≡ status draw.0 }
    ensures number { let draw = between (chacha_requests 20) 64 first last (chacha_at rng.old) in
        number.new ≡ drawn_or number.old draw.0 }
    ensures within { result ≡ 0 → (first ≤ number.new) × (number.new ≤ last) }
    ensures state { let draw = between (chacha_requests 20) 64 first last (chacha_at rng.old) in
        chacha_at rng.new ≡ draw.1 }
    ensures words { let start = chacha_at rng.old in
        let after = λ (n : ℕ). after_words (chacha_requests 20) 64 n start in
        IsAfterAtMost 128 after (chacha_at rng.new) }
{
    chacha::range_usize::<20>(rng, first, last, number)
}

/// Draws a number below `n`, by rejection sampling of 64-bit words, and returns it. It is the
/// number that `range_u64` draws from 0 to `n - 1`. If `n` is 0, it returns 0 and draws nothing. If
/// 128 words in a row were rejected, which happens with probability below 2^-128, it returns `n`,
/// and the words stay consumed.
#[unsafe(no_mangle)]
pub extern "C" fn nanorand_v1_chacha20_below(rng: &mut ChaChaState, n: u64) -> u64
    ensures zero { n ≡ 0 → (result ≡ 0) × (chacha_at rng.new ≡ chacha_at rng.old) }
    ensures number { let draw = between (chacha_requests 20) 64 0 (n - 1) (chacha_at rng.old) in
        n ≢ 0 → result ≡ drawn_or n draw.0 }
    ensures within { result ≤ n }
    ensures state { let draw = between (chacha_requests 20) 64 0 (n - 1) (chacha_at rng.old) in
        n ≢ 0 → chacha_at rng.new ≡ draw.1 }
    ensures words { let start = chacha_at rng.old in
        let after = λ (k : ℕ). after_words (chacha_requests 20) 64 k start in
        IsAfterAtMost 128 after (chacha_at rng.new) }
{
    chacha::below::<20>(rng, n)
}

/// Shuffles the items, by Fisher-Yates: swaps each item, from the first on, with one drawn from it
/// and the items after it. A length of 0 draws nothing. Returns NANORAND_OK, or NANORAND_EXHAUSTED
/// if 128 words in a row were rejected for one index; the swaps before that stay, and the words
/// stay consumed.
#[unsafe(no_mangle)]
pub extern "C" fn nanorand_v1_chacha20_shuffle(rng: &mut ChaChaState, items: &mut [usize]) -> Status
    ensures status { let start = chacha_at rng.old in
        let shuffle = shuffled (chacha_requests 20) from_itself start items.old in
        result ≡ status shuffle.answer }
    ensures items { let start = chacha_at rng.old in
        let shuffle = shuffled (chacha_requests 20) from_itself start items.old in
        items.new ≡ shuffle.items }
    ensures state { let start = chacha_at rng.old in
        let shuffle = shuffled (chacha_requests 20) from_itself start items.old in
        chacha_at rng.new ≡ shuffle.state }
    ensures words { let start = chacha_at rng.old in
        let after = λ (n : ℕ). after_words (chacha_requests 20) 64 n start in
        IsAfterAtMost (128 * length items.old) after (chacha_at rng.new) }
    ensures arrangement { IsPermutation items.old items.new }
{
    chacha::shuffle::<20>(rng, items)
}

/// Shuffles the items as the Rust crate nanorand 0.7.0 does: swaps each item, from the first on,
/// with one drawn from all items. This is biased: for three or more items, not all orders are
/// equally frequent. Returns NANORAND_OK, or NANORAND_EXHAUSTED if 128 words in a row were rejected
/// for one index; the swaps before that stay, and the words stay consumed.
#[unsafe(no_mangle)]
pub extern "C" fn nanorand_v1_chacha20_shuffle_full(
    rng: &mut ChaChaState,
    items: &mut [usize],
) -> Status
    ensures status { let start = chacha_at rng.old in
        let shuffle = shuffled (chacha_requests 20) from_all start items.old in
        result ≡ status shuffle.answer }
    ensures items { let start = chacha_at rng.old in
        let shuffle = shuffled (chacha_requests 20) from_all start items.old in
        items.new ≡ shuffle.items }
    ensures state { let start = chacha_at rng.old in
        let shuffle = shuffled (chacha_requests 20) from_all start items.old in
        chacha_at rng.new ≡ shuffle.state }
    ensures words { let start = chacha_at rng.old in
        let after = λ (n : ℕ). after_words (chacha_requests 20) 64 n start in
        IsAfterAtMost (128 * length items.old) after (chacha_at rng.new) }
    ensures arrangement { IsPermutation items.old items.new }
{
    chacha::shuffle_full::<20>(rng, items)
}

/// Shuffles items of any type, which are `size` bytes each, one after another: `length` is the
/// number of all their bytes. The draws and the order are those of `shuffle` for that many items.
/// Bytes after the last whole item stay where they are. If `size` is 0, there is no item, and
/// nothing is drawn. From C and C++, `shuffle_items` is easier, since it takes the number of items.
/// Returns NANORAND_OK, or NANORAND_EXHAUSTED if 128 words in a row were rejected for one index;
/// the swaps before that stay, and the words stay consumed.
#[unsafe(no_mangle)]
pub extern "C" fn nanorand_v1_chacha20_shuffle_bytes(
    rng: &mut ChaChaState,
    items: &mut [u8],
    size: usize,
) -> Status
    ensures status { let start = chacha_at rng.old in
        let shuffle = shuffled (chacha_requests 20) from_itself start (items_of size items.old) in
        result ≡ status shuffle.answer }
    ensures items { let start = chacha_at rng.old in
        let shuffle = shuffled (chacha_requests 20) from_itself start (items_of size items.old) in
        items_of size items.new ≡ shuffle.items }
    ensures rest { let whole = length items.old / size * size in
        drop whole items.new ≡ drop whole items.old }
    ensures state { let start = chacha_at rng.old in
        let shuffle = shuffled (chacha_requests 20) from_itself start (items_of size items.old) in
        chacha_at rng.new ≡ shuffle.state }
    ensures words { let start = chacha_at rng.old in
        let after = λ (n : ℕ). after_words (chacha_requests 20) 64 n start in
        IsAfterAtMost (128 * length (items_of size items.old)) after (chacha_at rng.new) }
    ensures arrangement { IsPermutation (items_of size items.old) (items_of size items.new) }
{
    chacha::shuffle_items::<20>(rng, items, size)
}

/// Draws a sample without replacement, by Floyd's algorithm: writes different numbers below
/// `population`, one to each of the `wanted` places. Each set of numbers is produced by the same
/// number of sequences of words. The order of the places is not uniform: shuffle them if it
/// matters. The time is O(k^2) for k places, since each number drawn is compared with those before
/// it.
///
/// Returns NANORAND_OK; or NANORAND_EMPTY if more numbers are wanted than the population has, and
/// then draws and writes nothing; or NANORAND_EXHAUSTED if 128 words in a row were rejected for one
/// place. Then the places before that one are written, the others are unchanged, and the words stay
/// consumed. If 0 numbers are wanted, nothing is drawn.
#[unsafe(no_mangle)]
pub extern "C" fn nanorand_v1_chacha20_sample(
    rng: &mut ChaChaState,
    population: usize,
    places: &mut [usize],
) -> Status
    ensures status { let start = chacha_at rng.old in
        let sampling = sampling (chacha_requests 20) population start places.old in
        result ≡ sampling.status }
    ensures places { let start = chacha_at rng.old in
        let sampling = sampling (chacha_requests 20) population start places.old in
        places.new ≡ sampling.places }
    ensures state { let start = chacha_at rng.old in
        let sample = sampling (chacha_requests 20) population start places.old in
        chacha_at rng.new ≡ sample.state }
    ensures words { let start = chacha_at rng.old in
        let after = λ (n : ℕ). after_words (chacha_requests 20) 64 n start in
        IsAfterAtMost (128 * length places.old) after (chacha_at rng.new) }
    ensures below { result ≡ 0 → All (λ number. number < population) places.new }
    ensures apart { result ≡ 0 → AllPairs (λ number other. number ≢ other) places.new }
{
    chacha::sample::<20>(rng, population, places)
}

/// Continues a sample: keeps the first `filled` of the `wanted` places and fills the others, in
/// expected time O(k) for k places, by a table that the caller provides. If `filled` is 0, it draws
/// a whole sample, with the same results as `sample`.
///
/// The length and the contents of the table change only the time. With 3k items, a number drawn is
/// compared with at most one place on average; with k items or fewer, with all of them. The table
/// must not overlap the places. Its contents are unspecified afterwards.
///
/// To draw a long sample in pieces, first pass only the first places, and a `population` that is
/// smaller by the number of places left out; then continue. After NANORAND_OK, all places hold
/// different numbers below `population`, provided that the places kept held different numbers below
/// `population` minus the number of the other places.
///
/// Returns NANORAND_OK; or NANORAND_EMPTY if more numbers are wanted than the population has, or
/// fewer than `filled`, and then draws and writes nothing; or NANORAND_EXHAUSTED if 128 words in a
/// row were rejected for one place. Then the places before that one are written, the others are
/// unchanged, and the words stay consumed.
#[unsafe(no_mangle)]
pub extern "C" fn nanorand_v1_chacha20_extend_sample(
    rng: &mut ChaChaState,
    population: usize,
    places: &mut [usize],
    filled: usize,
    table: &mut [usize],
) -> Status
    ensures status { let start = chacha_at rng.old in
        let sampling = extending (chacha_requests 20) population start places.old filled in
        result ≡ sampling.status }
    ensures places { let start = chacha_at rng.old in
        let sampling = extending (chacha_requests 20) population start places.old filled in
        places.new ≡ sampling.places }
    ensures state { let start = chacha_at rng.old in
        let sample = extending (chacha_requests 20) population start places.old filled in
        chacha_at rng.new ≡ sample.state }
    ensures words { let start = chacha_at rng.old in
        let after = λ (n : ℕ). after_words (chacha_requests 20) 64 n start in
        IsAfterAtMost (128 * length places.old) after (chacha_at rng.new) }
    ensures different { let limit = population - length places.old + filled in
        DifferentBelow limit (take filled places.old)
        → result ≡ 0 → DifferentBelow population places.new }
{
    chacha::extend_sample::<20>(rng, population, places, filled, table)
}

/// Moves to the beginning of part `index`, counted from 0 and from the present state, where each
/// part is `draws` draws long: moves ahead by `index * draws` draws. A draw is what a `u64` takes:
/// 8 bytes for WyRand, Pcg64 and the keystream, a block of 64 bytes for ChaCha. Parts of the same
/// length from copies of the same state do not overlap, as long as no task draws more than `draws`
/// draws. Take an odd length: if a large power of two divides the distance between two parts of
/// WyRand or Pcg64, their numbers are correlated.
///
/// Returns NANORAND_OK, or NANORAND_PAST_PERIOD if the part ends past the period; the state does
/// not move then. The period is 2^64 draws for WyRand and ChaCha, 2^126 for Pcg64, and 2^67 for the
/// keystream.
#[unsafe(no_mangle)]
pub extern "C" fn nanorand_v1_chacha20_part(rng: &mut ChaChaState, index: u64, draws: u64) -> Status
    ensures status { let start = chacha_at rng.old in
        result ≡ (parting (chacha_requests 20) (2 ^ 64) draws index start).0 }
    ensures state { let start = chacha_at rng.old in
        chacha_at rng.new ≡ (parting (chacha_requests 20) (2 ^ 64) draws index start).1 }
{
    chacha::part::<20>(rng, index, draws)
}
