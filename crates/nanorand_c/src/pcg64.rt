//! Pcg64. Its state is its seed, in the caller's memory, and each draw advances it. Not
//! cryptographically secure.
ghost use Rattle.std.specs.Prelude.{◌/◌, drop, ◌≡◌, ◌≢◌, ◌<◌, ◌≤◌, ◌≤ℤ◌, ◌^◌, ◌*◌, ◌+◌, ◌-◌, ◌⊎◌, ◌↔◌, All, IsPermutation, length, ℕ, take};
ghost use Rattle.std.specs.Float.{◌≤ᶠ◌, ◌<ᶠ◌, float_one, float_zero};
ghost use Rattle.std.specs.List.{AllPairs};
ghost use Rattle.nanorand_core.specs.values.Draws.{after_words};
ghost use Rattle.nanorand_core.specs.shuffles.Shuffles.{from_all, from_itself, shuffled};
ghost use Rattle.nanorand_core.specs.values.Values.{number_of};
ghost use Rattle.nanorand.specs.generators.Pcg64.{SameCycle, pcg64_requests, seed_after, seeded_generator};
ghost use Rattle.nanorand.specs.generators.SplitMix.{seed_from};
ghost use Rattle.nanorand_calls.specs.Between.{between, between_signed};
ghost use Rattle.nanorand_calls.specs.Fractions.{IsFractionOf};
ghost use Rattle.nanorand_calls.specs.Items.{items_of};
ghost use Rattle.nanorand_calls.specs.Parts.{parting};
ghost use Rattle.nanorand_core.specs.samples.Samples.{DifferentBelow};
ghost use Rattle.nanorand_calls.specs.Sampling.{extending, sampling};
ghost use Rattle.nanorand_calls.specs.Status.{drawn_or, status};
ghost use Rattle.nanorand_calls.specs.Words.{IsAfterAtMost};
ghost use Rattle.nanorand_calls.specs.WideNumber.{at_seed, wide_number};

use nanorand_calls::pcg64;
use nanorand_calls::status::Status;
use nanorand_calls::wide::Wide;

/// Makes the state from a number, which may be small: 0, 1, 2, .., a port, a year. Different
/// numbers produce different states.
///
/// The seed consists of the first words of 64 bits that SplitMix64 produces from the number, in
/// little-endian order (Guy Steele, Doug Lea and Christine Flood, 2014, with the constants of
/// Sebastiano Vigna). For ChaCha and its streams, the seed is the key followed by the nonce, the
/// counter is 0, and a stream has nothing buffered.
#[unsafe(no_mangle)]
pub extern "C" fn nanorand_v1_pcg64_seed_from_u64(rng: &mut Wide, number: u64)
    ensures { at_seed rng.new ≡ seeded_generator (seed_from 16 number) }
{
    pcg64::seed_from_u64(rng, number);
}

/// Returns a generator with the seed `low + 2^64 * high`. The seed is the state itself, and is not
/// mixed. Generators with neighbouring seeds, such as 0, 1, 2, .., draw correlated numbers: for
/// such numbers, use seed_from_u64. If you need many generators, use parts of one stream, or mixed
/// seeds: numbers that another generator drew, or the first 16 bytes of the SHA-256 of a name.
#[unsafe(no_mangle)]
pub extern "C" fn nanorand_v1_pcg64_new_seed(low: u64, high: u64) -> Wide
    ensures low { result.low ≡ low }
    ensures high { result.high ≡ high }
{
    Wide { low, high }
}

/// Draws a 64-bit number: the next 8 bytes, in little-endian order.
#[unsafe(no_mangle)]
pub extern "C" fn nanorand_v1_pcg64_u64(rng: &mut Wide) -> u64
    ensures value { result ≡ number_of (pcg64_requests.bytes (at_seed rng.old) 8) }
    ensures seed { wide_number rng.new ≡ (pcg64_requests.after (at_seed rng.old) 8).seed }
{
    pcg64::number(rng)
}

/// Draws a number from 0 to below 1, a multiple of 2^-53: the top 53 bits of a 64-bit word, divided
/// by 2^53. Each of the 2^53 numbers is produced by 2^11 of the 2^64 words.
#[unsafe(no_mangle)]
pub extern "C" fn nanorand_v1_pcg64_f64(rng: &mut Wide) -> f64
    ensures value { IsFractionOf (number_of (pcg64_requests.bytes (at_seed rng.old) 8)) result }
    ensures within { (float_zero ≤ᶠ result) × (result <ᶠ float_one) }
    ensures seed { wide_number rng.new ≡ (pcg64_requests.after (at_seed rng.old) 8).seed }
{
    pcg64::float(rng)
}

/// Fills the slice with the next bytes, by one request. A length of 0 draws nothing.
#[unsafe(no_mangle)]
pub extern "C" fn nanorand_v1_pcg64_fill_bytes(rng: &mut Wide, buffer: &mut [u8])
    ensures bytes { buffer.new ≡ pcg64_requests.bytes (at_seed rng.old) (length buffer.old) }
    ensures seed { let left = pcg64_requests.after (at_seed rng.old) (length buffer.old) in
        wide_number rng.new ≡ left.seed }
{
    pcg64::fill_bytes(rng, buffer);
}

/// Draws a number from `first..=last`, by rejection sampling of 32-bit words, and writes it to
/// `number`. Returns NANORAND_OK; or NANORAND_EMPTY if the range is empty, and then draws nothing;
/// or NANORAND_EXHAUSTED if 128 words in a row were rejected, which stay consumed. After the last
/// two, `number` is unchanged.
#[unsafe(no_mangle)]
pub extern "C" fn nanorand_v1_pcg64_range_u32(
    rng: &mut Wide,
    first: u32,
    last: u32,
    number: &mut u32,
) -> Status
    ensures status { let draw = between pcg64_requests 32 first last (at_seed rng.old) in
        result ≡ status draw.0 }
    ensures number { let draw = between pcg64_requests 32 first last (at_seed rng.old) in
        number.new ≡ drawn_or number.old draw.0 }
    ensures within { result ≡ 0 → (first ≤ number.new) × (number.new ≤ last) }
    ensures seed { let draw = between pcg64_requests 32 first last (at_seed rng.old) in
        wide_number rng.new ≡ draw.1.seed }
    ensures words { let start = at_seed rng.old in
        let after = λ (n : ℕ). (after_words pcg64_requests 32 n start).seed in
        IsAfterAtMost 128 after (wide_number rng.new) }
{
    pcg64::range_u32(rng, first, last, number)
}

/// Draws a number from `first..=last`, by rejection sampling of 64-bit words, and writes it to
/// `number`. Returns NANORAND_OK; or NANORAND_EMPTY if the range is empty, and then draws nothing;
/// or NANORAND_EXHAUSTED if 128 words in a row were rejected, which stay consumed. After the last
/// two, `number` is unchanged.
#[unsafe(no_mangle)]
pub extern "C" fn nanorand_v1_pcg64_range_u64(
    rng: &mut Wide,
    first: u64,
    last: u64,
    number: &mut u64,
) -> Status
    ensures status { let draw = between pcg64_requests 64 first last (at_seed rng.old) in
        result ≡ status draw.0 }
    ensures number { let draw = between pcg64_requests 64 first last (at_seed rng.old) in
        number.new ≡ drawn_or number.old draw.0 }
    ensures within { result ≡ 0 → (first ≤ number.new) × (number.new ≤ last) }
    ensures seed { let draw = between pcg64_requests 64 first last (at_seed rng.old) in
        wide_number rng.new ≡ draw.1.seed }
    ensures words { let start = at_seed rng.old in
        let after = λ (n : ℕ). (after_words pcg64_requests 64 n start).seed in
        IsAfterAtMost 128 after (wide_number rng.new) }
{
    pcg64::range_u64(rng, first, last, number)
}

/// Draws a signed number from `first..=last`, by rejection sampling of 64-bit words, and writes it
/// to `number`. Returns NANORAND_OK; or NANORAND_EMPTY if the range is empty, and then draws
/// nothing; or NANORAND_EXHAUSTED if 128 words in a row were rejected, which stay consumed. After
/// the last two, `number` is unchanged.
#[unsafe(no_mangle)]
pub extern "C" fn nanorand_v1_pcg64_range_i64(
    rng: &mut Wide,
    first: i64,
    last: i64,
    number: &mut i64,
) -> Status
    ensures status { let draw = between_signed pcg64_requests 64 first last (at_seed rng.old) in
        result ≡ status draw.0 }
    ensures number { let draw = between_signed pcg64_requests 64 first last (at_seed rng.old) in
        number.new ≡ drawn_or number.old draw.0 }
    ensures within { result ≡ 0 → (first ≤ℤ number.new) × (number.new ≤ℤ last) }
    ensures seed { let draw = between_signed pcg64_requests 64 first last (at_seed rng.old) in
        wide_number rng.new ≡ draw.1.seed }
    ensures words { let start = at_seed rng.old in
        let after = λ (n : ℕ). (after_words pcg64_requests 64 n start).seed in
        IsAfterAtMost 128 after (wide_number rng.new) }
{
    pcg64::range_i64(rng, first, last, number)
}

/// Draws an index or a length from `first..=last`, by rejection sampling of 64-bit words, and
/// writes it to `number`. Returns NANORAND_OK; or NANORAND_EMPTY if the range is empty, and then
/// draws nothing; or NANORAND_EXHAUSTED if 128 words in a row were rejected, which stay consumed.
/// After the last two, `number` is unchanged.
#[unsafe(no_mangle)]
pub extern "C" fn nanorand_v1_pcg64_range_usize(
    rng: &mut Wide,
    first: usize,
    last: usize,
    number: &mut usize,
) -> Status
    ensures status { let draw = between pcg64_requests 64 first last (at_seed rng.old) in
        result ≡ status draw.0 }
    ensures number { let draw = between pcg64_requests 64 first last (at_seed rng.old) in
        number.new ≡ drawn_or number.old draw.0 }
    ensures within { result ≡ 0 → (first ≤ number.new) × (number.new ≤ last) }
    ensures seed { let draw = between pcg64_requests 64 first last (at_seed rng.old) in
        wide_number rng.new ≡ draw.1.seed }
    ensures words { let start = at_seed rng.old in
        let after = λ (n : ℕ). (after_words pcg64_requests 64 n start).seed in
        IsAfterAtMost 128 after (wide_number rng.new) }
{
    pcg64::range_usize(rng, first, last, number)
}

/// Draws a number below `n`, by rejection sampling of 64-bit words, and returns it. It is the
/// number that `range_u64` draws from 0 to `n - 1`. If `n` is 0, it returns 0 and draws nothing. If
/// 128 words in a row were rejected, which happens with probability below 2^-128, it returns `n`,
/// and the words stay consumed.
#[unsafe(no_mangle)]
pub extern "C" fn nanorand_v1_pcg64_below(rng: &mut Wide, n: u64) -> u64
    ensures zero { n ≡ 0 → (result ≡ 0) × (wide_number rng.new ≡ wide_number rng.old) }
    ensures number { let draw = between pcg64_requests 64 0 (n - 1) (at_seed rng.old) in
        n ≢ 0 → result ≡ drawn_or n draw.0 }
    ensures within { result ≤ n }
    ensures seed { let draw = between pcg64_requests 64 0 (n - 1) (at_seed rng.old) in
        n ≢ 0 → wide_number rng.new ≡ draw.1.seed }
    ensures words { let start = at_seed rng.old in
        let after = λ (k : ℕ). (after_words pcg64_requests 64 k start).seed in
        IsAfterAtMost 128 after (wide_number rng.new) }
{
    pcg64::below(rng, n)
}

/// Shuffles the items, by Fisher-Yates: swaps each item, from the first on, with one drawn from it
/// and the items after it. A length of 0 draws nothing. Returns NANORAND_OK, or NANORAND_EXHAUSTED
/// if 128 words in a row were rejected for one index; the swaps before that stay, and the words
/// stay consumed.
#[unsafe(no_mangle)]
pub extern "C" fn nanorand_v1_pcg64_shuffle(rng: &mut Wide, items: &mut [usize]) -> Status
    ensures status { let start = at_seed rng.old in
        let shuffle = shuffled pcg64_requests from_itself start items.old in
        result ≡ status shuffle.answer }
    ensures items { let start = at_seed rng.old in
        let shuffle = shuffled pcg64_requests from_itself start items.old in
        items.new ≡ shuffle.items }
    ensures seed { let shuffle = shuffled pcg64_requests from_itself (at_seed rng.old) items.old in
        wide_number rng.new ≡ shuffle.state.seed }
    ensures words { let start = at_seed rng.old in
        let after = λ (n : ℕ). (after_words pcg64_requests 64 n start).seed in
        IsAfterAtMost (128 * length items.old) after (wide_number rng.new) }
    ensures arrangement { IsPermutation items.old items.new }
{
    pcg64::shuffle(rng, items)
}

/// Shuffles the items as the Rust crate nanorand 0.7.0 does: swaps each item, from the first on,
/// with one drawn from all items. This is biased: for three or more items, not all orders are
/// equally frequent. Returns NANORAND_OK, or NANORAND_EXHAUSTED if 128 words in a row were rejected
/// for one index; the swaps before that stay, and the words stay consumed.
#[unsafe(no_mangle)]
pub extern "C" fn nanorand_v1_pcg64_shuffle_full(rng: &mut Wide, items: &mut [usize]) -> Status
    ensures status { let shuffle = shuffled pcg64_requests from_all (at_seed rng.old) items.old in
        result ≡ status shuffle.answer }
    ensures items { let shuffle = shuffled pcg64_requests from_all (at_seed rng.old) items.old in
        items.new ≡ shuffle.items }
    ensures seed { let shuffle = shuffled pcg64_requests from_all (at_seed rng.old) items.old in
        wide_number rng.new ≡ shuffle.state.seed }
    ensures words { let start = at_seed rng.old in
        let after = λ (n : ℕ). (after_words pcg64_requests 64 n start).seed in
        IsAfterAtMost (128 * length items.old) after (wide_number rng.new) }
    ensures arrangement { IsPermutation items.old items.new }
{
    pcg64::shuffle_full(rng, items)
}

/// Shuffles items of any type, which are `size` bytes each, one after another: `length` is the
/// number of all their bytes. The draws and the order are those of `shuffle` for that many items.
/// Bytes after the last whole item stay where they are. If `size` is 0, there is no item, and
/// nothing is drawn. From C and C++, `shuffle_items` is easier, since it takes the number of items.
/// Returns NANORAND_OK, or NANORAND_EXHAUSTED if 128 words in a row were rejected for one index;
/// the swaps before that stay, and the words stay consumed.
#[unsafe(no_mangle)]
pub extern "C" fn nanorand_v1_pcg64_shuffle_bytes(
    rng: &mut Wide,
    items: &mut [u8],
    size: usize,
) -> Status
    ensures status { let start = at_seed rng.old in
        let shuffle = shuffled pcg64_requests from_itself start (items_of size items.old) in
        result ≡ status shuffle.answer }
    ensures items { let start = at_seed rng.old in
        let shuffle = shuffled pcg64_requests from_itself start (items_of size items.old) in
        items_of size items.new ≡ shuffle.items }
    ensures rest { let whole = length items.old / size * size in
        drop whole items.new ≡ drop whole items.old }
    ensures seed { let start = at_seed rng.old in
        let shuffle = shuffled pcg64_requests from_itself start (items_of size items.old) in
        wide_number rng.new ≡ shuffle.state.seed }
    ensures words { let start = at_seed rng.old in
        let after = λ (n : ℕ). (after_words pcg64_requests 64 n start).seed in
        IsAfterAtMost (128 * length (items_of size items.old)) after (wide_number rng.new) }
    ensures arrangement { IsPermutation (items_of size items.old) (items_of size items.new) }
{
    pcg64::shuffle_items(rng, items, size)
}

/// Draws a sample without replacement, by Floyd's algorithm: writes different numbers below
/// `population`, one to each of the `wanted` places. Each set of numbers is produced by the same
/// number of sequences of words. The order of the places is not uniform: shuffle them if it
/// matters. The time is O(k^2) for k places, since each number drawn is compared with those before
/// it.
///
/// Returns NANORAND_OK; or NANORAND_EMPTY if more numbers are wanted than the population has, and
/// then draws and writes nothing; or NANORAND_EXHAUSTED if 128 words in a row were rejected for one
/// place. Then the places before that one are written, the others are unchanged, and the words stay
/// consumed. If 0 numbers are wanted, nothing is drawn.
#[unsafe(no_mangle)]
pub extern "C" fn nanorand_v1_pcg64_sample(
    rng: &mut Wide,
    population: usize,
    places: &mut [usize],
) -> Status
    ensures status { let start = at_seed rng.old in
        let sampling = sampling pcg64_requests population start places.old in
        result ≡ sampling.status }
    ensures places { let start = at_seed rng.old in
        let sampling = sampling pcg64_requests population start places.old in
        places.new ≡ sampling.places }
    ensures seed { let sample = sampling pcg64_requests population (at_seed rng.old) places.old in
        wide_number rng.new ≡ sample.state.seed }
    ensures words { let start = at_seed rng.old in
        let after = λ (n : ℕ). (after_words pcg64_requests 64 n start).seed in
        IsAfterAtMost (128 * length places.old) after (wide_number rng.new) }
    ensures below { result ≡ 0 → All (λ number. number < population) places.new }
    ensures apart { result ≡ 0 → AllPairs (λ number other. number ≢ other) places.new }
{
    pcg64::sample(rng, population, places)
}

/// Continues a sample: keeps the first `filled` of the `wanted` places and fills the others, in
/// expected time O(k) for k places, by a table that the caller provides. If `filled` is 0, it draws
/// a whole sample, with the same results as `sample`.
///
/// The length and the contents of the table change only the time. With 3k items, a number drawn is
/// compared with at most one place on average; with k items or fewer, with all of them. The table
/// must not overlap the places. Its contents are unspecified afterwards.
///
/// To draw a long sample in pieces, first pass only the first places, and a `population` that is
/// smaller by the number of places left out; then continue. After NANORAND_OK, all places hold
/// different numbers below `population`, provided that the places kept held different numbers below
/// `population` minus the number of the other places.
///
/// Returns NANORAND_OK; or NANORAND_EMPTY if more numbers are wanted than the population has, or
/// fewer than `filled`, and then draws and writes nothing; or NANORAND_EXHAUSTED if 128 words in a
/// row were rejected for one place. Then the places before that one are written, the others are
/// unchanged, and the words stay consumed.
#[unsafe(no_mangle)]
pub extern "C" fn nanorand_v1_pcg64_extend_sample(
    rng: &mut Wide,
    population: usize,
    places: &mut [usize],
    filled: usize,
    table: &mut [usize],
) -> Status
    ensures status { let start = at_seed rng.old in
        let sampling = extending pcg64_requests population start places.old filled in
        result ≡ sampling.status }
    ensures places { let start = at_seed rng.old in
        let sampling = extending pcg64_requests population start places.old filled in
        places.new ≡ sampling.places }
    ensures seed { let start = at_seed rng.old in
        let sample = extending pcg64_requests population start places.old filled in
        wide_number rng.new ≡ sample.state.seed }
    ensures words { let start = at_seed rng.old in
        let after = λ (n : ℕ). (after_words pcg64_requests 64 n start).seed in
        IsAfterAtMost (128 * length places.old) after (wide_number rng.new) }
    ensures different { let limit = population - length places.old + filled in
        DifferentBelow limit (take filled places.old)
        → result ≡ 0 → DifferentBelow population places.new }
{
    pcg64::extend_sample(rng, population, places, filled, table)
}

/// Jumps ahead by `draws` draws, in at most 128 steps and one draw.
#[unsafe(no_mangle)]
pub extern "C" fn nanorand_v1_pcg64_jump(rng: &mut Wide, draws: &Wide)
    ensures { wide_number rng.new ≡ seed_after (wide_number draws.now) (wide_number rng.old) }
{
    pcg64::jump(rng, draws);
}

/// Moves to the beginning of part `index`, counted from 0 and from the present state, where each
/// part is `draws` draws long: moves ahead by `index * draws` draws. A draw is what a `u64` takes:
/// 8 bytes for WyRand, Pcg64 and the keystream, a block of 64 bytes for ChaCha. Parts of the same
/// length from copies of the same state do not overlap, as long as no task draws more than `draws`
/// draws. Take an odd length: if a large power of two divides the distance between two parts of
/// WyRand or Pcg64, their numbers are correlated.
///
/// Returns NANORAND_OK, or NANORAND_PAST_PERIOD if the part ends past the period; the state does
/// not move then. The period is 2^64 draws for WyRand and ChaCha, 2^126 for Pcg64, and 2^67 for the
/// keystream.
#[unsafe(no_mangle)]
pub extern "C" fn nanorand_v1_pcg64_part(rng: &mut Wide, index: u64, draws: u64) -> Status
    ensures status { let start = at_seed rng.old in
        result ≡ (parting pcg64_requests (2 ^ 126) draws index start).0 }
    ensures seed { let start = at_seed rng.old in
        wide_number rng.new ≡ (parting pcg64_requests (2 ^ 126) draws index start).1.seed }
{
    pcg64::part(rng, index, draws)
}

/// Writes to `draws` the number of draws, below 2^126, that lead from the state `rng` to the state
/// `other`. There is at most one such number. It takes at most 126 steps.
///
/// Returns NANORAND_OK, or NANORAND_OTHER_CYCLE if no number of draws leads to `other`; `draws` is
/// unchanged then. Two states are in the same cycle if and only if they are equal modulo 8 or their
/// sum is 7 modulo 8.
#[unsafe(no_mangle)]
pub extern "C" fn nanorand_v1_pcg64_distance(rng: &Wide, other: &Wide, draws: &mut Wide) -> Status
    ensures status { (result ≡ 0) ⊎ (result ≡ 4) }
    ensures reached { result ≡ 0 ↔ SameCycle (wide_number rng.now) (wide_number other.now) }
    ensures below { result ≡ 0 → wide_number draws.new < 2 ^ 126 }
    ensures leads { let left = seed_after (wide_number draws.new) (wide_number rng.now) in
        result ≡ 0 → left ≡ wide_number other.now }
    ensures only { (n : ℕ) → n < 2 ^ 126
        → seed_after n (wide_number rng.now) ≡ wide_number other.now
        → (result ≡ 0) × (wide_number draws.new ≡ n) }
    ensures kept { result ≡ 4 → draws.new ≡ draws.old }
{
    pcg64::distance(rng, other, draws)
}
