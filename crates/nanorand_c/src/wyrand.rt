//! WyRand. The generator itself is in the caller's memory. Not cryptographically secure.
ghost use Rattle.std.specs.Prelude.{◌/◌, drop, ◌≡◌, ◌≢◌, ◌<◌, ◌≤◌, ◌≤ℤ◌, ◌^◌, ◌*◌, ◌+◌, ◌-◌, All, IsPermutation, length, ℕ, take};
ghost use Rattle.std.specs.Float.{◌≤ᶠ◌, ◌<ᶠ◌, float_one, float_zero};
ghost use Rattle.std.specs.List.{AllPairs};
ghost use Rattle.nanorand_core.specs.values.Draws.{after_words};
ghost use Rattle.nanorand_core.specs.shuffles.Shuffles.{from_all, from_itself, shuffled};
ghost use Rattle.nanorand_core.specs.values.Values.{number_of};
ghost use Rattle.nanorand.specs.generators.SplitMix.{seed_from};
ghost use Rattle.nanorand.specs.generators.WyRand.{seed_after, wyrand_requests};
ghost use Rattle.nanorand_calls.specs.Between.{between, between_signed};
ghost use Rattle.nanorand_calls.specs.Fractions.{IsFractionOf};
ghost use Rattle.nanorand_calls.specs.Items.{items_of};
ghost use Rattle.nanorand_calls.specs.Parts.{parting};
ghost use Rattle.nanorand_core.specs.samples.Samples.{DifferentBelow};
ghost use Rattle.nanorand_calls.specs.Sampling.{extending, sampling};
ghost use Rattle.nanorand_calls.specs.Status.{drawn_or, status};
ghost use Rattle.nanorand_calls.specs.Words.{IsAfterAtMost};

use nanorand::{Rng, WyRand};
use nanorand_calls::calls::{
    extend_sample, float, part, range_i64, sample, shuffle, shuffle_full, shuffle_items,
};
use nanorand_calls::status::Status;
use nanorand_calls::wyrand::{below, range_u32, range_u64, range_usize};

/// Makes the state from a number, which may be small: 0, 1, 2, .., a port, a year. Different
/// numbers produce different states.
///
/// The seed consists of the first words of 64 bits that SplitMix64 produces from the number, in
/// little-endian order (Guy Steele, Doug Lea and Christine Flood, 2014, with the constants of
/// Sebastiano Vigna). For ChaCha and its streams, the seed is the key followed by the nonce, the
/// counter is 0, and a stream has nothing buffered.
#[unsafe(no_mangle)]
pub extern "C" fn nanorand_v1_wyrand_seed_from_u64(rng: &mut WyRand, number: u64)
    ensures { rng.new ≡ number_of (seed_from 8 number) }
{
    *rng = WyRand::seed_from_u64(number);
}

/// Returns a generator with this seed. The seed is the state itself, and is not mixed. Generators
/// with neighbouring seeds, such as 0, 1, 2, .., draw correlated numbers: for such numbers, use
/// seed_from_u64. If you need many generators, use parts of one stream, or mixed seeds: numbers
/// that another generator drew, or the first 8 bytes of the SHA-256 of a name.
#[unsafe(no_mangle)]
pub extern "C" fn nanorand_v1_wyrand_new_seed(seed: u64) -> WyRand
    ensures { result ≡ seed }
{
    WyRand::new_seed(seed)
}

/// Draws a 64-bit number: the next 8 bytes, in little-endian order.
#[unsafe(no_mangle)]
pub extern "C" fn nanorand_v1_wyrand_u64(rng: &mut WyRand) -> u64
    ensures value { result ≡ number_of (wyrand_requests.bytes rng.old 8) }
    ensures state { rng.new ≡ wyrand_requests.after rng.old 8 }
{
    rng.generate()
}

/// Draws a number from 0 to below 1, a multiple of 2^-53: the top 53 bits of a 64-bit word, divided
/// by 2^53. Each of the 2^53 numbers is produced by 2^11 of the 2^64 words.
#[unsafe(no_mangle)]
pub extern "C" fn nanorand_v1_wyrand_f64(rng: &mut WyRand) -> f64
    ensures value { IsFractionOf (number_of (wyrand_requests.bytes rng.old 8)) result }
    ensures within { (float_zero ≤ᶠ result) × (result <ᶠ float_one) }
    ensures state { rng.new ≡ wyrand_requests.after rng.old 8 }
{
    float(rng)
}

/// Fills the slice with the next bytes, by one request. A length of 0 draws nothing.
#[unsafe(no_mangle)]
pub extern "C" fn nanorand_v1_wyrand_fill_bytes(rng: &mut WyRand, buffer: &mut [u8])
    ensures bytes { buffer.new ≡ wyrand_requests.bytes rng.old (length buffer.old) }
    ensures state { rng.new ≡ wyrand_requests.after rng.old (length buffer.old) }
{
    rng.fill_bytes(buffer);
}

/// Draws a number from `first..=last`, by rejection sampling of 32-bit words, and writes it to
/// `number`. Returns NANORAND_OK; or NANORAND_EMPTY if the range is empty, and then draws nothing;
/// or NANORAND_EXHAUSTED if 128 words in a row were rejected, which stay consumed. After the last
/// two, `number` is unchanged.
#[unsafe(no_mangle)]
pub extern "C" fn nanorand_v1_wyrand_range_u32(
    rng: &mut WyRand,
    first: u32,
    last: u32,
    number: &mut u32,
) -> Status
    ensures status { let draw = between wyrand_requests 32 first last rng.old in
        result ≡ status draw.0 }
    ensures number { let draw = between wyrand_requests 32 first last rng.old in
        number.new ≡ drawn_or number.old draw.0 }
    ensures within { result ≡ 0 → (first ≤ number.new) × (number.new ≤ last) }
    ensures state { rng.new ≡ (between wyrand_requests 32 first last rng.old).1 }
    ensures words { IsAfterAtMost 128 (λ n. after_words wyrand_requests 32 n rng.old) rng.new }
{
    range_u32(rng, first, last, number)
}

/// Draws a number from `first..=last`, by rejection sampling of 64-bit words, and writes it to
/// `number`. Returns NANORAND_OK; or NANORAND_EMPTY if the range is empty, and then draws nothing;
/// or NANORAND_EXHAUSTED if 128 words in a row were rejected, which stay consumed. After the last
/// two, `number` is unchanged.
#[unsafe(no_mangle)]
pub extern "C" fn nanorand_v1_wyrand_range_u64(
    rng: &mut WyRand,
    first: u64,
    last: u64,
    number: &mut u64,
) -> Status
    ensures status { let draw = between wyrand_requests 64 first last rng.old in
        result ≡ status draw.0 }
    ensures number { let draw = between wyrand_requests 64 first last rng.old in
        number.new ≡ drawn_or number.old draw.0 }
    ensures within { result ≡ 0 → (first ≤ number.new) × (number.new ≤ last) }
    ensures state { rng.new ≡ (between wyrand_requests 64 first last rng.old).1 }
    ensures words { IsAfterAtMost 128 (λ n. after_words wyrand_requests 64 n rng.old) rng.new }
{
    range_u64(rng, first, last, number)
}

/// Draws a signed number from `first..=last`, by rejection sampling of 64-bit words, and writes it
/// to `number`. Returns NANORAND_OK; or NANORAND_EMPTY if the range is empty, and then draws
/// nothing; or NANORAND_EXHAUSTED if 128 words in a row were rejected, which stay consumed. After
/// the last two, `number` is unchanged.
#[unsafe(no_mangle)]
pub extern "C" fn nanorand_v1_wyrand_range_i64(
    rng: &mut WyRand,
    first: i64,
    last: i64,
    number: &mut i64,
) -> Status
    ensures status { let draw = between_signed wyrand_requests 64 first last rng.old in
        result ≡ status draw.0 }
    ensures number { let draw = between_signed wyrand_requests 64 first last rng.old in
        number.new ≡ drawn_or number.old draw.0 }
    ensures within { result ≡ 0 → (first ≤ℤ number.new) × (number.new ≤ℤ last) }
    ensures state { rng.new ≡ (between_signed wyrand_requests 64 first last rng.old).1 }
    ensures words { IsAfterAtMost 128 (λ n. after_words wyrand_requests 64 n rng.old) rng.new }
{
    range_i64(rng, first, last, number)
}

/// Draws an index or a length from `first..=last`, by rejection sampling of 64-bit words, and
/// writes it to `number`. Returns NANORAND_OK; or NANORAND_EMPTY if the range is empty, and then
/// draws nothing; or NANORAND_EXHAUSTED if 128 words in a row were rejected, which stay consumed.
/// After the last two, `number` is unchanged.
#[unsafe(no_mangle)]
pub extern "C" fn nanorand_v1_wyrand_range_usize(
    rng: &mut WyRand,
    first: usize,
    last: usize,
    number: &mut usize,
) -> Status
    ensures status { let draw = between wyrand_requests 64 first last rng.old in
        result ≡ status draw.0 }
    ensures number { let draw = between wyrand_requests 64 first last rng.old in
        number.new ≡ drawn_or number.old draw.0 }
    ensures within { result ≡ 0 → (first ≤ number.new) × (number.new ≤ last) }
    ensures state { rng.new ≡ (between wyrand_requests 64 first last rng.old).1 }
    ensures words { IsAfterAtMost 128 (λ n. after_words wyrand_requests 64 n rng.old) rng.new }
{
    range_usize(rng, first, last, number)
}

/// Draws a number below `n`, by rejection sampling of 64-bit words, and returns it. It is the
/// number that `range_u64` draws from 0 to `n - 1`. If `n` is 0, it returns 0 and draws nothing. If
/// 128 words in a row were rejected, which happens with probability below 2^-128, it returns `n`,
/// and the words stay consumed.
#[unsafe(no_mangle)]
pub extern "C" fn nanorand_v1_wyrand_below(rng: &mut WyRand, n: u64) -> u64
    ensures zero { n ≡ 0 → (result ≡ 0) × (rng.new ≡ rng.old) }
    ensures number { let draw = between wyrand_requests 64 0 (n - 1) rng.old in
        n ≢ 0 → result ≡ drawn_or n draw.0 }
    ensures within { result ≤ n }
    ensures state { let draw = between wyrand_requests 64 0 (n - 1) rng.old in
        n ≢ 0 → rng.new ≡ draw.1 }
    ensures words { let start = rng.old in
        let after = λ (k : ℕ). after_words wyrand_requests 64 k start in
        IsAfterAtMost 128 after rng.new }
{
    below(rng, n)
}

/// Shuffles the items, by Fisher-Yates: swaps each item, from the first on, with one drawn from it
/// and the items after it. A length of 0 draws nothing. Returns NANORAND_OK, or NANORAND_EXHAUSTED
/// if 128 words in a row were rejected for one index; the swaps before that stay, and the words
/// stay consumed.
#[unsafe(no_mangle)]
pub extern "C" fn nanorand_v1_wyrand_shuffle(rng: &mut WyRand, items: &mut [usize]) -> Status
    ensures status { let shuffle = shuffled wyrand_requests from_itself rng.old items.old in
        result ≡ status shuffle.answer }
    ensures items { let shuffle = shuffled wyrand_requests from_itself rng.old items.old in
        items.new ≡ shuffle.items }
    ensures state { rng.new ≡ (shuffled wyrand_requests from_itself rng.old items.old).state }
    ensures words { let after = λ (n : ℕ). after_words wyrand_requests 64 n rng.old in
        IsAfterAtMost (128 * length items.old) after rng.new }
    ensures arrangement { IsPermutation items.old items.new }
{
    shuffle(rng, items)
}

/// Shuffles the items as the Rust crate nanorand 0.7.0 does: swaps each item, from the first on,
/// with one drawn from all items. This is biased: for three or more items, not all orders are
/// equally frequent. Returns NANORAND_OK, or NANORAND_EXHAUSTED if 128 words in a row were rejected
/// for one index; the swaps before that stay, and the words stay consumed.
#[unsafe(no_mangle)]
pub extern "C" fn nanorand_v1_wyrand_shuffle_full(rng: &mut WyRand, items: &mut [usize]) -> Status
    ensures status { let shuffle = shuffled wyrand_requests from_all rng.old items.old in
        result ≡ status shuffle.answer }
    ensures items { let shuffle = shuffled wyrand_requests from_all rng.old items.old in
        items.new ≡ shuffle.items }
    ensures state { rng.new ≡ (shuffled wyrand_requests from_all rng.old items.old).state }
    ensures words { let after = λ (n : ℕ). after_words wyrand_requests 64 n rng.old in
        IsAfterAtMost (128 * length items.old) after rng.new }
    ensures arrangement { IsPermutation items.old items.new }
{
    shuffle_full(rng, items)
}

/// Shuffles items of any type, which are `size` bytes each, one after another: `length` is the
/// number of all their bytes. The draws and the order are those of `shuffle` for that many items.
/// Bytes after the last whole item stay where they are. If `size` is 0, there is no item, and
/// nothing is drawn. From C and C++, `shuffle_items` is easier, since it takes the number of items.
/// Returns NANORAND_OK, or NANORAND_EXHAUSTED if 128 words in a row were rejected for one index;
/// the swaps before that stay, and the words stay consumed.
#[unsafe(no_mangle)]
pub extern "C" fn nanorand_v1_wyrand_shuffle_bytes(
    rng: &mut WyRand,
    items: &mut [u8],
    size: usize,
) -> Status
    ensures status { let start = rng.old in
        let shuffle = shuffled wyrand_requests from_itself start (items_of size items.old) in
        result ≡ status shuffle.answer }
    ensures items { let start = rng.old in
        let shuffle = shuffled wyrand_requests from_itself start (items_of size items.old) in
        items_of size items.new ≡ shuffle.items }
    ensures rest { let whole = length items.old / size * size in
        drop whole items.new ≡ drop whole items.old }
    ensures state { let start = rng.old in
        let shuffle = shuffled wyrand_requests from_itself start (items_of size items.old) in
        rng.new ≡ shuffle.state }
    ensures words { let start = rng.old in
        let after = λ (n : ℕ). after_words wyrand_requests 64 n start in
        IsAfterAtMost (128 * length (items_of size items.old)) after rng.new }
    ensures arrangement { IsPermutation (items_of size items.old) (items_of size items.new) }
{
    shuffle_items(rng, items, size)
}

/// Draws a sample without replacement, by Floyd's algorithm: writes different numbers below
/// `population`, one to each of the `wanted` places. Each set of numbers is produced by the same
/// number of sequences of words. The order of the places is not uniform: shuffle them if it
/// matters. The time is O(k^2) for k places, since each number drawn is compared with those before
/// it.
///
/// Returns NANORAND_OK; or NANORAND_EMPTY if more numbers are wanted than the population has, and
/// then draws and writes nothing; or NANORAND_EXHAUSTED if 128 words in a row were rejected for one
/// place. Then the places before that one are written, the others are unchanged, and the words stay
/// consumed. If 0 numbers are wanted, nothing is drawn.
#[unsafe(no_mangle)]
pub extern "C" fn nanorand_v1_wyrand_sample(
    rng: &mut WyRand,
    population: usize,
    places: &mut [usize],
) -> Status
    ensures status { let sampling = sampling wyrand_requests population rng.old places.old in
        result ≡ sampling.status }
    ensures places { let sampling = sampling wyrand_requests population rng.old places.old in
        places.new ≡ sampling.places }
    ensures state { rng.new ≡ (sampling wyrand_requests population rng.old places.old).state }
    ensures words { let after = λ (n : ℕ). after_words wyrand_requests 64 n rng.old in
        IsAfterAtMost (128 * length places.old) after rng.new }
    ensures below { result ≡ 0 → All (λ number. number < population) places.new }
    ensures apart { result ≡ 0 → AllPairs (λ number other. number ≢ other) places.new }
{
    sample(rng, population, places)
}

/// Continues a sample: keeps the first `filled` of the `wanted` places and fills the others, in
/// expected time O(k) for k places, by a table that the caller provides. If `filled` is 0, it draws
/// a whole sample, with the same results as `sample`.
///
/// The length and the contents of the table change only the time. With 3k items, a number drawn is
/// compared with at most one place on average; with k items or fewer, with all of them. The table
/// must not overlap the places. Its contents are unspecified afterwards.
///
/// To draw a long sample in pieces, first pass only the first places, and a `population` that is
/// smaller by the number of places left out; then continue. After NANORAND_OK, all places hold
/// different numbers below `population`, provided that the places kept held different numbers below
/// `population` minus the number of the other places.
///
/// Returns NANORAND_OK; or NANORAND_EMPTY if more numbers are wanted than the population has, or
/// fewer than `filled`, and then draws and writes nothing; or NANORAND_EXHAUSTED if 128 words in a
/// row were rejected for one place. Then the places before that one are written, the others are
/// unchanged, and the words stay consumed.
#[unsafe(no_mangle)]
pub extern "C" fn nanorand_v1_wyrand_extend_sample(
    rng: &mut WyRand,
    population: usize,
    places: &mut [usize],
    filled: usize,
    table: &mut [usize],
) -> Status
    ensures status { let start = rng.old in
        let sampling = extending wyrand_requests population start places.old filled in
        result ≡ sampling.status }
    ensures places { let start = rng.old in
        let sampling = extending wyrand_requests population start places.old filled in
        places.new ≡ sampling.places }
    ensures state { let start = rng.old in
        rng.new ≡ (extending wyrand_requests population start places.old filled).state }
    ensures words { let after = λ (n : ℕ). after_words wyrand_requests 64 n rng.old in
        IsAfterAtMost (128 * length places.old) after rng.new }
    ensures different { let limit = population - length places.old + filled in
        DifferentBelow limit (take filled places.old)
        → result ≡ 0 → DifferentBelow population places.new }
{
    extend_sample(rng, population, places, filled, table)
}

/// Jumps ahead by `draws` draws, by one multiplication.
#[unsafe(no_mangle)]
pub extern "C" fn nanorand_v1_wyrand_jump(rng: &mut WyRand, draws: u64)
    ensures { rng.new ≡ seed_after draws rng.old }
{
    rng.jump(draws);
}

/// Moves to the beginning of part `index`, counted from 0 and from the present state, where each
/// part is `draws` draws long: moves ahead by `index * draws` draws. A draw is what a `u64` takes:
/// 8 bytes for WyRand, Pcg64 and the keystream, a block of 64 bytes for ChaCha. Parts of the same
/// length from copies of the same state do not overlap, as long as no task draws more than `draws`
/// draws. Take an odd length: if a large power of two divides the distance between two parts of
/// WyRand or Pcg64, their numbers are correlated.
///
/// Returns NANORAND_OK, or NANORAND_PAST_PERIOD if the part ends past the period; the state does
/// not move then. The period is 2^64 draws for WyRand and ChaCha, 2^126 for Pcg64, and 2^67 for the
/// keystream.
#[unsafe(no_mangle)]
pub extern "C" fn nanorand_v1_wyrand_part(rng: &mut WyRand, index: u64, draws: u64) -> Status
    ensures status { let parting = parting wyrand_requests (2 ^ 64) draws index rng.old in
        result ≡ parting.0 }
    ensures state { let parting = parting wyrand_requests (2 ^ 64) draws index rng.old in
        rng.new ≡ parting.1 }
{
    part(rng, index, draws)
}

/// Returns the number of draws, below 2^64, that lead from the state `rng` to the state `other`.
/// There is exactly one such number, since the period is 2^64: from a state to an earlier one, it is
/// 2^64 minus the draws between them.
#[unsafe(no_mangle)]
pub extern "C" fn nanorand_v1_wyrand_distance(rng: &WyRand, other: &WyRand) -> u64
    ensures leads { seed_after result rng.now ≡ other.now }
    ensures only { (n : ℕ) → n < 2 ^ 64 → seed_after n rng.now ≡ other.now → n ≡ result }
{
    rng.distance(other)
}
