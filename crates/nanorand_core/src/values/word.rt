//! Words, which are random integers of 8, 16, 32 or 64 bits, and the unbiased mapping of words to
//! numbers below a size.
ghost use Rattle.std.specs.Prelude.{◌≡◌, ℕ, ◌*◌, ◌/◌, ◌%◌, ◌^◌, ◌<◌, ◌≤◌, nat_lt, MatchOption, IsSome, IfSome, IfNone};
ghost use Rattle.nanorand_core.specs.values.Runs.{IsWordWidth, Names, named, rejected};
ghost use Rattle.nanorand_core.specs.values.Draws.{word_limit, after_limit, next_word, after_word, after_words, drawn_below};

use crate::rand::Rng;
use crate::values::RandomGen;

// The greatest number of words that are drawn for one number.
pub(crate) const MAX_WORDS: usize = 128;

/// Returns the number below `size` that a word of `bits` bits is mapped to, or `None` if the word
/// is rejected.
///
/// The method is that of Daniel Lemire, "Fast Random Integer Generation in an Interval" (2019).
/// Each number has a run of floor(2^bits / size) consecutive words, in the order of the numbers,
/// and the 2^bits % size words outside all runs are rejected. A word in the run of a number is said
/// to name that number.
///
/// Preconditions: `bits` is 8, 16, 32 or 64, `size` is from 1 to 2^bits, and `word` is below
/// 2^bits.
pub fn pick_word(size: u128, bits: u32, word: u64) -> Option<u64>
    requires width { IsWordWidth bits }
    requires some { 1 ≤ size }
    requires within { size ≤ 2 ^ bits }
    requires fits { word < 2 ^ bits }
    ensures value { result ≡ named bits size word }
    ensures names { MatchOption result ((k : ℕ) → ¬ Names bits size word k)
        (λ k. Names bits size word k) }
{
    if size > u128::from(u64::MAX) {
        return Some(word);
    }
    pick_below(size as u64, bits, word)
}

// Does the same as `pick_word`, for a size that fits in 64 bits. Fewer than `size` words are
// rejected, so a low half of `size` or more is accepted without computing how many.
pub(crate) fn pick_below(size: u64, bits: u32, word: u64) -> Option<u64>
    requires width { IsWordWidth bits }
    requires some { 1 ≤ size }
    requires within { size ≤ 2 ^ bits }
    requires fits { word < 2 ^ bits }
    ensures { result ≡ named bits size word }
{
    let (number, low) = halves_of(size, bits, word);
    if low >= size || low >= rejected(size, bits) {
        Some(number)
    } else {
        None
    }
}

// Does the same as `pick_below`, with the number of rejected words already computed.
pub(crate) fn pick_counted(size: u64, bits: u32, rejects: u64, word: u64) -> Option<u64>
    requires width { IsWordWidth bits }
    requires some { 1 ≤ size }
    requires within { size ≤ 2 ^ bits }
    requires fits { word < 2 ^ bits }
    requires counted { rejects ≡ rejected bits size }
    ensures { result ≡ named bits size word }
{
    let (number, low) = halves_of(size, bits, word);
    (low >= rejects).then_some(number)
}

// Returns the halves of `word * size`: the high half is the number, and the low half decides
// whether the word is accepted.
fn halves_of(size: u64, bits: u32, word: u64) -> (u64, u64)
    requires width { IsWordWidth bits }
    requires within { size ≤ 2 ^ bits }
    requires fits { word < 2 ^ bits }
    ensures high { result.0 ≡ word * size / 2 ^ bits }
    ensures low { result.1 ≡ word * size % 2 ^ bits }
{
    let product = product_of(size, bits, word);
    (high_of(product, bits), low_of(product, bits))
}

// Returns the product of a word and the size. Words of fewer than 64 bits are multiplied in 64
// bits.
fn product_of(size: u64, bits: u32, word: u64) -> u128
    requires width { IsWordWidth bits }
    requires within { size ≤ 2 ^ bits }
    requires fits { word < 2 ^ bits }
    ensures value { result ≡ word * size }
    ensures bound { result / 2 ^ bits < 2 ^ 64 }
{
    if bits < 64 {
        u128::from(word * size)
    } else {
        u128::from(word) * u128::from(size)
    }
}

// Returns the high half of a product.
fn high_of(product: u128, bits: u32) -> u64
    requires width { IsWordWidth bits }
    requires bound { product / 2 ^ bits < 2 ^ 64 }
    ensures { result ≡ product / 2 ^ bits }
{
    (product >> bits) as u64
}

// Returns the low half of a product.
fn low_of(product: u128, bits: u32) -> u64
    requires width { IsWordWidth bits }
    ensures { result ≡ product % 2 ^ bits }
{
    (product % (1 << bits)) as u64
}

// Returns whether the low half of a product is below a number. The comparison is made in the type
// of the word.
fn low_is_below(product: u128, number: u64, bits: u32) -> bool
    requires width { IsWordWidth bits }
    requires within { number < 2 ^ bits }
    ensures { result ≡ nat_lt (product % 2 ^ bits) number }
{
    let low = low_of(product, bits);
    match bits {
        8 => (low as u8) < number as u8,
        16 => (low as u16) < number as u16,
        32 => (low as u32) < number as u32,
        _ => low < number,
    }
}

// Returns how many words are rejected. This needs no division if `size` is more than half of
// 2^bits.
pub(crate) fn rejected(size: u64, bits: u32) -> u64
    requires width { IsWordWidth bits }
    requires some { 1 ≤ size }
    requires within { size ≤ 2 ^ bits }
    ensures { result ≡ rejected bits size }
{
    let others = ((1u128 << bits) - u128::from(size)) as u64;
    if others < size {
        others
    } else {
        remainder(others, size)
    }
}

// Returns an upper bound of the number of rejected words, without a division: a low half of at
// least this bound is accepted at once. Sizes above half of 2^bits are common for words of 8 and 16
// bits. The bound is then the exact number of rejected words, so that a draw makes only one
// unpredictable test.
fn most_rejected(size: u64, bits: u32) -> u64
    requires width { IsWordWidth bits }
    requires some { 1 ≤ size }
    requires within { size ≤ 2 ^ bits }
    ensures fits { result ≤ size }
    ensures reaches { rejected bits size ≤ result }
{
    if bits > 16 {
        return size;
    }
    let others = ((1u128 << bits) - u128::from(size)) as u64;
    others.min(size)
}

// Few words need this division, so it is kept apart from the usual path. It is inlined all the
// same: LLVM must assume that a call into another crate unwinds, and would store the state of the
// generator before each call.
#[cold]
#[inline]
fn remainder(others: u64, size: u64) -> u64
    requires { 1 ≤ size }
    ensures { result ≡ others % size }
{
    others % size
}

/// Draws a number below `size`. Each number is produced by the same number of words of `bits` bits.
///
/// Each word is one request, and the first word that `pick_word` does not reject decides. Returns
/// `None` if 128 words in a row were rejected; they stay consumed. If `size` divides 2^bits, as a
/// power of two does, no word is rejected (`divisor`).
///
/// Preconditions: `bits` is 8, 16, 32 or 64, and `size` is from 1 to 2^bits.
#[inline]
pub fn draw_below<G: Rng<OUTPUT>, const OUTPUT: usize>(
    rng: &mut G,
    size: u128,
    bits: u32,
) -> Option<u64>
    requires width { IsWordWidth bits }
    requires some { 1 ≤ size }
    requires within { size ≤ 2 ^ bits }
    ensures below { IfSome result (λ number. number < size) }
    ensures number { result ≡ (drawn_below G.requests bits size rng.old).number }
    ensures state { rng.new ≡ (drawn_below G.requests bits size rng.old).state }
    ensures words { (n : ℕ) × (n ≤ word_limit) × (rng.new ≡ after_words G.requests bits n rng.old) }
    ensures exhausted { IfNone result (rng.new ≡ after_limit (after_word G.requests bits) rng.old) }
    ensures divisor { rejected bits size ≡ 0 → IsSome result }
{
    let first = draw_word(rng, bits);
    if size == 1 << bits {
        return Some(first);
    }
    let size = size as u64;
    let mut product = product_of(size, bits, first);
    let limit = most_rejected(size, bits);
    if !low_is_below(product, limit, bits) {
        return Some(high_of(product, bits));
    }
    let rejects = rejected(size, bits);
    let mut drawn = 1;
    // `&` gives the loop a single exit: with two, LLVM vectorizes it, which makes it four times
    // slower.
    'others: while low_is_below(product, rejects, bits) & (drawn < MAX_WORDS) {
        let word = draw_word(rng, bits);
        product = product_of(size, bits, word);
        drawn += 1;
    }
    if low_is_below(product, rejects, bits) {
        return None;
    }
    Some(high_of(product, bits))
}

// Draws the next word of `bits` bits, by one request.
pub(crate) fn draw_word<G: Rng<OUTPUT>, const OUTPUT: usize>(rng: &mut G, bits: u32) -> u64
    requires width { IsWordWidth bits }
    ensures value { result ≡ next_word G.requests bits rng.old }
    ensures fits { result < 2 ^ bits }
    ensures state { rng.new ≡ after_word G.requests bits rng.old }
{
    match bits {
        8 => u64::from(u8::random(rng)),
        16 => u64::from(u16::random(rng)),
        32 => u64::from(u32::random(rng)),
        _ => u64::random(rng),
    }
}
