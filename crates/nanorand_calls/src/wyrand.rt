//! The most frequent calls on `WyRand`. They try the first word of a range in code of its own,
//! apart from the search for a later word. The generator itself is in the caller's memory. Not
//! cryptographically secure.
ghost use Rattle.std.specs.Prelude.{◌≡◌, ◌≢◌, ◌≤◌, ◌-◌};
ghost use Rattle.nanorand_core.specs.values.Draws.{after_words};
ghost use Rattle.nanorand.specs.generators.WyRand.{wyrand_requests};
ghost use Rattle.nanorand_calls.specs.Between.{between};
ghost use Rattle.nanorand_calls.specs.Status.{drawn_or, status};
ghost use Rattle.nanorand_calls.specs.Words.{IsAfterAtMost};

use crate::calls;
use crate::first_word::{number_u32, number_u64};
use crate::status::Status;
use nanorand::WyRand;

/// Draws a number from `first..=last`, by rejection sampling of 32-bit words. Returns the status 0,
/// 1 or 2, and writes `number` only if the status is 0.
pub fn range_u32(rng: &mut WyRand, first: u32, last: u32, number: &mut u32) -> Status
    ensures status { result ≡ status (between wyrand_requests 32 first last rng.old).0 }
    ensures number { let draw = between wyrand_requests 32 first last rng.old in
        number.new ≡ drawn_or number.old draw.0 }
    ensures within { result ≡ 0 → (first ≤ number.new) × (number.new ≤ last) }
    ensures state { rng.new ≡ (between wyrand_requests 32 first last rng.old).1 }
    ensures words { IsAfterAtMost 128 (λ n. after_words wyrand_requests 32 n rng.old) rng.new }
{
    if first <= last {
        let mut ahead = WyRand::new_seed(rng.seed());
        if let Some(drawn) = number_u32(&mut ahead, first, last) {
            *rng = ahead;
            *number = drawn;
            return 0;
        }
    }
    searched_u32(rng, first, last, number)
}

// Does the same, by testing each word in turn.
#[cold]
#[inline(never)]
fn searched_u32(rng: &mut WyRand, first: u32, last: u32, number: &mut u32) -> Status
    ensures status { result ≡ status (between wyrand_requests 32 first last rng.old).0 }
    ensures number { let draw = between wyrand_requests 32 first last rng.old in
        number.new ≡ drawn_or number.old draw.0 }
    ensures within { result ≡ 0 → (first ≤ number.new) × (number.new ≤ last) }
    ensures state { rng.new ≡ (between wyrand_requests 32 first last rng.old).1 }
    ensures words { IsAfterAtMost 128 (λ n. after_words wyrand_requests 32 n rng.old) rng.new }
{
    calls::range_u32(rng, first, last, number)
}

/// Draws a number from `first..=last` as `range_u32` does, but by 64-bit words.
pub fn range_u64(rng: &mut WyRand, first: u64, last: u64, number: &mut u64) -> Status
    ensures status { result ≡ status (between wyrand_requests 64 first last rng.old).0 }
    ensures number { let draw = between wyrand_requests 64 first last rng.old in
        number.new ≡ drawn_or number.old draw.0 }
    ensures within { result ≡ 0 → (first ≤ number.new) × (number.new ≤ last) }
    ensures state { rng.new ≡ (between wyrand_requests 64 first last rng.old).1 }
    ensures words { IsAfterAtMost 128 (λ n. after_words wyrand_requests 64 n rng.old) rng.new }
{
    if first <= last {
        let mut ahead = WyRand::new_seed(rng.seed());
        if let Some(drawn) = number_u64(&mut ahead, first, last) {
            *rng = ahead;
            *number = drawn;
            return 0;
        }
    }
    searched_u64(rng, first, last, number)
}

// Does the same, by testing each word in turn.
#[cold]
#[inline(never)]
fn searched_u64(rng: &mut WyRand, first: u64, last: u64, number: &mut u64) -> Status
    ensures status { result ≡ status (between wyrand_requests 64 first last rng.old).0 }
    ensures number { let draw = between wyrand_requests 64 first last rng.old in
        number.new ≡ drawn_or number.old draw.0 }
    ensures within { result ≡ 0 → (first ≤ number.new) × (number.new ≤ last) }
    ensures state { rng.new ≡ (between wyrand_requests 64 first last rng.old).1 }
    ensures words { IsAfterAtMost 128 (λ n. after_words wyrand_requests 64 n rng.old) rng.new }
{
    calls::range_u64(rng, first, last, number)
}

/// Draws an index or a length from `first..=last` as `range_u32` does, but by 64-bit words.
pub fn range_usize(rng: &mut WyRand, first: usize, last: usize, number: &mut usize) -> Status
    ensures status { result ≡ status (between wyrand_requests 64 first last rng.old).0 }
    ensures number { let draw = between wyrand_requests 64 first last rng.old in
        number.new ≡ drawn_or number.old draw.0 }
    ensures within { result ≡ 0 → (first ≤ number.new) × (number.new ≤ last) }
    ensures state { rng.new ≡ (between wyrand_requests 64 first last rng.old).1 }
    ensures words { IsAfterAtMost 128 (λ n. after_words wyrand_requests 64 n rng.old) rng.new }
{
    let mut drawn = *number as u64;
    let status = range_u64(rng, first as u64, last as u64, &mut drawn);
    *number = drawn as usize;
    status
}

/// Draws a number below `n`, by rejection sampling of 64-bit words, and returns the number itself.
/// If `n` is 0, the function returns 0 and draws nothing. If 128 words in a row were rejected, it
/// returns `n`; the words stay consumed. The probability of that is below 2^-128.
pub fn below(rng: &mut WyRand, n: u64) -> u64
    ensures zero { n ≡ 0 → (result ≡ 0) × (rng.new ≡ rng.old) }
    ensures number { n ≢ 0 → result ≡ drawn_or n (between wyrand_requests 64 0 (n - 1) rng.old).0 }
    ensures within { result ≤ n }
    ensures state { n ≢ 0 → rng.new ≡ (between wyrand_requests 64 0 (n - 1) rng.old).1 }
    ensures words { IsAfterAtMost 128 (λ k. after_words wyrand_requests 64 k rng.old) rng.new }
{
    if n > 0 {
        let mut ahead = WyRand::new_seed(rng.seed());
        if let Some(drawn) = number_u64(&mut ahead, 0, n - 1) {
            *rng = ahead;
            return drawn;
        }
    }
    searched_below(rng, n)
}

// Does the same, by testing each word in turn.
#[cold]
#[inline(never)]
fn searched_below(rng: &mut WyRand, n: u64) -> u64
    ensures zero { n ≡ 0 → (result ≡ 0) × (rng.new ≡ rng.old) }
    ensures number { n ≢ 0 → result ≡ drawn_or n (between wyrand_requests 64 0 (n - 1) rng.old).0 }
    ensures within { result ≤ n }
    ensures state { n ≢ 0 → rng.new ≡ (between wyrand_requests 64 0 (n - 1) rng.old).1 }
    ensures words { IsAfterAtMost 128 (λ k. after_words wyrand_requests 64 k rng.old) rng.new }
{
    calls::below(rng, n)
}
