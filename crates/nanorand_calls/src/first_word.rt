//! Draws from a range that end with their first word, as nearly all do.
ghost use Rattle.std.specs.Prelude.{◌≡◌, ◌≤◌, IfSome, Ok};
ghost use Rattle.nanorand_core.specs.values.Draws.{after_words};
ghost use Rattle.nanorand_calls.specs.Between.{between};

use nanorand::Rng;

// Draws the first 32-bit word of a draw from `first..=last`, and returns the number that it
// decides. Returns `None` if a division would have to tell whether the word is rejected.
#[inline]
pub(crate) fn number_u32<G: Rng<OUTPUT>, const OUTPUT: usize>(
    rng: &mut G,
    first: u32,
    last: u32,
) -> Option<u32>
    requires { first ≤ last }
    ensures value { let draw = between G.requests 32 first last rng.old in
        IfSome result (λ number. draw.0 ≡ Ok number) }
    ensures state { let draw = between G.requests 32 first last rng.old in
        IfSome result (λ number. rng.new ≡ draw.1) }
    ensures within { IfSome result (λ number. (first ≤ number) × (number ≤ last)) }
    ensures word { rng.new ≡ after_words G.requests 32 1 rng.old }
{
    let word: u32 = rng.generate();
    let size = u64::from(last) + 1 - u64::from(first);
    let product = u64::from(word) * size;
    if product % (1 << 32) < size {
        return None;
    }
    Some(first + (product >> 32) as u32)
}

// Does the same as `number_u32` with a word of 64 bits. Also returns `None` if every number is in
// the range, so that the number of numbers fits in 64 bits.
#[inline]
pub(crate) fn number_u64<G: Rng<OUTPUT>, const OUTPUT: usize>(
    rng: &mut G,
    first: u64,
    last: u64,
) -> Option<u64>
    requires { first ≤ last }
    ensures value { let draw = between G.requests 64 first last rng.old in
        IfSome result (λ number. draw.0 ≡ Ok number) }
    ensures state { let draw = between G.requests 64 first last rng.old in
        IfSome result (λ number. rng.new ≡ draw.1) }
    ensures within { IfSome result (λ number. (first ≤ number) × (number ≤ last)) }
    ensures word { rng.new ≡ after_words G.requests 64 1 rng.old }
{
    let word: u64 = rng.generate();
    let span = last - first;
    if span == u64::MAX {
        return None;
    }
    let size = span + 1;
    let product = u128::from(word) * u128::from(size);
    if ((product % (1 << 64)) as u64) < size {
        return None;
    }
    Some(first + (product >> 64) as u64)
}
