//! Retry delays: a server that comes back after a failure is overloaded if all its clients retry at
//! the same moment. So each client waits before it retries. The ceiling of its wait doubles with
//! each failure, and the wait is drawn between half the ceiling and the ceiling.
//!
//! This is exponential backoff with "equal" jitter: half of the ceiling is fixed, and the other
//! half is drawn.
ghost use Rattle.std.specs.Prelude.{◌≡◌, ℕ, ◌*◌, ◌/◌, ◌≤◌, Err, EachIndex, length, slice_index, IfOk, IfErr};
ghost use Rattle.std.specs.Result.{result_unwrap_or};
ghost use Rattle.nanorand_core.specs.values.Draws.{after_limit, after_word, after_words};
ghost use Rattle.nanorand_core.specs.declared.values.range.RangeError.TheVariants.{Exhausted};
ghost use Rattle.nanorand_users.specs.Retry.{ceiling_after, delay_drawn, delays_after, state_after_delays};

use nanorand::choices::between;
use nanorand::{RangeError, Rng};

/// Draws a delay from `ceiling / 2..=ceiling`. The only error is `Exhausted`, after 128 rejected
/// words (random numbers of 64 bits).
pub fn try_delay<G: Rng<OUTPUT>, const OUTPUT: usize>(
    rng: &mut G,
    ceiling: u64,
) -> Result<u64, RangeError>
    ensures value { result ≡ (delay_drawn G.requests ceiling rng.old).0 }
    ensures state { rng.new ≡ (delay_drawn G.requests ceiling rng.old).1 }
    ensures half { IfOk result (λ delay. ceiling / 2 ≤ delay) }
    ensures ceiling { IfOk result (λ delay. delay ≤ ceiling) }
    ensures refusal { IfErr result (λ refusal. refusal ≡ Exhausted) }
    ensures words { (n : ℕ) × (n ≤ 128) × (rng.new ≡ after_words G.requests 64 n rng.old) }
    ensures exhausted { result ≡ Err Exhausted
        → rng.new ≡ after_limit (after_word G.requests 64) rng.old }
{
    between(rng, ceiling / 2, ceiling)
}

/// Draws a delay from `ceiling / 2..=ceiling`, from at most 128 words. If all of them are rejected,
/// the delay is the ceiling.
pub fn delay<G: Rng<OUTPUT>, const OUTPUT: usize>(rng: &mut G, ceiling: u64) -> u64
    ensures value { result ≡ result_unwrap_or (delay_drawn G.requests ceiling rng.old).0 ceiling }
    ensures state { rng.new ≡ (delay_drawn G.requests ceiling rng.old).1 }
    ensures fallback { (delay_drawn G.requests ceiling rng.old).0 ≡ Err Exhausted
        → result ≡ ceiling }
    ensures half { ceiling / 2 ≤ result }
    ensures ceiling { result ≤ ceiling }
    ensures words { (n : ℕ) × (n ≤ 128) × (rng.new ≡ after_words G.requests 64 n rng.old) }
{
    try_delay(rng, ceiling).unwrap_or(ceiling)
}

/// Draws a delay for each retry, from at most 128 words each.
///
/// The first ceiling is `first`. Each later ceiling is twice the one before, and none exceeds
/// `cap`. Delays have the unit of `first` and `cap`.
pub fn schedule<G: Rng<OUTPUT>, const OUTPUT: usize>(
    rng: &mut G,
    first: u64,
    cap: u64,
    delays: &mut [u64],
)
    ensures delays { delays.new ≡ delays_after G.requests first cap 0 (length delays.old) rng.old }
    ensures state { rng.new
        ≡ state_after_delays G.requests first cap 0 (length delays.old) rng.old }
    ensures half { EachIndex delays.new (λ k.
        ceiling_after first cap k / 2 ≤ slice_index delays.new k) }
    ensures ceiling { EachIndex delays.new (λ k.
        slice_index delays.new k ≤ ceiling_after first cap k) }
    ensures words { (n : ℕ) × (n ≤ 128 * length delays.old)
        × (rng.new ≡ after_words G.requests 64 n rng.old) }
{
    let mut ceiling = first.min(cap);
    for slot in delays.iter_mut() {
        *slot = delay(rng, ceiling);
        ceiling = ceiling.saturating_mul(2).min(cap);
    }
}
