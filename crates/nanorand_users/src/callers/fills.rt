//! Callers that fill slices with a closure.
ghost use Rattle.std.specs.Prelude.{◌≡◌, ℕ, ◌*◌, ◌<◌, ◌≤◌, All, IfOk, length, take};
ghost use Rattle.std.specs.Fn.{iterate};
ghost use Rattle.nanorand_core.specs.values.Draws.{after_words};
ghost use Rattle.nanorand_core.specs.values.Values.{number_of, values_from};

use super::throw;
use nanorand::choices::between;
use nanorand::samples::reservoir;
use nanorand::values::fill_with;
use nanorand::{RangeError, Rng};

/// Fills the slice with bytes from a closure. The bytes are those that `Rng::fill` writes.
pub fn fill_bytes_by_closure<G: Rng<OUTPUT>, const OUTPUT: usize>(rng: &mut G, target: &mut [u8])
    ensures values { let byte = λ (g : G). number_of (G.requests.bytes g 1) in
        let after = λ (g : G). G.requests.after g 1 in
        target.new ≡ values_from byte after (length target.old) rng.old }
    ensures state { let after = λ (g : G). G.requests.after g 1 in
        rng.new ≡ iterate after (length target.old) rng.old }
{
    fill_with(
        rng,
        target,
        |source: &mut G| -> u8
            ensures value { result ≡ number_of (G.requests.bytes source.old 1) }
            ensures state { source.new ≡ G.requests.after source.old 1 }
        { source.generate::<u8>() },
    );
}

/// Throws a die for each item, with any generator: each item is from 1 to 6.
pub fn throw_dice<G: Rng<OUTPUT>, const OUTPUT: usize>(rng: &mut G, faces: &mut [u8])
    ensures { All (λ pips. (1 ≤ pips) × (pips ≤ 6)) faces.new }
{
    fill_with(
        rng,
        faces,
        |source: &mut G| -> u8
            ensures { (1 ≤ result) × (result ≤ 6) }
        { throw(source) },
    );
}

/// Draws a delay from `low..=high` for each item, which is `high` if its draw returns an error.
pub fn delays<G: Rng<OUTPUT>, const OUTPUT: usize>(
    rng: &mut G,
    low: u64,
    high: u64,
    delays: &mut [u64],
)
    requires { low ≤ high }
    ensures bounds { All (λ delay. (low ≤ delay) × (delay ≤ high)) delays.new }
    ensures words { (n : ℕ) × (n ≤ 128 * length delays.old)
        × (rng.new ≡ after_words G.requests 64 n rng.old) }
{
    fill_with(
        rng,
        delays,
        |source: &mut G| -> u64
            requires order { low ≤ high }
            ensures bounds { (low ≤ result) × (result ≤ high) }
            ensures words { (n : ℕ) × (n ≤ 128)
                × (source.new ≡ after_words G.requests 64 n source.old) }
        { between(source, low, high).unwrap_or(high) },
    );
}

/// Picks numbers below `count`, one for each slot, or all of them if there are more slots. Returns
/// how many were picked.
pub fn pick_numbers<G: Rng<OUTPUT>, const OUTPUT: usize>(
    rng: &mut G,
    count: u64,
    slots: &mut [u64],
) -> Result<usize, RangeError>
    ensures { IfOk result (λ picked. All (λ number. number < count) (take picked slots.new)) }
{
    reservoir(rng, 0..count, slots)
}
