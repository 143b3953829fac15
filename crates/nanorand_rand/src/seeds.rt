//! Wrapped generators that are made from a seed, by the `SeedableRng` of `rand_core`.
//!
//! `seed_from_u64` is the function of the generator, which mixes the number by SplitMix64, and not
//! the one that `rand_core` provides, which expands it by PCG32. So it returns the generator that
//! the library makes from the number, which is not `Self::from_seed(Seed::from_u64(number))`.
ghost use Rattle.std.specs.Prelude.{◌≡◌, ℕ, ◌%◌, List, [], take};
ghost use Rattle.nanorand_core.specs.values.Values.{number_of};
ghost use Rattle.nanorand_replay.specs.generators.Buffered.{buffer_of};
ghost use Rattle.nanorand.specs.generators.ChaCha.{seeded_state};
ghost use Rattle.nanorand.specs.generators.Pcg64.{seeded_generator};
ghost use Rattle.nanorand.specs.generators.SplitMix.{seed_from};

use crate::ours::Core;
use nanorand::{
    ChaCha, ChaCha8, ChaCha8Stream, ChaCha12, ChaCha12Stream, ChaCha20, ChaCha20Stream,
    ChaChaStream, Pcg64, SeedableRng, WyRand, chacha_stream, chacha_stream_from_u64,
};
use rand_core::{Seed, TryRng};
use std::marker::Model;

/// The seed of a ChaCha: 32 bytes of key followed by 8 bytes of nonce. The kit itself has only
/// seeds of 8, 16, 32 and 64 bytes. There is no `Debug`, which would show the key.
#[derive(Clone, Copy)]
pub struct ChaChaSeed(pub [u8; 40]);

// The view is the list of the bytes.
impl Model for ChaChaSeed {
    ghost Value = { List ℕ };

    ghost view = { λ seed. seed.0 };

    ghost inverse = { λ bytes. record { 0 = bytes } };
}

impl Seed for ChaChaSeed {
    ghost len = { 40 };

    ghost bytes = { λ seed. seed };

    /// Returns the first 40 bytes of the seed to which the kit expands a number, by PCG32.
    /// `seed_from_u64` of a ChaCha does not use them: it uses SplitMix64.
    fn from_u64(state: u64) -> Self {
        ChaChaSeed(first_40(&Seed::from_u64(state)))
    }

    fn from_rng<R: rand_core::Rng>(rng: &mut R) -> Self {
        let mut seed = [0; 40];
        rng.fill_bytes(&mut seed);
        ChaChaSeed(seed)
    }

    fn try_from_rng<R: TryRng>(rng: &mut R) -> Result<Self, R::Error> {
        let mut seed = [0; 40];
        rng.try_fill_bytes(&mut seed)?;
        Ok(ChaChaSeed(seed))
    }
}

/// The bytes of a seed are the state itself, in little-endian order, and are not mixed: generators
/// with neighbouring seeds draw correlated numbers.
impl rand_core::SeedableRng for Core<WyRand, 8> {
    type Seed = [u8; 8];

    ghost of_seed = { number_of };

    ghost seed_of_u64 = { seed_from 8 };

    fn from_seed(seed: [u8; 8]) -> Self
        ensures { result ≡ number_of seed }
    {
        let mut wyrand = WyRand::new_seed(0);
        wyrand.reseed(seed);
        Core(wyrand)
    }

    fn seed_from_u64(state: u64) -> Self
        ensures { result ≡ number_of (seed_from 8 state) }
    {
        Core(WyRand::seed_from_u64(state))
    }
}

/// The bytes of a seed are the state itself, in little-endian order, and are not mixed, as for
/// `WyRand`.
impl rand_core::SeedableRng for Core<Pcg64, 8> {
    type Seed = [u8; 16];

    ghost of_seed = { seeded_generator };

    ghost seed_of_u64 = { seed_from 16 };

    fn from_seed(seed: [u8; 16]) -> Self
        ensures { result ≡ seeded_generator seed }
    {
        let mut pcg64 = Pcg64::new_seed(0);
        pcg64.reseed(seed);
        Core(pcg64)
    }

    fn seed_from_u64(state: u64) -> Self
        ensures { result ≡ seeded_generator (seed_from 16 state) }
    {
        Core(Pcg64::seed_from_u64(state))
    }
}

/// The counter of a new generator is 0.
impl rand_core::SeedableRng for Core<ChaCha8, 64> {
    type Seed = ChaChaSeed;

    ghost of_seed = { seeded_state };

    ghost seed_of_u64 = { seed_from 40 };

    fn from_seed(seed: ChaChaSeed) -> Self
        ensures { result ≡ seeded_state seed }
    {
        Core(seeded_chacha(seed))
    }

    fn seed_from_u64(state: u64) -> Self
        ensures { result ≡ seeded_state (seed_from 40 state) }
    {
        Core(ChaCha8::seed_from_u64(state))
    }
}

/// The counter of a new generator is 0.
impl rand_core::SeedableRng for Core<ChaCha12, 64> {
    type Seed = ChaChaSeed;

    ghost of_seed = { seeded_state };

    ghost seed_of_u64 = { seed_from 40 };

    fn from_seed(seed: ChaChaSeed) -> Self
        ensures { result ≡ seeded_state seed }
    {
        Core(seeded_chacha(seed))
    }

    fn seed_from_u64(state: u64) -> Self
        ensures { result ≡ seeded_state (seed_from 40 state) }
    {
        Core(ChaCha12::seed_from_u64(state))
    }
}

/// The counter of a new generator is 0.
impl rand_core::SeedableRng for Core<ChaCha20, 64> {
    type Seed = ChaChaSeed;

    ghost of_seed = { seeded_state };

    ghost seed_of_u64 = { seed_from 40 };

    fn from_seed(seed: ChaChaSeed) -> Self
        ensures { result ≡ seeded_state seed }
    {
        Core(seeded_chacha(seed))
    }

    fn seed_from_u64(state: u64) -> Self
        ensures { result ≡ seeded_state (seed_from 40 state) }
    {
        Core(ChaCha20::seed_from_u64(state))
    }
}

/// A new stream starts at its byte 0.
impl rand_core::SeedableRng for Core<ChaCha8Stream, 512> {
    type Seed = ChaChaSeed;

    ghost of_seed = { λ seed. buffer_of [] (seeded_state seed) };

    ghost seed_of_u64 = { seed_from 40 };

    fn from_seed(seed: ChaChaSeed) -> Self
        ensures { result ≡ buffer_of [] (seeded_state seed) }
    {
        Core(seeded_stream(seed))
    }

    fn seed_from_u64(state: u64) -> Self
        ensures { result ≡ buffer_of [] (seeded_state (seed_from 40 state)) }
    {
        Core(chacha_stream_from_u64(state))
    }
}

/// A new stream starts at its byte 0.
impl rand_core::SeedableRng for Core<ChaCha12Stream, 512> {
    type Seed = ChaChaSeed;

    ghost of_seed = { λ seed. buffer_of [] (seeded_state seed) };

    ghost seed_of_u64 = { seed_from 40 };

    fn from_seed(seed: ChaChaSeed) -> Self
        ensures { result ≡ buffer_of [] (seeded_state seed) }
    {
        Core(seeded_stream(seed))
    }

    fn seed_from_u64(state: u64) -> Self
        ensures { result ≡ buffer_of [] (seeded_state (seed_from 40 state)) }
    {
        Core(chacha_stream_from_u64(state))
    }
}

/// A new stream starts at its byte 0.
impl rand_core::SeedableRng for Core<ChaCha20Stream, 512> {
    type Seed = ChaChaSeed;

    ghost of_seed = { λ seed. buffer_of [] (seeded_state seed) };

    ghost seed_of_u64 = { seed_from 40 };

    fn from_seed(seed: ChaChaSeed) -> Self
        ensures { result ≡ buffer_of [] (seeded_state seed) }
    {
        Core(seeded_stream(seed))
    }

    fn seed_from_u64(state: u64) -> Self
        ensures { result ≡ buffer_of [] (seeded_state (seed_from 40 state)) }
    {
        Core(chacha_stream_from_u64(state))
    }
}

// Returns the first 40 bytes of a longer seed.
fn first_40(longer: &[u8; 64]) -> [u8; 40]
    ensures { result ≡ take 40 longer.now }
{
    let mut seed = [0; 40];
    seed.copy_from_slice(&longer[..40]);
    seed
}

// Returns the generator with this seed.
fn seeded_chacha<const ROUNDS: u8>(seed: ChaChaSeed) -> ChaCha<ROUNDS>
    requires { ROUNDS % 2 ≡ 0 }
    ensures { result ≡ seeded_state seed }
{
    let mut chacha = ChaCha::new_key([0; 32], [0; 8]);
    chacha.reseed(seed.0);
    chacha
}

// Returns the stream with this seed.
fn seeded_stream<const ROUNDS: u8>(seed: ChaChaSeed) -> ChaChaStream<ROUNDS>
    requires { ROUNDS % 2 ≡ 0 }
    ensures { result ≡ buffer_of [] (seeded_state seed) }
{
    let mut stream = chacha_stream([0; 32], [0; 8]);
    stream.reseed(seed.0);
    stream
}
