//! The kit's `rand` with generators of `nanorand`.
ghost use Rattle.std.specs.Prelude.{◌≡◌, ◌≤◌, ◌<◌, ◌+◌, ◌^◌, ◌↔◌, [], Contains, IfOk, IfSome, IsNone};
ghost use Rattle.rand.specs.Uniform.{lemire};
ghost use Rattle.rand_core.specs.Stream.{next_u32};
ghost use Rattle.nanorand_core.specs.values.Values.{number_of};
ghost use Rattle.nanorand_replay.specs.generators.Buffered.{buffer_of};
ghost use Rattle.nanorand.specs.generators.ChaCha.{seeded_state};
ghost use Rattle.nanorand.specs.generators.ChaChaGroups.{stream_requests};
ghost use Rattle.nanorand.specs.generators.SplitMix.{seed_from};
ghost use Rattle.nanorand.specs.generators.WyRand.{wyrand_requests};
ghost use Rattle.nanorand_rand.specs.Calls.{request_stream};

use nanorand::{ChaCha20Stream, Rng, WyRand, chacha_stream_from_u64};
use nanorand_rand::Core;
use nanorand_rand::laws::calls_are_requests;
use rand::RngExt;
use rand::distr::Distribution;
use rand::distr::uniform::Uniform;
use rand::distr::weighted::{Error, WeightedIndex};
use rand::seq::{IndexedRandom, IteratorRandom};
use std::alloc::Allocator;

/// Draws a `u64` from `WyRand` by the kit's `random`: the number of the next 8 bytes.
pub fn ticket(rng: &mut Core<WyRand, 8>) -> u64
    ensures { result ≡ number_of (wyrand_requests.bytes rng.old 8) }
{
    calls_are_requests::<WyRand, 8>();
    rng.random()
}

/// Throws a die by the kit's `Uniform`, which never returns an error.
pub fn throw<G: Rng<OUTPUT>, const OUTPUT: usize>(rng: &mut Core<G, OUTPUT>) -> u8
    ensures face { (1 ≤ result) × (result ≤ 6) }
    ensures value { let stream = request_stream G.requests rng.old in
        result ≡ 1 + (lemire (2 ^ 32) next_u32 6 stream).0 }
{
    Uniform::new_inclusive(1, 6).unwrap().sample(rng)
}

/// Draws the kind of a tile, 0, 1 or 2, by the weights 6, 3 and 1.
#[tactic(auto, using(rand::proofs::WeightLemmas::cumulated_len))]
pub fn tile<G: Rng<OUTPUT>, A: Allocator, const OUTPUT: usize>(
    alloc: A,
    rng: &mut Core<G, OUTPUT>,
) -> Result<usize, Error>
    ensures { IfOk result (λ kind. kind < 3) }
{
    let kinds = WeightedIndex::new(alloc, &[6u32, 3, 1])?;
    Ok(kinds.sample(rng))
}

/// Draws one of the numbers below `count`, by `IteratorRandom`.
pub fn place<G: Rng<OUTPUT>, const OUTPUT: usize>(
    rng: &mut Core<G, OUTPUT>,
    count: usize,
) -> Option<usize>
    ensures { IfSome result (λ place. place < count) }
{
    (0..count).choose(rng)
}

/// Draws a server of the list. Returns `None` only if the list is empty.
pub fn server<'a, G: Rng<OUTPUT>, const OUTPUT: usize>(
    rng: &mut Core<G, OUTPUT>,
    servers: &'a [u32],
) -> Option<&'a u32>
    ensures none { IsNone result ↔ (servers.now ≡ []) }
    ensures member { IfSome result (λ server. Contains servers.now server.now) }
{
    servers.choose(rng)
}

/// Draws a throw, a tile and one of ten places with a `WyRand` that is seeded from a number.
pub fn drawn_by_wyrand<A: Allocator>(
    alloc: A,
    number: u64,
) -> Result<(u8, usize, Option<usize>), Error>
    ensures face { IfOk result (λ drawn. (1 ≤ drawn.0) × (drawn.0 ≤ 6)) }
    ensures kind { IfOk result (λ drawn. drawn.1 < 3) }
    ensures place { IfOk result (λ drawn. IfSome drawn.2 (λ place. place < 10)) }
    ensures value { let stream = request_stream wyrand_requests (number_of (seed_from 8 number)) in
        IfOk result (λ drawn. drawn.0 ≡ 1 + (lemire (2 ^ 32) next_u32 6 stream).0) }
{
    let mut rng = Core(WyRand::seed_from_u64(number));
    let pips = throw(&mut rng);
    let kind = tile(alloc, &mut rng)?;
    Ok((pips, kind, place(&mut rng, 10)))
}

/// Does the same with a stream of ChaCha with 20 rounds.
pub fn drawn_by_chacha<A: Allocator>(
    alloc: A,
    number: u64,
) -> Result<(u8, usize, Option<usize>), Error>
    ensures face { IfOk result (λ drawn. (1 ≤ drawn.0) × (drawn.0 ≤ 6)) }
    ensures kind { IfOk result (λ drawn. drawn.1 < 3) }
    ensures place { IfOk result (λ drawn. IfSome drawn.2 (λ place. place < 10)) }
    ensures value { let begun = buffer_of [] (seeded_state (seed_from 40 number)) in
        let stream = request_stream (stream_requests 20) begun in
        IfOk result (λ drawn. drawn.0 ≡ 1 + (lemire (2 ^ 32) next_u32 6 stream).0) }
{
    let begun: ChaCha20Stream = chacha_stream_from_u64(number);
    let mut rng = Core(begun);
    let pips = throw(&mut rng);
    let kind = tile(alloc, &mut rng)?;
    Ok((pips, kind, place(&mut rng, 10)))
}
