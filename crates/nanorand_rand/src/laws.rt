//! The calls of wrapped generators. Each contract states a law. The functions do nothing; a proof
//! calls one to use its law.
ghost use Rattle.std.specs.Prelude.{◌≡◌, ℕ, ◌<◌, ◌^◌};
ghost use Rattle.rand_core.specs.Stream.{next_u32, next_u64, fill_bytes};
ghost use Rattle.rand_core.specs.Steps.{steps_u32, steps_u64_low};
ghost use Rattle.nanorand_core.specs.values.Values.{number_of};
ghost use Rattle.nanorand_rand.specs.Calls.{request_steps, request_stream};
ghost use Rattle.nanorand_rand.specs.Words.{words32, words64};

use crate::ours::Core;
use crate::theirs::{FromCore32, FromCore64};
use nanorand::Rng;
use rand_core::utils::NextWord;

/// The stream of a wrapped generator of `nanorand` is that of its requests. (A request is one read
/// of n bytes from a generator.)
///
/// `stream`: the `stream` of `Core` is `request_stream` of the generator's requests. `word`,
/// `number`, `bytes`: on this stream, `next_u32` is the number of a request of 4 bytes, `next_u64`
/// is the number of a request of 8 bytes, and `fill_bytes` is one request. Each call leaves the
/// stream of the state that the request leaves.
pub fn calls_are_requests<G: Rng<OUTPUT>, const OUTPUT: usize>()
    ensures stream { ⟦<Core<G, OUTPUT> as rand_core::Rng>⟧.stream ≡ request_stream G.requests }
    ensures word { (g : G) → let left = request_stream G.requests (G.requests.after g 4) in
        next_u32 (request_stream G.requests g) ≡ (number_of (G.requests.bytes g 4), left) }
    ensures number { (g : G) → let left = request_stream G.requests (G.requests.after g 8) in
        next_u64 (request_stream G.requests g) ≡ (number_of (G.requests.bytes g 8), left) }
    ensures bytes { (g : G) (n : ℕ) → let left = request_stream G.requests (G.requests.after g n) in
        fill_bytes n (request_stream G.requests g) ≡ (G.requests.bytes g n, left) }
{}

/// The requests of a wrapped generator of 32-bit words are the calls of `rand_core`.
///
/// `requests`: the requests of `FromCore32` are `words32` of the generator's step. `bytes`: a
/// request is `fill_bytes`. `word`, `number`: if the words are below 2^32, the number of a request
/// of 4 bytes is `next_u32`, and that of a request of 8 bytes is `next_u64`. Each request leaves
/// the state that the call leaves.
pub fn requests_are_calls_32<R: NextWord<u32> + Clone>()
    ensures requests { ⟦<FromCore32<R> as Rng<8>>⟧.requests ≡ words32 R.step }
    ensures bytes { (r : R) (n : ℕ) → let calls = request_steps (words32 R.step) in
        calls.fill_bytes n r ≡ (steps_u32 R.step).fill_bytes n r }
    ensures word { (r : R) → let calls = request_steps (words32 R.step) in
        (R.step r).0 < 2 ^ 32 → calls.next_u32 r ≡ (steps_u32 R.step).next_u32 r }
    ensures number { (r : R) → let calls = request_steps (words32 R.step) in
        (R.step r).0 < 2 ^ 32 → (R.step (R.step r).1).0 < 2 ^ 32
        → calls.next_u64 r ≡ (steps_u32 R.step).next_u64 r }
{}

/// The requests of a wrapped generator of 64-bit words are the calls of `rand_core`.
///
/// `requests`: the requests of `FromCore64` are `words64` of the generator's step. `bytes`: a
/// request is `fill_bytes`. `number`: if the word is below 2^64, the number of a request of 8 bytes
/// is `next_u64`. `half`: the number of a request of 4 bytes is the low half of the word. Each of
/// these two leaves the state after one word.
pub fn requests_are_calls_64<R: NextWord<u64> + Clone>()
    ensures requests { ⟦<FromCore64<R> as Rng<8>>⟧.requests ≡ words64 R.step }
    ensures bytes { (r : R) (n : ℕ) → let calls = request_steps (words64 R.step) in
        calls.fill_bytes n r ≡ (steps_u64_low R.step).fill_bytes n r }
    ensures number { (r : R) → let calls = request_steps (words64 R.step) in
        (R.step r).0 < 2 ^ 64 → calls.next_u64 r ≡ (steps_u64_low R.step).next_u64 r }
    ensures half { (r : R) → let calls = request_steps (words64 R.step) in
        calls.next_u32 r ≡ (steps_u64_low R.step).next_u32 r }
{}
