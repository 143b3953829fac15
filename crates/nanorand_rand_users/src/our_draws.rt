//! `nanorand` with the kit's `ChaCha20Rng` and `Pcg64`.
ghost use Rattle.std.specs.Prelude.{◌≡◌, ◌≤◌, length, [], IsPermutation, IfOk, IfErr};
ghost use Rattle.rand_core.specs.Steps.{steps_u32, stream_of};
ghost use Rattle.rand_core.specs.Stream.{next_u64};
ghost use Rattle.rand_chacha.specs.ChaCha.{next_word};
ghost use Rattle.rand_pcg.specs.Pcg.{pcg64};
ghost use Rattle.nanorand_core.specs.shuffles.Shuffles.{from_itself, shuffled};
ghost use Rattle.nanorand_replay.specs.replay.Replay.{replayed};
ghost use Rattle.nanorand_rand.specs.Words.{words32, words64};

use nanorand::choices::between;
use nanorand::replay::{Answer, Call, replay};
use nanorand::{RangeError, Rng};
use nanorand_rand::laws::requests_are_calls_32;
use nanorand_rand::{FromCore32, FromCore64};
use rand_chacha::ChaCha20Rng;

/// Returns the `u64` that the kit's ChaCha20 itself would return.
pub fn kits_number(rng: &mut FromCore32<ChaCha20Rng>) -> u64
    ensures { let stream = stream_of (steps_u32 (next_word 10)) rng.old in
        result ≡ (next_u64 stream).0 }
{
    requests_are_calls_32::<ChaCha20Rng>();
    rng.generate()
}

/// Shuffles a deck by the words of the kit's ChaCha20.
pub fn deal(rng: &mut FromCore32<ChaCha20Rng>, deck: &mut [u8]) -> Result<(), RangeError>
    ensures cards { IsPermutation deck.old deck.new }
    ensures order { let requests = words32 (next_word 10) in
        deck.new ≡ (shuffled requests from_itself rng.old deck.old).items }
{
    rng.shuffle(deck)
}

/// Shuffles a deck by the words of the kit's Pcg64, which is not the Pcg64 of this library.
pub fn deal_by_pcg(rng: &mut FromCore64<rand_pcg::Pcg64>, deck: &mut [u8]) -> Result<(), RangeError>
    ensures cards { IsPermutation deck.old deck.new }
    ensures order { let requests = words64 pcg64 in
        deck.new ≡ (shuffled requests from_itself rng.old deck.old).items }
{
    rng.shuffle(deck)
}

/// Replays a list of calls with the kit's ChaCha20.
pub fn answers_of(rng: &mut FromCore32<ChaCha20Rng>, calls: &[Call], answers: &mut [Answer])
    requires { length answers.old ≡ length calls.now }
    ensures { answers.new ≡ (replayed (words32 (next_word 10)) rng.old [] calls.now).answers }
{
    replay(rng, calls, &mut [], answers);
}

/// Throws a die by the words of the kit's ChaCha20.
pub fn roll(rng: &mut FromCore32<ChaCha20Rng>) -> Result<u8, RangeError>
    ensures face { IfOk result (λ pips. (1 ≤ pips) × (pips ≤ 6)) }
    ensures refusal { IfErr result (λ refusal. refusal ≡ RangeError.Exhausted) }
{
    between(rng, 1, 6)
}
