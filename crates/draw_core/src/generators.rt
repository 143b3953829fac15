//! Runs calls on a generator with a seed, in plain or buffered mode.

ghost use Rattle.std.specs.Prelude.{◌≡◌, ◌%◌, length};
ghost use Rattle.nanorand.specs.generators.ChaCha.{chacha_block, next_state, seeded_state};
ghost use Rattle.draw_core.specs.Text.{from_seeded, in_mode};
ghost use Rattle.draw_core.specs.declared.command.SeededGenerator.TheVariants as seeded;

use crate::command::{Mode, SeededGenerator};
use nanorand::replay::{Answer, Call, replay};
use nanorand::{BufferedRng, ChaCha, Pcg64, SeedableRng, WyRand};

/// Runs the calls on the generator with its seed, or on a `BufferedRng` around it in buffered mode.
pub fn replay_seeded(
    generator: SeededGenerator,
    mode: Mode,
    calls: &[Call],
    items: &mut [u64],
    answers: &mut [Answer],
)
    requires { length answers.old ≡ length calls.now }
    ensures answers { answers.new ≡ (from_seeded generator mode calls.now items.old).answers }
    ensures items { items.new ≡ (from_seeded generator mode calls.now items.old).items }
{
    match generator {
        SeededGenerator::WyRand(seed) => replay_wyrand(seed, mode, calls, items, answers),
        SeededGenerator::Pcg64(seed) => replay_pcg64(seed, mode, calls, items, answers),
        SeededGenerator::ChaCha8(seed) => replay_chacha::<8>(seed, mode, calls, items, answers),
        SeededGenerator::ChaCha12(seed) => replay_chacha::<12>(seed, mode, calls, items, answers),
        SeededGenerator::ChaCha20(seed) => replay_chacha::<20>(seed, mode, calls, items, answers),
    }
}

fn replay_wyrand(
    seed: [u8; 8],
    mode: Mode,
    calls: &[Call],
    items: &mut [u64],
    answers: &mut [Answer],
)
    requires { length answers.old ≡ length calls.now }
    ensures answers { answers.new
        ≡ (from_seeded (seeded.WyRand seed) mode calls.now items.old).answers }
    ensures items { items.new
        ≡ (from_seeded (seeded.WyRand seed) mode calls.now items.old).items }
{
    let mut rng = WyRand::new_seed(0);
    rng.reseed(seed);
    match mode {
        Mode::Plain => replay(&mut rng, calls, items, answers),
        Mode::Buffered => replay(&mut BufferedRng::new(rng), calls, items, answers),
    }
}

fn replay_pcg64(
    seed: [u8; 16],
    mode: Mode,
    calls: &[Call],
    items: &mut [u64],
    answers: &mut [Answer],
)
    requires { length answers.old ≡ length calls.now }
    ensures answers { answers.new
        ≡ (from_seeded (seeded.Pcg64 seed) mode calls.now items.old).answers }
    ensures items { items.new
        ≡ (from_seeded (seeded.Pcg64 seed) mode calls.now items.old).items }
{
    let mut rng = Pcg64::new_seed(0);
    rng.reseed(seed);
    match mode {
        Mode::Plain => replay(&mut rng, calls, items, answers),
        Mode::Buffered => replay(&mut BufferedRng::new(rng), calls, items, answers),
    }
}

fn replay_chacha<const ROUNDS: u8>(
    seed: [u8; 40],
    mode: Mode,
    calls: &[Call],
    items: &mut [u64],
    answers: &mut [Answer],
)
    requires even { ROUNDS % 2 ≡ 0 }
    requires lengths { length answers.old ≡ length calls.now }
    ensures answers { answers.new ≡ (in_mode (chacha_block ROUNDS) next_state 64
        (seeded_state seed) mode calls.now items.old).answers }
    ensures items { items.new ≡ (in_mode (chacha_block ROUNDS) next_state 64
        (seeded_state seed) mode calls.now items.old).items }
{
    let mut rng = ChaCha::<ROUNDS>::new_key([0; 32], [0; 8]);
    rng.reseed(seed);
    match mode {
        Mode::Plain => replay(&mut rng, calls, items, answers),
        Mode::Buffered => replay(&mut BufferedRng::new(rng), calls, items, answers),
    }
}
