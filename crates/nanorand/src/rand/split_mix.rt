//! SplitMix64, which makes a seed of any size from one number, after Guy Steele, Doug Lea and
//! Christine Flood, "Fast Splittable Pseudorandom Number Generators" (2014), with the constants of
//! Sebastiano Vigna's `splitmix64.c`.
ghost use Rattle.std.specs.Prelude.{◌≡◌, ℕ, ◌^◌, ◌<◌, refl};
ghost use Rattle.std.proofs.Common.{rules};
ghost use Rattle.nanorand.specs.generators.SplitMix.{mixed, seed_from, split_mix_block, split_mix_next};

use nanorand_core::rand::{Blocks, fill_by_blocks};
use std::marker::Model;

const INCREMENT: u64 = 0x9e37_79b9_7f4a_7c15;

// A generator of 64-bit words.
#[derive(Drop)]
struct SplitMix64 {
    state: u64,
}

// The model of the generator is its state.
impl Model for SplitMix64 {
    ghost use Rattle.std.specs.Prelude.{ℕ};

    ghost Value = { ℕ };

    ghost view = { λ generator. generator.state };
}

impl Blocks<8> for SplitMix64 {
    ghost block = { split_mix_block };

    ghost step = { split_mix_next };

    #[inline]
    fn rand(&mut self) -> [u8; 8] {
        self.state = self.state.wrapping_add(INCREMENT);
        mixed(self.state).to_le_bytes()
    }

    ghost positive = { Prim.search rules };

    ghost in_memory = { Prim.search rules };

    ghost block_length = { λ _. refl };
}

// Returns the first `SIZE` bytes that SplitMix64 produces from a number.
pub(crate) fn seed_from<const SIZE: usize>(number: u64) -> [u8; SIZE]
    ensures { result ≡ seed_from SIZE number }
{
    let mut seed = [0; SIZE];
    fill_by_blocks(&mut SplitMix64 { state: number }, &mut seed);
    seed
}

// Returns the word that belongs to a new state.
fn mixed(state: u64) -> u64
    ensures { result ≡ mixed state }
{
    let first = (state ^ (state >> 30)).wrapping_mul(0xbf58_476d_1ce4_e5b9);
    let second = (first ^ (first >> 27)).wrapping_mul(0x94d0_49bb_1331_11eb);
    second ^ (second >> 31)
}
