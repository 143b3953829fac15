//! A user's own generator: SplitMix64, after Guy Steele, Doug Lea and Christine Flood, "Fast
//! Splittable Pseudorandom Number Generators" (2014), with the constants of Sebastiano Vigna.
ghost use Rattle.std.specs.Prelude.{◌≡◌, ◌↔◌, ◌+◌, ◌*◌, ◌^◌, ◌≤◌, ⊤, refl, IfOk, IsOk};
ghost use Rattle.std.proofs.Common.{rules};
ghost use Rattle.nanorand.specs.support.OnwardLemmas.{onward_8};
ghost use Rattle.nanorand.specs.generators.Parts.{ComesAgain, NothingTwice, after_draws, part_at};
ghost use Rattle.nanorand_users.specs.SplitMix.{mixed, next_seed, split_mix_block, split_mix_period, split_mix_requests};

use nanorand::rand::fill_by_blocks;
use nanorand::{Blocks, Parts, PastPeriod, Rng};
use std::alloc::AllocError;
use std::marker::Model;

// The number that a draw adds to the seed.
const INCREMENT: u64 = 0x9e37_79b9_7f4a_7c15;

/// A generator of 64-bit words.
#[derive(Drop)]
pub struct SplitMix64 {
    seed: u64,
}

// The view is the seed.
impl Model for SplitMix64 {
    ghost use Rattle.std.specs.Prelude.{ℕ};

    ghost Value = { ℕ };

    ghost view = { λ generator. generator.seed };
}

impl SplitMix64 {
    /// Creates a generator with this seed.
    pub fn new(seed: u64) -> Self
        ensures { result ≡ seed }
    {
        SplitMix64 { seed }
    }
}

impl Clone for SplitMix64 {
    ghost is_clone = { λ g c. c ≡ g };

    ghost is_infallible = { λ _. ⊤ };

    fn clone(&self) -> Result<Self, AllocError> {
        Ok(SplitMix64 { seed: self.seed })
    }
}

impl Blocks<8> for SplitMix64 {
    ghost block = { split_mix_block };

    ghost step = { next_seed };

    fn rand(&mut self) -> [u8; 8] {
        self.seed = self.seed.wrapping_add(INCREMENT);
        mixed(self.seed).to_le_bytes()
    }

    ghost positive = { Prim.search rules };

    ghost in_memory = { Prim.search rules };

    ghost block_length = { λ _. refl };
}

impl Rng<8> for SplitMix64 {
    ghost requests = { split_mix_requests };

    fn fill_bytes(&mut self, buffer: &mut [u8]) {
        fill_by_blocks(self, buffer)
    }

    ghost delivers = { λ _ _. refl };

    ghost after_nothing = { λ _. refl };

    ghost after_block = { λ _. refl };
}

/// The period is 2^64 draws, since the increment is odd.
impl Parts<8> for SplitMix64 {
    ghost period = { split_mix_period };

    fn part(&self, index: u64, draws: u64) -> Result<Self, PastPeriod>
        ensures begins { let outset = part_at split_mix_requests draws index self.now in
            IfOk result (λ part. part ≡ outset) }
        ensures within { IsOk result ↔ ((index + 1) * draws ≤ split_mix_period) }
        ensures once { IfOk result (λ _. NothingTwice split_mix_period
            (λ n. after_draws split_mix_requests n self.now)) }
        ensures again { IfOk result (λ _. ComesAgain split_mix_period
            (λ n. after_draws split_mix_requests n self.now)) }
    {
        let end = (u128::from(index) + 1) * u128::from(draws);
        if end > 1 << 64 {
            return Err(PastPeriod);
        }
        let before = index.wrapping_mul(draws).wrapping_mul(INCREMENT);
        Ok(SplitMix64 {
            seed: self.seed.wrapping_add(before),
        })
    }

    ghost onward = { onward_8 split_mix_block next_seed };
}

// The word of a new seed.
fn mixed(seed: u64) -> u64
    ensures { result ≡ mixed seed }
{
    let first = (seed ^ (seed >> 30)).wrapping_mul(0xbf58_476d_1ce4_e5b9);
    let second = (first ^ (first >> 27)).wrapping_mul(0x94d0_49bb_1331_11eb);
    second ^ (second >> 31)
}
