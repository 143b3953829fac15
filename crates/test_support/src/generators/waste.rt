//! A generator that drops a block after most requests.
ghost use Rattle.std.specs.Prelude.{◌≡◌, ⊤, refl};
ghost use Rattle.std.proofs.Common.{rules};
ghost use Rattle.test_support.specs.Steps.{next_count, steps_block};
ghost use Rattle.test_support.specs.Waste.{waste_requests};

use crate::Steps;
use nanorand::rand::fill_by_blocks;
use nanorand::{Blocks, RandomGen, RangeError, Rng};
use std::alloc::AllocError;
use std::marker::Model;

/// A generator with the blocks of `Steps`. A request of any number of bytes other than 0 and 8
/// draws one block more than a generator without a buffer does, and drops it.
#[derive(Drop)]
pub struct Waste {
    steps: Steps,
}

// The model is the number of blocks drawn so far, modulo 2^64.
impl Model for Waste {
    ghost use Rattle.std.specs.Prelude.{ℕ};

    ghost Value = { ℕ };

    ghost view = { λ generator. generator.steps };
}

impl Waste {
    /// Creates a new generator.
    pub fn new() -> Self
        ensures { result ≡ 0 }
    {
        Waste {
            steps: Steps::new(),
        }
    }

    /// Returns the number of blocks drawn so far, modulo 2^64.
    pub fn drawn(&self) -> u64
        ensures { result ≡ self.now }
    {
        self.steps.drawn()
    }
}

impl Clone for Waste {
    ghost is_clone = { λ g c. c ≡ g };

    ghost is_infallible = { λ _. ⊤ };

    fn clone(&self) -> Result<Self, AllocError> {
        Ok(Waste {
            steps: self.steps.clone()?,
        })
    }
}

impl Blocks<8> for Waste {
    ghost block = { steps_block };

    ghost step = { next_count };

    fn rand(&mut self) -> [u8; 8] {
        self.steps.rand()
    }

    ghost positive = { Prim.search rules };

    ghost in_memory = { Prim.search rules };

    ghost block_length = { λ _. refl };
}

impl Rng<8> for Waste {
    ghost requests = { waste_requests };

    fn fill_bytes(&mut self, buffer: &mut [u8]) {
        let wasteful = buffer.len() != 0 && buffer.len() != 8;
        fill_by_blocks(&mut self.steps, buffer);
        if wasteful {
            let _ = self.steps.rand();
        }
    }

    // An override of a provided method must satisfy the clauses of the trait.
    fn generate<T: RandomGen<Waste, 8>>(&mut self) -> T {
        T::random(self)
    }

    // A shuffle only requests words of eight bytes, and none of these requests drops a block.
    fn shuffle<T>(&mut self, target: &mut [T]) -> Result<(), RangeError> {
        self.steps.shuffle(target)
    }

    ghost delivers = { λ _ _. refl };

    ghost after_nothing = { λ _. refl };

    ghost after_block = { λ _. refl };
}
