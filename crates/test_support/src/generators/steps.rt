//! A generator of the bytes 0, 1, 2, .. in blocks of eight.
ghost use Rattle.std.specs.Prelude.{◌≡◌, ⊤, refl};
ghost use Rattle.std.proofs.Common.{rules};
ghost use Rattle.nanorand_core.specs.generators.Blocks.{plain};
ghost use Rattle.test_support.specs.Steps.{next_count, steps_block};

use nanorand::rand::fill_by_blocks;
use nanorand::{Blocks, Rng};
use std::alloc::AllocError;
use std::marker::Model;

/// A generator of the bytes 0, 1, 2, .. modulo 256, in blocks of eight bytes.
#[derive(Drop)]
pub struct Steps {
    drawn: u64,
}

// The model is the number of blocks drawn so far, modulo 2^64.
impl Model for Steps {
    ghost use Rattle.std.specs.Prelude.{ℕ};

    ghost Value = { ℕ };

    ghost view = { λ generator. generator.drawn };
}

impl Steps {
    /// Creates a new generator.
    pub fn new() -> Self
        ensures { result ≡ 0 }
    {
        Steps { drawn: 0 }
    }

    /// Returns the number of blocks drawn so far, modulo 2^64.
    pub fn drawn(&self) -> u64
        ensures { result ≡ self.now }
    {
        self.drawn
    }
}

impl Default for Steps {
    ghost is_default = { λ g. g ≡ 0 };

    fn default() -> Self {
        Steps::new()
    }
}

impl Clone for Steps {
    ghost is_clone = { λ g c. c ≡ g };

    ghost is_infallible = { λ _. ⊤ };

    fn clone(&self) -> Result<Self, AllocError> {
        Ok(Steps { drawn: self.drawn })
    }
}

impl Blocks<8> for Steps {
    ghost block = { steps_block };

    ghost step = { next_count };

    fn rand(&mut self) -> [u8; 8] {
        let first = (self.drawn % 32 * 8) as u8;
        self.drawn = self.drawn.wrapping_add(1);
        [
            first,
            first + 1,
            first + 2,
            first + 3,
            first + 4,
            first + 5,
            first + 6,
            first + 7,
        ]
    }

    ghost positive = { Prim.search rules };

    ghost in_memory = { Prim.search rules };

    ghost block_length = { λ _. refl };
}

impl Rng<8> for Steps {
    ghost requests = { plain steps_block next_count 8 };

    fn fill_bytes(&mut self, buffer: &mut [u8]) {
        fill_by_blocks(self, buffer)
    }

    ghost delivers = { λ _ _. refl };

    ghost after_nothing = { λ _. refl };

    ghost after_block = { λ _. refl };
}
