//! A generator whose words are given as a list.
ghost use Rattle.std.specs.Prelude.{◌≡◌, ⊤, refl};
ghost use Rattle.std.proofs.Common.{rules};
ghost use Rattle.nanorand_core.specs.generators.Blocks.{plain};
ghost use Rattle.test_support.specs.Script.{script_block, script_step};

use nanorand::rand::fill_by_blocks;
use nanorand::{Blocks, Rng};
use std::alloc::AllocError;
use std::marker::Model;

/// A generator whose block n is word n of a list. After the list, its blocks are zeros, which are
/// rejected for every range whose size is not a power of two.
#[derive(Drop)]
pub struct Script<'a> {
    words: &'a [u64],
    drawn: u64,
}

// The model is the list and the number of the next block, modulo 2^64.
impl<'a> Model for Script<'a> {
    ghost use Rattle.std.specs.Prelude.{ℕ, List};

    ghost Value = { List ℕ × ℕ };

    ghost view = { λ generator. (generator.words.now, generator.drawn) };
}

impl<'a> Script<'a> {
    /// Creates a new generator of these words.
    pub fn new(words: &'a [u64]) -> Self
        ensures { result ≡ (words.now, 0) }
    {
        Script { words, drawn: 0 }
    }

    /// Creates a generator of these words at block number `drawn`. Block numbers wrap, so 2^64 - n
    /// puts n words of 0 before the list.
    pub fn from_block(words: &'a [u64], drawn: u64) -> Self
        ensures { result ≡ (words.now, drawn) }
    {
        Script { words, drawn }
    }

    /// Returns the number of the next block, modulo 2^64.
    pub fn drawn(&self) -> u64
        ensures { result ≡ self.now.1 }
    {
        self.drawn
    }
}

impl Clone for Script<'_> {
    ghost is_clone = { λ g c. c ≡ g };

    ghost is_infallible = { λ _. ⊤ };

    fn clone(&self) -> Result<Self, AllocError> {
        Ok(Script {
            words: self.words,
            drawn: self.drawn,
        })
    }
}

impl Blocks<8> for Script<'_> {
    ghost block = { script_block };

    ghost step = { script_step };

    fn rand(&mut self) -> [u8; 8] {
        let word = self.words.get(self.drawn as usize).map_or(0, |word| *word);
        self.drawn = self.drawn.wrapping_add(1);
        word.to_le_bytes()
    }

    ghost positive = { Prim.search rules };

    ghost in_memory = { Prim.search rules };

    ghost block_length = { λ _. refl };
}

impl Rng<8> for Script<'_> {
    ghost requests = { plain script_block script_step 8 };

    fn fill_bytes(&mut self, buffer: &mut [u8]) {
        fill_by_blocks(self, buffer)
    }

    ghost delivers = { λ _ _. refl };

    ghost after_nothing = { λ _. refl };

    ghost after_block = { λ _. refl };
}
