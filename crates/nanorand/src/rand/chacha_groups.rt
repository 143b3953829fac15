//! ChaCha in groups of eight blocks, for streams: each draw is a block of 512 bytes.
ghost use Rattle.std.specs.Prelude.{◌≡◌, ◌==◌, ◌↔◌, ℕ, ◌%◌, ◌++◌, List, ⊤, refl, Some, IsTrue, codes};
ghost use Rattle.std.specs.Cmp.Lexicographic.{pointwise};
ghost use Rattle.std.specs.Cmp.Rules.{comparing};
ghost use Rattle.std.specs.Fmt.{decimal};
ghost use Rattle.std.proofs.Common.{rules};
ghost use Rattle.nanorand.specs.generators.ChaCha.{initial_state, seeded_state, state_at, key_of, nonce_of, counter, with_counter, advanced, chacha_after};
ghost use Rattle.nanorand.specs.generators.ChaChaRounds.{IsMatrix};
ghost use Rattle.nanorand.specs.generators.ChaChaGroups.{chacha_group, next_group, group_requests};
ghost use Rattle.nanorand.specs.generators.DebugTexts.{chacha_groups_debug};
ghost use Rattle.nanorand.specs.support.ChaChaGroupLemmas.{length-chacha_group};

use crate::rand::chacha::ChaCha;
use nanorand_core::rand::{Blocks, Rng, SeedableRng, fill_by_blocks};
use std::alloc::AllocError;
use std::fmt;
use std::marker::Model;

/// A `ChaCha` that draws its next eight blocks at once.
///
/// A draw returns 512 bytes, and adds 8 to the counter. The generator does not buffer: each request
/// starts with a new group and drops the rest of its last group, so every number takes eight
/// blocks. With a buffer, as in `ChaCha20Stream`, no bytes are dropped: starting with an empty
/// buffer, it delivers the same bytes as a buffered `ChaCha`.
///
/// Like `ChaCha`, it is not a vetted cryptographic generator.
///
/// `ROUNDS` is even; this is an invariant of the type.
#[derive(Drop)]
pub struct ChaChaGroups<const ROUNDS: u8> {
    chacha: ChaCha<ROUNDS>,
}

// The model of the generator is the state of `ChaCha`: sixteen 32-bit words.
impl<const ROUNDS: u8> Model for ChaChaGroups<ROUNDS> {
    ghost Value = { List ℕ };

    ghost view = { λ generator. generator.chacha };

    ghost invariant = { λ _. ROUNDS % 2 ≡ 0 };
}

impl<const ROUNDS: u8> ChaChaGroups<ROUNDS> {
    /// Creates a generator with this key and nonce and the counter 0. Precondition: `ROUNDS` is
    /// even.
    pub fn new_key(key: [u8; 32], nonce: [u8; 8]) -> Self
        requires { ROUNDS % 2 ≡ 0 }
        ensures state { result ≡ initial_state key nonce }
        ensures matrix { IsMatrix result }
    {
        ChaChaGroups {
            chacha: ChaCha::new_key(key, nonce),
        }
    }

    /// Creates a generator with this key and nonce whose next group begins with the block at this
    /// index: the counter is `index`. Precondition: `ROUNDS` is even.
    ///
    /// To store a generator, store its `key`, `nonce` and `counter`. `at` restores an equal one
    /// from the three.
    pub fn at(key: [u8; 32], nonce: [u8; 8], index: u64) -> Self
        requires { ROUNDS % 2 ≡ 0 }
        ensures state { result ≡ state_at key nonce index }
        ensures matrix { IsMatrix result }
        ensures key { key_of result ≡ key }
        ensures nonce { nonce_of result ≡ nonce }
        ensures counter { counter result ≡ index }
    {
        ChaChaGroups {
            chacha: ChaCha::at(key, nonce, index),
        }
    }

    /// Creates a generator with the same key and nonce whose next group begins with the block at
    /// this index.
    pub fn at_index(&self, index: u64) -> Self
        ensures state { result ≡ with_counter self.now index }
        ensures matrix { IsMatrix result }
    {
        ChaChaGroups {
            chacha: ChaCha::at(self.chacha.key(), self.chacha.nonce(), index),
        }
    }

    /// Returns the key, as 32 bytes. The key, the nonce and the counter make up the state.
    pub fn key(&self) -> [u8; 32]
        ensures value { result ≡ key_of self.now }
        ensures parts { state_at (key_of self.now) (nonce_of self.now) (counter self.now)
            ≡ self.now }
    {
        self.chacha.key()
    }

    /// Returns the nonce, as 8 bytes.
    pub fn nonce(&self) -> [u8; 8]
        ensures { result ≡ nonce_of self.now }
    {
        self.chacha.nonce()
    }

    /// Returns the counter: the index of the next group's first block for this key and nonce.
    #[inline]
    pub fn counter(&self) -> u64
        ensures value { result ≡ counter self.now }
        ensures matrix { IsMatrix self.now }
    {
        self.chacha.counter()
    }

    /// Jumps ahead by n blocks of 64 bytes, by one addition. A draw advances by 8 of them.
    #[inline]
    pub fn jump_blocks(&mut self, n: u64)
        ensures state { self.new ≡ chacha_after n self.old }
        ensures counter { self.new ≡ advanced n self.old }
    {
        self.chacha.jump(n);
    }
}

/// The clone equals the original. Nothing is allocated, so cloning never fails.
impl<const ROUNDS: u8> Clone for ChaChaGroups<ROUNDS> {
    ghost is_clone = { λ g c. c ≡ g };

    ghost is_infallible = { λ _. ⊤ };

    #[inline]
    fn clone(&self) -> Result<Self, AllocError> {
        Ok(ChaChaGroups {
            chacha: self.chacha.clone()?,
        })
    }
}

/// Two generators are equal if and only if their states are: the key, the nonce and the counter.
impl<const ROUNDS: u8> PartialEq for ChaChaGroups<ROUNDS> {
    ghost eq = { pointwise ◌==◌ };

    ghost laws = { Prim.search (comparing, rules) };

    #[inline]
    fn eq(&self, other: &Self) -> bool
        ensures value { result ≡ pointwise ◌==◌ self.now other.now }
        ensures equal { IsTrue result ↔ (self.now ≡ other.now) }
    {
        self.chacha == other.chacha
    }
}

impl<const ROUNDS: u8> Eq for ChaChaGroups<ROUNDS> {
    ghost laws = { Prim.search (comparing, rules) };
}

impl<const ROUNDS: u8> fmt::Debug for ChaChaGroups<ROUNDS> {
    ghost debug_output = { λ state. Some (chacha_groups_debug ROUNDS (counter state)) };

    fn fmt<W: fmt::Write>(&self, f: &mut fmt::Formatter<W>) -> fmt::Result {
        let counter = self.counter();
        write!(f, "ChaChaGroups {{ rounds: {ROUNDS}, counter: {counter} }}")
    }
}

impl<const ROUNDS: u8> fmt::Display for ChaChaGroups<ROUNDS> {
    ghost output = { λ _. Some (codes "ChaCha (" ++ decimal ROUNDS ++ codes " rounds, by groups)") };

    fn fmt<W: fmt::Write>(&self, f: &mut fmt::Formatter<W>) -> fmt::Result {
        write!(f, "ChaCha ({ROUNDS} rounds, by groups)")
    }
}

impl<const ROUNDS: u8> Blocks<512> for ChaChaGroups<ROUNDS> {
    ghost block = { chacha_group ROUNDS };

    ghost step = { next_group };

    #[inline]
    fn rand(&mut self) -> [u8; 512] {
        self.chacha.next_group()
    }

    ghost positive = { Prim.search rules };

    ghost in_memory = { Prim.search rules };

    ghost block_length = { length-chacha_group ROUNDS };
}

impl<const ROUNDS: u8> Rng<512> for ChaChaGroups<ROUNDS> {
    ghost requests = { group_requests ROUNDS };

    fn fill_bytes(&mut self, buffer: &mut [u8]) {
        fill_by_blocks(self, buffer)
    }

    ghost delivers = { λ _ _. refl };

    ghost after_nothing = { λ _. refl };

    ghost after_block = { λ _. refl };
}

impl<const ROUNDS: u8> SeedableRng<40, 512> for ChaChaGroups<ROUNDS> {
    ghost seeded = { λ _ seed. seeded_state seed };

    /// Uses the first 32 bytes of the seed as the key and the last 8 as the nonce. The counter is
    /// 0.
    fn reseed(&mut self, seed: [u8; 40])
        ensures { self.new ≡ seeded_state seed }
    {
        self.chacha.reseed(seed);
    }
}
