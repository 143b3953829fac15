//! ChaCha as a generator: each draw is a block of 64 bytes, computed from a 256-bit key.
ghost use Rattle.std.specs.Prelude.{◌≡◌, ◌==◌, ◌↔◌, ℕ, ◌+◌, ◌-◌, ◌*◌, ◌%◌, ◌^◌, ◌≤◌, ◌⊎◌, List, ◌++◌, length, take, drop, ⊤, refl, Some, IfOk, IfErr, OnErr, IsOk, IsTrue, codes};
ghost use Rattle.std.specs.Cmp.Lexicographic.{pointwise};
ghost use Rattle.std.specs.Cmp.Rules.{comparing};
ghost use Rattle.std.specs.Fmt.{decimal};
ghost use Rattle.std.proofs.Common.{rules};
ghost use Rattle.std.specs.Fn.{iterate};
ghost use Rattle.nanorand.specs.generators.ChaCha.{constants, initial_state, seeded_state, state_at, key_of, nonce_of, bytes, counter, chacha_block, next_state, advanced, chacha_after, chacha_requests};
ghost use Rattle.nanorand.specs.generators.ChaChaRounds.{IsMatrix};
ghost use Rattle.nanorand.specs.support.ChaChaDrawLemmas.{length-chacha_block};
ghost use Rattle.nanorand.specs.generators.Entropy.{HasFewer, IsMadeOf, TakesFewer};
ghost use Rattle.nanorand.specs.generators.SplitMix.{seed_from};
ghost use Rattle.nanorand.specs.generators.DebugTexts.{chacha_debug};
ghost use Rattle.nanorand.specs.support.OnwardLemmas.{onward_64};
ghost use Rattle.nanorand.specs.generators.Parts.{ComesAgain, NothingTwice, after_draws, part_at};
ghost use Rattle.nanorand.specs.declared.entropy.EntropyError.TheVariants.{Short, Fault};

use crate::crypto::chacha::{
    EightLanes, FourBlocks, Wide, chacha_block, chacha_increment_counter, chacha_init, counter,
    eight_blocks, four_blocks, set_counter,
};
use crate::entropy::{EntropyError, system};
use crate::parts::{Parts, PastPeriod, draws_before};
use crate::rand::split_mix::seed_from;
use nanorand_core::rand::{Blocks, Rng, SeedableRng, fill_by_blocks};
use std::alloc::AllocError;
use std::fmt;
use std::io::Read;
use std::marker::Model;

/// ChaCha with 8 rounds, fewer than the standard's 20. Each number takes a whole block: see
/// `ChaCha`.
pub type ChaCha8 = ChaCha<8>;

/// ChaCha with 12 rounds, fewer than the standard's 20. Each number takes a whole block: see
/// `ChaCha`.
pub type ChaCha12 = ChaCha<12>;

/// ChaCha with the standard's 20 rounds. Each number takes a whole block: see `ChaCha`.
pub type ChaCha20 = ChaCha<20>;

/// The keystream of the stream cipher ChaCha, with a 64-bit counter and a 64-bit nonce, after
/// Daniel J. Bernstein, "ChaCha, a variant of Salsa20" (2008).
///
/// A draw returns the block of the current state as 64 bytes, each 32-bit word in little-endian
/// order, and adds 1 to the counter. After the block of the greatest counter, 2^64 - 1, the counter
/// is 0 again, with the same key and nonce.
///
/// The generator does not buffer: each request starts with a new block, so that even a single byte
/// takes a whole block. To draw many numbers, use a stream such as `ChaCha20Stream`: it drops no
/// bytes, and computes eight blocks at once.
///
/// Use it for long reproducible streams whose blocks can be reached by index. The cipher is fast
/// and well studied, and its keystream is believed to be unpredictable while the key is secret.
/// `ChaCha8` and `ChaCha12` have fewer rounds than the standard's 20.
///
/// This is not a vetted cryptographic generator: it does not take a seed from the system, it does
/// not reseed itself, it does not erase keys from memory, and it has not been audited. For keys,
/// tokens and passwords, or if there is an adversary, use a vetted generator. For encryption, never
/// use the same pair of key and nonce twice.
///
/// `ROUNDS` is even; this is an invariant of the type.
#[derive(Drop)]
pub struct ChaCha<const ROUNDS: u8> {
    state: [u32; 16],
}

// The model of the generator is its state: sixteen 32-bit words, of which the first four are the
// constants.
impl<const ROUNDS: u8> Model for ChaCha<ROUNDS> {
    ghost Value = { List ℕ };

    ghost view = { λ generator. generator.state };

    ghost invariant = { λ generator. (ROUNDS % 2 ≡ 0) × (take 4 generator.state ≡ constants) };
}

impl<const ROUNDS: u8> ChaCha<ROUNDS> {
    /// Creates a generator with this key and nonce and the counter 0. Precondition: `ROUNDS` is
    /// even.
    pub fn new_key(key: [u8; 32], nonce: [u8; 8]) -> Self
        requires { ROUNDS % 2 ≡ 0 }
        ensures state { result ≡ initial_state key nonce }
        ensures matrix { IsMatrix result }
    {
        ChaCha {
            state: chacha_init(key, nonce),
        }
    }

    /// Creates a generator with this key and nonce whose next block is the one at this index: the
    /// counter is `index`. Precondition: `ROUNDS` is even.
    ///
    /// To store a generator, store its `key`, `nonce` and `counter`. `at` restores an equal one
    /// from the three.
    pub fn at(key: [u8; 32], nonce: [u8; 8], index: u64) -> Self
        requires { ROUNDS % 2 ≡ 0 }
        ensures state { result ≡ state_at key nonce index }
        ensures matrix { IsMatrix result }
        ensures key { key_of result ≡ key }
        ensures nonce { nonce_of result ≡ nonce }
        ensures counter { counter result ≡ index }
    {
        let mut state = chacha_init(key, nonce);
        set_counter(&mut state, index);
        ChaCha { state }
    }

    /// Creates a generator whose key and nonce are made from a number, which may be small: 0, 1, 2,
    /// .., a port, a year. Different numbers produce different states (`laws::seeds_differ`). The
    /// counter is 0. Precondition: `ROUNDS` is even.
    ///
    /// The 40 bytes of key and nonce are the first five 64-bit words that SplitMix64 produces from
    /// the number, in little-endian order (Guy Steele, Doug Lea and Christine Flood, 2014, with the
    /// constants of Sebastiano Vigna). There are only 2^64 such keys, so they keep no secret.
    pub fn seed_from_u64(number: u64) -> Self
        requires { ROUNDS % 2 ≡ 0 }
        ensures state { result ≡ seeded_state (seed_from 40 number) }
        ensures matrix { IsMatrix result }
    {
        let (key, nonce) = split_seed(&seed_from(number));
        ChaCha::new_key(key, nonce)
    }

    /// Creates a generator from the next 40 bytes of a reader, with the counter 0: the first 32 are
    /// the key and the other 8 the nonce. Precondition: `ROUNDS` is even.
    ///
    /// Returns `Short` or `Fault`, as `entropy::system` does. For a reader such as a slice of
    /// bytes, an error means that it returned fewer than 40 bytes.
    pub fn new<R: Read>(source: &mut R) -> Result<Self, EntropyError>
        requires { ROUNDS % 2 ≡ 0 }
        ensures made { let old = R.remaining source.old in
            IfOk result (IsMadeOf 40 seeded_state old (R.remaining source.new)) }
        ensures error { IfErr result (λ e. (e ≡ Short) ⊎ (e ≡ Fault)) }
        ensures short { result ≡ Err Short → HasFewer (R.remaining source.old) 40 }
        ensures fewer { let old = R.remaining source.old in
            OnErr result (TakesFewer old (R.remaining source.new) 40) }
    {
        let mut key = [0; 32];
        let mut nonce = [0; 8];
        system(source, &mut key)?;
        system(source, &mut nonce)?;
        Ok(ChaCha::new_key(key, nonce))
    }

    /// Returns the key, as 32 bytes. The key, the nonce and the counter make up the state.
    pub fn key(&self) -> [u8; 32]
        ensures value { result ≡ key_of self.now }
        ensures parts { state_at (key_of self.now) (nonce_of self.now) (counter self.now)
            ≡ self.now }
    {
        let bytes: &[u8] = &bytes_of(&self.words());
        let mut key = [0; 32];
        key.copy_from_slice(&bytes[16..48]);
        key
    }

    /// Returns the nonce, as 8 bytes.
    pub fn nonce(&self) -> [u8; 8]
        ensures { result ≡ nonce_of self.now }
    {
        let bytes: &[u8] = &bytes_of(&self.words());
        let mut nonce = [0; 8];
        nonce.copy_from_slice(&bytes[56..64]);
        nonce
    }

    /// Returns the counter: the index of the next block of this key and nonce. In the model, the
    /// state is always sixteen 32-bit words (`matrix`).
    #[inline]
    pub fn counter(&self) -> u64
        ensures value { result ≡ counter self.now }
        ensures matrix { IsMatrix self.now }
    {
        counter(&self.words())
    }

    #[inline]
    fn words(&self) -> [u32; 16]
        ensures value { result ≡ self.now }
        ensures begins { take 4 result ≡ constants }
    {
        self.state
    }

    /// Jumps ahead by n draws (blocks), by one addition. The period of the states is exactly 2^64.
    #[inline]
    pub fn jump(&mut self, n: u64)
        ensures state { self.new ≡ chacha_after n self.old }
        ensures counter { self.new ≡ advanced n self.old }
    {
        let counter = counter(&self.state).wrapping_add(n);
        set_counter(&mut self.state, counter);
    }

    // Writes the next four blocks, as one request of 256 bytes.
    fn fill_four(&mut self, out: &mut [u8])
        requires { length out.old ≡ 256 }
        ensures bytes { out.new ≡ (chacha_requests ROUNDS).bytes self.old 256 }
        ensures state { self.new ≡ iterate next_state 4 self.old }
    {
        let blocks = four_blocks::<ROUNDS>(&self.state);
        self.jump(4);
        write_four(out, blocks);
    }

    // Fills as many whole groups of eight blocks as fit, if eight lanes are faster than four, and
    // returns the number of bytes filled. Otherwise it fills nothing. The rest of the slice is
    // filled as by a request of its own.
    #[inline]
    fn fill_wide(&mut self, buffer: &mut [u8]) -> usize
        ensures within { result ≤ length buffer.new }
        ensures length { length buffer.new ≡ length buffer.old }
        ensures bytes { let all = (chacha_requests ROUNDS).bytes self.old (length buffer.new) in
            take result buffer.new
            ++ (chacha_requests ROUNDS).bytes self.new (length buffer.new - result) ≡ all }
        ensures state { let all = (chacha_requests ROUNDS).after self.old (length buffer.new) in
            (chacha_requests ROUNDS).after self.new (length buffer.new - result) ≡ all }
    {
        let mut filled = 0;
        if let Some(lanes) = EightLanes::find() {
            'groups: while 512 <= buffer.len() - filled {
                self.fill_eight(lanes, &mut buffer[filled..filled + 512]);
                filled += 512;
            }
        }
        filled
    }

    // Returns the next eight blocks, computed on eight lanes if these are faster than four.
    #[inline]
    pub(crate) fn next_group(&mut self) -> [u8; 512]
        ensures bytes { result ≡ (chacha_requests ROUNDS).bytes self.old 512 }
        ensures state { self.new ≡ (chacha_requests ROUNDS).after self.old 512 }
    {
        if let Some(lanes) = EightLanes::find() {
            self.next_eight(lanes)
        } else {
            let mut group = [0; 512];
            self.fill_bytes(&mut group);
            group
        }
    }
}

impl<const ROUNDS: u8> Wide for ChaCha<ROUNDS> {
    // Writes the next eight blocks, as one request of 512 bytes.
    #[inline(always)]
    fn fill_eight(&mut self, lanes: EightLanes, out: &mut [u8])
        requires { length out.old ≡ 512 }
        ensures bytes { out.new ≡ (chacha_requests ROUNDS).bytes self.old 512 }
        ensures state { self.new ≡ iterate next_state 8 self.old }
    {
        let (front, back) = eight_blocks::<ROUNDS>(lanes, &self.state);
        self.jump(8);
        write_four(&mut out[0..256], front);
        write_four(&mut out[256..], back);
    }

    #[inline(always)]
    fn next_eight(&mut self, lanes: EightLanes) -> [u8; 512]
        ensures bytes { result ≡ (chacha_requests ROUNDS).bytes self.old 512 }
        ensures state { self.new ≡ iterate next_state 8 self.old }
    {
        let mut group = [0; 512];
        Wide::fill_eight(self, lanes, &mut group);
        group
    }
}

/// The clone equals the original. Nothing is allocated, so cloning never fails.
impl<const ROUNDS: u8> Clone for ChaCha<ROUNDS> {
    ghost is_clone = { λ g c. c ≡ g };

    ghost is_infallible = { λ _. ⊤ };

    #[inline]
    fn clone(&self) -> Result<Self, AllocError> {
        Ok(ChaCha { state: self.state })
    }
}

/// Two generators are equal if and only if their states are: the key, the nonce and the counter.
impl<const ROUNDS: u8> PartialEq for ChaCha<ROUNDS> {
    ghost eq = { pointwise ◌==◌ };

    ghost laws = { Prim.search (comparing, rules) };

    #[inline]
    fn eq(&self, other: &Self) -> bool
        ensures value { result ≡ pointwise ◌==◌ self.now other.now }
        ensures equal { IsTrue result ↔ (self.now ≡ other.now) }
    {
        self.state == other.state
    }
}

impl<const ROUNDS: u8> Eq for ChaCha<ROUNDS> {
    ghost laws = { Prim.search (comparing, rules) };
}

impl<const ROUNDS: u8> fmt::Debug for ChaCha<ROUNDS> {
    ghost debug_output = { λ state. Some (chacha_debug ROUNDS (counter state)) };

    fn fmt<W: fmt::Write>(&self, f: &mut fmt::Formatter<W>) -> fmt::Result {
        let counter = counter(&self.state);
        write!(f, "ChaCha20 {{ rounds: {ROUNDS}, counter: {counter} }}")
    }
}

impl<const ROUNDS: u8> fmt::Display for ChaCha<ROUNDS> {
    ghost output = { λ _. Some (codes "ChaCha (" ++ decimal ROUNDS ++ codes " rounds)") };

    fn fmt<W: fmt::Write>(&self, f: &mut fmt::Formatter<W>) -> fmt::Result {
        write!(f, "ChaCha ({ROUNDS} rounds)")
    }
}

impl<const ROUNDS: u8> Blocks<64> for ChaCha<ROUNDS> {
    ghost block = { chacha_block ROUNDS };

    ghost step = { next_state };

    #[inline]
    fn rand(&mut self) -> [u8; 64] {
        // The counter is stored before the block is computed, since loading its row for the next
        // block waits for this store.
        let input = self.state;
        if !chacha_increment_counter(&mut self.state) {
            set_counter(&mut self.state, 0);
        }
        bytes_of(&chacha_block::<ROUNDS>(input))
    }

    ghost positive = { Prim.search rules };

    ghost in_memory = { Prim.search rules };

    ghost block_length = { length-chacha_block ROUNDS };
}

impl<const ROUNDS: u8> Rng<64> for ChaCha<ROUNDS> {
    ghost requests = { chacha_requests ROUNDS };

    /// Fills the slice with the same bytes as `rand`, block by block. Whole groups of 256 bytes are
    /// computed as four blocks at once, and whole groups of 512 bytes as eight blocks at once if
    /// that is faster.
    fn fill_bytes(&mut self, buffer: &mut [u8]) {
        let mut filled = self.fill_wide(buffer);
        'groups: while 256 <= buffer.len() - filled {
            self.fill_four(&mut buffer[filled..filled + 256]);
            filled += 256;
        }
        fill_by_blocks(self, &mut buffer[filled..])
    }

    ghost delivers = { λ _ _. refl };

    ghost after_nothing = { λ _. refl };

    ghost after_block = { λ _. refl };
}

/// A draw is a block of 64 bytes. The period is 2^64 draws.
impl<const ROUNDS: u8> Parts<64> for ChaCha<ROUNDS> {
    ghost period = { 2 ^ 64 };

    #[inline]
    fn part(&self, index: u64, draws: u64) -> Result<Self, PastPeriod>
        ensures begins { let outset = part_at (chacha_requests ROUNDS) draws index self.now in
            IfOk result (λ part. part ≡ outset) }
        ensures within { IsOk result ↔ ((index + 1) * draws ≤ 2 ^ 64) }
        ensures once { IfOk result (λ _. NothingTwice (2 ^ 64)
            (λ n. after_draws (chacha_requests ROUNDS) n self.now)) }
        ensures again { IfOk result (λ _. ComesAgain (2 ^ 64)
            (λ n. after_draws (chacha_requests ROUNDS) n self.now)) }
    {
        let before = draws_before(index, draws, 1 << 64)?;
        let mut part = ChaCha { state: self.state };
        part.jump(before as u64);
        Ok(part)
    }

    ghost onward = { onward_64 (chacha_block ROUNDS) next_state };
}

impl<const ROUNDS: u8> SeedableRng<40, 64> for ChaCha<ROUNDS> {
    ghost seeded = { λ _ seed. seeded_state seed };

    /// Uses the first 32 bytes of the seed as the key and the last 8 as the nonce. The counter is
    /// 0.
    fn reseed(&mut self, seed: [u8; 40])
        ensures { self.new ≡ seeded_state seed }
    {
        let (key, nonce) = split_seed(&seed);
        self.state = chacha_init(key, nonce);
    }
}

// Splits a seed into the key and the nonce.
#[inline]
pub(crate) fn split_seed(seed: &[u8; 40]) -> ([u8; 32], [u8; 8])
    ensures key { result.0 ≡ take 32 seed.now }
    ensures nonce { result.1 ≡ drop 32 seed.now }
{
    let mut key = [0; 32];
    let mut nonce = [0; 8];
    key.copy_from_slice(&seed[..32]);
    nonce.copy_from_slice(&seed[32..]);
    (key, nonce)
}

#[inline(always)]
fn write_four(out: &mut [u8], blocks: FourBlocks)
    requires { length out.old ≡ 256 }
    ensures { out.new ≡ bytes blocks.0 ++ bytes blocks.1 ++ bytes blocks.2 ++ bytes blocks.3 }
{
    let (first, second, third, fourth) = blocks;
    out[0..64].copy_from_slice(&bytes_of(&first));
    out[64..128].copy_from_slice(&bytes_of(&second));
    out[128..192].copy_from_slice(&bytes_of(&third));
    out[192..].copy_from_slice(&bytes_of(&fourth));
}

// Returns the words as bytes, each in little-endian order.
#[inline(always)]
fn bytes_of(words: &[u32; 16]) -> [u8; 64]
    ensures { result ≡ bytes words.now }
{
    let mut bytes = [0; 64];
    'words: for i in 0..16 {
        bytes[4 * i..4 * i + 4].copy_from_slice(&words[i].to_le_bytes());
    }
    bytes
}
