//! WyRand: a generator with a 64-bit seed that draws a 64-bit word at a time.
ghost use Rattle.std.specs.Prelude.{◌≡◌, ◌==◌, ◌↔◌, ◌-◌, ◌%◌, length, IsPermutation, OnOk, IfSome, ◌⊎◌, ⊤, refl, Some, IfOk, IfErr, OnErr, IsOk, IsTrue, codes, ℕ, ◌+◌, ◌*◌, ◌<◌, ◌≤◌, ◌^◌};
ghost use Rattle.std.specs.Cmp.Rules.{comparing};
ghost use Rattle.std.proofs.Common.{rules};
ghost use Rattle.nanorand.specs.generators.Entropy.{HasFewer, IsMadeOf, TakesFewer};
ghost use Rattle.nanorand.specs.generators.DebugTexts.{wyrand_debug};
ghost use Rattle.nanorand_core.specs.shuffles.Arrangements.{IsValid};
ghost use Rattle.nanorand_core.specs.shuffles.Shuffles.{from_itself, shuffled};
ghost use Rattle.nanorand_core.specs.values.Draws.{after_words, drawn_below, word_limit};
ghost use Rattle.nanorand_core.specs.declared.values.range.RangeError.TheVariants.{Exhausted};
ghost use Rattle.nanorand_core.specs.values.Values.{number_of};
ghost use Rattle.nanorand.specs.support.OnwardLemmas.{onward_8};
ghost use Rattle.nanorand.specs.generators.Parts.{ComesAgain, NothingTwice, after_draws, part_at};
ghost use Rattle.nanorand.specs.generators.SplitMix.{seed_from};
ghost use Rattle.nanorand.specs.generators.WyRand.{increment, next_seed, wyrand_block, word, seed_after, wyrand_after, wyrand_requests};
ghost use Rattle.nanorand.specs.declared.entropy.EntropyError.TheVariants.{Short, Fault};

use crate::entropy::{EntropyError, system};
use crate::parts::{Parts, PastPeriod, draws_before};
use crate::rand::split_mix::seed_from;
use nanorand_core::rand::{Blocks, Rng, SeedableRng, fill_by_blocks};
use nanorand_core::swap::swap;
use nanorand_core::values::RangeError;
use nanorand_core::values::word::pick_word;
use std::alloc::AllocError;
use std::fmt;
use std::io::Read;
use std::marker::Model;

const INCREMENT: u64 = 0xa076_1d64_78bd_642f;

// The inverse of INCREMENT: their product is 1 modulo 2^64.
const INVERSE: u64 = 0x939c_72e4_af1e_62cf;

const MASK: u64 = 0xe703_7ed1_a0b4_28db;

/// The generator wyrand of Wang Yi's wyhash (2019).
///
/// Not cryptographically secure: its state can be recovered from its outputs. Never use it to
/// generate a key, a token or a password.
///
/// A draw adds a constant to the seed, modulo 2^64, and multiplies the new seed s by (s xor another
/// constant). The 64-bit word is the high half of this 128-bit product xor its low half. The block
/// is the eight bytes of the word, in little-endian order. The generator does not buffer: each
/// request starts with a new block.
#[derive(Drop)]
#[repr(C)]
pub struct WyRand {
    seed: u64,
}

// The model of the generator is its seed.
impl Model for WyRand {
    ghost use Rattle.std.specs.Prelude.{ℕ};

    ghost Value = { ℕ };

    ghost view = { λ generator. generator.seed };

    ghost inverse = { λ seed. record { seed = seed } };
}

impl WyRand {
    /// Creates a generator whose seed is made from a number, which may be small: 0, 1, 2, .., a
    /// port, a year. Different numbers produce different seeds (`laws::seeds_differ`).
    ///
    /// The seed is the first 64-bit word that SplitMix64 produces from the number (Guy Steele, Doug
    /// Lea and Christine Flood, 2014, with the constants of Sebastiano Vigna).
    #[inline]
    pub fn seed_from_u64(number: u64) -> Self
        ensures { result ≡ number_of (seed_from 8 number) }
    {
        WyRand::new_seed(u64::from_le_bytes(seed_from(number)))
    }

    /// Creates a generator with this seed. The seed is the state itself, and is not mixed.
    ///
    /// Generators with neighbouring seeds, such as 0, 1, 2, .., draw correlated numbers: for such
    /// numbers, use `seed_from_u64`. If you need many generators, use parts of one stream (`part`),
    /// or mixed seeds: numbers that another generator drew, or the first 8 bytes of the SHA-256 of
    /// a name.
    #[inline]
    pub fn new_seed(seed: u64) -> Self
        ensures { result ≡ seed }
    {
        WyRand { seed }
    }

    /// Creates a generator whose seed is the next 8 bytes of a reader, in little-endian order.
    /// Rust's `WyRand::new()` takes its seed from the system; here the caller passes a reader, or
    /// passes a number to `new_seed`.
    ///
    /// Returns `Short` or `Fault`, as `entropy::system` does. For a reader such as a slice of
    /// bytes, an error means that it returned fewer than 8 bytes.
    pub fn new<R: Read>(source: &mut R) -> Result<Self, EntropyError>
        ensures made { let old = R.remaining source.old in
            IfOk result (IsMadeOf 8 number_of old (R.remaining source.new)) }
        ensures error { IfErr result (λ e. (e ≡ Short) ⊎ (e ≡ Fault)) }
        ensures short { result ≡ Err Short → HasFewer (R.remaining source.old) 8 }
        ensures fewer { let old = R.remaining source.old in
            OnErr result (TakesFewer old (R.remaining source.new) 8) }
    {
        let mut seed = [0; 8];
        system(source, &mut seed)?;
        Ok(WyRand::new_seed(u64::from_le_bytes(seed)))
    }

    /// Returns the seed.
    #[inline]
    pub fn seed(&self) -> u64
        ensures { result ≡ self.now }
    {
        self.seed
    }

    /// Jumps ahead by n draws, by one multiplication. The period of the seeds is exactly 2^64.
    #[inline]
    pub fn jump(&mut self, n: u64)
        ensures state { self.new ≡ wyrand_after n self.old }
        ensures seed { self.new ≡ seed_after n self.old }
    {
        self.seed = self.seed.wrapping_add(n.wrapping_mul(INCREMENT));
    }

    /// Returns the number of draws, below 2^64, that lead from this seed to the other's. There is
    /// exactly one such number.
    #[inline]
    pub fn distance(&self, other: &WyRand) -> u64
        ensures leads { seed_after result self.now ≡ other.now }
        ensures only { (n : ℕ) → n < 2 ^ 64 → seed_after n self.now ≡ other.now → n ≡ result }
    {
        other.seed.wrapping_sub(self.seed).wrapping_mul(INVERSE)
    }
}

/// The clone equals the original. Nothing is allocated, so cloning never fails.
impl Clone for WyRand {
    ghost is_clone = { λ g c. c ≡ g };

    ghost is_infallible = { λ _. ⊤ };

    #[inline]
    fn clone(&self) -> Result<Self, AllocError> {
        Ok(WyRand { seed: self.seed })
    }
}

/// Two generators are equal if and only if their seeds are.
impl PartialEq for WyRand {
    ghost eq = { ◌==◌ };

    ghost laws = { Prim.search (comparing, rules) };

    #[inline]
    fn eq(&self, other: &Self) -> bool
        ensures value { result ≡ (self.now == other.now) }
        ensures equal { IsTrue result ↔ (self.now ≡ other.now) }
    {
        self.seed == other.seed
    }
}

impl Eq for WyRand {
    ghost laws = { Prim.search (comparing, rules) };
}

impl fmt::Debug for WyRand {
    ghost debug_output = { λ seed. Some (wyrand_debug seed) };

    fn fmt<W: fmt::Write>(&self, f: &mut fmt::Formatter<W>) -> fmt::Result {
        write!(f, "WyRand {{ seed: 0x{:x} }}", self.seed)
    }
}

impl fmt::Display for WyRand {
    ghost output = { λ _. Some (codes "WyRand") };

    // Width, fill and other format options have no effect.
    ghost styled_output = { λ _ _. Some (codes "WyRand") };

    fn fmt<W: fmt::Write>(&self, f: &mut fmt::Formatter<W>) -> fmt::Result {
        f.write_str("WyRand")
    }
}

impl Blocks<8> for WyRand {
    ghost block = { wyrand_block };

    ghost step = { next_seed };

    #[inline(always)]
    fn rand(&mut self) -> [u8; 8] {
        self.seed = self.seed.wrapping_add(INCREMENT);
        word(self.seed).to_le_bytes()
    }

    ghost positive = { Prim.search rules };

    ghost in_memory = { Prim.search rules };

    ghost block_length = { λ _. refl };
}

impl Rng<8> for WyRand {
    ghost requests = { wyrand_requests };

    #[inline(always)]
    fn fill_bytes(&mut self, buffer: &mut [u8]) {
        fill_by_blocks(self, buffer)
    }

    // Shuffles with a copy of the seed, which stays in a register and is stored once at the end.
    #[inline]
    fn shuffle<T>(&mut self, target: &mut [T]) -> Result<(), RangeError> {
        let (answer, seed) = shuffle_from(self.seed, target);
        self.seed = seed;
        answer
    }

    ghost delivers = { λ _ _. refl };

    ghost after_nothing = { λ _. refl };

    ghost after_block = { λ _. refl };
}

/// A draw is a block of eight bytes. The period is 2^64 draws.
impl Parts<8> for WyRand {
    ghost period = { 2 ^ 64 };

    #[inline]
    fn part(&self, index: u64, draws: u64) -> Result<Self, PastPeriod>
        ensures begins { let outset = part_at wyrand_requests draws index self.now in
            IfOk result (λ part. part ≡ outset) }
        ensures within { IsOk result ↔ ((index + 1) * draws ≤ 2 ^ 64) }
        ensures once { IfOk result (λ _. NothingTwice (2 ^ 64)
            (λ n. after_draws wyrand_requests n self.now)) }
        ensures again { IfOk result (λ _. ComesAgain (2 ^ 64)
            (λ n. after_draws wyrand_requests n self.now)) }
    {
        let before = draws_before(index, draws, 1 << 64)?;
        let mut part = WyRand { seed: self.seed };
        part.jump(before as u64);
        Ok(part)
    }

    ghost onward = { onward_8 wyrand_block next_seed };
}

impl SeedableRng<8, 8> for WyRand {
    ghost seeded = { λ _ bytes. number_of bytes };

    /// Uses these bytes as the new seed, in little-endian order.
    #[inline]
    fn reseed(&mut self, seed: [u8; 8])
        ensures { self.new ≡ number_of seed }
    {
        self.seed = u64::from_le_bytes(seed);
    }
}

// Returns the word of the seed after a draw: the high half of the product xor its low half. The low
// half is computed by a multiplication of its own, and the borrow is always 0. Written like this,
// LLVM computes one word after another. Otherwise it computes two words in a vector by scalar
// multiplications, which takes twice as long.
#[inline(always)]
fn word(seed: u64) -> u64
    ensures { result ≡ word seed }
{
    let mask = seed ^ MASK;
    let low = seed.wrapping_mul(mask);
    let product = u128::from(seed) * u128::from(mask);
    let borrow = u64::from(((product % (1 << 64)) as u64) < low);
    ((product >> 64) as u64).wrapping_sub(borrow) ^ low
}

// Shuffles with the given seed, and returns the result and the seed after it.
#[inline]
fn shuffle_from<T>(seed: u64, target: &mut [T]) -> (Result<(), RangeError>, u64)
    ensures answer { result.0 ≡ (shuffled wyrand_requests from_itself seed target.old).answer }
    ensures items { target.new ≡ (shuffled wyrand_requests from_itself seed target.old).items }
    ensures state { result.1 ≡ (shuffled wyrand_requests from_itself seed target.old).state }
    ensures arrangement { IsPermutation target.old target.new }
    ensures refusal { IfErr result.0 (λ refusal. refusal ≡ Exhausted) }
    ensures whole { let shuffle = shuffled wyrand_requests from_itself seed target.old in
        OnOk result.0 (length shuffle.choices ≡ length target.old) }
    ensures valid { let shuffle = shuffled wyrand_requests from_itself seed target.old in
        OnOk result.0 (IsValid shuffle.choices) }
    ensures words { (n : ℕ) × (n ≤ word_limit * length target.old)
        × (result.1 ≡ after_words wyrand_requests 64 n seed) }
{
    let mut now = seed;
    let count = target.len();
    for place in 0..count {
        let (ahead, after) = below(now, (count - place) as u64);
        now = after;
        match ahead {
            Some(ahead) => swap(target, place, place + ahead as usize),
            None => return (Err(RangeError::Exhausted), now),
        }
    }
    (Ok(()), now)
}

// Draws a number below `left` with the given seed, and returns it and the seed after the draw.
#[inline]
fn below(seed: u64, left: u64) -> (Option<u64>, u64)
    requires { 1 ≤ left }
    ensures below { IfSome result.0 (λ number. number < left) }
    ensures number { result.0 ≡ (drawn_below wyrand_requests 64 left seed).number }
    ensures state { result.1 ≡ (drawn_below wyrand_requests 64 left seed).state }
{
    let after = seed.wrapping_add(INCREMENT);
    let product = u128::from(word(after)) * u128::from(left);
    // Fewer than `left` words are rejected, so a low half of `left` or more is accepted at once.
    let low = (product % (1 << 64)) as u64;
    if low >= left {
        (Some((product >> 64) as u64), after)
    } else {
        searched(after, left)
    }
}

// Draws the same number by testing each word in turn. It takes the seed after the first draw, so
// that the loop of the caller keeps only one seed.
#[cold]
#[inline(never)]
fn searched(after: u64, left: u64) -> (Option<u64>, u64)
    requires { 1 ≤ left }
    ensures below { IfSome result.0 (λ number. number < left) }
    ensures number { let seed = (after + (2 ^ 64 - increment)) % 2 ^ 64 in
        result.0 ≡ (drawn_below wyrand_requests 64 left seed).number }
    ensures state { let seed = (after + (2 ^ 64 - increment)) % 2 ^ 64 in
        result.1 ≡ (drawn_below wyrand_requests 64 left seed).state }
{
    let mut now = after.wrapping_sub(INCREMENT);
    let mut number = None;
    let mut drawn = 0usize;
    'words: while number.is_none() & (drawn < 128) {
        now = now.wrapping_add(INCREMENT);
        number = pick_word(u128::from(left), 64, word(now));
        drawn += 1;
    }
    (number, now)
}
