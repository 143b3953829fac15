//! Pcg64: a generator with a 128-bit seed that draws a 64-bit word at a time.
ghost use Rattle.std.specs.Prelude.{◌≡◌, length, ◌⊎◌, ⊤, refl, Some, IfOk, IfErr, OnErr, IsOk, codes, ℕ, ◌+◌, ◌*◌, ◌<◌, ◌≤◌, ◌^◌, ◌↔◌, IsTrue, IsSome, IfSome};
ghost use Rattle.std.specs.Cmp.Rules.{comparing};
ghost use Rattle.std.proofs.Common.{rules};
ghost use Rattle.nanorand.specs.generators.Entropy.{HasFewer, IsMadeOf, TakesFewer};
ghost use Rattle.nanorand.specs.generators.Pcg64.{seeded_generator, next, pcg64_after, pcg64_block, reseeded, same_generator, seed_after, SameCycle, initial_generator, pcg64_requests};
ghost use Rattle.nanorand.specs.generators.SplitMix.{seed_from};
ghost use Rattle.nanorand.specs.generators.DebugTexts.{pcg64_debug};
ghost use Rattle.nanorand.specs.support.OnwardLemmas.{onward_8};
ghost use Rattle.nanorand.specs.generators.Parts.{ComesAgain, NothingTwice, after_draws, part_at};
ghost use Rattle.nanorand.specs.declared.entropy.EntropyError.TheVariants.{Short, Fault};

use crate::entropy::{EntropyError, system};
use crate::parts::{Parts, PastPeriod, draws_before};
use crate::rand::halves::folded;
use crate::rand::hexadecimal::Hexadecimal;
use crate::rand::split_mix::seed_from;
use nanorand_core::rand::{Blocks, Rng, SeedableRng, fill_by_blocks};
use std::alloc::AllocError;
use std::fmt;
use std::io::Read;
use std::marker::Model;

const MULTIPLIER: u128 = 47026247687942121848144207491837523525;

const SQUARE: u128 = u128::wrapping_mul(MULTIPLIER, MULTIPLIER);

// A draw changes the seed s to FACTOR * s + TERM, modulo 2^128.
const FACTOR: u128 = u128::wrapping_add(
    u128::wrapping_mul(3, SQUARE),
    u128::wrapping_add(u128::wrapping_mul(2, MULTIPLIER), 2),
);

const TERM: u128 = u128::wrapping_add(u128::wrapping_add(SQUARE, MULTIPLIER), 1);

/// The generator Pcg64 of the Rust crate `nanorand` 0.7.0, after Melissa E. O'Neill, "PCG: A Family
/// of Simple Fast Space-Efficient Statistically Good Algorithms for Random Number Generation"
/// (2014).
///
/// Not cryptographically secure: its state can be recovered from its outputs. Never use it to
/// generate a key, a token or a password.
///
/// A draw multiplies the seed by a constant and adds another constant, modulo 2^128. The 64-bit
/// word is the high half of the new seed xor its low half. The block is the eight bytes of the
/// word, in little-endian order. The generator does not buffer: each request starts with a new
/// block.
///
/// `state` and `inc` describe the last draw: after it, `state` is the new seed, and `inc` is twice
/// the old seed plus 1, modulo 2^128. No draw reads them. As in the Rust crate, each draw starts
/// over from the seed and rotates nothing, so the streams differ from those of other PCG
/// implementations.
#[derive(Drop)]
pub struct Pcg64 {
    seed: u128,
    state: u128,
    inc: u128,
}

// The model of the generator is the three numbers.
impl Model for Pcg64 {
    ghost use Rattle.nanorand.specs.generators.Pcg64.{Generator};

    ghost Value = { Generator };

    ghost view = { λ g. record { seed = g.seed; state = g.state; inc = g.inc } };
}

impl Pcg64 {
    /// Creates a generator whose seed is made from a number, which may be small: 0, 1, 2, .., a
    /// port, a year. Different numbers produce different seeds (`laws::seeds_differ`).
    ///
    /// The 16 bytes of the seed are the first two 64-bit words that SplitMix64 produces from the
    /// number, in little-endian order (Guy Steele, Doug Lea and Christine Flood, 2014, with the
    /// constants of Sebastiano Vigna). `state` and `inc` are 0.
    #[inline]
    pub fn seed_from_u64(number: u64) -> Self
        ensures { result ≡ seeded_generator (seed_from 16 number) }
    {
        Pcg64::new_seed(u128::from_le_bytes(seed_from(number)))
    }

    /// Creates a generator with this seed. The seed is the state itself, and is not mixed. `state`
    /// and `inc` are 0 until the first draw.
    ///
    /// Generators with neighbouring seeds, such as 0, 1, 2, .., draw correlated numbers: for such
    /// numbers, use `seed_from_u64`. If two seeds differ by a multiple of 2^k, for k above 64, all
    /// words of their streams agree in the low k - 64 bits. If you need many generators, use parts
    /// of one stream (`part`), or mixed seeds: numbers that another generator drew, or the first 16
    /// bytes of the SHA-256 of a name.
    #[inline]
    pub fn new_seed(seed: u128) -> Self
        ensures { result ≡ initial_generator seed }
    {
        Pcg64 {
            seed,
            state: 0,
            inc: 0,
        }
    }

    /// Creates a generator whose seed is the next 16 bytes of a reader, in little-endian order.
    /// `state` and `inc` are 0. Rust's `Pcg64::new()` takes its seed from the system; here the
    /// caller passes a reader.
    ///
    /// Returns `Short` or `Fault`, as `entropy::system` does. For a reader such as a slice of
    /// bytes, an error means that it returned fewer than 16 bytes.
    pub fn new<R: Read>(source: &mut R) -> Result<Self, EntropyError>
        ensures made { let old = R.remaining source.old in
            IfOk result (IsMadeOf 16 seeded_generator old (R.remaining source.new)) }
        ensures error { IfErr result (λ e. (e ≡ Short) ⊎ (e ≡ Fault)) }
        ensures short { result ≡ Err Short → HasFewer (R.remaining source.old) 16 }
        ensures fewer { let old = R.remaining source.old in
            OnErr result (TakesFewer old (R.remaining source.new) 16) }
    {
        let mut seed = [0; 16];
        system(source, &mut seed)?;
        Ok(Pcg64::new_seed(u128::from_le_bytes(seed)))
    }

    /// Returns the seed, which alone determines the blocks to come.
    #[inline]
    pub fn seed(&self) -> u128
        ensures { result ≡ self.now.seed }
    {
        self.seed
    }

    /// Jumps ahead by n draws. `state` and `inc` are also those of n draws later.
    ///
    /// It takes at most 128 steps and one draw, after Forrest Brown, "Random Number Generation with
    /// Arbitrary Strides" (1994). `jump(0)` changes nothing. The period of the seeds is exactly
    /// 2^126.
    pub fn jump(&mut self, n: u128)
        ensures { self.new ≡ pcg64_after n self.old }
    {
        if n > 0 {
            self.seed = seed_after(self.seed, n - 1);
            let _ = self.rand();
        }
    }

    /// Returns the number of draws, below 2^126, that lead from this seed to the other's, or `None`
    /// if and only if no number of draws does. Two seeds are in the same cycle if and only if they
    /// are equal modulo 8 or their sum is 7 modulo 8.
    ///
    /// It allocates nothing and takes at most 126 steps. `state` and `inc` are ignored.
    pub fn distance(&self, other: &Pcg64) -> Option<u128>
        ensures reached { IsSome result ↔ SameCycle self.now.seed other.now.seed }
        ensures below { IfSome result (λ n. n < 2 ^ 126) }
        ensures leads { IfSome result (λ n. seed_after n self.now.seed ≡ other.now.seed) }
        ensures only { (n : ℕ) → n < 2 ^ 126 → seed_after n self.now.seed ≡ other.now.seed
            → result ≡ Some n }
    {
        if in_one_cycle(self.seed, other.seed) {
            Some(draws_between(self.seed, other.seed))
        } else {
            None
        }
    }

    #[inline]
    fn copied(&self) -> Self
        ensures state { result ≡ self.now }
        ensures fits { self.now.seed < 2 ^ 128 }
    {
        Pcg64 {
            seed: self.seed(),
            state: self.state,
            inc: self.inc,
        }
    }
}

/// The clone equals the original. Nothing is allocated, so cloning never fails.
impl Clone for Pcg64 {
    ghost is_clone = { λ g c. c ≡ g };

    ghost is_infallible = { λ _. ⊤ };

    #[inline]
    fn clone(&self) -> Result<Self, AllocError> {
        Ok(self.copied())
    }
}

/// Two generators are equal if and only if their states are: the seed, `state` and `inc`. Two
/// generators with equal seeds draw equal numbers even if `state` and `inc` differ.
impl PartialEq for Pcg64 {
    ghost eq = { same_generator };

    ghost laws = { Prim.search (comparing, rules) };

    #[inline]
    fn eq(&self, other: &Self) -> bool
        ensures value { result ≡ same_generator self.now other.now }
        ensures equal { IsTrue result ↔ (self.now ≡ other.now) }
    {
        self.seed == other.seed && self.state == other.state && self.inc == other.inc
    }
}

impl Eq for Pcg64 {
    ghost laws = { Prim.search (comparing, rules) };
}

impl fmt::Debug for Pcg64 {
    ghost debug_output = { λ g. Some (pcg64_debug g) };

    fn fmt<W: fmt::Write>(&self, f: &mut fmt::Formatter<W>) -> fmt::Result {
        write!(
            f,
            "Pcg64 {{ seed: 0x{}, state: 0x{}, inc: 0x{} }}",
            Hexadecimal(self.seed),
            Hexadecimal(self.state),
            Hexadecimal(self.inc)
        )
    }
}

impl fmt::Display for Pcg64 {
    ghost output = { λ _. Some (codes "Pcg64") };

    // Width, fill and other format options have no effect.
    ghost styled_output = { λ _ _. Some (codes "Pcg64") };

    fn fmt<W: fmt::Write>(&self, f: &mut fmt::Formatter<W>) -> fmt::Result {
        f.write_str("Pcg64")
    }
}

impl Blocks<8> for Pcg64 {
    ghost block = { pcg64_block };

    ghost step = { next };

    #[inline(always)]
    fn rand(&mut self) -> [u8; 8] {
        self.inc = self.seed.wrapping_mul(2).wrapping_add(1);
        self.seed = self.seed.wrapping_mul(FACTOR).wrapping_add(TERM);
        self.state = self.seed;
        folded(self.seed).to_le_bytes()
    }

    ghost positive = { Prim.search rules };

    ghost in_memory = { Prim.search rules };

    ghost block_length = { λ _. refl };
}

impl Rng<8> for Pcg64 {
    ghost requests = { pcg64_requests };

    #[inline(always)]
    fn fill_bytes(&mut self, buffer: &mut [u8]) {
        fill_by_blocks(self, buffer)
    }

    ghost delivers = { λ _ _. refl };

    ghost after_nothing = { λ _. refl };

    ghost after_block = { λ _. refl };
}

/// A draw is a block of eight bytes. The period is 2^126 draws.
impl Parts<8> for Pcg64 {
    ghost period = { 2 ^ 126 };

    fn part(&self, index: u64, draws: u64) -> Result<Self, PastPeriod>
        ensures begins { let outset = part_at pcg64_requests draws index self.now in
            IfOk result (λ part. part ≡ outset) }
        ensures within { IsOk result ↔ ((index + 1) * draws ≤ 2 ^ 126) }
        ensures once { IfOk result (λ _. NothingTwice (2 ^ 126)
            (λ n. after_draws pcg64_requests n self.now)) }
        ensures again { IfOk result (λ _. ComesAgain (2 ^ 126)
            (λ n. after_draws pcg64_requests n self.now)) }
    {
        let before = draws_before(index, draws, 1 << 126)?;
        let mut part = self.copied();
        part.jump(before);
        Ok(part)
    }

    ghost onward = { onward_8 pcg64_block next };
}

impl SeedableRng<16, 8> for Pcg64 {
    ghost seeded = { reseeded };

    /// Uses these bytes as the new seed, in little-endian order. `state` and `inc` keep their
    /// values until the next draw.
    #[inline]
    fn reseed(&mut self, seed: [u8; 16])
        ensures { self.new ≡ reseeded self.old seed }
    {
        self.seed = u128::from_le_bytes(seed);
    }
}

// Returns the seed after `draws` draws. `factor` and `term` describe 1, 2, 4, .. draws at once, and
// each step takes the lowest bit of the number of draws left.
fn seed_after(start: u128, draws: u128) -> u128
    ensures { result ≡ seed_after draws start }
{
    let mut seed = start;
    let mut left = draws;
    let mut factor = FACTOR;
    let mut term = TERM;
    'bits: while left > 0 {
        if left % 2 == 1 {
            seed = factor.wrapping_mul(seed).wrapping_add(term);
        }
        term = factor.wrapping_add(1).wrapping_mul(term);
        factor = factor.wrapping_mul(factor);
        left /= 2;
    }
    seed
}

#[inline]
fn in_one_cycle(start: u128, end: u128) -> bool
    ensures { IsTrue result ↔ SameCycle start end }
{
    start % 8 == end % 8 || start % 8 + end % 8 == 7
}

// Returns the number of draws from `start` to `end`, found bit by bit from the lowest. Invariant:
// once the bits below `bit` are decided, `end - seed` is a multiple of 2^(bit + 2), and this bit is
// set if and only if it is an odd multiple. For bit 0, `end - seed` is 0 or odd modulo 8, and the
// bit is set if and only if it is odd.
fn draws_between(start: u128, end: u128) -> u128
    requires { SameCycle start end }
    ensures below { result < 2 ^ 126 }
    ensures leads { seed_after result start ≡ end }
{
    let mut seed = start;
    let mut draws: u128 = 0;
    let mut factor = FACTOR;
    let mut term = TERM;
    for bit in 0..126u32 {
        if (end.wrapping_sub(seed) >> bit) % 8 != 0 {
            seed = factor.wrapping_mul(seed).wrapping_add(term);
            draws += 1 << bit;
        }
        term = factor.wrapping_add(1).wrapping_mul(term);
        factor = factor.wrapping_mul(factor);
    }
    draws
}
