//! The traits that every generator implements, and the `fill_bytes` of the generators without a
//! buffer.
ghost use Rattle.std.specs.Prelude.{◌≡◌, ℕ, ◌*◌, ◌^◌, ◌<◌, ◌≤◌, List, length, IfErr, OnOk, IsPermutation};
ghost use Rattle.std.specs.Fn.{iterate};
ghost use Rattle.nanorand_core.specs.shuffles.Arrangements.{IsValid};
ghost use Rattle.nanorand_core.specs.generators.Blocks.{Requests, taken, plain_after};
ghost use Rattle.nanorand_core.specs.shuffles.Shuffles.{from_itself, partner_drawn, shuffled};
ghost use Rattle.nanorand_core.specs.values.Draws.{after_words, word_limit};
ghost use Rattle.nanorand_core.specs.values.Values.{values_from};
ghost use Rattle.nanorand_core.specs.declared.values.range.RangeError.TheVariants.{Exhausted};

use crate::swap::swap;
use crate::values::word::{MAX_WORDS, draw_below, pick_below, pick_counted, rejected};
use crate::values::{RandomGen, RandomRange, RangeError};
use std::ops::Bound;

/// A source of blocks of `OUTPUT` bytes.
///
/// `OUTPUT` is the number of bytes of a block: 8 for `WyRand` and `Pcg64`, 64 for `ChaCha`, and 512
/// for a ChaCha stream. It is at least 1 and below 2^63; each implementation proves that.
pub trait Blocks<const OUTPUT: usize> {
    // The next block of a state.
    ghost block: { Self → List ℕ };

    // The state after that block.
    ghost step: { Self → Self };

    /// Draws the next block.
    fn rand(&mut self) -> [u8; OUTPUT]
        ensures bytes { result ≡ block self.old }
        ensures state { self.new ≡ step self.old };

    ghost positive: { 0 < OUTPUT };

    // Holds for every array that fits in memory.
    ghost in_memory: { OUTPUT < 2 ^ 63 };

    ghost block_length: { (g : Self) → length (block g) ≡ OUTPUT };
}

/// A generator of random values.
///
/// A *request* is one read of n bytes. A *word* is a random integer of N bits, read by one request
/// of N / 8 bytes in little-endian order.
///
/// Functions that take any generator are generic:
/// `fn f<G: Rng<OUTPUT>, const OUTPUT: usize>(rng: &mut G)`. There is no `dyn Rng`, since the
/// methods are generic too. `&mut G` is not an `Rng`, since a reference cannot be cloned: pass
/// `rng` on as it is.
///
/// To write your own generator, implement `Clone` and `Blocks`, write `fill_bytes`, define
/// `requests` (the bytes that a request of n bytes takes, and the state that it leaves), and prove
/// the three laws at the end of the trait. The laws determine what a request takes, and the state
/// that it leaves if n is 0 or `OUTPUT`. For every other n the generator chooses the state: it may
/// skip bytes or deliver some again. The other functions follow from these, and an implementation
/// may replace each of them by one with the same contract.
pub trait Rng<const OUTPUT: usize>: Clone + Blocks<OUTPUT> {
    // The bytes that a request of n bytes takes, and the state that it leaves, for every n.
    ghost requests: { Requests Self };

    /// Fills the slice with the next bytes, by one request. An empty slice draws nothing.
    fn fill_bytes(&mut self, buffer: &mut [u8])
        ensures bytes { buffer.new ≡ requests.bytes self.old (length buffer.old) }
        ensures state { self.new ≡ requests.after self.old (length buffer.old) };

    /// Draws a value, as `RandomGen` defines it for the type.
    #[inline]
    fn generate<T: RandomGen<Self, OUTPUT>>(&mut self) -> T
        ensures value { result ≡ T.value self.old }
        ensures state { self.new ≡ T.state_after self.old }
    {
        T::random(self)
    }

    /// Fills the slice with values, drawn in the order of the items, each by a call of `generate`.
    /// An empty slice draws nothing.
    ///
    /// To fill a slice of bytes, call `fill_bytes`, which makes one request for the whole slice.
    /// `fill` makes one request for each byte, and a generator without a buffer draws a whole block
    /// for each request.
    fn fill<T: RandomGen<Self, OUTPUT> + Drop>(&mut self, target: &mut [T])
        ensures values { let count = length target.old in
            target.new ≡ values_from T.value T.state_after count self.old }
        ensures state { self.new ≡ iterate T.state_after (length target.old) self.old }
    {
        for item in target.iter_mut() {
            *item = self.generate();
        }
    }

    /// Draws a value within the bounds `low` and `high`, as `RandomRange` defines it for the type.
    /// Rust's `generate_range(1..=6)` is `generate_range(Bound::Included(1), Bound::Included(6))`.
    ///
    /// For the ten integer types of 8 to 64 bits, each number is produced by the same number of
    /// words, by the method of Daniel Lemire ("Fast Random Integer Generation in an Interval",
    /// 2019). A returned number lies within both bounds, and bounds that admit a number never give
    /// `Empty`. The clause `limits` states both facts, so a caller's proof needs no lemma for them.
    ///
    /// For these types it returns `Empty` if the range is empty; nothing is drawn then. It returns
    /// `Exhausted` if 128 words in a row were rejected; they stay consumed. A type of your own
    /// defines what its bounds mean, and when it returns each error.
    #[inline]
    fn generate_range<T: RandomRange<Self, OUTPUT>>(
        &mut self,
        low: Bound<T>,
        high: Bound<T>,
    ) -> Result<T, RangeError>
        ensures value { result ≡ (T.outcome self.old low high).0 }
        ensures state { self.new ≡ (T.outcome self.old low high).1 }
        ensures limits { T.limits self.old low high (result, self.new) }
    {
        T::random_range(self, low, high)
    }

    /// Shuffles the slice: for each index i, from 0 up, draws an index from i to the last one, and
    /// swaps the items at i and at that index.
    ///
    /// This is the Fisher-Yates shuffle (1938) in the form of Richard Durstenfeld ("Algorithm 235:
    /// Random permutation", 1964), running from the first index up. The result is a permutation of
    /// the items. Each permutation of the indices is produced by exactly one sequence of drawn
    /// indices. The time is O(n) for n items.
    ///
    /// Returns `Exhausted` if 128 words (random integers of 64 bits) in a row were rejected for one
    /// index. The swaps before that stay, and the words stay consumed. An empty slice draws
    /// nothing.
    fn shuffle<T>(&mut self, target: &mut [T]) -> Result<(), RangeError>
        ensures answer { result ≡ (shuffled requests from_itself self.old target.old).answer }
        ensures items { target.new ≡ (shuffled requests from_itself self.old target.old).items }
        ensures state { self.new ≡ (shuffled requests from_itself self.old target.old).state }
        ensures arrangement { IsPermutation target.old target.new }
        ensures refusal { IfErr result (λ refusal. refusal ≡ Exhausted) }
        ensures whole { let shuffle = shuffled requests from_itself self.old target.old in
            OnOk result (length shuffle.choices ≡ length target.old) }
        ensures valid { let shuffle = shuffled requests from_itself self.old target.old in
            OnOk result (IsValid shuffle.choices) }
        ensures words { (n : ℕ) × (n ≤ word_limit * length target.old)
            × (self.new ≡ after_words requests 64 n self.old) }
    {
        let count = target.len();
        for place in 0..count {
            let left = (count - place) as u64;
            let mut word = [0; 8];
            self.fill_bytes(&mut word);
            let mut ahead = pick_below(left, 64, u64::from_le_bytes(word));
            if ahead.is_none() {
                let rejects = rejected(left, 64);
                let mut drawn = 1;
                'others: while ahead.is_none() & (drawn < MAX_WORDS) {
                    let mut word = [0; 8];
                    self.fill_bytes(&mut word);
                    ahead = pick_counted(left, 64, rejects, u64::from_le_bytes(word));
                    drawn += 1;
                }
            }
            match ahead {
                Some(ahead) => swap(target, place, place + ahead as usize),
                None => return Err(RangeError::Exhausted),
            }
        }
        Ok(())
    }

    // A request of n bytes takes the first n bytes of the blocks.
    ghost delivers: { (g : Self) (n : ℕ) → requests.bytes g n ≡ taken Self.block Self.step g n };

    ghost after_nothing: { (g : Self) → requests.after g 0 ≡ g };

    ghost after_block: { (g : Self) → requests.after g OUTPUT ≡ Self.step g };
}

/// A generator that can be reseeded from `SEED_SIZE` bytes. `OUTPUT` is the number of bytes of a
/// block.
pub trait SeedableRng<const SEED_SIZE: usize, const OUTPUT: usize>: Rng<OUTPUT> {
    // The state after a reseed, given the state before it and the bytes of the seed.
    ghost seeded: { Self → List ℕ → Self };

    /// Reseeds the generator with the bytes of `seed`.
    ///
    /// Each generator defines the state that this leaves. It may keep some of the old state, as a
    /// buffered generator keeps its buffered bytes. So the trait does not guarantee that the seed
    /// alone determines what is drawn next.
    fn reseed(&mut self, seed: [u8; SEED_SIZE])
        ensures { self.new ≡ seeded self.old seed.entry };
}

// Draws the index with which the item at `place` is swapped: `place` or a later index. Drawing a
// number below the count of the items left is faster than drawing one between two bounds.
#[inline]
pub(crate) fn draw_partner<G: Rng<OUTPUT>, const OUTPUT: usize>(
    rng: &mut G,
    place: usize,
    count: usize,
) -> Result<usize, RangeError>
    requires { place < count }
    ensures value { result ≡ (partner_drawn G.requests from_itself count place rng.old).0 }
    ensures state { rng.new ≡ (partner_drawn G.requests from_itself count place rng.old).1 }
{
    match draw_below(rng, (count - place) as u128, 64) {
        Some(ahead) => Ok(place + ahead as usize),
        None => Err(RangeError::Exhausted),
    }
}

/// Fills the slice block by block through `rand`, and drops the unused bytes of the last block.
///
/// It is the `fill_bytes` of a generator without a buffer, which starts each request with a new
/// block. `WyRand`, `Pcg64` and `ChaChaGroups` use it, `ChaCha` uses it for the bytes after the
/// last whole group of four blocks, and your own generator may use it too.
#[inline]
pub fn fill_by_blocks<G: Blocks<OUTPUT>, const OUTPUT: usize>(rng: &mut G, buffer: &mut [u8])
    ensures bytes { buffer.new ≡ taken G.block G.step rng.old (length buffer.old) }
    ensures state { rng.new ≡ plain_after G.step OUTPUT rng.old (length buffer.old) }
{
    let mut filled = 0;
    // The slice below needs exactly this test, so LLVM drops the bounds check of the slice.
    while filled + OUTPUT <= buffer.len() {
        let block = rng.rand();
        buffer[filled..filled + OUTPUT].copy_from_slice(&block);
        filled += OUTPUT;
    }
    let left = buffer.len() - filled;
    if left > 0 {
        let block = rng.rand();
        buffer[filled..].copy_from_slice(&block[..left]);
    }
}
