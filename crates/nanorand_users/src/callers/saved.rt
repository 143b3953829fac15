//! Callers that store a generator and restore it, and callers of the laws about whole blocks, new
//! buffers and values in two parts.
ghost use Rattle.std.specs.Prelude.{◌≡◌, ◌+◌, ◌++◌, length, Ok};
ghost use Rattle.nanorand_core.specs.values.Values.{number_of, values_from};
ghost use Rattle.nanorand.specs.generators.WyRand.{word, seed_after, wyrand_requests};

use nanorand::buffer::RestTooLong;
use nanorand::laws::{
    fresh_delivery, unbroken_delivery, values_join, whole_blocks, words_as_numbers,
};
use nanorand::{BufferedRng, ChaCha20, RandomGen, Rng, WyRand};

/// Restores an equal buffer from the buffered bytes and the seed of the generator.
pub fn restored_buffer(rng: &BufferedRng<WyRand, 8>) -> Result<BufferedRng<WyRand, 8>, RestTooLong>
    ensures { result ≡ Ok rng.now }
{
    let inner = WyRand::new_seed(rng.inner().seed());
    BufferedRng::with_rest(inner, rng.rest())
}

/// Restores an equal generator from the key, the nonce and the counter.
pub fn restored_chacha(rng: &ChaCha20) -> ChaCha20
    ensures { result ≡ rng.now }
{
    ChaCha20::at(rng.key(), rng.nonce(), rng.counter())
}

/// Returns the first `u64` that a `WyRand` with this seed draws, as a word of 64 bits.
pub fn first_word(seed: u64) -> u64
    ensures { result ≡ word (seed_after 1 seed) }
{
    words_as_numbers();
    WyRand::new_seed(seed).generate()
}

/// Returns the next block of any generator with blocks of 8 bytes, as a number.
pub fn next_number<G: Rng<8>>(rng: &mut G) -> u64
    ensures value { result ≡ number_of (G.block rng.old) }
    ensures state { rng.new ≡ G.step rng.old }
{
    whole_blocks::<G, 8>();
    rng.generate()
}

/// Fills two slices from a new buffer. Together they hold what one request to `WyRand` returns.
pub fn fill_two_from_the_start(seed: u64, first: &mut [u8], second: &mut [u8])
    ensures { first.new ++ second.new
        ≡ wyrand_requests.bytes seed (length first.old + length second.old) }
{
    unbroken_delivery::<WyRand, 8>();
    fresh_delivery::<WyRand, 8>();
    let mut rng = BufferedRng::new(WyRand::new_seed(seed));
    rng.fill_bytes(first);
    rng.fill_bytes(second);
}

/// Draws the values of two slices. Together they are the values of one slice as long as both.
pub fn fill_values<G: Rng<OUTPUT>, T: RandomGen<G, OUTPUT> + Drop, const OUTPUT: usize>(
    rng: &mut G,
    first: &mut [T],
    second: &mut [T],
)
    ensures { let count = length first.old + length second.old in
        first.new ++ second.new ≡ values_from T.value T.state_after count rng.old }
{
    values_join::<G, T>();
    rng.fill(first);
    rng.fill(second);
}
