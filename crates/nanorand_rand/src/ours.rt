//! Adapts a generator of `nanorand` to `rand_core`.
ghost use Rattle.std.specs.Prelude.{◌≡◌, length};
ghost use Rattle.rand_core.specs.Stream.{fill_bytes, next_u32, next_u64};
ghost use Rattle.nanorand_core.specs.values.Values.{number_of};
ghost use Rattle.nanorand_rand.specs.Calls.{request_stream};

use nanorand::Rng;
use std::marker::Model;

/// Adapts a generator of `nanorand` to `rand_core`: `Core(WyRand::seed_from_u64(42))`.
///
/// `OUTPUT` is the number of bytes of the generator's blocks. The compiler infers it. The generator
/// is the field `0`: use it to call the generator's own functions, or to take the generator back.
///
/// Each call is one request (one read of n bytes). So a generator without a buffer starts with a
/// new block at each call, and drops the bytes of the block that the call does not use: a `u32` of
/// `WyRand` takes a block of 8 bytes, one of `ChaCha` a block of 64. To drop no bytes, wrap a
/// buffer: `Core(BufferedRng::new(rng))`, or a stream of ChaCha, which is a buffer.
///
/// `rand_core` describes a generator as a stream of answers. The stream of `Core` is
/// `request_stream` of the requests of the inner generator (`laws::calls_are_requests`), so equal
/// generators have equal streams. After a call of generic code, such as a distribution, a contract
/// knows the stream that is left, but not the state.
///
/// No generator implements `CryptoRng`: for keys, tokens and passwords, use a vetted cryptographic
/// generator.
#[derive(Clone, Debug, PartialEq, Eq, Drop)]
pub struct Core<G: Rng<OUTPUT>, const OUTPUT: usize>(pub G);

// The view is the inner generator.
impl<G: Rng<OUTPUT>, const OUTPUT: usize> Model for Core<G, OUTPUT> {
    ghost Value = { G };

    ghost coded = { G.code };

    ghost view = { λ wrapped. wrapped.0 };

    ghost inverse = { λ g. record { 0 = g } };
}

impl<G: Rng<OUTPUT>, const OUTPUT: usize> rand_core::Rng for Core<G, OUTPUT> {
    ghost stream = { request_stream G.requests };

    /// Returns the little-endian number of a request of 4 bytes.
    #[inline]
    fn next_u32(&mut self) -> u32
        ensures call { (result, request_stream G.requests self.new)
            ≡ next_u32 (request_stream G.requests self.old) }
        ensures value { result ≡ number_of (G.requests.bytes self.old 4) }
        ensures state { self.new ≡ G.requests.after self.old 4 }
    {
        self.0.generate::<u32>()
    }

    /// Returns the little-endian number of a request of 8 bytes.
    #[inline]
    fn next_u64(&mut self) -> u64
        ensures call { (result, request_stream G.requests self.new)
            ≡ next_u64 (request_stream G.requests self.old) }
        ensures value { result ≡ number_of (G.requests.bytes self.old 8) }
        ensures state { self.new ≡ G.requests.after self.old 8 }
    {
        self.0.generate::<u64>()
    }

    /// Fills the slice by one request of its length. An empty slice draws nothing.
    #[inline]
    fn fill_bytes(&mut self, dst: &mut [u8])
        ensures call { (dst.new, request_stream G.requests self.new)
            ≡ fill_bytes (length dst.old) (request_stream G.requests self.old) }
        ensures bytes { dst.new ≡ G.requests.bytes self.old (length dst.old) }
        ensures state { self.new ≡ G.requests.after self.old (length dst.old) }
    {
        self.0.fill_bytes(dst);
    }
}
