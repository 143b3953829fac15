//! A generator that buffers unused bytes, so that its requests join into one unbroken stream.
ghost use Rattle.std.specs.Prelude.{◌≡◌, ◌==◌, ◌↔◌, ◌&&◌, ℕ, ◌+◌, ◌++◌, ◌<◌, ◌≤◌, [], length, vec_len, vec_capacity, refl, take, drop, min, IfOk, OnOk, OnErr, IsOk, IsErr, IsTrue, Ok, None};
ghost use Rattle.std.specs.Cmp.{and_per, and_equiv, on_per, on_equiv, nat_eq_equiv, partial_equiv_from_equiv};
ghost use Rattle.std.specs.Cmp.Lexicographic.{pointwise, lists_per, lists_equiv};
ghost use Rattle.std.specs.Io.{ReadsAtMost};
ghost use Rattle.std.specs.Io.KnownBytes.{ReadConsumes};
ghost use Rattle.nanorand_replay.specs.generators.Buffered.{buffered, buffered_block, buffered_step, buffered_after, buffered_taken, buffer_of};
ghost use Rattle.nanorand_replay.specs.support.BufferedLemmas.{length-buffered_taken, after_nothing, delivers};

use nanorand_core::rand::{Blocks, Rng, SeedableRng, fill_by_blocks};
use std::alloc::{AllocError, Allocator};
use std::io::{self, Read};
use std::marker::Model;
use thiserror::Error;

/// A generator that delivers the blocks of another generator as one stream of bytes, and buffers
/// the bytes that a request leaves over.
///
/// A request is one read of n bytes. It takes the buffered bytes first, and then draws as few
/// blocks as cover the rest, by `rand` of the inner generator. `OUTPUT` is the number of bytes of a
/// block. The bytes of the last block that are not delivered, always fewer than a block, stay
/// buffered for the next request. The inner generator may be any generator, including another
/// `BufferedRng`.
#[derive(Drop)]
pub struct BufferedRng<G, const OUTPUT: usize> {
    inner: G,
    block: [u8; OUTPUT],
    cursor: usize,
}

// The model of the generator is the pair of the buffered bytes and the inner generator. The
// buffered bytes are those of the block from the cursor on; the bytes before the cursor have no
// meaning.
impl<G, const OUTPUT: usize> Model for BufferedRng<G, OUTPUT> {
    ghost use Rattle.std.specs.Prelude.{◌≡◌, ◌<◌, ◌≤◌, length, drop};
    ghost use Rattle.nanorand_replay.specs.generators.Buffered.{Buffered, buffered_code};

    ghost Value = { Buffered G };

    ghost coded = { buffered_code G.code };

    ghost view = { λ b. record { rest = drop b.cursor b.block; inner = b.inner } };

    ghost invariant = { λ b. (0 < b.cursor) × (b.cursor ≤ OUTPUT) × (length b.block ≡ OUTPUT) };
}

/// The error of `read_to_string`: the stream never ends and is not text.
#[derive(Clone, Copy, Debug, PartialEq, Eq, Error)]
#[error("a generator cannot be read into a string")]
pub struct TextRefused;

/// The error of `BufferedRng::with_rest`: the bytes would fill a block or more.
#[derive(Clone, Copy, Debug, PartialEq, Eq, Error)]
#[error("a buffer holds less than a block")]
pub struct RestTooLong;

impl<G: Blocks<OUTPUT>, const OUTPUT: usize> BufferedRng<G, OUTPUT> {
    /// Wraps a generator. The buffer is empty, and nothing is drawn.
    #[inline]
    pub fn new(rng: G) -> Self
        ensures rest { result.rest ≡ [] }
        ensures inner { result.inner ≡ rng }
    {
        BufferedRng {
            inner: rng,
            block: [0; OUTPUT],
            cursor: OUTPUT,
        }
    }

    /// Wraps a generator and buffers the bytes of `rest`, which are delivered first, in their
    /// order. Nothing is drawn.
    ///
    /// Returns `RestTooLong` if `rest` has `OUTPUT` bytes or more. The generator is dropped then.
    pub fn with_rest(rng: G, rest: &[u8]) -> Result<Self, RestTooLong>
    where
        G: Drop,
        ensures state { IfOk result (λ buffer. buffer ≡ buffer_of rest.now rng) }
        ensures fits { IsOk result ↔ (length rest.now < OUTPUT) }
    {
        if OUTPUT <= rest.len() {
            return Err(RestTooLong);
        }
        let cursor = OUTPUT - rest.len();
        let mut block = [0; OUTPUT];
        let bytes = &mut block[..];
        bytes[cursor..].copy_from_slice(rest);
        Ok(BufferedRng {
            inner: rng,
            block,
            cursor,
        })
    }

    /// Returns the buffered bytes in the order in which they will be delivered. They are always
    /// fewer than a block.
    ///
    /// To store a buffered generator, store these bytes and the state of `inner`. `with_rest`
    /// restores an equal one from the two.
    #[inline]
    pub fn rest(&self) -> &[u8]
        ensures value { result.now ≡ self.now.rest }
        ensures below { length result.now < OUTPUT }
    {
        let bytes = &self.block[..];
        &bytes[self.cursor..]
    }

    /// Returns the inner generator, in the state that the blocks drawn so far have left.
    #[inline]
    pub fn inner(&self) -> &G
        ensures { result.now ≡ self.now.inner }
    {
        &self.inner
    }

    /// Returns the inner generator and drops the buffered bytes.
    #[inline]
    pub fn into_inner(self) -> G
        ensures { result ≡ self.inner }
    {
        self.inner
    }

    /// Returns the number of buffered bytes, which is always less than a block.
    #[inline]
    pub fn buffered(&self) -> usize
        ensures value { result ≡ length self.now.rest }
        ensures below { result < OUTPUT }
    {
        OUTPUT - self.cursor
    }

    /// Appends only the buffered bytes to `out`, empties the buffer, and returns how many bytes
    /// were appended.
    ///
    /// Nothing is drawn, since the stream has no end. If the buffer is empty, the call allocates
    /// nothing, leaves the capacity of the vector as it is, and returns 0.
    ///
    /// Returns an error only if the vector has too little room and cannot be grown. The items and
    /// the capacity of the vector, and the buffer, are unchanged then.
    pub fn read_to_end<A: Allocator>(&mut self, out: &mut Vec<u8, A>) -> Result<usize, AllocError>
        ensures count { IfOk result (λ count. count ≡ length self.old.rest) }
        ensures appended { OnOk result (out.new.items ≡ out.old.items ++ self.old.rest) }
        ensures rest { OnOk result (self.new ≡ buffer_of [] self.old.inner) }
        ensures vector_stays { OnErr result (out.new.items ≡ out.old.items) }
        ensures capacity_stays { OnErr result (vec_capacity out.new ≡ vec_capacity out.old) }
        ensures buffer_stays { OnErr result (self.new ≡ self.old) }

        // It fails only if the vector had too little room, so never if the buffer is empty.
        ensures full { let kept = length self.old.rest in
            OnErr result (vec_capacity out.old < vec_len out.old + kept) }
        ensures empty { self.old.rest ≡ [] → IsOk result }
        ensures untouched { self.old.rest ≡ [] → out.new ≡ out.old }
    {
        let count = OUTPUT - self.cursor;
        if count == 0 {
            return Ok(0);
        }
        let bytes = &self.block[..];
        out.reserve(count)?;
        // The vector has room now, so this cannot fail.
        out.extend_from_slice(&bytes[self.cursor..])?;
        self.cursor = OUTPUT;
        Ok(count)
    }

    /// Changes neither the string nor the generator. Always returns `TextRefused`.
    pub fn read_to_string<A: Allocator>(
        &mut self,
        out: &mut String<A>,
    ) -> Result<usize, TextRefused>
        ensures refused { IsErr result }
        ensures text_stays { out.new ≡ out.old }
        ensures buffer_stays { self.new ≡ self.old }
    {
        let _ = out;
        Err(TextRefused)
    }
}

/// The clone has the same buffered bytes, and the generator that `clone` of the inner generator
/// returns. `BufferedRng` itself allocates nothing, so cloning never fails if cloning the inner
/// generator never does.
impl<G: Clone, const OUTPUT: usize> Clone for BufferedRng<G, OUTPUT> {
    ghost is_clone = { λ b c. (c.rest ≡ b.rest) × G.is_clone b.inner c.inner };

    ghost is_infallible = { λ b. G.is_infallible b.inner };

    fn clone(&self) -> Result<Self, AllocError> {
        Ok(BufferedRng {
            inner: self.inner.clone()?,
            block: self.block,
            cursor: self.cursor,
        })
    }
}

/// Two buffered generators are equal if their buffered bytes are equal and their inner generators
/// are equal. Bytes that were already delivered are not compared.
impl<G: Rng<OUTPUT> + PartialEq, const OUTPUT: usize> PartialEq for BufferedRng<G, OUTPUT> {
    ghost eq = { λ b c. pointwise ◌==◌ b.rest c.rest && G.eq b.inner c.inner };

    ghost laws = { and_per
        (on_per (λ b. b.rest) (lists_per (partial_equiv_from_equiv nat_eq_equiv)))
        (on_per (λ b. b.inner) G.PartialEq.laws) };

    fn eq(&self, other: &Self) -> bool
        ensures value { result ≡ (pointwise ◌==◌ self.now.rest other.now.rest
            && G.eq self.now.inner other.now.inner) }
        ensures equal { IsTrue result ↔ ((self.now.rest ≡ other.now.rest)
            × IsTrue (G.eq self.now.inner other.now.inner)) }
    {
        self.rest() == other.rest() && self.inner == other.inner
    }
}

impl<G: Rng<OUTPUT> + Eq, const OUTPUT: usize> Eq for BufferedRng<G, OUTPUT> {
    ghost laws = { and_equiv (on_equiv (λ b. b.rest) (lists_equiv nat_eq_equiv))
        (on_equiv (λ b. b.inner) G.Eq.laws) };
}

impl<G: Blocks<OUTPUT>, const OUTPUT: usize> Blocks<OUTPUT> for BufferedRng<G, OUTPUT> {
    ghost block = { buffered_block G.block G.step OUTPUT };

    ghost step = { buffered_step G.block G.step OUTPUT };

    fn rand(&mut self) -> [u8; OUTPUT] {
        let mut block = [0; OUTPUT];
        deliver(
            &mut self.inner,
            &mut self.block,
            &mut self.cursor,
            &mut block,
        );
        block
    }

    ghost positive = { G.positive };

    ghost in_memory = { G.in_memory };

    ghost block_length = { λ b.
        length-buffered_taken G.block G.step OUTPUT G.positive G.block_length b OUTPUT };
}

impl<G: Blocks<OUTPUT> + Clone, const OUTPUT: usize> Rng<OUTPUT> for BufferedRng<G, OUTPUT> {
    ghost requests = { buffered G.block G.step OUTPUT };

    #[inline(always)]
    fn fill_bytes(&mut self, buffer: &mut [u8]) {
        deliver(&mut self.inner, &mut self.block, &mut self.cursor, buffer);
    }

    ghost delivers = { delivers G.block G.step OUTPUT G.positive G.block_length };

    ghost after_nothing = { after_nothing G.block G.step OUTPUT G.positive G.block_length };

    ghost after_block = { λ _. refl };
}

impl<G, const SEED_SIZE: usize, const OUTPUT: usize> SeedableRng<SEED_SIZE, OUTPUT>
    for BufferedRng<G, OUTPUT>
where
    G: SeedableRng<SEED_SIZE, OUTPUT>,
{
    ghost seeded = { λ b seed. buffer_of b.rest (G.seeded b.inner seed) };

    /// Reseeds the inner generator. The buffered bytes stay, and are delivered before the new
    /// stream.
    fn reseed(&mut self, seed: [u8; SEED_SIZE])
        ensures { self.new ≡ buffer_of self.old.rest (G.seeded self.old.inner seed.entry) }
    {
        self.inner.reseed(seed);
    }
}

/// Wraps the default of the inner generator, by `BufferedRng::new`.
impl<G: Blocks<OUTPUT> + Default, const OUTPUT: usize> Default for BufferedRng<G, OUTPUT> {
    ghost is_default = { λ b. (b.rest ≡ []) × G.is_default b.inner };

    fn default() -> Self {
        BufferedRng::new(G::default())
    }
}

/// Fills the whole slice as `fill_bytes` does, and returns its length. The stream never ends.
/// Nothing is guaranteed about the provided methods of `Read`.
impl<G: Blocks<OUTPUT>, const OUTPUT: usize> Read for BufferedRng<G, OUTPUT> {
    fn read(&mut self, buf: &mut [u8]) -> io::Result<usize>
        ensures bound { ReadsAtMost result buf.new }
        ensures bytes { ReadConsumes None None result buf.new }
        ensures value { result ≡ Ok (length buf.old) }
        ensures filled { buf.new ≡ buffered_taken G.block G.step OUTPUT self.old (length buf.old) }
        ensures state { self.new ≡ buffered_after G.block G.step OUTPUT self.old (length buf.old) }
    {
        deliver(&mut self.inner, &mut self.block, &mut self.cursor, buf);
        Ok(buf.len())
    }
}

// Delivers the buffered bytes first, then further blocks, and buffers what the last block leaves
// over.
#[inline(always)]
fn deliver<G: Blocks<OUTPUT>, const OUTPUT: usize>(
    inner: &mut G,
    block: &mut [u8; OUTPUT],
    cursor: &mut usize,
    out: &mut [u8],
)
    requires above { 0 < cursor.old }
    requires within { cursor.old ≤ OUTPUT }
    ensures bytes { let start = buffer_of (drop cursor.old block.old) inner.old in
        out.new ≡ buffered_taken G.block G.step OUTPUT start (length out.old) }
    ensures state { let start = buffer_of (drop cursor.old block.old) inner.old in
        buffer_of (drop cursor.new block.new) inner.new
        ≡ buffered_after G.block G.step OUTPUT start (length out.old) }
    ensures above { 0 < cursor.new }
    ensures within { cursor.new ≤ OUTPUT }
    ensures long { length block.new ≡ OUTPUT }
{
    let start = *cursor;
    let bytes = &block[..];
    // Written in this order, the test is a single comparison if the compiler knows the length of
    // `out`.
    if out.len() <= OUTPUT && start <= OUTPUT - out.len() {
        let end = start + out.len();
        out.copy_from_slice(&bytes[start..end]);
        *cursor = end;
    } else {
        // The cursor is never beyond the block. Stating it here removes a bounds check from each
        // slice below.
        let start = OUTPUT.min(start);
        let kept = OUTPUT - start;
        out[..kept].copy_from_slice(&bytes[start..]);
        // In Rust the inner generator may panic. The bytes delivered above must not be delivered
        // again after that.
        *cursor = OUTPUT;
        // The cursor is stored here and not in `deliver_blocks`, so that a loop of draws keeps it
        // in a register.
        *cursor = deliver_blocks(inner, block, &mut out[kept..]);
    }
}

// Does the same as `deliver` with an empty buffer, whatever bytes `block` holds, and returns the
// new cursor.
fn deliver_blocks<G: Blocks<OUTPUT>, const OUTPUT: usize>(
    inner: &mut G,
    block: &mut [u8; OUTPUT],
    out: &mut [u8],
) -> usize
    ensures bytes { let start = buffer_of [] inner.old in
        out.new ≡ buffered_taken G.block G.step OUTPUT start (length out.old) }
    ensures state { let start = buffer_of [] inner.old in
        buffer_of (drop result block.new) inner.new
        ≡ buffered_after G.block G.step OUTPUT start (length out.old) }
    ensures above { 0 < result }
    ensures within { result ≤ OUTPUT }
    ensures long { length block.new ≡ OUTPUT }
{
    let last = out.len() % OUTPUT;
    let whole = out.len() - last;
    fill_by_blocks(inner, &mut out[..whole]);
    if last > 0 {
        *block = inner.rand();
        let bytes = &block[..];
        out[whole..].copy_from_slice(&bytes[..last]);
        last
    } else {
        OUTPUT
    }
}
