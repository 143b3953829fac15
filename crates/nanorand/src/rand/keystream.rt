//! Seekable streams of ChaCha.
ghost use Rattle.std.specs.Prelude.{◌≡◌, ◌↔◌, ℕ, List, ◌+◌, ◌*◌, ◌%◌, ◌^◌, ◌<◌, ◌≤◌, [], ◌++◌, drop, length, take, IfOk, IsOk};
ghost use Rattle.nanorand_replay.specs.generators.Buffered.{buffer_of};
ghost use Rattle.nanorand.specs.generators.ChaCha.{initial_state, seeded_state, state_at};
ghost use Rattle.nanorand.specs.generators.SplitMix.{seed_from};
ghost use Rattle.nanorand.specs.generators.ChaChaRounds.{IsMatrix};
ghost use Rattle.nanorand.specs.generators.ChaChaGroups.{stream_position, stream_requests, stream_start};
ghost use Rattle.nanorand.specs.support.ChaChaGroupLemmas.{stream_bytes_join, stream_restarts, stream_starts, stream_states_join, stream_stays};
ghost use Rattle.nanorand.specs.support.OnwardLemmas.{onward_stream};
ghost use Rattle.nanorand.specs.generators.Parts.{ComesAgain, NothingTwice, after_draws, part_at};

use crate::parts::{Parts, PastPeriod, draws_before};
use crate::rand::chacha::split_seed;
use crate::rand::chacha_groups::ChaChaGroups;
use crate::rand::split_mix::seed_from;
use nanorand_core::rand::Rng;
use nanorand_replay::buffer::BufferedRng;

/// The keystream of ChaCha as one unbroken stream of bytes, of which eight blocks are computed at
/// once.
///
/// Like `ChaCha`, it is not a vetted cryptographic generator: it does not erase keys from memory,
/// does not reseed itself, and has not been audited. For keys, tokens and passwords, or if there is
/// an adversary, use a vetted generator.
pub type ChaChaStream<const ROUNDS: u8> = BufferedRng<ChaChaGroups<ROUNDS>, 512>;

/// A stream of ChaCha with 8 rounds, fewer than the standard's 20. Not a vetted cryptographic
/// generator: see `ChaChaStream`.
pub type ChaCha8Stream = ChaChaStream<8>;

/// A stream of ChaCha with 12 rounds, fewer than the standard's 20. Not a vetted cryptographic
/// generator: see `ChaChaStream`.
pub type ChaCha12Stream = ChaChaStream<12>;

/// A stream of ChaCha with the standard's 20 rounds. Not a vetted cryptographic generator: see
/// `ChaChaStream`.
pub type ChaCha20Stream = ChaChaStream<20>;

/// The keystream of a key and a nonce: 2^70 bytes, in blocks of 64 bytes. The bytes are numbered
/// from 0, and after the last byte the stream continues with byte 0.
///
/// Requests join without a break: two requests in a row return the bytes that one request of their
/// total size returns. Every implementation proves that. The trait fixes how a stream continues,
/// not which bytes it has for a key and a nonce (for ChaCha see the clause `state` of
/// `chacha_stream`, and `laws::streams_deliver_chacha`). `OUTPUT` is the block size of `Rng`, not
/// the 64 bytes of a keystream block.
pub trait Keystream<const OUTPUT: usize>: Rng<OUTPUT> {
    // The precondition of a new stream: for ChaCha an even number of rounds.
    ghost can_start: { Type 0 };

    // The stream of a key and a nonce, at the first byte of a block.
    ghost at: { List ℕ → List ℕ → ℕ → Self };

    // The stream of a state, at its byte 0.
    ghost restarted: { Self → Self };

    // The number of a state's next byte, if the buffered bytes belong to its stream.
    ghost position: { Self → ℕ };

    /// Creates the stream of this key and nonce, at byte 0. Precondition: for ChaCha, the number of
    /// rounds is even.
    fn new_key(key: [u8; 32], nonce: [u8; 8]) -> Self
        requires { can_start }
        ensures state { result ≡ at key nonce 0 }
        ensures position { position result ≡ 0 };

    /// Creates the stream of this key and nonce, at the first byte of the block at this index,
    /// which is byte `index * 64`. Precondition: for ChaCha, the number of rounds is even.
    fn at_block(key: [u8; 32], nonce: [u8; 8], index: u64) -> Self
        requires { can_start }
        ensures state { result ≡ at key nonce index }
        ensures position { position result ≡ index * 64 }
        ensures bytes { (n : ℕ) → let sought = Self.requests.after (at key nonce 0) (index * 64) in
            Self.requests.bytes result n ≡ Self.requests.bytes sought n };

    /// Creates a stream, at byte 0, whose key and nonce are made from a number, which may be small.
    /// Key and nonce are 40 bytes that SplitMix64 produces, as `ChaCha::seed_from_u64` describes.
    /// There are only 2^64 such keys, so they keep no secret. Precondition: for ChaCha, the number
    /// of rounds is even.
    fn seed_from_u64(number: u64) -> Self
        requires { can_start }
        ensures state { let seed = seed_from 40 number in
            result ≡ at (take 32 seed) (drop 32 seed) 0 }
        ensures position { position result ≡ 0 }
    {
        let (key, nonce) = split_seed(&seed_from(number));
        Self::new_key(key, nonce)
    }

    /// Moves to this byte of the stream, forward or back. Byte 2^70 is byte 0 again. Buffered bytes
    /// are dropped.
    ///
    /// The state is then the same as after one request, made at byte 0, for all bytes before this
    /// one.
    fn seek(&mut self, byte: u128)
        ensures state { self.new ≡ Self.requests.after (restarted self.old) byte }
        ensures position { position self.new ≡ byte % 2 ^ 70 }
        ensures wraps { (n : ℕ) → let sought = Self.requests.after (restarted self.old) in
            sought (n + 2 ^ 70) ≡ sought n };

    /// Returns the number of the next byte, for a stream that was created by `new_key` or
    /// `at_block` or moved by `seek`. A request for n bytes adds n to it, modulo 2^70.
    ///
    /// A buffered generator that was created by `BufferedRng::with_rest`, or that was reseeded, may
    /// hold buffered bytes of another stream, or of none. They are delivered next and counted all
    /// the same, until a `seek`.
    fn position(&self) -> u128
        ensures value { result ≡ position self.now }
        ensures moves { (n : ℕ) →
            position (Self.requests.after self.now n) ≡ (position self.now + n) % 2 ^ 70 };

    // Two requests in a row leave the same state, and take the same bytes, as one request of their
    // total size.
    ghost states_join: { (g : Self) (m n : ℕ) → let after = Self.requests.after in
        after (after g m) n ≡ after g (m + n) };

    ghost bytes_join: { (g : Self) (m n : ℕ) → let bytes = Self.requests.bytes in
        bytes g m ++ bytes (Self.requests.after g m) n ≡ bytes g (m + n) };

    // A request, a return to byte 0 and a start at any block stay in the same stream.
    ghost stays: { (g : Self) (n : ℕ) → restarted (Self.requests.after g n) ≡ restarted g };

    ghost restarts: { (g : Self) → restarted (restarted g) ≡ restarted g };

    ghost starts: { (key nonce : List ℕ) (index : ℕ)
        → restarted (at key nonce index) ≡ at key nonce 0 };
}

/// Creates the stream of this key and nonce, at byte 0, as `Keystream::new_key` does, without the
/// need to import that trait. Precondition: `ROUNDS` is even.
pub fn chacha_stream<const ROUNDS: u8>(key: [u8; 32], nonce: [u8; 8]) -> ChaChaStream<ROUNDS>
    requires { ROUNDS % 2 ≡ 0 }
    ensures state { result ≡ buffer_of [] (initial_state key nonce) }
    ensures position { stream_position result ≡ 0 }
{
    Keystream::new_key(key, nonce)
}

/// Creates the stream of this key and nonce, at the first byte of the block at this index, as
/// `Keystream::at_block` does, without the need to import that trait. Precondition: `ROUNDS` is
/// even.
pub fn chacha_stream_at<const ROUNDS: u8>(
    key: [u8; 32],
    nonce: [u8; 8],
    index: u64,
) -> ChaChaStream<ROUNDS>
    requires { ROUNDS % 2 ≡ 0 }
    ensures state { result ≡ buffer_of [] (state_at key nonce index) }
    ensures position { stream_position result ≡ index * 64 }
{
    Keystream::at_block(key, nonce, index)
}

/// Creates the stream of a number, which may be small, at byte 0, as `Keystream::seed_from_u64`
/// does, without the need to import that trait. Precondition: `ROUNDS` is even.
pub fn chacha_stream_from_u64<const ROUNDS: u8>(number: u64) -> ChaChaStream<ROUNDS>
    requires { ROUNDS % 2 ≡ 0 }
    ensures state { result ≡ buffer_of [] (seeded_state (seed_from 40 number)) }
    ensures position { stream_position result ≡ 0 }
{
    let (key, nonce) = split_seed(&seed_from(number));
    chacha_stream(key, nonce)
}

impl<const ROUNDS: u8> Keystream<512> for BufferedRng<ChaChaGroups<ROUNDS>, 512> {
    ghost can_start = { ROUNDS % 2 ≡ 0 };

    ghost at = { λ key nonce index. buffer_of [] (state_at key nonce index) };

    ghost restarted = { stream_start };

    ghost position = { stream_position };

    fn new_key(key: [u8; 32], nonce: [u8; 8]) -> Self
        requires { ROUNDS % 2 ≡ 0 }
        ensures start { result ≡ buffer_of [] (initial_state key nonce) }
        ensures state { result ≡ buffer_of [] (state_at key nonce 0) }
        ensures position { stream_position result ≡ 0 }
    {
        BufferedRng::new(ChaChaGroups::new_key(key, nonce))
    }

    fn at_block(key: [u8; 32], nonce: [u8; 8], index: u64) -> Self
        requires { ROUNDS % 2 ≡ 0 }
        ensures state { result ≡ buffer_of [] (state_at key nonce index) }
        ensures position { stream_position result ≡ index * 64 }
        ensures bytes { (n : ℕ) → let start = buffer_of [] (state_at key nonce 0) in
            let sought = (stream_requests ROUNDS).after start (index * 64) in
            (stream_requests ROUNDS).bytes result n ≡ (stream_requests ROUNDS).bytes sought n }
    {
        BufferedRng::new(ChaChaGroups::at(key, nonce, index))
    }

    fn seek(&mut self, byte: u128)
        ensures state { self.new ≡ (stream_requests ROUNDS).after (stream_start self.old) byte }
        ensures position { stream_position self.new ≡ byte % 2 ^ 70 }
        ensures wraps { (n : ℕ) →
            let sought = (stream_requests ROUNDS).after (stream_start self.old) in
            sought (n + 2 ^ 70) ≡ sought n }
    {
        *self = stream_from(&self.inner().at_index(0), byte);
    }

    fn position(&self) -> u128
        ensures value { result ≡ stream_position self.now }
        ensures moves { (n : ℕ) → let left = (stream_requests ROUNDS).after self.now n in
            stream_position left ≡ (stream_position self.now + n) % 2 ^ 70 }
    {
        let ahead = u128::from(self.inner().counter()) * 64;
        (ahead + (1 << 70) - self.buffered() as u128) % (1 << 70)
    }

    ghost states_join = { stream_states_join ROUNDS };

    ghost bytes_join = { stream_bytes_join ROUNDS };

    ghost stays = { stream_stays ROUNDS };

    ghost restarts = { stream_restarts };

    ghost starts = { stream_starts };
}

/// A draw is eight bytes. The period is 2^67 draws.
impl<const ROUNDS: u8> Parts<512> for BufferedRng<ChaChaGroups<ROUNDS>, 512> {
    ghost period = { 2 ^ 67 };

    fn part(&self, index: u64, draws: u64) -> Result<Self, PastPeriod>
        ensures begins { let outset = part_at (stream_requests ROUNDS) draws index self.now in
            IfOk result (λ part. part ≡ outset) }
        ensures within { IsOk result ↔ ((index + 1) * draws ≤ 2 ^ 67) }
        ensures once { IfOk result (λ _. NothingTwice (2 ^ 67)
            (λ n. after_draws (stream_requests ROUNDS) n self.now)) }
        ensures again { IfOk result (λ _. ComesAgain (2 ^ 67)
            (λ n. after_draws (stream_requests ROUNDS) n self.now)) }
    {
        let bytes = draws_before(index, draws, 1 << 67)? * 8;
        let kept = self.rest();
        let groups = self.inner();
        if bytes <= kept.len() as u128 {
            Ok(stream_with(groups, &kept[bytes as usize..]))
        } else {
            Ok(stream_from(groups, bytes - kept.len() as u128))
        }
    }

    ghost onward = { onward_stream ROUNDS };
}

// Returns a stream that continues with these buffered bytes and then these groups.
fn stream_with<const ROUNDS: u8>(
    groups: &ChaChaGroups<ROUNDS>,
    rest: &[u8],
) -> BufferedRng<ChaChaGroups<ROUNDS>, 512>
    requires { length rest.now < 512 }
    ensures state { result ≡ buffer_of rest.now groups.now }
    ensures matrix { IsMatrix groups.now }
{
    let groups = groups.at_index(groups.counter());
    BufferedRng::with_rest(groups, rest).unwrap()
}

// Returns the stream that begins this many bytes after the start of these groups.
fn stream_from<const ROUNDS: u8>(
    groups: &ChaChaGroups<ROUNDS>,
    bytes: u128,
) -> BufferedRng<ChaChaGroups<ROUNDS>, 512>
    ensures state { result ≡ (stream_requests ROUNDS).after (buffer_of [] groups.now) bytes }
    ensures matrix { IsMatrix groups.now }
{
    let blocks = bytes / 512 % (1 << 61) * 8;
    let index = groups.counter().wrapping_add(blocks as u64);
    let mut stream = BufferedRng::new(groups.at_index(index));
    let mut skipped = [0; 512];
    stream.fill_bytes(&mut skipped[..(bytes % 512) as usize]);
    stream
}
