//! Laws of buffers and replays, for every generator. Each contract states a law. The functions do
//! nothing; a proof calls one to use its law.
ghost use Rattle.std.specs.Prelude.{◌≡◌, ◌<◌, length, sum, ℕ, List, []};
ghost use Rattle.nanorand_core.specs.generators.Blocks.{taken};
ghost use Rattle.nanorand_core.specs.generators.Equality.{DecidesEquality};
ghost use Rattle.nanorand_replay.specs.generators.Buffered.{Buffered, buffer_of, buffered, buffered_after, buffered_taken};
ghost use Rattle.nanorand_replay.specs.replay.Replay.{ReplaysJoin};
ghost use Rattle.nanorand_replay.specs.replay.Unbroken.{IsUnbroken, WordsFollow, taken_all};

use crate::buffer::BufferedRng;
use nanorand_core::{Blocks, Rng};

/// A `BufferedRng` over any generator delivers one unbroken stream, however it is divided into
/// requests (reads of n bytes).
///
/// `unbroken`: two requests in a row take the same bytes and leave the same state as one request
/// for the sum of their sizes, and so does any list of requests. A replay leaves the state that one
/// request for all the bytes of its calls would leave. `stream`: the buffer's own blocks, joined,
/// are the buffered bytes followed by the inner blocks. `below`: if less than a block is buffered,
/// less than a block is buffered after each request. `words`: a word is a random integer of N bits.
/// n words drawn one after another are the bytes of one request for n words: word after word, each
/// in little-endian order.
pub fn unbroken_delivery<G: Rng<OUTPUT>, const OUTPUT: usize>()
    ensures unbroken { IsUnbroken ⟦<BufferedRng<G, OUTPUT> as Rng<OUTPUT>>⟧.requests }
    ensures stream { (b : Buffered G) (n : ℕ) →
        let buffer = ⟦<BufferedRng<G, OUTPUT> as Blocks<OUTPUT>>⟧ in
        taken buffer.block buffer.step b n ≡ buffered_taken G.block G.step OUTPUT b n }
    ensures below { (b : Buffered G) (n : ℕ) → length b.rest < OUTPUT
        → length (buffered_after G.block G.step OUTPUT b n).rest < OUTPUT }
    ensures words { (bits n : ℕ) (b : Buffered G) →
        let requests = buffered G.block G.step OUTPUT in
        WordsFollow requests bits n b }
{}

/// A new `BufferedRng`, whose buffer is empty, delivers the bytes of its inner generator.
///
/// `one`: a request takes the bytes that the same request to the inner generator takes. `all`: the
/// requests of any list take, one after another, the bytes of one request to the inner generator
/// for the sum of their sizes.
pub fn fresh_delivery<G: Rng<OUTPUT>, const OUTPUT: usize>()
    ensures one { (g : G) (n : ℕ) →
        buffered_taken G.block G.step OUTPUT (buffer_of [] g) n ≡ G.requests.bytes g n }
    ensures all { (g : G) (sizes : List ℕ) →
        taken_all (buffered G.block G.step OUTPUT) (buffer_of [] g) sizes
        ≡ G.requests.bytes g (sum sizes) }
{}

/// `==` of two `BufferedRng` is true if and only if their states are equal, provided that this
/// holds for `==` of their inner generators.
pub fn equal_buffers<G: Rng<OUTPUT> + PartialEq, const OUTPUT: usize>()
    ensures { DecidesEquality G.eq
        → DecidesEquality ⟦<BufferedRng<G, OUTPUT> as PartialEq>⟧.eq }
{}

/// Replaying two lists of calls one after the other is the same as replaying their concatenation,
/// for every generator. So a replay that is stopped, stored and resumed gives what the whole replay
/// gives.
pub fn replays_join<G: Rng<OUTPUT>, const OUTPUT: usize>()
    ensures { ReplaysJoin G.requests }
{}
