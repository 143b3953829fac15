//! A generator of numbered streams, whose clone is another stream.
ghost use Rattle.std.specs.Prelude.{◌≡◌, ◌<◌, refl, length, OnOk, IfOk, IsOk};
ghost use Rattle.std.proofs.Common.{rules};
ghost use Rattle.nanorand_core.specs.generators.Blocks.{plain};
ghost use Rattle.nanorand_replay.specs.generators.Buffered.{buffer_of, buffered_taken};
ghost use Rattle.test_support.specs.Forking.{forked, forking_block, forking_step};

use nanorand::rand::fill_by_blocks;
use nanorand::{Blocks, BufferedRng, Rng};
use std::alloc::AllocError;

/// A generator whose blocks hold, alternating, the number of the stream and the number of the block
/// modulo 256.
///
/// A clone does not equal its original: it is the next stream, at the same block. After stream 255
/// there is no next stream, and `clone` fails.
#[derive(Drop)]
pub struct Forking {
    pub stream: u8,
    pub drawn: u64,
}

impl Forking {
    /// Creates a new generator of this stream.
    pub fn new(stream: u8) -> Self
        ensures { result ≡ record { stream = stream; drawn = 0 } }
    {
        Forking { stream, drawn: 0 }
    }
}

impl Clone for Forking {
    ghost is_clone = { λ g c. c ≡ forked g };

    ghost is_infallible = { λ g. g.stream < 255 };

    fn clone(&self) -> Result<Self, AllocError> {
        let next = self.stream.checked_add(1).ok_or(AllocError)?;
        Ok(Forking {
            stream: next,
            drawn: self.drawn,
        })
    }
}

impl Blocks<8> for Forking {
    ghost block = { forking_block };

    ghost step = { forking_step };

    fn rand(&mut self) -> [u8; 8] {
        let stream = self.stream;
        let count = (self.drawn % 256) as u8;
        self.drawn = self.drawn.wrapping_add(1);
        [stream, count, stream, count, stream, count, stream, count]
    }

    ghost positive = { Prim.search rules };

    ghost in_memory = { Prim.search rules };

    ghost block_length = { λ _. refl };
}

impl Rng<8> for Forking {
    ghost requests = { plain forking_block forking_step 8 };

    fn fill_bytes(&mut self, buffer: &mut [u8]) {
        fill_by_blocks(self, buffer)
    }

    ghost delivers = { λ _ _. refl };

    ghost after_nothing = { λ _. refl };

    ghost after_block = { λ _. refl };
}

/// Returns the parts of a clone of a buffer: the number of its buffered bytes, which is the
/// original's, and its inner generator, which is a clone of the original's.
pub fn parts_of_clone<G: Rng<OUTPUT> + Drop, const OUTPUT: usize>(
    rng: &BufferedRng<G, OUTPUT>,
) -> Result<(usize, G), AllocError>
    ensures buffered { IfOk result (λ parts. parts.0 ≡ length rng.now.rest) }
    ensures inner { IfOk result (λ parts. G.is_clone rng.now.inner parts.1) }
    ensures cause { G.is_infallible rng.now.inner → IsOk result }
{
    let copy = rng.clone()?;
    let buffered = copy.buffered();
    Ok((buffered, copy.into_inner()))
}

/// Fills the slice from a clone of the buffer: first with the buffered bytes, then with those of
/// the next stream. Fails if the inner generator is stream 255.
pub fn fill_from_clone(rng: &BufferedRng<Forking, 8>, out: &mut [u8]) -> Result<(), AllocError>
    ensures bytes { OnOk result (out.new ≡ buffered_taken forking_block forking_step 8
        (buffer_of rng.now.rest (forked rng.now.inner)) (length out.old)) }
    ensures cause { rng.now.inner.stream < 255 → IsOk result }
{
    let mut copy = rng.clone()?;
    copy.fill_bytes(out);
    Ok(())
}
