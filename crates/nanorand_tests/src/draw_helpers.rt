//! Draws of a buffer by the provided methods of `Rng`, as functions of its generator. A provided
//! method is then proved only once, here. Otherwise it would be proved for the type of each
//! generator, which takes many times as long.

use nanorand::{BufferedRng, Rng};

/// Draws the next bytes of a buffer, by one request. The parameter is the inner generator, so that
/// the type of a call names only that, and not all that is proved for the buffer around it.
pub fn buffered_bytes<const N: usize, G: Rng<OUTPUT>, const OUTPUT: usize>(
    rng: &mut BufferedRng<G, OUTPUT>,
) -> [u8; N] {
    let mut bytes = [0; N];
    rng.fill_bytes(&mut bytes);
    bytes
}

/// Draws the next byte of a buffer.
pub fn buffered_byte<G: Rng<OUTPUT>, const OUTPUT: usize>(rng: &mut BufferedRng<G, OUTPUT>) -> u8 {
    rng.generate()
}
