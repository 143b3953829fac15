//! Streams of ChaCha that are moved, its rounds undone, and a buffer by default.

use crate::comparing::equal;
use crate::draw_helpers::buffered_bytes;
use nanorand::crypto::chacha::{chacha_rounds, chacha_unrounds};
use nanorand::{BufferedRng, Keystream, chacha_stream, chacha_stream_at};
use test_support::Steps;

// A stream that starts at a block, or is moved to its first byte, delivers what the stream of the
// same key delivers there.
#[test]
fn sought_bytes_are_those_of_the_stream(rt: HostRuntime) {
    let (key, nonce) = ([7; 32], [9; 8]);
    let mut whole = chacha_stream::<8>(key, nonce);
    let _: [u8; 640] = buffered_bytes(&mut whole);
    let expected: [u8; 100] = buffered_bytes(&mut whole);
    let mut sought = chacha_stream_at::<8>(key, nonce, 10);
    equal(&rt, sought.position(), 640);
    equal(&rt, buffered_bytes(&mut sought), expected);
    sought.seek(640);
    equal(&rt, buffered_bytes(&mut sought), expected);
    equal(&rt, sought.position(), 740);
}

#[test]
fn rounds_are_undone(rt: HostRuntime) {
    let matrix = [1, 2, 3, 4, 5, 6, 7, 8, 9, 10, 11, 12, 13, 14, 15, u32::MAX];
    equal(
        &rt,
        chacha_unrounds::<20>(chacha_rounds::<20>(matrix)),
        matrix,
    );
}

#[test]
fn a_default_buffer_has_the_default_generator(rt: HostRuntime) {
    let mut rng = BufferedRng::<Steps, 8>::default();
    equal(&rt, rng.buffered(), 0);
    let bytes: [u8; 5] = buffered_bytes(&mut rng);
    equal(&rt, bytes, [0, 1, 2, 3, 4]);
}
