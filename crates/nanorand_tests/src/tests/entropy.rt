//! The entropy readers, and generators that are made from one, with a reader whose bytes no
//! contract states.

use crate::comparing::{equal, equal_at};
use nanorand::entropy::{EntropyError, backup, rdseed, system};
use nanorand::{ChaCha20, Pcg64, WyRand};
use std::io::ErrorKind;
use std::process::Abort;
use test_support::{ERROR_KINDS, Pieces};

const KEY: [u8; 32] = [
    0x2a, 0, 0, 0, 0, 0, 0, 0, 0, 0, 0, 0, 0, 0, 0, 0, 16, 17, 18, 19, 20, 21, 22, 23, 24, 25, 26,
    27, 28, 29, 30, 31,
];

const NONCE: [u8; 8] = [32, 33, 34, 35, 36, 37, 38, 39];

// The key, the nonce and one more byte.
const BYTES: [u8; 41] = [
    0x2a, 0, 0, 0, 0, 0, 0, 0, 0, 0, 0, 0, 0, 0, 0, 0, 16, 17, 18, 19, 20, 21, 22, 23, 24, 25, 26,
    27, 28, 29, 30, 31, 32, 33, 34, 35, 36, 37, 38, 39, 99,
];

// What is made from the bytes of a reader.
#[derive(Clone, Copy)]
enum Made {
    Slice,
    WyRand,
    Pcg64,
    ChaCha,
}

// Each of them, with the number of bytes that it takes.
const MADE: [(Made, u64); 4] = [
    (Made::Slice, 11),
    (Made::WyRand, 8),
    (Made::Pcg64, 16),
    (Made::ChaCha, 40),
];

fn make(made: Made, source: &mut Pieces<'_>) -> Result<(), EntropyError> {
    match made {
        Made::Slice => system(source, &mut [0; 11]),
        Made::WyRand => WyRand::new(source).map(|_| ()),
        Made::Pcg64 => Pcg64::new(source).map(|_| ()),
        Made::ChaCha => ChaCha20::new(source).map(|_| ()),
    }
}

// Exactly the needed bytes are taken, in pieces of any size. For ChaCha, the key comes first and
// then the nonce.
#[test]
fn the_next_bytes(rt: HostRuntime) {
    for piece in [1, 7, 50] {
        let mut source = Pieces::of(&BYTES, piece);
        let wyrand = WyRand::new(&mut source);
        equal_at(&rt, wyrand, Ok(WyRand::new_seed(0x2a)), piece);
        equal_at(&rt, source.left(), 33, piece);
        let mut source = Pieces::of(&BYTES, piece);
        let pcg64 = Pcg64::new(&mut source);
        equal_at(&rt, pcg64, Ok(Pcg64::new_seed(0x2a)), piece);
        equal_at(&rt, source.left(), 25, piece);
        let mut source = Pieces::of(&BYTES, piece);
        let chacha = ChaCha20::new(&mut source);
        equal_at(&rt, chacha, Ok(ChaCha20::new_key(KEY, NONCE)), piece);
        equal_at(&rt, source.left(), 1, piece);
    }
}

// The call has this outcome after this many reads.
fn ends(
    rt: &impl Abort,
    made: Made,
    mut source: Pieces<'_>,
    outcome: Result<(), EntropyError>,
    reads: u64,
) {
    equal_at(rt, make(made, &mut source), outcome, reads);
    equal_at(rt, source.reads(), reads, reads);
}

// Readers that end after too few bytes, and readers one of whose reads fails, with any kind of
// error including an interruption. Nothing is read after the end, after a failure or after the last
// needed byte, not even with an empty slice.
#[test]
fn too_few_bytes(rt: HostRuntime) {
    for (made, size) in MADE {
        for length in 0..size {
            let reads = length.wrapping_add(1);
            let short = Pieces::of(&BYTES[..length.min(40) as usize], 1);
            ends(&rt, made, short, Err(EntropyError::Short), reads);
            for kind in ERROR_KINDS {
                let failing = Pieces::failing(&BYTES, 1, length, kind);
                ends(&rt, made, failing, Err(EntropyError::Fault), reads);
            }
        }
        let failing = Pieces::failing(&BYTES, 1, size, ErrorKind::Other);
        ends(&rt, made, failing, Ok(()), size);
    }
}

// An empty slice does not read from the reader.
#[test]
fn no_source_and_no_bytes(rt: HostRuntime) {
    let mut out = [9, 9];
    equal(&rt, rdseed(&mut out), None);
    equal(&rt, backup(&mut out), Err(EntropyError::Unavailable));
    equal(&rt, out, [9, 9]);
    equal(&rt, backup(&mut []), Err(EntropyError::Unavailable));
    let mut source = Pieces::failing(&[1], 1, 0, ErrorKind::BrokenPipe);
    equal(&rt, system(&mut source, &mut []), Ok(()));
    equal(&rt, source.reads(), 0);
}
