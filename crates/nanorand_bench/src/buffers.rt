//! Single bytes from a buffered generator.

use nanorand::{BufferedRng, ChaCha20, Rng, WyRand};

#[unsafe(no_mangle)]
pub extern "C" fn nanorand_bench_buffered_wyrand(seed: u64, count: u64) -> u64 {
    let mut rng = BufferedRng::new(WyRand::new_seed(seed));
    let mut all = 0u64;
    for _ in 0..count {
        all = all
            .rotate_left(1)
            .wrapping_add(u64::from(rng.generate::<u8>()));
    }
    all
}

#[unsafe(no_mangle)]
pub extern "C" fn nanorand_bench_buffered_chacha20(seed: u8, count: u64) -> u64 {
    let mut rng = BufferedRng::new(ChaCha20::new_key([seed; 32], [seed; 8]));
    let mut all = 0u64;
    for _ in 0..count {
        all = all
            .rotate_left(1)
            .wrapping_add(u64::from(rng.generate::<u8>()));
    }
    all
}
