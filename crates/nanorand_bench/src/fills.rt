//! Repeated fills of a slice from one generator.

use nanorand::{BufferedRng, ChaCha20, Pcg64, Rng, WyRand};

#[unsafe(no_mangle)]
pub extern "C" fn nanorand_bench_wyrand_fill(seed: u64, out: &mut [u8], times: u32) {
    let mut rng = WyRand::new_seed(seed);
    for _ in 0..times {
        rng.fill_bytes(out);
    }
}

#[unsafe(no_mangle)]
pub extern "C" fn nanorand_bench_pcg64_fill(seed: u64, out: &mut [u8], times: u32) {
    let mut rng = Pcg64::new_seed(u128::from(seed));
    for _ in 0..times {
        rng.fill_bytes(out);
    }
}

#[unsafe(no_mangle)]
pub extern "C" fn nanorand_bench_chacha20_fill(seed: u8, out: &mut [u8], times: u32) {
    let mut rng = ChaCha20::new_key([seed; 32], [seed; 8]);
    for _ in 0..times {
        rng.fill_bytes(out);
    }
}

#[unsafe(no_mangle)]
pub extern "C" fn nanorand_bench_buffered_chacha20_fill(seed: u8, out: &mut [u8], times: u32) {
    let mut rng = BufferedRng::new(ChaCha20::new_key([seed; 32], [seed; 8]));
    for _ in 0..times {
        rng.fill_bytes(out);
    }
}
