//! Single words and blocks.
ghost use Rattle.std.specs.Prelude.{◌+◌, ◌≤◌};

use nanorand::{Blocks, ChaCha8, ChaCha12, ChaCha20, Pcg64, Rng, WyRand};

#[unsafe(no_mangle)]
pub extern "C" fn nanorand_bench_wyrand_u64(seed: u64, count: u64) -> u64 {
    let mut rng = WyRand::new_seed(seed);
    let mut all = 0u64;
    for _ in 0..count {
        all = all.rotate_left(1).wrapping_add(rng.generate::<u64>());
    }
    all
}

#[unsafe(no_mangle)]
pub extern "C" fn nanorand_bench_pcg64_u64(seed: u64, count: u64) -> u64 {
    let mut rng = Pcg64::new_seed(u128::from(seed));
    let mut all = 0u64;
    for _ in 0..count {
        all = all.rotate_left(1).wrapping_add(rng.generate::<u64>());
    }
    all
}

#[unsafe(no_mangle)]
pub extern "C" fn nanorand_bench_chacha8_blocks(seed: u8, count: u64) -> u64 {
    let mut rng = ChaCha8::new_key([seed; 32], [seed; 8]);
    let mut all = 0u64;
    for _ in 0..count {
        all = all.rotate_left(1).wrapping_add(mixed(&rng.rand()));
    }
    all
}

#[unsafe(no_mangle)]
pub extern "C" fn nanorand_bench_chacha12_blocks(seed: u8, count: u64) -> u64 {
    let mut rng = ChaCha12::new_key([seed; 32], [seed; 8]);
    let mut all = 0u64;
    for _ in 0..count {
        all = all.rotate_left(1).wrapping_add(mixed(&rng.rand()));
    }
    all
}

#[unsafe(no_mangle)]
pub extern "C" fn nanorand_bench_chacha20_blocks(seed: u8, count: u64) -> u64 {
    let mut rng = ChaCha20::new_key([seed; 32], [seed; 8]);
    let mut all = 0u64;
    for _ in 0..count {
        all = all.rotate_left(1).wrapping_add(mixed(&rng.rand()));
    }
    all
}

/// Mixes the eight 64-bit words of a block into one word, so that none is left unused.
pub fn mixed(block: &[u8; 64]) -> u64 {
    let mut all = 0u64;
    for i in 0..8 {
        all = all.rotate_left(1).wrapping_add(u64_at(block, 8 * i));
    }
    all
}

// Returns the eight bytes from index `at` on, in little-endian order.
fn u64_at(block: &[u8; 64], at: usize) -> u64
    requires { at + 8 ≤ 64 }
{
    u64::from_le_bytes([
        block[at],
        block[at + 1],
        block[at + 2],
        block[at + 3],
        block[at + 4],
        block[at + 5],
        block[at + 6],
        block[at + 7],
    ])
}
