//! Ranges and shuffles.

use nanorand::{Rng, WyRand, shuffles};
use std::ops::Bound::{Excluded, Included};

#[unsafe(no_mangle)]
pub extern "C" fn nanorand_bench_range_u8(seed: u64, size: u8, count: u64) -> u64 {
    let mut rng = WyRand::new_seed(seed);
    let mut all = 0u64;
    for _ in 0..count {
        if let Ok(number) = rng.generate_range(Included(0u8), Excluded(size)) {
            all = all.rotate_left(1).wrapping_add(u64::from(number));
        }
    }
    all
}

#[unsafe(no_mangle)]
pub extern "C" fn nanorand_bench_range_u32(seed: u64, size: u32, count: u64) -> u64 {
    let mut rng = WyRand::new_seed(seed);
    let mut all = 0u64;
    for _ in 0..count {
        if let Ok(number) = rng.generate_range(Included(0u32), Excluded(size)) {
            all = all.rotate_left(1).wrapping_add(u64::from(number));
        }
    }
    all
}

#[unsafe(no_mangle)]
pub extern "C" fn nanorand_bench_range_u64(seed: u64, size: u64, count: u64) -> u64 {
    let mut rng = WyRand::new_seed(seed);
    let mut all = 0u64;
    for _ in 0..count {
        if let Ok(number) = rng.generate_range(Included(0u64), Excluded(size)) {
            all = all.rotate_left(1).wrapping_add(number);
        }
    }
    all
}

#[unsafe(no_mangle)]
pub extern "C" fn nanorand_bench_shuffle(seed: u64, items: &mut [u64], times: u32) {
    let mut rng = WyRand::new_seed(seed);
    for _ in 0..times {
        let _ = rng.shuffle(items);
    }
}

#[unsafe(no_mangle)]
pub extern "C" fn nanorand_bench_shuffle_full(seed: u64, items: &mut [u64], times: u32) {
    let mut rng = WyRand::new_seed(seed);
    for _ in 0..times {
        let _ = shuffles::shuffle_full(&mut rng, items);
    }
}
