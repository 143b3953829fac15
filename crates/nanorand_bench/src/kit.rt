//! The same tasks with the kit's `rand`, `rand_pcg` and `rand_chacha`. Ranges and shuffles draw
//! from its `Pcg64`.

use crate::words::mixed;
use rand::seq::{IndexedRandom, SliceRandom};
use rand::{Rng, RngExt, SeedableRng};
use rand_chacha::{ChaCha8Rng, ChaCha12Rng, ChaCha20Rng};
use rand_pcg::Pcg64;

#[unsafe(no_mangle)]
pub extern "C" fn nanorand_bench_kit_pcg64_u64(seed: u64, count: u64) -> u64 {
    let mut rng = Pcg64::new(u128::from(seed), 1);
    let mut all = 0u64;
    for _ in 0..count {
        all = all.rotate_left(1).wrapping_add(rng.next_u64());
    }
    all
}

#[unsafe(no_mangle)]
pub extern "C" fn nanorand_bench_kit_pcg64_u8(seed: u64, count: u64) -> u64 {
    let mut rng = Pcg64::new(u128::from(seed), 1);
    let mut all = 0u64;
    for _ in 0..count {
        all = all
            .rotate_left(1)
            .wrapping_add(u64::from(rng.random::<u8>()));
    }
    all
}

#[unsafe(no_mangle)]
pub extern "C" fn nanorand_bench_kit_chacha20_u8(seed: u8, count: u64) -> u64 {
    let mut rng = ChaCha20Rng::from_seed([seed; 32]);
    let mut all = 0u64;
    for _ in 0..count {
        all = all
            .rotate_left(1)
            .wrapping_add(u64::from(rng.random::<u8>()));
    }
    all
}

#[unsafe(no_mangle)]
pub extern "C" fn nanorand_bench_kit_chacha8_blocks(seed: u8, count: u64) -> u64 {
    let mut rng = ChaCha8Rng::from_seed([seed; 32]);
    let mut all = 0u64;
    let mut block = [0; 64];
    for _ in 0..count {
        rng.fill_bytes(&mut block);
        all = all.rotate_left(1).wrapping_add(mixed(&block));
    }
    all
}

#[unsafe(no_mangle)]
pub extern "C" fn nanorand_bench_kit_chacha12_blocks(seed: u8, count: u64) -> u64 {
    let mut rng = ChaCha12Rng::from_seed([seed; 32]);
    let mut all = 0u64;
    let mut block = [0; 64];
    for _ in 0..count {
        rng.fill_bytes(&mut block);
        all = all.rotate_left(1).wrapping_add(mixed(&block));
    }
    all
}

#[unsafe(no_mangle)]
pub extern "C" fn nanorand_bench_kit_chacha20_blocks(seed: u8, count: u64) -> u64 {
    let mut rng = ChaCha20Rng::from_seed([seed; 32]);
    let mut all = 0u64;
    let mut block = [0; 64];
    for _ in 0..count {
        rng.fill_bytes(&mut block);
        all = all.rotate_left(1).wrapping_add(mixed(&block));
    }
    all
}

#[unsafe(no_mangle)]
pub extern "C" fn nanorand_bench_kit_pcg64_fill(seed: u64, out: &mut [u8], times: u32) {
    let mut rng = Pcg64::new(u128::from(seed), 1);
    for _ in 0..times {
        rng.fill_bytes(out);
    }
}

#[unsafe(no_mangle)]
pub extern "C" fn nanorand_bench_kit_chacha20_fill(seed: u8, out: &mut [u8], times: u32) {
    let mut rng = ChaCha20Rng::from_seed([seed; 32]);
    for _ in 0..times {
        rng.fill_bytes(out);
    }
}

#[unsafe(no_mangle)]
pub extern "C" fn nanorand_bench_kit_range_u8(seed: u64, size: u8, count: u64) -> u64 {
    let mut rng = Pcg64::new(u128::from(seed), 1);
    let mut all = 0u64;
    for _ in 0..count {
        if size > 0 {
            all = all
                .rotate_left(1)
                .wrapping_add(u64::from(rng.random_range(0..size)));
        }
    }
    all
}

#[unsafe(no_mangle)]
pub extern "C" fn nanorand_bench_kit_range_u32(seed: u64, size: u32, count: u64) -> u64 {
    let mut rng = Pcg64::new(u128::from(seed), 1);
    let mut all = 0u64;
    for _ in 0..count {
        if size > 0 {
            all = all
                .rotate_left(1)
                .wrapping_add(u64::from(rng.random_range(0..size)));
        }
    }
    all
}

#[unsafe(no_mangle)]
pub extern "C" fn nanorand_bench_kit_range_u64(seed: u64, size: u64, count: u64) -> u64 {
    let mut rng = Pcg64::new(u128::from(seed), 1);
    let mut all = 0u64;
    for _ in 0..count {
        if size > 0 {
            all = all.rotate_left(1).wrapping_add(rng.random_range(0..size));
        }
    }
    all
}

#[unsafe(no_mangle)]
pub extern "C" fn nanorand_bench_kit_shuffle(seed: u64, items: &mut [u64], times: u32) {
    let mut rng = Pcg64::new(u128::from(seed), 1);
    for _ in 0..times {
        items.shuffle(&mut rng);
    }
}

#[unsafe(no_mangle)]
pub extern "C" fn nanorand_bench_kit_choose(seed: u64, items: &mut [u64], count: u64) -> u64 {
    let mut rng = Pcg64::new(u128::from(seed), 1);
    let items: &[u64] = items;
    let mut all = 0u64;
    for _ in 0..count {
        if let Some(item) = items.choose(&mut rng) {
            all = all.rotate_left(1).wrapping_add(*item);
        }
    }
    all
}

#[unsafe(no_mangle)]
pub extern "C" fn nanorand_bench_kit_partial_shuffle(
    seed: u64,
    items: &mut [u64],
    steps: usize,
    times: u32,
) {
    let mut rng = Pcg64::new(u128::from(seed), 1);
    for _ in 0..times {
        items.partial_shuffle(&mut rng, steps);
    }
}

#[unsafe(no_mangle)]
pub extern "C" fn nanorand_bench_kit_pcg64_jump(seed: u64, count: u64) -> u64 {
    let mut rng = Pcg64::new(u128::from(seed), 1);
    let mut all = 0u64;
    for _ in 0..count {
        let high = u128::from(rng.next_u64()) << 64;
        let draws = high + u128::from(rng.next_u64());
        rng.advance(draws);
        all = all.rotate_left(1).wrapping_add(rng.next_u64());
    }
    all
}
