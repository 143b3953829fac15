//! Where programs keep a generator: behind a `&mut` parameter of a function that is not inlined,
//! and in a field. Each task runs over the items of a slice.

use nanorand::{Rng, WyRand};
use std::ops::Bound::{Excluded, Included};

#[derive(Drop)]
struct Game {
    rng: WyRand,
    size: u64,
}

#[inline(never)]
fn words(rng: &mut WyRand, items: &mut [u64]) {
    for item in items.iter_mut() {
        *item = rng.generate();
    }
}

#[inline(never)]
fn below_u32(rng: &mut WyRand, items: &mut [u64], size: u32) {
    for item in items.iter_mut() {
        if let Ok(number) = rng.generate_range(Included(0u32), Excluded(size)) {
            *item = u64::from(number);
        }
    }
}

#[inline(never)]
fn below_u64(rng: &mut WyRand, items: &mut [u64], size: u64) {
    for item in items.iter_mut() {
        if let Ok(number) = rng.generate_range(Included(0u64), Excluded(size)) {
            *item = number;
        }
    }
}

#[inline(never)]
fn shuffled(rng: &mut WyRand, items: &mut [u64]) {
    let _ = rng.shuffle(items);
}

impl Game {
    #[inline(never)]
    fn words(&mut self, items: &mut [u64]) {
        for item in items.iter_mut() {
            *item = self.rng.generate();
        }
    }

    #[inline(never)]
    fn below_u32(&mut self, items: &mut [u64], size: u32) {
        for item in items.iter_mut() {
            if let Ok(number) = self.rng.generate_range(Included(0u32), Excluded(size)) {
                *item = u64::from(number);
            }
        }
    }

    #[inline(never)]
    fn below_u64(&mut self, items: &mut [u64]) {
        let size = self.size;
        for item in items.iter_mut() {
            if let Ok(number) = self.rng.generate_range(Included(0u64), Excluded(size)) {
                *item = number;
            }
        }
    }

    #[inline(never)]
    fn shuffled(&mut self, items: &mut [u64]) {
        let _ = self.rng.shuffle(items);
    }
}

#[unsafe(no_mangle)]
pub extern "C" fn nanorand_bench_words_by_parameter(seed: u64, items: &mut [u64], times: u32) {
    let mut rng = WyRand::new_seed(seed);
    for _ in 0..times {
        words(&mut rng, items);
    }
}

#[unsafe(no_mangle)]
pub extern "C" fn nanorand_bench_words_by_field(seed: u64, items: &mut [u64], times: u32) {
    let mut game = Game {
        rng: WyRand::new_seed(seed),
        size: 0,
    };
    for _ in 0..times {
        game.words(items);
    }
}

#[unsafe(no_mangle)]
pub extern "C" fn nanorand_bench_below_u32_by_parameter(
    seed: u64,
    items: &mut [u64],
    size: u32,
    times: u32,
) {
    let mut rng = WyRand::new_seed(seed);
    for _ in 0..times {
        below_u32(&mut rng, items, size);
    }
}

#[unsafe(no_mangle)]
pub extern "C" fn nanorand_bench_below_u32_by_field(
    seed: u64,
    items: &mut [u64],
    size: u32,
    times: u32,
) {
    let mut game = Game {
        rng: WyRand::new_seed(seed),
        size: 0,
    };
    for _ in 0..times {
        game.below_u32(items, size);
    }
}

#[unsafe(no_mangle)]
pub extern "C" fn nanorand_bench_below_u64_by_parameter(
    seed: u64,
    items: &mut [u64],
    size: u64,
    times: u32,
) {
    let mut rng = WyRand::new_seed(seed);
    for _ in 0..times {
        below_u64(&mut rng, items, size);
    }
}

#[unsafe(no_mangle)]
pub extern "C" fn nanorand_bench_below_u64_by_field(
    seed: u64,
    items: &mut [u64],
    size: u64,
    times: u32,
) {
    let mut game = Game {
        rng: WyRand::new_seed(seed),
        size: size,
    };
    for _ in 0..times {
        game.below_u64(items);
    }
}

#[unsafe(no_mangle)]
pub extern "C" fn nanorand_bench_shuffle_by_parameter(seed: u64, items: &mut [u64], times: u32) {
    let mut rng = WyRand::new_seed(seed);
    for _ in 0..times {
        shuffled(&mut rng, items);
    }
}

#[unsafe(no_mangle)]
pub extern "C" fn nanorand_bench_shuffle_by_field(seed: u64, items: &mut [u64], times: u32) {
    let mut game = Game {
        rng: WyRand::new_seed(seed),
        size: 0,
    };
    for _ in 0..times {
        game.shuffled(items);
    }
}
