//! Where programs keep a generator of the kit: the tasks of `contexts`.

use rand::seq::SliceRandom;
use rand::{Rng, RngExt};
use rand_pcg::Pcg64;

#[derive(Drop)]
struct Game {
    rng: Pcg64,
    size: u64,
}

#[inline(never)]
fn words(rng: &mut Pcg64, items: &mut [u64]) {
    for item in items.iter_mut() {
        *item = rng.next_u64();
    }
}

#[inline(never)]
fn below_u32(rng: &mut Pcg64, items: &mut [u64], size: u32) {
    for item in items.iter_mut() {
        if size > 0 {
            *item = u64::from(rng.random_range(0..size));
        }
    }
}

#[inline(never)]
fn below_u64(rng: &mut Pcg64, items: &mut [u64], size: u64) {
    for item in items.iter_mut() {
        if size > 0 {
            *item = rng.random_range(0..size);
        }
    }
}

#[inline(never)]
fn shuffled(rng: &mut Pcg64, items: &mut [u64]) {
    items.shuffle(rng);
}

impl Game {
    #[inline(never)]
    fn words(&mut self, items: &mut [u64]) {
        for item in items.iter_mut() {
            *item = self.rng.next_u64();
        }
    }

    #[inline(never)]
    fn below_u32(&mut self, items: &mut [u64], size: u32) {
        for item in items.iter_mut() {
            if size > 0 {
                *item = u64::from(self.rng.random_range(0..size));
            }
        }
    }

    #[inline(never)]
    fn below_u64(&mut self, items: &mut [u64]) {
        let size = self.size;
        for item in items.iter_mut() {
            if size > 0 {
                *item = self.rng.random_range(0..size);
            }
        }
    }

    #[inline(never)]
    fn shuffled(&mut self, items: &mut [u64]) {
        items.shuffle(&mut self.rng);
    }
}

#[unsafe(no_mangle)]
pub extern "C" fn nanorand_bench_kit_words_by_parameter(seed: u64, items: &mut [u64], times: u32) {
    let mut rng = Pcg64::new(u128::from(seed), 1);
    for _ in 0..times {
        words(&mut rng, items);
    }
}

#[unsafe(no_mangle)]
pub extern "C" fn nanorand_bench_kit_words_by_field(seed: u64, items: &mut [u64], times: u32) {
    let mut game = Game {
        rng: Pcg64::new(u128::from(seed), 1),
        size: 0,
    };
    for _ in 0..times {
        game.words(items);
    }
}

#[unsafe(no_mangle)]
pub extern "C" fn nanorand_bench_kit_below_u32_by_parameter(
    seed: u64,
    items: &mut [u64],
    size: u32,
    times: u32,
) {
    let mut rng = Pcg64::new(u128::from(seed), 1);
    for _ in 0..times {
        below_u32(&mut rng, items, size);
    }
}

#[unsafe(no_mangle)]
pub extern "C" fn nanorand_bench_kit_below_u32_by_field(
    seed: u64,
    items: &mut [u64],
    size: u32,
    times: u32,
) {
    let mut game = Game {
        rng: Pcg64::new(u128::from(seed), 1),
        size: 0,
    };
    for _ in 0..times {
        game.below_u32(items, size);
    }
}

#[unsafe(no_mangle)]
pub extern "C" fn nanorand_bench_kit_below_u64_by_parameter(
    seed: u64,
    items: &mut [u64],
    size: u64,
    times: u32,
) {
    let mut rng = Pcg64::new(u128::from(seed), 1);
    for _ in 0..times {
        below_u64(&mut rng, items, size);
    }
}

#[unsafe(no_mangle)]
pub extern "C" fn nanorand_bench_kit_below_u64_by_field(
    seed: u64,
    items: &mut [u64],
    size: u64,
    times: u32,
) {
    let mut game = Game {
        rng: Pcg64::new(u128::from(seed), 1),
        size: size,
    };
    for _ in 0..times {
        game.below_u64(items);
    }
}

#[unsafe(no_mangle)]
pub extern "C" fn nanorand_bench_kit_shuffle_by_parameter(
    seed: u64,
    items: &mut [u64],
    times: u32,
) {
    let mut rng = Pcg64::new(u128::from(seed), 1);
    for _ in 0..times {
        shuffled(&mut rng, items);
    }
}

#[unsafe(no_mangle)]
pub extern "C" fn nanorand_bench_kit_shuffle_by_field(seed: u64, items: &mut [u64], times: u32) {
    let mut game = Game {
        rng: Pcg64::new(u128::from(seed), 1),
        size: 0,
    };
    for _ in 0..times {
        game.shuffled(items);
    }
}
