//! Choices, samples and partial shuffles.

use nanorand::{WyRand, choices, samples, shuffles};

#[unsafe(no_mangle)]
pub extern "C" fn nanorand_bench_choose(seed: u64, items: &mut [u64], count: u64) -> u64 {
    let mut rng = WyRand::new_seed(seed);
    let mut all = 0u64;
    for _ in 0..count {
        if let Ok(item) = choices::choose(&mut rng, items) {
            all = all.rotate_left(1).wrapping_add(*item);
        }
    }
    all
}

#[unsafe(no_mangle)]
pub extern "C" fn nanorand_bench_choose_weighted(
    seed: u64,
    weights: &mut [u64],
    count: u64,
) -> u64 {
    let mut rng = WyRand::new_seed(seed);
    let mut all = 0u64;
    for _ in 0..count {
        if let Ok(place) = choices::choose_weighted(&mut rng, weights) {
            all = all.rotate_left(1).wrapping_add(place as u64);
        }
    }
    all
}

#[unsafe(no_mangle)]
pub extern "C" fn nanorand_bench_sample(seed: u64, places: &mut [usize], count: usize, times: u32) {
    let mut rng = WyRand::new_seed(seed);
    if places.len() <= count {
        for _ in 0..times {
            let _ = samples::sample(&mut rng, count, places);
        }
    }
}

#[unsafe(no_mangle)]
pub extern "C" fn nanorand_bench_partial_shuffle(
    seed: u64,
    items: &mut [u64],
    steps: usize,
    times: u32,
) {
    let mut rng = WyRand::new_seed(seed);
    for _ in 0..times {
        let _ = shuffles::partial_shuffle(&mut rng, items, steps);
    }
}
