//! Jumps and distances.

use nanorand::{Pcg64, Rng};

// Jumps by random 128-bit numbers, each drawn after the jump before it.
#[unsafe(no_mangle)]
pub extern "C" fn nanorand_bench_pcg64_jump(seed: u64, count: u64) -> u64 {
    let mut rng = Pcg64::new_seed(u128::from(seed));
    let mut all = 0u64;
    for _ in 0..count {
        let high = u128::from(rng.generate::<u64>()) << 64;
        let draws = high + u128::from(rng.generate::<u64>());
        rng.jump(draws);
        all = all.rotate_left(1).wrapping_add(rng.generate::<u64>());
    }
    all
}

// Distances to one seed far ahead, each from one draw further on.
#[unsafe(no_mangle)]
pub extern "C" fn nanorand_bench_pcg64_distance(seed: u64, count: u64) -> u64 {
    let mut rng = Pcg64::new_seed(u128::from(seed));
    let mut far = Pcg64::new_seed(u128::from(seed));
    far.jump(u128::MAX / 5);
    let mut all = 0u64;
    for _ in 0..count {
        let draws = rng.distance(&far).unwrap_or(0);
        all = all.rotate_left(1).wrapping_add((draws % (1 << 64)) as u64);
        rng.generate::<u64>();
    }
    all
}
