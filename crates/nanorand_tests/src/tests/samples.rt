//! A sample without a table, with one, and extended.

use crate::comparing::equal;
use nanorand::WyRand;
use nanorand::samples::{extend_sample, sample, sample_with};

// The first numbers of the seed 42, as users of `nanorand` see them in every language.
const KNOWN: [usize; 4] = [341, 812, 641, 50];

#[test]
fn of_a_thousand(rt: HostRuntime) {
    let (mut plain, mut with, mut extended) = ([0; 4], [0; 4], [0; 4]);
    equal(
        &rt,
        sample(&mut WyRand::seed_from_u64(42), 1000, &mut plain),
        Ok(()),
    );
    equal(&rt, plain, KNOWN);
    let mut rng = WyRand::seed_from_u64(42);
    equal(
        &rt,
        sample_with(&mut rng, 1000, &mut with, &mut [7; 12]),
        Ok(()),
    );
    equal(&rt, with, KNOWN);
    let mut rng = WyRand::seed_from_u64(42);
    equal(
        &rt,
        extend_sample(&mut rng, 1000, &mut extended, 0, &mut [7; 12]),
        Ok(()),
    );
    equal(&rt, extended, KNOWN);
}
