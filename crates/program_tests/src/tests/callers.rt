//! The callers of `nanorand_users`: what no clause states about them.

use crate::comparing::equal;
use nanorand::{ChaCha20, RandomGen, RandomRange, RangeError, Rng, WyRand};
use nanorand_users::callers::card::Card;
use nanorand_users::callers::examples::{byte_after_byte, deal, number, percent, seeded};
use nanorand_users::callers::loops::letters;
use nanorand_users::callers::pick_lines;
use nanorand_users::callers::split_mix::SplitMix64;
use std::ops::Bound;
use std::test::Fail;

// Draws the next value. The provided method of `Rng` is proved only once, here, and not again for
// the type of each generator.
fn value<T: RandomGen<G, OUTPUT>, G: Rng<OUTPUT>, const OUTPUT: usize>(rng: &mut G) -> T {
    rng.generate()
}

// Draws a value between two bounds.
fn between<T: RandomRange<G, OUTPUT>, G: Rng<OUTPUT>, const OUTPUT: usize>(
    rng: &mut G,
    low: Bound<T>,
    high: Bound<T>,
) -> Result<T, RangeError> {
    rng.generate_range(low, high)
}

// A user's own generator and value type.
#[test]
fn of_a_user(rt: HostRuntime) {
    let mut rng = SplitMix64::new(1_234_567);
    equal(&rt, value::<u64, _, 8>(&mut rng), 6_457_827_717_110_365_317);
    let (low, high) = (Card::new(1, 0), Card::new(2, 0));
    let card = between(&mut rng, Bound::Included(low), Bound::Excluded(high));
    equal(&rt, card.map(|card| card.suit()), Ok(1));
}

// The examples of the README, and a loop.
#[test]
fn examples(rt: HostRuntime) -> Result<(), Fail> {
    equal(&rt, number(42), 6_327_169_416_285_365_978);
    let mut source = [0xd2u8, 0x9b, 0x42, 0x87, 0x9b, 0xe2, 0x89, 0x5f].as_slice();
    let mut wyrand = seeded(&mut source).or(Err("short"))?;
    equal(&rt, percent(&mut wyrand).is_ok(), true);
    let mut bytes = [0; 8];
    byte_after_byte(42, &mut bytes);
    equal(&rt, bytes, [218, 166, 103, 179, 15, 159, 206, 87]);
    let mut deck = [1, 2, 3];
    equal(&rt, deal(&mut wyrand, &mut deck), Ok(()));
    let mut token = [0; 16];
    equal(
        &rt,
        letters(&mut ChaCha20::new_key([7; 32], [9; 8]), b"abc", &mut token),
        Ok(()),
    );
    Ok(())
}

// The lines of a log: item 17 of the sample is line 17 of the log.
#[test]
fn lines_of_a_log(rt: HostRuntime) {
    let log = "0\n1\n2\n3\n4\n5\n6\n7\n8\n9\n10\n11\n12\n13\n14\n15\n16\n17\n18\n19\n";
    let mut lines = ["none"; 5];
    equal(
        &rt,
        pick_lines(&mut WyRand::new_seed(7), log, &mut lines),
        Ok(5),
    );
    equal(&rt, lines, ["0", "17", "8", "7", "4"]);
}
