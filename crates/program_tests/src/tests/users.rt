//! The programs of `nanorand_users`, each run once.
ghost use Rattle.std.specs.Prelude.{nat_lt};

use crate::comparing::{equal, equal_at};
use nanorand::replay::{Answer, Call, Kind, Span};
use nanorand::{ChaCha20, Pcg64, WyRand};
use nanorand_users::cases::{Property, check_again, failing_value, failure_again, first_failure};
use nanorand_users::choice::server_for;
use nanorand_users::deals::{deal_again, hand, rest, shuffle_and_store, shuffle_deck, store_deck};
use nanorand_users::retry::schedule;
use nanorand_users::simulation::{replay_copy, replay_in_two, replay_seed};
use nanorand_users::streams::part;
use std::ops::Bound;
use std::test::Fail;

// The property that a byte is below a limit.
#[derive(Drop)]
struct Below(u8);

impl Property<u8> for Below {
    ghost holds = { λ limit value. nat_lt value limit.0 };

    fn check(&self, value: &u8) -> bool {
        *value < self.0
    }
}

#[test]
fn cases(rt: HostRuntime) {
    let property = Below(250);
    equal(&rt, first_failure(&property, 1, 1000), Some(37));
    equal(&rt, failing_value(&property, 1, 1000), Some((37, 0xfc)));
    equal(&rt, failure_again(&property, 1, 1000), Some(false));
    equal(&rt, failing_value(&property, 42, 60), None);
    equal(&rt, check_again(&property, 1, 36), true);
}

#[test]
fn servers(rt: HostRuntime) {
    let addresses = [10, 11, 12, 13];
    let mut rng = WyRand::new_seed(42);
    for address in [13, 13, 13, 13, 12, 13, 10, 10] {
        let server = server_for(&mut rng, &addresses, &[5, 0, 1, 10]);
        equal(&rt, server, Ok(address));
    }
}

#[test]
fn hands(rt: HostRuntime) {
    let mut deck = [0; 10];
    let outcome = shuffle_deck(&mut WyRand::new_seed(42), &mut deck);
    equal(&rt, outcome, Ok(()));
    equal(&rt, hand(&deck, 4, 1), [0, 3, 4, 7].as_slice());
    equal(&rt, rest(&deck, 4, 2), [5, 2].as_slice());
}

#[test]
fn stored_deck(rt: HostRuntime) {
    let mut deck = [0; 10];
    let mut choices = [0; 10];
    let outcome = shuffle_and_store(&mut WyRand::new_seed(42), &mut deck, &mut choices);
    equal(&rt, outcome, Ok(()));
    equal(&rt, choices, [6, 9, 8, 9, 6, 9, 6, 7, 9, 9]);
    let mut again = [0; 10];
    deal_again(&choices, &mut again);
    equal(&rt, again, [6, 9, 8, 1, 0, 3, 4, 7, 5, 2]);
    equal(&rt, deck, again);
}

#[test]
fn stored_afterwards(rt: HostRuntime) {
    let mut deck = [0; 10];
    let outcome = shuffle_deck(&mut WyRand::new_seed(42), &mut deck);
    equal(&rt, outcome, Ok(()));
    let mut choices = [0; 10];
    store_deck(&deck, &mut choices, &mut [0; 10]);
    equal(&rt, choices, [6, 9, 8, 9, 6, 9, 6, 7, 9, 9]);
}

#[test]
fn delays(rt: HostRuntime) {
    let mut delays = [0; 8];
    schedule(&mut WyRand::new_seed(7), 100, 1500, &mut delays);
    equal(&rt, delays, [95, 186, 277, 498, 1316, 839, 1157, 1069]);
}

// A 64-bit value, a number from a small range of bytes, a shuffle and a truth value.
const CALLS: [Call; 4] = [
    Call::Gen(Kind::U64),
    Call::Range(Span::U8(Bound::Included(10), Bound::Included(12))),
    Call::Shuffle,
    Call::Gen(Kind::Bool),
];

const ANSWERS: [Answer; 4] = [
    Answer::Unsigned(12558987674375533620),
    Answer::Unsigned(12),
    Answer::Shuffled,
    Answer::Truth(true),
];

#[test]
fn runs_of_a_seed(rt: HostRuntime) {
    let mut items = [7, 8, 9];
    let mut others = [7, 8, 9];
    let mut first = [Answer::Empty; 4];
    let mut second = [Answer::Empty; 4];
    replay_seed(42, &CALLS, &mut items, &mut others, &mut first, &mut second);
    equal(&rt, [items, others], [[9, 7, 8]; 2]);
    equal(&rt, [first, second], [ANSWERS; 2]);
}

#[test]
fn run_of_a_copy(rt: HostRuntime) -> Result<(), Fail> {
    let mut rng = WyRand::new_seed(42);
    let mut items = [7, 8, 9];
    let mut others = [7, 8, 9];
    let mut first = [Answer::Empty; 4];
    let mut second = [Answer::Empty; 4];
    let copy = replay_copy(
        &mut rng,
        &CALLS,
        &mut items,
        &mut others,
        &mut first,
        &mut second,
    )?;
    equal(&rt, [items, others], [[9, 7, 8]; 2]);
    equal(&rt, [first, second], [ANSWERS; 2]);
    equal(&rt, copy.seed(), rng.seed());
    Ok(())
}

#[test]
fn stopped_run(rt: HostRuntime) {
    for place in 0..5 {
        let mut rng = WyRand::new_seed(42);
        let mut items = [7, 8, 9];
        let mut answers = [Answer::Empty; 4];
        replay_in_two(&mut rng, &CALLS, place, &mut items, &mut answers);
        equal_at(&rt, answers, ANSWERS, &place);
        equal_at(&rt, items, [9, 7, 8], &place);
    }
}

// The number of a worker, and its two words from `WyRand` and `Pcg64` with the seed 0, and from
// ChaCha20 with a zero key and nonce.
const PARTS: [(u64, [u64; 2], [u64; 2], [u64; 2]); 2] = [
    (
        1,
        [0x61fb51318f47d2a4, 0x78bd03c491909760],
        [0x35f5d616be12c0da, 0x893a4281b9106394],
        [0xe16c2663e6a0092d, 0x6b56b3d758a02013],
    ),
    (
        2,
        [0x7c003d7fb14820de, 0x8769964729356b1f],
        [0x510723d5e7b12ba9, 0x3fbd558c6a5cf165],
        [0xadc5472b7488a6e5, 0x4645509ca32510e0],
    ),
];

#[test]
fn parts(rt: HostRuntime) {
    for (worker, of_wyrand, of_pcg64, of_chacha) in PARTS {
        let mut words = [0; 2];
        let _ = part(&WyRand::new_seed(0), worker, &mut words);
        equal_at(&rt, words, of_wyrand, &worker);
        let _ = part(&Pcg64::new_seed(0), worker, &mut words);
        equal_at(&rt, words, of_pcg64, &worker);
        let _ = part(&ChaCha20::new_key([0; 32], [0; 8]), worker, &mut words);
        equal_at(&rt, words, of_chacha, &worker);
    }
}
