//! What no clause states: the values of other implementations. The numbers of the library are those
//! that `tests/answers/definitions.py` computes. The bytes of the kit's ChaCha20 are the published
//! keystream of the zero key. The words of its Pcg64 are those in the tests of the Rust crate.
use crate::comparing::equal;
use nanorand::replay::{Answer, Call, Kind, Span};
use nanorand::{Blocks, ChaCha20, ChaCha20Stream, Pcg64, Rng, WyRand, chacha_stream};
use nanorand_rand::{ChaChaSeed, Core, FromCore32, FromCore64};
use nanorand_rand_users::kit_draws::{drawn_by_chacha, drawn_by_wyrand, place, server, ticket};
use nanorand_rand_users::our_draws::{answers_of, deal, kits_number, roll};
use rand_chacha::ChaCha20Rng;
use rand_core::{Rng as CoreRng, Seed, SeedableRng};
use std::ops::Bound;
use std::test::Fail;

// Each call of `rand_core` is one request, here of 8, 4, 3 and 8 bytes.
#[test]
fn calls_are_requests(rt: HostRuntime) {
    let mut rng = Core(WyRand::seed_from_u64(42));
    equal(&rt, ticket(&mut rng), 6_327_169_416_285_365_978);
    equal(&rt, CoreRng::next_u32(&mut rng), 1_198_899_576);
    let mut bytes = [0; 3];
    CoreRng::fill_bytes(&mut rng, &mut bytes);
    equal(&rt, bytes, [76, 68, 154]);
    equal(&rt, CoreRng::next_u64(&mut rng), 924_416_832_212_057_682);
}

// A throw, a tile and a place from one seed, twice.
#[test]
fn one_number_one_game(rt: HostRuntime) {
    for _ in 0..2 {
        equal(&rt, drawn_by_wyrand(rt.alloc(), 42), Ok((5, 0, Some(3))));
        equal(&rt, drawn_by_chacha(rt.alloc(), 42), Ok((6, 0, Some(2))));
    }
    let mut rng = Core(WyRand::seed_from_u64(42));
    equal(&rt, place(&mut rng, 0), None);
    equal(&rt, server(&mut rng, &[]), None);
    equal(&rt, server(&mut rng, &[7]), Some(&7));
}

#[test]
fn seeds(rt: HostRuntime) {
    let wyrand: Core<WyRand, 8> = SeedableRng::from_seed(42u64.to_le_bytes());
    equal(&rt, wyrand, Core(WyRand::new_seed(42)));
    let wyrand: Core<WyRand, 8> = SeedableRng::seed_from_u64(42);
    equal(&rt, wyrand, Core(WyRand::seed_from_u64(42)));
    let pcg64: Core<Pcg64, 8> = SeedableRng::from_seed(42u128.to_le_bytes());
    equal(&rt, pcg64, Core(Pcg64::new_seed(42)));
    let mut bytes = [7; 40];
    bytes[32..].copy_from_slice(&[9; 8]);
    let chacha: Core<ChaCha20, 64> = SeedableRng::from_seed(ChaChaSeed(bytes));
    equal(&rt, chacha, Core(ChaCha20::new_key([7; 32], [9; 8])));
    let stream: Core<ChaCha20Stream, 512> = SeedableRng::from_seed(ChaChaSeed(bytes));
    equal(&rt, stream == Core(chacha_stream([7; 32], [9; 8])), true);
}

// The bytes to which the kit expands the number 0 for a seed of 8 bytes, and those that a generator
// fills a seed with.
#[test]
fn seeds_of_forty_bytes(rt: HostRuntime) {
    let seed: ChaChaSeed = Seed::from_u64(0);
    let first = [236, 242, 115, 249, 129, 181, 205, 69];
    equal(&rt, seed.0.as_slice().starts_with(&first), true);
    let mut source = ChaCha20Rng::from_seed([0; 32]);
    let seed: ChaChaSeed = Seed::from_rng(&mut source);
    equal(
        &rt,
        seed.0.as_slice().starts_with(&[0x76, 0xb8, 0xe0, 0xad]),
        true,
    );
}

// Requests of 8, 4, 3 and 8 bytes take 2, 1, 1 and 2 words.
#[test]
fn requests_are_calls(rt: HostRuntime) {
    let mut ours = FromCore32(ChaCha20Rng::from_seed([0; 32]));
    equal(
        &rt,
        ours.rand(),
        [0x76, 0xb8, 0xe0, 0xad, 0xa0, 0xf1, 0x3d, 0x90],
    );
    equal(&rt, ours.generate::<u32>(), 3_848_953_152);
    let mut bytes = [0; 3];
    Rng::fill_bytes(&mut ours, &mut bytes);
    equal(&rt, bytes, [83, 134, 189]);
    equal(&rt, ours.generate::<u64>(), 1_940_362_735_889_535_677);
    let mut kits = ChaCha20Rng::from_seed([0; 32]);
    kits.next_u64();
    kits.next_u32();
    kits.next_u32();
    kits.next_u64();
    equal(&rt, ours.0, kits);
}

#[test]
fn words_of_64_bits(rt: HostRuntime) -> Result<(), Fail> {
    let mut ours = FromCore64(rand_pcg::Pcg64::new(42, 54));
    let mut copy = ours.clone()?;
    equal(&rt, ours.generate::<u64>(), 0x86b1_da1d_7206_2b68);
    equal(&rt, ours.rand(), 0x1304_aa46_c985_3d39u64.to_le_bytes());
    equal(&rt, copy.generate::<u32>(), 0x7206_2b68);
    Ok(())
}

#[test]
fn over_the_kits_words(rt: HostRuntime) -> Result<(), Fail> {
    let mut rng = FromCore32(ChaCha20Rng::from_seed([0; 32]));
    let mut deck = [1, 2, 3, 4, 5, 6, 7, 8];
    equal(&rt, deal(&mut rng, &mut deck), Ok(()));
    equal(&rt, deck, [5, 3, 2, 7, 4, 6, 1, 8]);
    let mut rng = FromCore32(ChaCha20Rng::from_seed([0; 32]));
    let die = Span::U8(Bound::Included(1), Bound::Included(6));
    let mut answers = [Answer::Empty; 2];
    answers_of(
        &mut rng,
        &[Call::Gen(Kind::U64), Call::Range(die)],
        &mut answers,
    );
    let wanted = [
        Answer::Unsigned(10_393_729_187_455_219_830),
        Answer::Unsigned(2),
    ];
    equal(&rt, answers, wanted);
    let mut rng = FromCore32(ChaCha20Rng::from_seed([0; 32]));
    equal(&rt, roll(&mut rng), Ok(3));
    let mut rng = FromCore32(ChaCha20Rng::from_seed([0; 32]));
    equal(&rt, kits_number(&mut rng), 10_393_729_187_455_219_830);
    Ok(())
}
