//! Laws of the generators, in addition to those of every generator. Each contract states a
//! law. The functions do nothing; a proof calls one to use its law.
//!
//! A word is a random integer of 64 bits, unless its width is given. A draw takes one block of a
//! generator, unless a law says otherwise. A request is one read of n bytes.
ghost use Rattle.std.specs.Prelude.{◌≡◌, ◌<◌, ◌≤◌, Bool, ℕ, ◌+◌, ◌*◌, ◌^◌, bit_xor, ◌≢◌, ◌%◌, ◌↔◌, List, [], length, slice_index, map};
ghost use Rattle.std.specs.List.{Contains, flat_map, range_with_len};
ghost use Rattle.std.specs.Fn.{iterate};
ghost use Rattle.std.specs.Int.{w64, to_le_bytes, ◌∣◌};
ghost use Rattle.nanorand_core.specs.generators.Cycles.{AgreeModulo, DrawsAdd, DrawsLeave, OneMoreDraw, PeriodsAreMultiplesOf, IsPeriod, Reaches, ReachesOnceBelow};
ghost use Rattle.nanorand_core.specs.generators.Equality.{DecidesEquality};
ghost use Rattle.nanorand_core.specs.values.Draws.{next_word};
ghost use Rattle.nanorand_core.specs.values.Runs.{words_that};
ghost use Rattle.nanorand_core.specs.values.Values.{number_of};
ghost use Rattle.nanorand_replay.specs.generators.Buffered.{Buffered, buffer_of};
ghost use Rattle.nanorand_replay.specs.replay.Unbroken.{taken_all};
ghost use Rattle.nanorand.specs.generators.ChaChaGroups.{DeliverAlike, chacha_group, group_requests, next_group, stream_position, stream_requests};
ghost use Rattle.nanorand.specs.generators.Frequencies.{SomeWordNeverComes, pcg64_word_count, pcg64_words_that, wyrand_seeds_with, wyrand_word_count};
ghost use Rattle.nanorand.specs.generators.Halves.{folded};
ghost use Rattle.nanorand.specs.generators.ChaCha.{counter, key_of, nonce_of, seeded_state, advanced, next_state, chacha_after, chacha_block, chacha_requests};
ghost use Rattle.nanorand.specs.generators.ChaChaRounds.{IsMatrix, RoundsAreInjective};
ghost use Rattle.nanorand.specs.generators.Parts.{ComesAgain, NothingTwice, PartsAreApart, after_draws, left_in_turn, numbers, numbers_of_part, on_a_copy, part_at, results_after, results_in_turn};
ghost use Rattle.nanorand.specs.generators.Pcg64.{pcg64_requests};
ghost use Rattle.nanorand.specs.generators.Pcg64 as pcg64;
ghost use Rattle.nanorand.specs.generators.SplitMix.{mixed, seed_from, split_mix_next};
ghost use Rattle.nanorand.specs.generators.WyRand.{wyrand_requests};
ghost use Rattle.nanorand.specs.generators.WyRand as wyrand;

use crate::parts::Parts;
use crate::rand::{Blocks, ChaCha, ChaChaGroups, Pcg64, Rng, WyRand};
pub use nanorand_core::laws::{
    choices_and_arrangements, choices_are_fair, fairness, partial_shuffles,
    permutations_by_counting, range_limits, ranges_are_fair, reservoirs_are_fair, samples_are_fair,
    values_join, weighted_choices_are_fair, whole_blocks,
};
pub use nanorand_fairness::laws::{
    draws_by_words, fairness_with_rejections, full_shuffles_prefer_orders,
    numbers_in_turn_are_fair, reservoir_words_are_fair, reservoirs_draw_in_turn,
    sampled_sets_are_fair, samples_draw_in_turn, shuffles_are_fair, shuffles_draw_in_turn,
    words_of_a_draw,
};
use nanorand_replay::buffer::BufferedRng;
pub use nanorand_replay::laws::{equal_buffers, fresh_delivery, replays_join, unbroken_delivery};

/// The generators implement the traits by the definitions that the laws below use: their blocks,
/// the states that draws leave, and their requests. `ChaChaGroups` draws the blocks of ChaCha in
/// groups of eight, and a stream is a buffer over it.
pub fn generators_as_defined<const ROUNDS: u8>()
    ensures wyrand_blocks { ⟦<WyRand as Blocks<8>>⟧.block ≡ wyrand.wyrand_block }
    ensures wyrand_steps { ⟦<WyRand as Blocks<8>>⟧.step ≡ wyrand.next_seed }
    ensures wyrand_requests { ⟦<WyRand as Rng<8>>⟧.requests ≡ wyrand.wyrand_requests }
    ensures pcg64_blocks { ⟦<Pcg64 as Blocks<8>>⟧.block ≡ pcg64.pcg64_block }
    ensures pcg64_steps { ⟦<Pcg64 as Blocks<8>>⟧.step ≡ pcg64.next }
    ensures pcg64_requests { ⟦<Pcg64 as Rng<8>>⟧.requests ≡ pcg64.pcg64_requests }
    ensures chacha_blocks { ⟦<ChaCha<ROUNDS> as Blocks<64>>⟧.block ≡ chacha_block ROUNDS }
    ensures chacha_steps { ⟦<ChaCha<ROUNDS> as Blocks<64>>⟧.step ≡ next_state }
    ensures chacha_requests { ⟦<ChaCha<ROUNDS> as Rng<64>>⟧.requests ≡ chacha_requests ROUNDS }
    ensures group_blocks { ⟦<ChaChaGroups<ROUNDS> as Blocks<512>>⟧.block ≡ chacha_group ROUNDS }
    ensures group_steps { ⟦<ChaChaGroups<ROUNDS> as Blocks<512>>⟧.step ≡ next_group }
    ensures group_requests { ⟦<ChaChaGroups<ROUNDS> as Rng<512>>⟧.requests ≡ group_requests ROUNDS }
    ensures stream_requests { let stream = ⟦<BufferedRng<ChaChaGroups<ROUNDS>, 512> as Rng<512>>⟧ in
        stream.requests ≡ stream_requests ROUNDS }
{}

/// `==` of two generators is true if and only if their states are equal.
pub fn equal_generators<const ROUNDS: u8>()
    ensures wyrand { DecidesEquality ⟦<WyRand as PartialEq>⟧.eq }
    ensures pcg64 { DecidesEquality ⟦<Pcg64 as PartialEq>⟧.eq }
    ensures chacha { DecidesEquality ⟦<ChaCha<ROUNDS> as PartialEq>⟧.eq }
    ensures groups { DecidesEquality ⟦<ChaChaGroups<ROUNDS> as PartialEq>⟧.eq }
{}

/// The rounds of ChaCha are injective on matrices, for every even number of rounds.
pub fn rounds_are_injective()
    ensures { RoundsAreInjective }
{}

/// The seeds of `WyRand` form one cycle of length 2^64, and the periods of its blocks are exactly
/// the multiples of 2^64.
///
/// `steps`, `more`, `adds`: `wyrand_after n` is the state after n single draws, for every number as
/// the start. `closed`, `seeds`: from a seed, or if n is at least 1, it equals the closed form
/// `seed_after n`. `fits`: from a seed it leads to a seed, that is, a number below 2^64. `words`:
/// block n, counted from 0, is the word of the seed after n + 1 draws. `agree`: i draws and j draws
/// lead to the same seed if and only if i and j agree modulo 2^64. `periods`: d is a period if and
/// only if 2^64 divides d.
pub fn wyrand_cycle()
    ensures steps { DrawsLeave wyrand.next_seed wyrand.wyrand_after }
    ensures more { OneMoreDraw wyrand.next_seed wyrand.wyrand_after }
    ensures adds { DrawsAdd wyrand.wyrand_after }
    ensures closed { (n seed : ℕ) → seed < 2 ^ 64
        → wyrand.wyrand_after n seed ≡ wyrand.seed_after n seed }
    ensures seeds { (n seed : ℕ)
        → wyrand.wyrand_after (n + 1) seed ≡ wyrand.seed_after (n + 1) seed }
    ensures fits { (n seed : ℕ) → seed < 2 ^ 64 → wyrand.wyrand_after n seed < 2 ^ 64 }
    ensures words { (n seed : ℕ) → wyrand.wyrand_block (iterate wyrand.next_seed n seed)
        ≡ to_le_bytes w64 (wyrand.word (wyrand.seed_after (n + 1) seed)) }
    ensures agree { (seed : ℕ) → seed < 2 ^ 64 → AgreeModulo (2 ^ 64) wyrand.seed_after seed }
    ensures periods { (seed : ℕ) → seed < 2 ^ 64
        → PeriodsAreMultiplesOf (2 ^ 64) wyrand.next_seed wyrand.wyrand_block seed }
{}

/// A `u64` of `WyRand` or `Pcg64` is the word of the seed that one draw leaves.
///
/// `wyrand`, `pcg64`: a request of 8 bytes takes the eight bytes of this word, so their number is
/// the word. `wyrand_state`, `pcg64_state`: it leaves the state after one draw.
pub fn words_as_numbers()
    ensures wyrand { (seed : ℕ) → number_of (wyrand_requests.bytes seed 8)
        ≡ wyrand.word (wyrand.seed_after 1 seed) }
    ensures wyrand_state { (seed : ℕ) → wyrand_requests.after seed 8 ≡ wyrand.seed_after 1 seed }
    ensures pcg64 { (g : pcg64.Generator) → number_of (pcg64_requests.bytes g 8)
        ≡ folded (pcg64.seed_after 1 g.seed) }
    ensures pcg64_state { (g : pcg64.Generator) → pcg64_requests.after g 8 ≡ pcg64.pcg64_after 1 g }
{}

/// Each seed of `Pcg64` is on a cycle of length 2^126 (there are four, by `pcg64_reach`), and the
/// periods of its blocks are exactly the multiples of 2^126.
///
/// `steps`, `more`, `adds`: `pcg64_after n` is the generator after n single draws. `closed`,
/// `seeds`: from a seed, or if n is at least 1, its seed equals the closed form `seed_after n`.
/// `fits`: from a seed it leads to a seed, that is, a number below 2^128. `words`: block n, counted
/// from 0, is the word of the seed after n + 1 draws. `blocks`: blocks depend on the seed alone.
/// `agree`: i draws and j draws lead to the same seed if and only if i and j agree modulo 2^126.
/// `top_bit`: the words at a distance of 2^125 draws differ in the top bit and in no other.
/// `periods`: d is a period if and only if 2^126 divides d.
pub fn pcg64_cycles()
    ensures steps { DrawsLeave pcg64.next pcg64.pcg64_after }
    ensures more { OneMoreDraw pcg64.next pcg64.pcg64_after }
    ensures adds { DrawsAdd pcg64.pcg64_after }
    ensures closed { (n : ℕ) (g : pcg64.Generator) → g.seed < 2 ^ 128
        → (pcg64.pcg64_after n g).seed ≡ pcg64.seed_after n g.seed }
    ensures seeds { (n : ℕ) (g : pcg64.Generator)
        → (pcg64.pcg64_after (n + 1) g).seed ≡ pcg64.seed_after (n + 1) g.seed }
    ensures fits { (n : ℕ) (g : pcg64.Generator) → g.seed < 2 ^ 128
        → (pcg64.pcg64_after n g).seed < 2 ^ 128 }
    ensures words { (n : ℕ) (g : pcg64.Generator) → pcg64.pcg64_block (iterate pcg64.next n g)
        ≡ to_le_bytes w64 (folded (pcg64.seed_after (n + 1) g.seed)) }
    ensures blocks { (n : ℕ) (g h : pcg64.Generator) → g.seed ≡ h.seed
        → pcg64.pcg64_block (iterate pcg64.next n g) ≡ pcg64.pcg64_block (iterate pcg64.next n h) }
    ensures agree { (seed : ℕ) → seed < 2 ^ 128 → AgreeModulo (2 ^ 126) pcg64.seed_after seed }
    ensures top_bit { (n seed : ℕ) → seed < 2 ^ 128
        → folded (pcg64.seed_after (n + 2 ^ 125) seed)
        ≡ bit_xor (folded (pcg64.seed_after n seed)) (2 ^ 63) }
    ensures periods { (g : pcg64.Generator) → g.seed < 2 ^ 128
        → PeriodsAreMultiplesOf (2 ^ 126) pcg64.next pcg64.pcg64_block g }
{}

/// A `Pcg64` draws the same bytes as every other one with its seed, whatever their `state` and `inc`
/// are. So one that `new_seed` makes from a stored seed draws what the stored one would have drawn.
///
/// `each`: after requests of the same sizes, the next request takes the same bytes from both.
/// `all`: so do all requests of a list, one after another. `seeds`: a request leaves both with the
/// same seed.
pub fn pcg64_seed_decides()
    ensures each { (g h : pcg64.Generator) → g.seed ≡ h.seed
        → DeliverAlike pcg64_requests g pcg64_requests h }
    ensures all { (g h : pcg64.Generator) (sizes : List ℕ) → g.seed ≡ h.seed
        → taken_all pcg64_requests g sizes ≡ taken_all pcg64_requests h sizes }
    ensures seeds { (g h : pcg64.Generator) (n : ℕ) → g.seed ≡ h.seed
        → (pcg64_requests.after g n).seed ≡ (pcg64_requests.after h n).seed }
{}

/// The states of `ChaCha` form cycles of length 2^64, and the counter is the position in the cycle.
///
/// `steps`, `more`, `adds`: `chacha_after n` is the state after n single draws, for every list as
/// the start. `closed`, `matrices`: from a matrix, that is, sixteen 32-bit words, it is the state
/// with n added to the counter, modulo 2^64, and a matrix again. `counts`, `keeps`: n draws add n
/// to the counter, modulo 2^64, and change only words 12 and 13, which hold the counter. `key`,
/// `nonce`: so draws keep the key and the nonce. `blocks`: block n, counted from 0, is the block of
/// the state with n added to the counter. `agree`: i draws and j draws leave the same state if and
/// only if i and j agree modulo 2^64. `periods`: every multiple of 2^64 is a period of the blocks.
/// The law does not say that there are no other periods.
pub fn chacha_counter()
    ensures steps { DrawsLeave next_state chacha_after }
    ensures more { OneMoreDraw next_state chacha_after }
    ensures adds { DrawsAdd chacha_after }
    ensures closed { (n : ℕ) (x : List ℕ) → IsMatrix x → chacha_after n x ≡ advanced n x }
    ensures matrices { (n : ℕ) (x : List ℕ) → IsMatrix x → IsMatrix (chacha_after n x) }
    ensures counts { (n : ℕ) (x : List ℕ) → IsMatrix x
        → counter (chacha_after n x) ≡ (counter x + n) % 2 ^ 64 }
    ensures keeps { (n k : ℕ) (x : List ℕ) → k ≢ 12 → k ≢ 13
        → slice_index (chacha_after n x) k ≡ slice_index x k }
    ensures key { (n : ℕ) (x : List ℕ) → key_of (chacha_after n x) ≡ key_of x }
    ensures nonce { (n : ℕ) (x : List ℕ) → nonce_of (chacha_after n x) ≡ nonce_of x }
    ensures blocks { (R n : ℕ) (x : List ℕ) → IsMatrix x
        → chacha_block R (iterate next_state n x) ≡ chacha_block R (advanced n x) }
    ensures agree { (i j : ℕ) (x : List ℕ) → IsMatrix x
        → (chacha_after i x ≡ chacha_after j x) ↔ (i % 2 ^ 64 ≡ j % 2 ^ 64) }
    ensures periods { (R d : ℕ) (x : List ℕ) → IsMatrix x → 2 ^ 64 ∣ d
        → IsPeriod next_state (chacha_block R) x d }
{}

/// A stream of ChaCha delivers the same bytes as a buffered `ChaCha`.
///
/// Both begin in the same state, with an empty buffer. `each`: after requests of the same sizes,
/// the next request takes the same bytes from both. `all`: so do all requests of a list, one after
/// another. `positions`: a request of n bytes of a stream adds n to the number of the next byte,
/// modulo 2^70. `keys`, `nonces`: it keeps the key and the nonce.
pub fn streams_deliver_chacha<const ROUNDS: u8>()
    ensures each { (x : List ℕ) →
        let stream = ⟦<BufferedRng<ChaChaGroups<ROUNDS>, 512> as Rng<512>>⟧.requests in
        let buffer = ⟦<BufferedRng<ChaCha<ROUNDS>, 64> as Rng<64>>⟧.requests in
        DeliverAlike stream (buffer_of [] x) buffer (buffer_of [] x) }
    ensures all { (x : List ℕ) (sizes : List ℕ) →
        let stream = ⟦<BufferedRng<ChaChaGroups<ROUNDS>, 512> as Rng<512>>⟧.requests in
        let buffer = ⟦<BufferedRng<ChaCha<ROUNDS>, 64> as Rng<64>>⟧.requests in
        taken_all stream (buffer_of [] x) sizes ≡ taken_all buffer (buffer_of [] x) sizes }
    ensures positions { (b : Buffered (List ℕ)) (n : ℕ) → IsMatrix b.inner → length b.rest < 512
        → stream_position ((stream_requests ROUNDS).after b n)
        ≡ (stream_position b + n) % 2 ^ 70 }
    ensures keys { (b : Buffered (List ℕ)) (n : ℕ)
        → key_of ((stream_requests ROUNDS).after b n).inner ≡ key_of b.inner }
    ensures nonces { (b : Buffered (List ℕ)) (n : ℕ)
        → nonce_of ((stream_requests ROUNDS).after b n).inner ≡ nonce_of b.inner }
{
    unbroken_delivery::<ChaChaGroups<ROUNDS>, 512>();
    unbroken_delivery::<ChaCha<ROUNDS>, 64>();
    fresh_delivery::<ChaChaGroups<ROUNDS>, 512>();
    fresh_delivery::<ChaCha<ROUNDS>, 64>();
}

/// Different numbers below 2^64 give different seeds.
///
/// `words`: the first words that SplitMix64 produces from them differ. `wyrand`, `pcg64`, `chacha`:
/// so the states that `seed_from_u64` makes from them differ.
pub fn seeds_differ()
    ensures words { (m n : ℕ) → m < 2 ^ 64 → n < 2 ^ 64
        → mixed (split_mix_next m) ≡ mixed (split_mix_next n) → m ≡ n }
    ensures wyrand { (m n : ℕ) → m < 2 ^ 64 → n < 2 ^ 64
        → number_of (seed_from 8 m) ≡ number_of (seed_from 8 n) → m ≡ n }
    ensures pcg64 { (m n : ℕ) → m < 2 ^ 64 → n < 2 ^ 64
        → pcg64.seeded_generator (seed_from 16 m) ≡ pcg64.seeded_generator (seed_from 16 n)
        → m ≡ n }
    ensures chacha { (m n : ℕ) → m < 2 ^ 64 → n < 2 ^ 64
        → seeded_state (seed_from 40 m) ≡ seeded_state (seed_from 40 n) → m ≡ n }
{}

/// The parts of equal length of a stream, joined, are the stream.
///
/// A draw is what a `u64` takes. `numbers`: number j of part i, counted from 0, is number
/// i * draws + j of the stream. `joined`: the numbers of the first parts, one part after another,
/// are those of the stream. `next`: the next part begins where a part ends.
pub fn parts_are_the_stream<G: Rng<OUTPUT>, const OUTPUT: usize>()
    ensures numbers { (draws i j : ℕ) (g : G) → j < draws
        → slice_index (numbers_of_part G.requests draws g i) j
        ≡ next_word G.requests 64 (after_draws G.requests (i * draws + j) g) }
    ensures joined { (parts draws : ℕ) (g : G) →
        flat_map (numbers_of_part G.requests draws g) (range_with_len 0 parts)
        ≡ numbers G.requests (parts * draws) g }
    ensures next { (draws i : ℕ) (g : G) →
        let start = part_at G.requests draws in
        after_draws G.requests draws (start i g) ≡ start (i + 1) g }
{}

/// The parts of a generator of this library do not overlap if together they stay within the period:
/// no state occurs in two of them, and none occurs twice in one.
///
/// A draw is what a `u64` takes. For `Pcg64` the law is about the seeds, since the seed alone
/// determines the blocks. For a stream of ChaCha it assumes that fewer than 512 bytes are buffered.
/// `bytes`: within 2^70 bytes of a stream no state occurs twice, whatever the sizes of the requests
/// are.
pub fn parts_are_apart<const ROUNDS: u8>()
    ensures wyrand { (seed : ℕ) → seed < 2 ^ 64
        → PartsAreApart (2 ^ 64) (λ n. after_draws wyrand_requests n seed) }
    ensures pcg64 { (g : pcg64.Generator) → g.seed < 2 ^ 128
        → PartsAreApart (2 ^ 126) (λ n. (after_draws pcg64_requests n g).seed) }
    ensures chacha { (x : List ℕ) → IsMatrix x
        → PartsAreApart (2 ^ 64) (λ n. after_draws (chacha_requests ROUNDS) n x) }
    ensures streams { (b : Buffered (List ℕ)) → IsMatrix b.inner → length b.rest < 512
        → PartsAreApart (2 ^ 67) (λ n. after_draws (stream_requests ROUNDS) n b) }
    ensures bytes { (b : Buffered (List ℕ)) → IsMatrix b.inner → length b.rest < 512
        → NothingTwice (2 ^ 70) (λ n. (stream_requests ROUNDS).after b n) }
{}

/// For every generator that implements `Parts` (and `Drop`), the parts of a stream do not overlap,
/// and what the generator draws repeats after its period.
///
/// A draw is what a `u64` takes. `apart`: parts of one length that together stay within the period
/// do not overlap: no state occurs in two of them, and none occurs twice in one. The states are
/// those after whole draws. `again`: from some draw on, the 64-bit numbers that are drawn are those
/// of `period` draws before. The law does not say that the numbers have no smaller period, since
/// two states may have equal blocks. For the blocks of `WyRand` and `Pcg64`, `wyrand_cycle` and
/// `pcg64_cycles` prove it.
pub fn all_parts_are_apart<G: Parts<OUTPUT> + Drop, const OUTPUT: usize>(stream: &G)
    ensures apart { PartsAreApart G.period (λ n. after_draws G.requests n stream.now) }
    ensures again { ComesAgain G.period
        (λ n. next_word G.requests 64 (after_draws G.requests n stream.now)) }
{
    let _ = stream.part(0, 0);
}

/// If each task draws only from the part of its own index, the results do not depend on the order
/// in which the tasks run, or on how often each runs, as long as each runs at least once. The
/// result of an index is what its task gives on its part.
///
/// A task is a function of its index and of the generator that it is given, and writes its own
/// result as a whole. A schedule is the list of the indices in the order in which their tasks end,
/// and has each index below `count` at least once. The old results do not matter, nor do runs that
/// stopped before they wrote. The law `parts_as_one_loop` proves that these are the results of one
/// loop over one generator.
pub fn parts_in_any_order<G: Rng<OUTPUT>, const OUTPUT: usize, T>()
    ensures { (task : ℕ → G → T) (draws count : ℕ) (g : G) (schedule : List ℕ) (results : List T)
        → length results ≡ count → ((i : ℕ) → i < count → Contains schedule i) →
        let own = λ (i : ℕ). task i (part_at G.requests draws i g) in
        results_after own schedule results ≡ map own (range_with_len 0 count) }
{}

/// If each task uses up one part of a stream, the tasks give the results of one loop that runs them
/// one after another over one generator.
///
/// A task is a function of its index and of the state of the generator: it gives a result and the
/// state that it leaves. The premise of the first three clauses: on each part, the task leaves the
/// state that is `draws` draws ahead. A task does so if it draws exactly `draws` times, or if it
/// draws fewer times and then jumps to the end of its part. `parts`: the results of the loop are
/// those of the tasks, each run alone on the part of its index. `left`: the loop leaves the stream
/// at the part after the last one. `schedules`: tasks that run by a schedule, in any order and each
/// at least once, give the results of the loop.
///
/// `jumps` has no premise: if a loop runs each task on a copy of its generator, and then jumps
/// `draws` draws ahead, its results are those of the tasks on their parts. `jumping_schedules`:
/// tasks that run by a schedule give the results of this loop.
pub fn parts_as_one_loop<G: Rng<OUTPUT>, const OUTPUT: usize, T>()
    ensures parts { (task : ℕ → G → T × G) (draws count : ℕ) (g : G) →
        let start = λ (i : ℕ). part_at G.requests draws i g in
        ((i : ℕ) → i < count → (task i (start i)).1 ≡ after_draws G.requests draws (start i))
        → results_in_turn task count g
        ≡ map (λ i. (task i (start i)).0) (range_with_len 0 count) }
    ensures left { (task : ℕ → G → T × G) (draws count : ℕ) (g : G) →
        let start = λ (i : ℕ). part_at G.requests draws i g in
        ((i : ℕ) → i < count → (task i (start i)).1 ≡ after_draws G.requests draws (start i))
        → left_in_turn task count g ≡ start count }
    ensures schedules { (task : ℕ → G → T × G) (draws count : ℕ) (g : G) (schedule : List ℕ)
        (results : List T) →
        let start = λ (i : ℕ). part_at G.requests draws i g in
        ((i : ℕ) → i < count → (task i (start i)).1 ≡ after_draws G.requests draws (start i))
        → length results ≡ count → ((i : ℕ) → i < count → Contains schedule i)
        → results_after (λ i. (task i (start i)).0) schedule results
        ≡ results_in_turn task count g }
    ensures jumps { (task : ℕ → G → T) (draws count : ℕ) (g : G)
        → results_in_turn (on_a_copy G.requests task draws) count g
        ≡ map (λ i. task i (part_at G.requests draws i g)) (range_with_len 0 count) }
    ensures jumping_schedules { (task : ℕ → G → T) (draws count : ℕ) (g : G) (schedule : List ℕ)
        (results : List T)
        → length results ≡ count → ((i : ℕ) → i < count → Contains schedule i)
        → results_after (λ i. task i (part_at G.requests draws i g)) schedule results
        ≡ results_in_turn (on_a_copy G.requests task draws) count g }
{}

/// Which seeds of `Pcg64` can be reached from which by draws.
///
/// `reached`: some number of draws leads from s to t if and only if both are in the same one of the
/// four cycles. `once`: then exactly one number of draws below 2^126 does.
pub fn pcg64_reach()
    ensures reached { (s t : ℕ) → s < 2 ^ 128 → t < 2 ^ 128
        → Reaches pcg64.seed_after s t ↔ pcg64.SameCycle s t }
    ensures once { (s t : ℕ) → s < 2 ^ 128 → t < 2 ^ 128 → pcg64.SameCycle s t
        → ReachesOnceBelow (2 ^ 126) pcg64.seed_after s t }
{}

/// In 2^126 draws in a row, each of the 2^64 words of `Pcg64` occurs exactly 2^62 times.
///
/// `words`: this holds from every seed, so also after any number of draws. `events`: the number of
/// words that pass a test is 2^62 for each 64-bit number that passes it.
pub fn pcg64_words_are_equally_frequent()
    ensures words { (seed w : ℕ) → seed < 2 ^ 128 → w < 2 ^ 64
        → pcg64_word_count (2 ^ 126) seed w ≡ 2 ^ 62 }
    ensures events { (seed : ℕ) (test : ℕ → Bool) → seed < 2 ^ 128
        → pcg64_words_that (2 ^ 126) seed test ≡ words_that 64 test * 2 ^ 62 }
{}

/// The words of `WyRand` are not equally frequent: the word 0 occurs at least twice in 2^64 draws,
/// and some word never occurs.
///
/// `seeds`: in 2^64 draws in a row, from any seed, a word occurs as often as there are seeds that
/// have it. `twice`: at least two seeds have the word 0. `never`: some 64-bit word occurs at no
/// draw from any seed.
pub fn wyrand_words_are_not_equally_frequent()
    ensures seeds { (seed w : ℕ) → seed < 2 ^ 64
        → wyrand_word_count (2 ^ 64) seed w ≡ wyrand_seeds_with (2 ^ 64) w }
    ensures twice { 2 ≤ wyrand_seeds_with (2 ^ 64) 0 }
    ensures never { SomeWordNeverComes }
{}
