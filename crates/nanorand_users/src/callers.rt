//! Short callers of the library, one for each use. They need no proofs of their own. `TASKS.md` of
//! `nanorand` shows them. Larger callers have modules of their own.
ghost use Rattle.std.specs.Prelude.{◌≡◌, ◌≢◌, ℕ, List, drop, take, min, is_ok, ◌≤◌, ◌<◌, ◌+◌, ◌==◌, ◌++◌, [], All, count_by, length, Contains, OnOk, IfOk, IfErr, MatchResult, IsPermutation};
ghost use Rattle.std.specs.List.{AllPairs};
ghost use Rattle.std.specs.Iterator.{IsFinite};
ghost use Rattle.std.specs.Iterator.Runs.{CountFits, SomeRun, WholeRun};
ghost use Rattle.nanorand_core.specs.samples.Reservoir.{items_at};
ghost use Rattle.std.specs.declared.ops.Bound.TheVariants.{Included};
ghost use Rattle.nanorand_replay.specs.generators.Buffered.{buffered_taken};
ghost use Rattle.nanorand_core.specs.values.Draws.{unsigned_outcome};
ghost use Rattle.nanorand.specs.generators.ChaCha.{chacha_requests};
ghost use Rattle.nanorand.specs.generators.Pcg64.{pcg64_after};
ghost use Rattle.nanorand_replay.specs.replay.Replay.{replayed};
ghost use Rattle.nanorand_core.specs.shuffles.Arrangements.{rising};
ghost use Rattle.nanorand_core.specs.shuffles.Shuffles.{from_itself, shuffled};
ghost use Rattle.nanorand_core.specs.values.Values.{number_of};
ghost use Rattle.nanorand.specs.generators.WyRand.{wyrand_requests};

pub mod card;
pub mod counted;
pub mod examples;
pub mod fills;
pub mod loops;
pub mod saved;
pub mod split_mix;
pub mod unrefused;

use nanorand::choices::{
    WeightError, below, between, bits, choose, choose_mut, choose_weighted, ratio,
};
use nanorand::laws::{pcg64_cycles, permutations_by_counting, unbroken_delivery, words_as_numbers};
use nanorand::replay::{Answer, Call, replay};
use nanorand::samples::{reservoir, sample};
use nanorand::shuffles::{identity, partial_shuffle};
use nanorand::{BufferedRng, ChaCha20, Pcg64, RangeError, Rng, WyRand};
use std::ops::Bound;

/// Returns the first `u64` that a `WyRand` with this seed draws.
pub fn ticket(seed: u64) -> u64
    ensures { result ≡ number_of (wyrand_requests.bytes seed 8) }
{
    let mut rng = WyRand::new_seed(seed);
    rng.generate::<u64>()
}

/// Throws a die, with any generator: a number from 1 to 6, which is 1 if the draw returns an error.
pub fn throw<G: Rng<OUTPUT>, const OUTPUT: usize>(rng: &mut G) -> u8
    ensures face { (1 ≤ result) × (result ≤ 6) }
    ensures thrown { let outcome = unsigned_outcome G.requests 8 rng.old in
        MatchResult (outcome (Included 1) (Included 6)).0
        (λ pips. result ≡ pips) (λ _. result ≡ 1) }
{
    match between(rng, 1, 6) {
        Ok(pips) => pips,
        Err(_) => 1,
    }
}

/// Draws an item of the slice. The index is always within the slice. The error is `Empty` only if
/// the slice is empty.
pub fn pick<G: Rng<OUTPUT>, const OUTPUT: usize>(
    rng: &mut G,
    items: &[u32],
) -> Result<u32, RangeError>
    ensures some { 0 < length items.now → IfErr result (λ refusal. refusal ≡ RangeError.Exhausted) }
{
    let index = rng.generate_range(Bound::Included(0), Bound::Excluded(items.len()))?;
    Ok(items[index])
}

/// Does the same for a slice that is not empty.
pub fn pick_below<G: Rng<OUTPUT>, const OUTPUT: usize>(
    rng: &mut G,
    items: &[u32],
) -> Result<u32, RangeError>
    requires { 0 < length items.now }
    ensures { IfErr result (λ refusal. refusal ≡ RangeError.Exhausted) }
{
    let index = below(rng, items.len())?;
    Ok(items[index])
}

/// Throws a die. The only error is `Exhausted`.
pub fn roll(rng: &mut WyRand) -> Result<u8, RangeError>
    ensures face { IfOk result (λ pips. (1 ≤ pips) × (pips ≤ 6)) }
    ensures refusal { IfErr result (λ refusal. refusal ≡ RangeError.Exhausted) }
{
    between(rng, 1, 6)
}

/// Throws a die with a `Pcg64`.
pub fn roll_pcg64(rng: &mut Pcg64) -> Result<u8, RangeError>
    ensures face { IfOk result (λ pips. (1 ≤ pips) × (pips ≤ 6)) }
    ensures refusal { IfErr result (λ refusal. refusal ≡ RangeError.Exhausted) }
{
    between(rng, 1, 6)
}

/// Draws a percentage with a `Pcg64`.
pub fn percent(rng: &mut Pcg64) -> Result<u32, RangeError>
    ensures within { IfOk result (λ percent. percent ≤ 100) }
    ensures refusal { IfErr result (λ refusal. refusal ≡ RangeError.Exhausted) }
{
    rng.generate_range(Bound::Included(0), Bound::Included(100))
}

/// Chooses an index by its weight with a `Pcg64`.
pub fn weighted_pcg64(rng: &mut Pcg64, weights: &[u64]) -> Result<usize, WeightError>
    ensures { IfOk result (λ index. index < length weights.now) }
{
    choose_weighted(rng, weights)
}

/// Tosses a coin. 2 is a power of two, so no word is rejected, and there is no error. The shortest
/// coin is `rng.generate::<bool>()`.
pub fn coin<G: Rng<OUTPUT>, const OUTPUT: usize>(rng: &mut G) -> bool {
    match ratio(rng, 1, 2) {
        Ok(heads) => heads,
        Err(_) => unreachable!(),
    }
}

/// Draws one of eight directions. 8 is a power of two, so there is no error.
pub fn direction<G: Rng<OUTPUT>, const OUTPUT: usize>(rng: &mut G, directions: &[u8; 8]) -> u8
    ensures { Contains directions.now result }
{
    match choose(rng, directions) {
        Ok(direction) => *direction,
        Err(_) => unreachable!(),
    }
}

/// Draws a hexadecimal digit: four bits, which are never rejected.
pub fn digit(rng: &mut WyRand) -> u8
    ensures { result < 16 }
{
    bits(rng, 4)
}

/// Draws a server of the list. Each server is chosen by the same number of words.
pub fn server<G: Rng<OUTPUT>, const OUTPUT: usize>(
    rng: &mut G,
    servers: &[u32],
) -> Result<u32, RangeError>
    ensures { IfOk result (λ server. Contains servers.now server) }
{
    Ok(*choose(rng, servers)?)
}

/// Returns whether a request is sampled: true with probability 1/100.
pub fn is_sampled(rng: &mut WyRand) -> Result<bool, RangeError>
    ensures { IfErr result (λ refusal. refusal ≡ RangeError.Exhausted) }
{
    ratio(rng, 1, 100)
}

/// Adds 1 to one of the counters. The error is `Empty` only if the list is empty.
pub fn count_one(rng: &mut WyRand, counters: &mut [u32]) -> Result<(), RangeError>
    ensures { 0 < length counters.old → IfErr result (λ refusal. refusal ≡ RangeError.Exhausted) }
{
    let counter = choose_mut(rng, counters)?;
    *counter = counter.wrapping_add(1);
    Ok(())
}

/// Returns 32 bytes of a keystream, by one request.
pub fn bytes_of_stream(rng: &mut ChaCha20) -> [u8; 32]
    ensures { result ≡ (chacha_requests 20).bytes rng.old 32 }
{
    rng.generate()
}

/// Draws the kind of a tile, 0, 1 or 2, by the weights 6, 3 and 1.
pub fn tile(rng: &mut WyRand) -> Result<usize, WeightError>
    ensures { IfOk result (λ kind. kind < 3) }
{
    choose_weighted(rng, &[6, 3, 1])
}

/// Draws different winners among the entrants 0, 1, .., one for each slot.
pub fn draw_winners(
    rng: &mut WyRand,
    entrants: usize,
    winners: &mut [usize],
) -> Result<(), RangeError>
    requires { length winners.old ≤ entrants }
    ensures below { OnOk result (All (λ winner. winner < entrants) winners.new) }
    ensures apart { OnOk result (AllPairs (λ winner other. winner ≢ other) winners.new) }
{
    sample(rng, entrants, winners)
}

/// Picks lines of a log that is read once: as many as there are slots, or all lines of a short log.
/// Returns their number.
pub fn pick_lines<'a>(
    rng: &mut WyRand,
    log: &'a str,
    lines: &mut [&'a str],
) -> Result<usize, RangeError>
    ensures slots { IfOk result (λ picked. picked ≤ length lines.old) }
    ensures full { length lines.old ≤ count_by (λ byte. byte == 10) log.now
        → IfOk result (λ picked. picked ≡ length lines.old) }
    ensures refusal { IfErr result (λ refusal. refusal ≡ RangeError.Exhausted) }
{
    reservoir(rng, log.lines(), lines)
}

/// Keeps some items of an iterator: as many as there are slots, or all of fewer items. If no draw
/// fails, the kept ones are items of the whole iterator, from different places.
pub fn keep<I: Iterator + Drop>(
    rng: &mut WyRand,
    items: I,
    kept: &mut [I::Item],
) -> Result<usize, RangeError>
where
    I::Item: Drop,
    requires can { I.can_next items }
    requires ends { IsFinite (I.remaining items) }
    requires fits { CountFits I.next_gives I.remaining 0 items }
    ensures filled { IfOk result (λ filled. WholeRun I.next_gives items (λ run.
        (filled ≡ min (length kept.old) run.len)
        × All (Contains run.items) (take filled kept.new))) }
    ensures apart { SomeRun I.next_gives items (λ run. (places : List ℕ)
        × (kept.new ≡ items_at run.items places ++ drop (length places) kept.old)
        × (length places ≡ min (length kept.old) run.len)
        × All (λ place. place < run.len) places
        × AllPairs (λ place other. place ≢ other) places
        × (run.whole ≡ is_ok result)) }
{
    reservoir(rng, items, kept)
}

/// Shuffles a hand to the front of a pack. No card is lost, even if the shuffle fails.
pub fn deal_hand(rng: &mut WyRand, pack: &mut [u8], cards: usize) -> Result<(), RangeError>
    ensures { IsPermutation pack.old pack.new }
{
    partial_shuffle(rng, pack, cards)
}

/// A known answer as a clause: the first number that a seed draws.
pub fn known_number() -> u64
    ensures { result ≡ 16646288086500911322 }
{
    words_as_numbers();
    WyRand::new_seed(0x5f89e29b87429bd2).generate()
}

/// Shuffles a pack of cards. The result is a permutation of the cards, even if the shuffle fails.
pub fn shuffle_cards(seed: u64, cards: &mut [u8]) -> Result<(), RangeError>
    ensures pack { IsPermutation cards.old cards.new }
    ensures answer { result ≡ (shuffled wyrand_requests from_itself seed cards.old).answer }
{
    let mut rng = WyRand::new_seed(seed);
    rng.shuffle(cards)
}

/// Deals a whole deck: it holds each of the cards 0, 1, .. once, even if the shuffle fails.
pub fn deal_deck(rng: &mut WyRand, deck: &mut [usize]) -> Result<(), RangeError>
    ensures { IsPermutation (rising (length deck.old)) deck.new }
{
    identity(deck);
    rng.shuffle(deck)
}

/// The same, stated about cards: each is one of the deck, and no two are equal.
pub fn deal_cards(rng: &mut WyRand, deck: &mut [usize]) -> Result<(), RangeError>
    ensures cards { All (λ card. card < length deck.old) deck.new }
    ensures different { AllPairs (λ card other. card ≢ other) deck.new }
{
    permutations_by_counting();
    identity(deck);
    rng.shuffle(deck)
}

/// Fills two slices from a buffer. Together they hold what one request of both lengths returns.
pub fn fill_two<G: Rng<OUTPUT>, const OUTPUT: usize>(
    rng: &mut BufferedRng<G, OUTPUT>,
    first: &mut [u8],
    second: &mut [u8],
)
    ensures stream { let count = length first.old + length second.old in
        first.new ++ second.new ≡ buffered_taken G.block G.step OUTPUT rng.old count }
{
    unbroken_delivery::<G, OUTPUT>();
    rng.fill_bytes(first);
    rng.fill_bytes(second);
}

/// Replays the calls twice from one seed, with no items. The answers are equal.
pub fn play_twice(seed: u64, calls: &[Call], first: &mut [Answer], second: &mut [Answer])
    requires first { length first.old ≡ length calls.now }
    requires second { length second.old ≡ length calls.now }
    ensures answers { first.new ≡ (replayed wyrand_requests seed [] calls.now).answers }
    ensures again { second.new ≡ first.new }
{
    let mut rng = WyRand::new_seed(seed);
    replay(&mut rng, calls, &mut [], first);
    let mut rng = WyRand::new_seed(seed);
    replay(&mut rng, calls, &mut [], second);
}

/// Jumps twice. The result is that of one jump by the sum.
pub fn skip_twice(rng: &mut Pcg64, first: u64, second: u64)
    ensures { rng.new ≡ pcg64_after (first + second) rng.old }
{
    pcg64_cycles();
    rng.jump(u128::from(first));
    rng.jump(u128::from(second));
}

/// Jumps ahead to the state of another generator.
pub fn catch_up(rng: &mut WyRand, other: &WyRand)
    ensures { rng.new ≡ other.now }
{
    let draws = rng.distance(other);
    rng.jump(draws);
}
