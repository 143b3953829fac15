//! Samples without replacement.
ghost use Rattle.std.specs.Prelude.{◌≡◌, ◌≢◌, ℕ, ◌+◌, ◌-◌, ◌*◌, ◌^◌, ◌<◌, ◌≤◌, ◌++◌, List, drop, length, take};
ghost use Rattle.std.specs.Prelude.{All, Bool, Contains, is_ok, min, slice_set, true, IfOk, IfErr, OnErr, OnOk};
ghost use Rattle.std.specs.List.{AllPairs};
ghost use Rattle.std.specs.Iterator.{IsFinite};
ghost use Rattle.std.specs.Iterator.Runs.{AllItems, CountFits, EachRunFrom, SomeRun, WholeRun};
ghost use Rattle.nanorand_core.specs.samples.Samples.{DifferentBelow, extended, holds, joining, number_up_to, sampled};
ghost use Rattle.nanorand_core.specs.samples.Reservoir.{items_at, reservoir};
ghost use Rattle.nanorand_core.specs.support.Chains.{Chained, chain_of};
ghost use Rattle.nanorand_core.specs.values.Draws.{word_limit, after_words};
ghost use Rattle.nanorand_core.specs.declared.values.range.RangeError.TheVariants.{Exhausted};

use crate::rand::Rng;
use crate::values::{RandomRange, RangeError};
use std::ops::Bound;

/// Draws a sample without replacement: `places.len()` different numbers below `count`, one into
/// each slot (item) of `places`. `count` is the size of the population, whose members are numbered
/// from 0.
///
/// This is Robert Floyd's algorithm (Bentley and Floyd, "Programming Pearls: a Sample of
/// Brilliance", Communications of the ACM 30(9), 1987), which needs no memory apart from the slots.
/// With k slots, a number t is drawn from `0..=j` for slot i, where j is `count - k + i`. The slot
/// takes t, or j if an earlier slot already holds t.
///
/// The time is O(k^2), since each number is compared with all slots before it. `sample_with` draws
/// the same sample in expected time O(k), with a table that the caller provides. If k is a large
/// part of `count`, fill a slice with 0, 1, .. and call `shuffles::partial_shuffle` instead: it
/// takes k steps, and memory for all `count` numbers.
///
/// Each set of k numbers is produced by the same number of sequences of draws
/// (`laws::samples_are_fair`). The order of the slots is not uniform: the number `count - 1` can
/// only be in the last slot. Shuffle the slots if you need a random order.
///
/// Returns `Exhausted`, the only error, if 128 words (random integers of 64 bits) in a row were
/// rejected for one slot. The slots before it then hold the numbers drawn so far, all other slots
/// are unchanged, and the words stay consumed. If there are no slots, nothing is drawn.
///
/// Precondition: there are at most `count` slots.
pub fn sample<G: Rng<OUTPUT>, const OUTPUT: usize>(
    rng: &mut G,
    count: usize,
    places: &mut [usize],
) -> Result<(), RangeError>
    requires { length places.old ≤ count }
    ensures answer { result ≡ (sampled G.requests (length places.old) count rng.old).answer }
    ensures places { let sample = sampled G.requests (length places.old) count rng.old in
        places.new ≡ sample.numbers ++ drop (length sample.numbers) places.old }
    ensures state { rng.new ≡ (sampled G.requests (length places.old) count rng.old).state }

    // On success.
    ensures whole { let sample = sampled G.requests (length places.old) count rng.old in
        OnOk result (places.new ≡ sample.numbers) }
    ensures below { OnOk result (All (λ number. number < count) places.new) }
    ensures apart { OnOk result (AllPairs (λ number other. number ≢ other) places.new) }

    // In both cases.
    ensures refusal { IfErr result (λ refusal. refusal ≡ Exhausted) }
    ensures words { (n : ℕ) × (n ≤ word_limit * length places.old)
        × (rng.new ≡ after_words G.requests 64 n rng.old) }
{
    extend_sample(rng, count, places, 0, &mut [])
}

/// Draws a sample as `sample` does, with a table that the caller provides. The expected time is
/// O(k) for k slots.
///
/// The length and the items of the table change only the time: the numbers, the state and the
/// errors are those of `sample`. The table links the slots whose numbers agree in their low bits
/// into a chain, so that a new number is compared with the slots of one chain only. On average
/// these are at most one slot with a table of 3k items, and at most two with a table of 2k items.
/// With k items or fewer there are no chains, and the time is O(k^2). The contents of the table are
/// unspecified afterwards.
///
/// Returns `Exhausted`, the only error, as `sample` does.
///
/// Precondition: there are at most `count` slots.
pub fn sample_with<G: Rng<OUTPUT>, const OUTPUT: usize>(
    rng: &mut G,
    count: usize,
    places: &mut [usize],
    table: &mut [usize],
) -> Result<(), RangeError>
    requires { length places.old ≤ count }
    ensures answer { result ≡ (sampled G.requests (length places.old) count rng.old).answer }
    ensures places { let sample = sampled G.requests (length places.old) count rng.old in
        places.new ≡ sample.numbers ++ drop (length sample.numbers) places.old }
    ensures state { rng.new ≡ (sampled G.requests (length places.old) count rng.old).state }

    // On success.
    ensures whole { let sample = sampled G.requests (length places.old) count rng.old in
        OnOk result (places.new ≡ sample.numbers) }
    ensures below { OnOk result (All (λ number. number < count) places.new) }
    ensures apart { OnOk result (AllPairs (λ number other. number ≢ other) places.new) }

    // In both cases.
    ensures refusal { IfErr result (λ refusal. refusal ≡ Exhausted) }
    ensures words { (n : ℕ) × (n ≤ word_limit * length places.old)
        × (rng.new ≡ after_words G.requests 64 n rng.old) }
{
    extend_sample(rng, count, places, 0, table)
}

/// Continues a sample: keeps the first `filled` slots, and fills the others.
///
/// Use it to draw a long sample in pieces. First pass only the first k slots of the slice: in a
/// sample of `places.len()` numbers below `count`, they are a sample of the numbers below
/// `count - (places.len() - k)`, so pass this number as `count`. If `filled` is 0, this is
/// `sample_with`, which describes the table. The slots that are kept are linked into the table
/// again, which takes O(k). If you keep numbers that agree in their low bits, unlike those of a
/// sample, they are in one chain, and the time is up to O(k^2).
///
/// If the kept slots hold different numbers below `count - places.len() + filled`, then on success
/// all slots hold different numbers below `count` (`different`).
///
/// Returns `Exhausted`, the only error, as `sample` does. The slots before the failure hold the
/// sample so far.
///
/// Preconditions: there are at most `count` slots, and `filled` is at most the number of slots.
pub fn extend_sample<G: Rng<OUTPUT>, const OUTPUT: usize>(
    rng: &mut G,
    count: usize,
    places: &mut [usize],
    filled: usize,
    table: &mut [usize],
) -> Result<(), RangeError>
    requires room { length places.old ≤ count }
    requires filled { filled ≤ length places.old }
    ensures answer { result ≡ (extended G.requests count rng.old places.old filled).answer }
    ensures places { let sample = extended G.requests count rng.old places.old filled in
        places.new ≡ sample.numbers ++ drop (length sample.numbers) places.old }
    ensures state { rng.new ≡ (extended G.requests count rng.old places.old filled).state }

    // On success.
    ensures whole { let sample = extended G.requests count rng.old places.old filled in
        OnOk result (places.new ≡ sample.numbers) }
    ensures different { let limit = count - length places.old + filled in
        DifferentBelow limit (take filled places.old)
        → OnOk result (DifferentBelow count places.new) }

    // In both cases.
    ensures refusal { IfErr result (λ refusal. refusal ≡ Exhausted) }
    ensures words { (n : ℕ) × (n ≤ word_limit * (length places.old - filled))
        × (rng.new ≡ after_words G.requests 64 n rng.old) }
{
    let first = count - places.len();
    let chains = chains_in(table.len().saturating_sub(places.len()));
    link_all(places, filled, table, chains);
    for slot in filled..places.len() {
        let last = first + slot;
        let drawn = draw_up_to(rng, last)?;
        let number = joining(&places[..slot], table, chains, last, drawn);
        places[slot] = number;
        link(places, slot, table, chains);
    }
    Ok(())
}

// Returns the number that joins the sample: the number drawn, or `last` if the sample already holds
// that number.
fn joining(sample: &[usize], table: &[usize], chains: usize, last: usize, drawn: usize) -> usize
    requires room { 0 < chains → chains + length sample.now ≤ length table.now }
    requires chained { Chained chains sample.now (length sample.now) table.now }
    ensures { result ≡ joining last drawn sample.now }
{
    if holds(sample, table, chains, drawn) {
        last
    } else {
        drawn
    }
}

// Returns whether the sample holds the number. Without chains, the whole sample is searched.
fn holds(sample: &[usize], table: &[usize], chains: usize, number: usize) -> bool
    requires room { 0 < chains → chains + length sample.now ≤ length table.now }
    requires chained { Chained chains sample.now (length sample.now) table.now }
    ensures { result ≡ holds number sample.now }
{
    if chains == 0 {
        return sample.contains(&number);
    }
    let mut item = table[chain_of(number, chains)];
    while item > 0 {
        let place = item - 1;
        if sample[place] == number {
            return true;
        }
        item = table[chains + place];
    }
    false
}

// Links the first `filled` slots, and no others.
fn link_all(places: &[usize], filled: usize, table: &mut [usize], chains: usize)
    requires filled { filled ≤ length places.now }
    requires room { 0 < chains → chains + length places.now ≤ length table.old }
    ensures chained { Chained chains places.now filled table.new }
    ensures size { length table.new ≡ length table.old }
{
    table[..chains].fill(0);
    for slot in 0..filled {
        link(places, slot, table, chains);
    }
}

// Links the slot into the chain of its number, at the head of the chain.
fn link(places: &[usize], slot: usize, table: &mut [usize], chains: usize)
    requires slot { slot < length places.now }
    requires room { 0 < chains → chains + slot < length table.old }
    requires chained { Chained chains places.now slot table.old }
    ensures chained { Chained chains places.now (slot + 1) table.new }
    ensures size { length table.new ≡ length table.old }
{
    if chains > 0 {
        let chain = chain_of(places[slot], chains);
        table[chains + slot] = table[chain];
        table[chain] = slot + 1;
    }
}

// Returns the chain of a number: its low bits, since the number of chains is a power of two.
fn chain_of(number: usize, chains: usize) -> usize
    requires { 0 < chains }
    ensures value { result ≡ chain_of chains number }
    ensures within { result < chains }
{
    number & (chains - 1)
}

// Returns the number of chains: the greatest power of two that is at most `room`, or 0 if there is
// no room.
fn chains_in(room: usize) -> usize
    ensures power { 0 < room → (k : ℕ) × (result ≡ 2 ^ k) }
    ensures greatest { 0 < room → room < 2 * result }
    ensures within { result ≤ room }
{
    if room == 0 {
        return 0;
    }
    (usize::MAX / 2 + 1) >> room.leading_zeros()
}

// Draws a number from `0..=last`.
fn draw_up_to<G: Rng<OUTPUT>, const OUTPUT: usize>(
    rng: &mut G,
    last: usize,
) -> Result<usize, RangeError>
    ensures value { result ≡ (number_up_to G.requests last rng.old).0 }
    ensures state { rng.new ≡ (number_up_to G.requests last rng.old).1 }
    ensures within { IfOk result (λ number. number ≤ last) }
    ensures refusal { IfErr result (λ refusal. refusal ≡ Exhausted) }
    ensures words { (n : ℕ) × (n ≤ word_limit) × (rng.new ≡ after_words G.requests 64 n rng.old) }
{
    usize::random_range(rng, Bound::Included(0), Bound::Included(last))
}

/// Draws a sample of `chosen.len()` items from an iterator, in one pass, without knowing its
/// length.
///
/// This is Alan Waterman's algorithm R (Knuth, "The Art of Computer Programming", volume 2; Vitter,
/// "Random Sampling with a Reservoir", ACM Transactions on Mathematical Software 11(1), 1985). The
/// first items fill the slots in order. For each later item, which has number i counting from 0, a
/// number is drawn from `0..=i`: if there is a slot with that index, the item replaces the one in
/// it.
///
/// Returns the number of filled slots: all of them, unless the iterator ends earlier. The slots
/// after these are unchanged. For n items and k slots, n steps are taken and n - k numbers are
/// drawn (none if n is at most k). No memory is needed apart from the slots. If the items are in a
/// slice, `samples::sample` of their indices draws only k numbers.
///
/// Each set of k items is produced by the same number of sequences of draws
/// (`laws::reservoirs_are_fair`). The order of the slots is not uniform: item 0 can only be in slot
/// 0. Shuffle the slots if you need a random order.
///
/// Returns `Exhausted`, the only error, if 128 words (random integers of 64 bits) in a row were
/// rejected for one item. That item is dropped, and the items after it are not taken: pass
/// `&mut iterator` to keep them. The slots then hold a sample of the items before it, and the words
/// stay consumed. If there are no slots, a number is drawn for each item all the same.
///
/// `all`: if every item that the iterator may give passes a test, then on success every filled slot
/// holds an item that passes it.
///
/// Preconditions: `next` can be called (`can`), the iterator ends (`ends`), and it yields fewer
/// than 2^64 items (`fits`).
pub fn reservoir<I: Iterator + Drop, G: Rng<OUTPUT>, const OUTPUT: usize>(
    rng: &mut G,
    items: I,
    chosen: &mut [I::Item],
) -> Result<usize, RangeError>
where
    I::Item: Drop,
    requires can { I.can_next items }
    requires ends { IsFinite (I.remaining items) }
    requires fits { CountFits I.next_gives I.remaining 0 items }

    // A run is the list of items that the iterator gave: all of them, unless a draw returned an
    // error.
    ensures sample { SomeRun I.next_gives items (λ run.
        let pass = reservoir G.requests (length chosen.old) run.len rng.old in
        (result ≡ pass.answer)
        × (chosen.new ≡ items_at run.items pass.chosen ++ drop (length pass.chosen) chosen.old)
        × (rng.new ≡ pass.state) × (run.len ≡ pass.taken) × (run.whole ≡ is_ok result)) }

    // On success (`filled`, `all`), and after an error (`refused`).
    ensures filled { IfOk result (λ filled. WholeRun I.next_gives items (λ run.
        (filled ≡ min (length chosen.old) run.len)
        × All (Contains run.items) (take filled chosen.new))) }
    ensures all { (test : I.Item → Bool)
        → EachRunFrom I.next_gives items (λ run. AllItems run (λ item. test item ≡ true))
        → IfOk result (λ filled. All (λ item. test item ≡ true) (take filled chosen.new)) }
    ensures refused { OnErr result (SomeRun I.next_gives items (λ run.
        All (Contains run.items) chosen.new)) }

    // In both cases.
    ensures apart { SomeRun I.next_gives items (λ run. (numbers : List ℕ)
        × (chosen.new ≡ items_at run.items numbers ++ drop (length numbers) chosen.old)
        × (length numbers ≡ min (length chosen.old) run.len)
        × All (λ number. number < run.len) numbers
        × AllPairs (λ number other. number ≢ other) numbers
        × (run.whole ≡ is_ok result)) }
    ensures refusal { IfErr result (λ refusal. refusal ≡ Exhausted) }
    ensures words { SomeRun I.next_gives items (λ run. (n : ℕ)
        × (n ≤ word_limit * (run.len - length chosen.old))
        × (rng.new ≡ after_words G.requests 64 n rng.old)) }
{
    let mut taken = 0;
    for item in items {
        let slot = slot_for(rng, taken, chosen.len())?;
        place_at(chosen, slot, item);
        taken += 1;
    }
    Ok(taken.min(chosen.len()))
}

// Returns the slot for an item: the item's own number for the first items, which fill the slots in
// order, and a drawn number for a later item.
fn slot_for<G: Rng<OUTPUT>, const OUTPUT: usize>(
    rng: &mut G,
    item: usize,
    size: usize,
) -> Result<usize, RangeError>
    ensures first { item < size → (result ≡ Ok item) × (rng.new ≡ rng.old) }
    ensures later { size ≤ item → (result ≡ (number_up_to G.requests item rng.old).0)
        × (rng.new ≡ (number_up_to G.requests item rng.old).1) }
    ensures refusal { IfErr result (λ refusal. (size ≤ item) × (refusal ≡ Exhausted)) }
    ensures words { (n : ℕ) × (n ≤ word_limit) × (rng.new ≡ after_words G.requests 64 n rng.old) }
{
    if item < size {
        Ok(item)
    } else {
        draw_up_to(rng, item)
    }
}

// Puts the item into the slot, if the slot exists.
fn place_at<T: Drop>(slots: &mut [T], slot: usize, item: T)
    ensures { slots.new ≡ slice_set slots.old slot item }
{
    if slot < slots.len() {
        slots[slot] = item;
    }
}
