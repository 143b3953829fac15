//! Laws about the definitions, for every generator. Each contract states a law. The functions do
//! nothing; a proof calls one to use its law.
//!
//! A word is a random integer of N bits. A word *names* a number if it lies in the run of words
//! that `values::pick_word` maps to that number; a word that names no number is rejected. `OUTPUT`
//! is the number of bytes of a generator's blocks.
ghost use Rattle.std.specs.Prelude.{◌≡◌, ◌<◌, ◌≤◌, ◌+◌, ◌++◌, length, sum, ℕ, ℤ, nat_le, nat_lt, int_le, int_lt, ◌^◌, ◌↔◌, List, [], ◌∷◌, take, IsPermutation, All, AllPairs, ◌≢◌};
ghost use Rattle.std.specs.Fn.{iterate};
ghost use Rattle.std.specs.List.{range_with_len};
ghost use Rattle.std.specs.declared.ops.Bound.{Bound};
ghost use Rattle.std.specs.declared.ops.Bound.TheVariants.{Included, Excluded};
ghost use Rattle.nanorand_core.specs.choices.Uniform.{IndicesAreFair, RatiosAreFair};
ghost use Rattle.nanorand_core.specs.shuffles.Arrangements.{CorrespondsOneToOne, HoldEquallyOften, HoldsEachOnce, IsArrangement};
ghost use Rattle.nanorand_core.specs.samples.Samples.{NumbersAreFair, SetsAreFair};
ghost use Rattle.nanorand_core.specs.samples.Reservoir.{ItemsAreFair, ItemSetsAreFair};
ghost use Rattle.nanorand_core.specs.values.Range.{unsigned_number, unsigned_range, signed_number};
ghost use Rattle.nanorand_core.specs.values.RangeLimits.{KeepsLimits};
ghost use Rattle.nanorand_core.specs.values.Draws.{after_word, unsigned_outcome, signed_outcome};
ghost use Rattle.nanorand_core.specs.values.Values.{number_of, values_from};
ghost use Rattle.nanorand_core.specs.values.Fairness.{RunsAreFair, NoNumberIsPreferred, EventsAreFair, DivisorsRejectNothing};
ghost use Rattle.nanorand_core.specs.values.Fairness.{UnsignedRangesAreFair, SignedRangesAreFair, EventsOfListsAreFair};
ghost use Rattle.nanorand_core.specs.choices.Weighted.{ChoicesAreFair};
ghost use Rattle.nanorand_core.specs.shuffles.Shuffles.{from_itself, partly_shuffled, shuffled};

use crate::rand::Rng;

/// A draw of a number below a size is unbiased, for words of N = 8, 16, 32 and 64 bits and every
/// size from 1 to 2^N.
///
/// `runs`: each number below the size has a run of floor(2^N / size) words, the runs do not
/// overlap, and fewer than half of all words are rejected. `swaps`: swapping the runs of two
/// numbers word by word is an involution on lists of words. It keeps the index of the deciding
/// word, swaps the two numbers in the result, and leaves every other result, and every failure,
/// unchanged. `events`: an event is given by a test; if m numbers pass it, it is named by exactly m
/// times as many words as one number. `divisors`: a size that divides 2^N, such as a power of two,
/// rejects no word.
pub fn fairness()
    ensures runs { RunsAreFair }
    ensures swaps { NoNumberIsPreferred }
    ensures events { EventsAreFair }
    ensures divisors { DivisorsRejectNothing }
{}

/// A draw from a range is unbiased, for words of N = 8, 16, 32 and 64 bits.
///
/// A range is given by two bounds of the integer type of N bits. A word names an index of the
/// range, and gives the number at that index. `unsigned`: in a range of s numbers, each number that
/// both bounds admit is given by exactly floor(2^N / s) of the 2^N words. `signed`: the same for
/// the signed type. `indices`: the range from 0 to n, without n, is 0, 1, .., n - 1, so `fairness`
/// applies to a draw from it. `events`: in every list of s items, s from 1 to 2^N, of which m pass
/// a test, exactly m * floor(2^N / s) words give an item that passes it.
pub fn ranges_are_fair<T>()
    ensures unsigned { UnsignedRangesAreFair }
    ensures signed { SignedRangesAreFair }
    ensures indices { (bits n : ℕ) → n ≤ 2 ^ bits
        → unsigned_range bits (Included 0) (Excluded n) ≡ range_with_len 0 n }
    ensures events { EventsOfListsAreFair T }
{}

/// The uniform choices of `choices` are unbiased, for words of N = 8, 16, 32 and 64 bits.
///
/// `items`: of `count` items, at most 2^N, each is chosen by exactly floor(2^N / count) words.
/// `ratios`: for a numerator up to the denominator, the event of a ratio is named by exactly
/// `numerator` times as many words as one number below the denominator.
pub fn choices_are_fair()
    ensures items { IndicesAreFair }
    ensures ratios { RatiosAreFair }
{}

/// Weighted choices are exact, for words of 8, 16, 32 and 64 bits and all weights whose sum is from
/// 1 to the number of words. The number of words that choose an item is exactly its weight times
/// the number of words that name one number.
///
/// So an item of twice the weight is chosen by twice as many words. This is the law of
/// `choices::weighted::choose_weighted`.
pub fn weighted_choices_are_fair()
    ensures { ChoicesAreFair }
{}

/// The limits of every draw of an integer from a range, for every generator.
///
/// A drawn number lies within both bounds, and at most 128 words are drawn. `Empty` is returned
/// only if the range has no number, and nothing is drawn then. `Exhausted` is returned after
/// exactly 128 words. The outcomes in this law are those in the contract of `generate_range`.
pub fn range_limits<G: Rng<OUTPUT>, const OUTPUT: usize>()
    ensures unsigned { (bits : ℕ) (g : G) (low high : Bound ℕ) →
        KeepsLimits nat_le nat_lt bits unsigned_number (after_word G.requests bits) low high g
        (unsigned_outcome G.requests bits g low high) }
    ensures signed { (bits : ℕ) (g : G) (low high : Bound ℤ) →
        KeepsLimits int_le int_lt bits (signed_number bits) (after_word G.requests bits) low high g
        (signed_outcome G.requests bits g low high) }
{}

/// For every n, the valid lists of n choices and the permutations of 0, 1, .., n - 1 correspond one
/// to one: a valid list makes a permutation, no other valid list makes the same one, and each
/// permutation is made by one.
pub fn choices_and_arrangements()
    ensures { (n : ℕ) → CorrespondsOneToOne n }
{}

/// A sample of `samples::sample` prefers no number and no set of numbers.
///
/// The samples are counted over all sequences of draws. `count` is the size of the population. With
/// k slots and j = `count - k`, a sequence has one draw from each of `0..=j`, `0..=j + 1`, ..,
/// `0..=count - 1`. By `fairness` each number of a range has the same number of words.
///
/// `numbers`: each number below `count` is in the same fraction of the samples, k / `count`.
/// `sets`: each set of k numbers below `count` is the sample for the same number of sequences,
/// 1 * 2 * .. * k.
pub fn samples_are_fair()
    ensures numbers { NumbersAreFair }
    ensures sets { SetsAreFair }
{}

/// A sample of `samples::reservoir` prefers no item and no set of items.
///
/// The samples are counted over all sequences of draws. With k slots and `count` items, a sequence
/// has one draw from each of `0..=k`, `0..=k + 1`, .., `0..=count - 1`. By `fairness` each number
/// of a range has the same number of words.
///
/// `items`: each item is in the same fraction of the samples, k / `count`. `sets`: each set of k
/// items is the sample for the same number of sequences, 1 * 2 * .. * (`count - k`).
pub fn reservoirs_are_fair()
    ensures items { ItemsAreFair }
    ensures sets { ItemSetsAreFair }
{}

/// A partial shuffle is the beginning of the whole shuffle, for every generator.
///
/// `begins`: its choices are the first choices of the whole shuffle. `whole`: with as many steps as
/// there are items, or more, it is the whole shuffle. `first`: the first `steps` items that it
/// leaves are those that the whole shuffle leaves. `arrangement`: it leaves a permutation of the
/// items.
pub fn partial_shuffles<G: Rng<OUTPUT>, T, const OUTPUT: usize>()
    ensures begins { (steps : ℕ) (g : G) (items : List T) →
        (partly_shuffled G.requests from_itself steps g items).choices
        ≡ take steps (shuffled G.requests from_itself g items).choices }
    ensures whole { (steps : ℕ) (g : G) (items : List T) → length items ≤ steps
        → partly_shuffled G.requests from_itself steps g items
        ≡ shuffled G.requests from_itself g items }
    ensures first { (steps : ℕ) (g : G) (items : List T) →
        take steps (partly_shuffled G.requests from_itself steps g items).items
        ≡ take steps (shuffled G.requests from_itself g items).items }
    ensures arrangement { (steps : ℕ) (g : G) (items : List T) →
        IsPermutation items (partly_shuffled G.requests from_itself steps g items).items }
{}

/// Permutations can be recognized by counting.
///
/// `permutations`: a list of numbers is a permutation of another if and only if every number occurs
/// equally often in both. `arrangements`: a list is a permutation of the numbers below its length
/// if and only if each of these numbers occurs in it once; other numbers need not be considered.
/// `numbers`: the numbers of such a list are below its length, and all different.
pub fn permutations_by_counting()
    ensures permutations { (xs ys : List ℕ) → IsPermutation xs ys ↔ HoldEquallyOften xs ys }
    ensures arrangements { (order : List ℕ) →
        IsArrangement order ↔ HoldsEachOnce (length order) order }
    ensures numbers { (order : List ℕ) → IsArrangement order
        → All (λ number. number < length order) order
        × AllPairs (λ number other. number ≢ other) order }
{}

/// A request of `OUTPUT` bytes is the same as a draw of one block, for every generator.
///
/// `bytes`: it takes the next block. `number`: so the number of these bytes is that of the block; a
/// `u64` of a generator with blocks of 8 bytes is the number of its next block. `state`: it leaves
/// the state that a draw of a block leaves.
pub fn whole_blocks<G: Rng<OUTPUT>, const OUTPUT: usize>()
    ensures bytes { (g : G) → G.requests.bytes g OUTPUT ≡ G.block g }
    ensures number { (g : G) → number_of (G.requests.bytes g OUTPUT) ≡ number_of (G.block g) }
    ensures state { (g : G) → G.requests.after g OUTPUT ≡ G.step g }
{}

/// Values drawn in two parts, one after the other, are those drawn in one. A proof about a loop of
/// draws needs this law to add the draws of one step to those before it.
///
/// `values`: m + n values are m values, followed by n values from the state that the m draws leave.
/// `states`: m steps and then n steps are m + n steps. `last_value`, `last_state`: the same, where
/// the second part is one value or one step.
pub fn values_join<G, T>()
    ensures values { (value : G → T) (after : G → G) (m n : ℕ) (g : G) →
        values_from value after (m + n) g
        ≡ values_from value after m g ++ values_from value after n (iterate after m g) }
    ensures states { (after : G → G) (m n : ℕ) (g : G) →
        iterate after (m + n) g ≡ iterate after n (iterate after m g) }
    ensures last_value { (value : G → T) (after : G → G) (n : ℕ) (g : G) →
        values_from value after (n + 1) g
        ≡ values_from value after n g ++ (value (iterate after n g) ∷ []) }
    ensures last_state { (after : G → G) (n : ℕ) (g : G) →
        iterate after (n + 1) g ≡ after (iterate after n g) }
{}
