//! Fairness over lists of words, where a word is a random integer of N bits. For each list of n
//! words a definition says what is drawn from it, and the laws count the lists. Lists that contain
//! rejected words are counted too. The functions do nothing; a proof calls one to use its law.
ghost use Rattle.std.specs.Prelude.{◌≡◌, ℕ};
ghost use Rattle.nanorand_core.specs.values.Draws.{after_words, drawn_below};
ghost use Rattle.nanorand_fairness.specs.Lists.{next_words, number_by_words, words_taken, UndecidedListsAreFew, DrawsEndAtTheLimit, DrawsTakeFewWords, EventsInListsAreFair, RatiosInListsAreFair, WeightsInListsAreFair};
ghost use Rattle.nanorand_fairness.specs.InTurn.{NumbersInTurnAreFair, RejectionsPreferNothing, NoListOfNumbersIsPreferred};
ghost use Rattle.nanorand_fairness.specs.Deals.{DealsAreFair, ShufflesAreFair, NoDealIsPreferred, PartsAreEqual, SharesAreEqual, ShufflesDrawInTurn};
ghost use Rattle.nanorand_fairness.specs.FullShuffles.{OrdersCannotShare, OrdersAreUnequal, ThreeItemsPreferOrders, WordsPreferOrders};
ghost use Rattle.nanorand_fairness.specs.Samples.{NoSetIsPreferred, SampledSetsAreFair, SamplesDrawInTurn};
ghost use Rattle.nanorand_fairness.specs.Reservoirs.{NoItemSetIsPreferred, ReservoirsDrawInTurn, SampledItemSetsAreFair, SampledItemsAreFair};

use nanorand_core::Rng;
use nanorand_core::laws::{
    choices_are_fair, fairness, reservoirs_are_fair, samples_are_fair, weighted_choices_are_fair,
};

/// The number of words that a draw of a number takes, for words of N = 8, 16, 32 and 64 bits and
/// every size from 1 to 2^N. A draw takes fewer than two words on average, and very rarely returns
/// `Exhausted`.
///
/// A draw decides by the first 128 words of a list. `undecided`: let t of the 2^N words be
/// rejected. For n up to 128, exactly t^n of the lists of n words give no number. From a list of
/// more words a draw takes 128, so it returns `Exhausted` for t^128 lists of these, whatever the
/// other words are. `limit`: it takes at most 128 words. `few`: over all lists of n words, the
/// number of words taken is less than twice the number of lists.
pub fn words_of_a_draw()
    ensures undecided { UndecidedListsAreFew }
    ensures limit { DrawsEndAtTheLimit }
    ensures few { DrawsTakeFewWords }
{
    fairness();
}

/// A draw of a number from a generator is the draw that the other laws here count, from the list of
/// the generator's next 128 words.
///
/// `number`: it gives the number that the list gives, or none. `state`: it draws as many words as
/// the draw takes from the list.
pub fn draws_by_words<G: Rng<OUTPUT>, const OUTPUT: usize>()
    ensures number { (bits size : ℕ) (g : G) →
        (drawn_below G.requests bits size g).number
        ≡ number_by_words bits size (next_words G.requests bits g) }
    ensures state { (bits size : ℕ) (g : G) →
        (drawn_below G.requests bits size g).state
        ≡ after_words G.requests bits (words_taken bits size (next_words G.requests bits g)) g }
{}

/// A single draw is unbiased over all lists of n words, including those with rejected words, for
/// words of 8, 16, 32 and 64 bits. It decides by the first 128 words.
///
/// `events`: an event of m numbers is decided by m times as many lists as one number, and all
/// numbers by the same number of lists. `ratios`: so, for a numerator up to the denominator,
/// `choices::ratio` is true for `numerator` times as many lists as decide one number. `weights`:
/// `choices::choose_weighted` returns an item of weight w for w times as many lists as decide one
/// number.
pub fn fairness_with_rejections()
    ensures events { EventsInListsAreFair }
    ensures ratios { RatiosInListsAreFair }
    ensures weights { WeightsInListsAreFair }
{
    fairness();
    choices_are_fair();
    weighted_choices_are_fair();
}

/// Numbers drawn one after another, below the sizes of any list, prefer no list of numbers.
///
/// A draw takes at most 128 words, and the next draw begins with the word after these. `numbers`:
/// of the lists with one word for each size, the same number draws each list of numbers: the
/// product of floor(2^N / size) over the sizes. `rejections`: of all lists of n words, the same
/// number draws each list of numbers. `swaps`: exchanging two numbers of each draw, word by word,
/// is an involution on lists of words. It keeps the length of the list and which words are
/// rejected, and exchanges these numbers and nothing else.
pub fn numbers_in_turn_are_fair()
    ensures numbers { NumbersInTurnAreFair }
    ensures rejections { RejectionsPreferNothing }
    ensures swaps { NoListOfNumbersIsPreferred }
{
    fairness();
}

/// A shuffle prefers no order, and a partial shuffle prefers no deal.
///
/// A deal is the first k items of a shuffle of n items, in their order. `deals`: each list of k
/// different indices is dealt by the same number of lists of k words, the product of
/// floor(2^64 / (n - i)) for i from 0 to k - 1. `orders`: so each order of n items is made by the
/// same number of lists of n words. `swaps`: for any two deals there is a map on lists of words, of
/// any length and with rejected words, that is an involution, keeps the length and which words are
/// rejected, and exchanges the two deals. `shares`: of the lists of m words that draw a whole deal,
/// rejected words included, exactly the fraction k / n deals a given index. So any two indices are
/// dealt by the same number of lists. `parts`: of these lists, exactly one in n (n - 1) ..
/// (n - k + 1) deals a given deal.
///
/// This does not say that all deals are equally frequent over all seeds: a seed of b bits gives at
/// most 2^b of the n! orders.
pub fn shuffles_are_fair()
    ensures deals { DealsAreFair }
    ensures orders { ShufflesAreFair }
    ensures swaps { NoDealIsPreferred }
    ensures shares { SharesAreEqual }
    ensures parts { PartsAreEqual }
{
    fairness();
    numbers_in_turn_are_fair();
}

/// The choices of `Rng::shuffle`, `shuffles::shuffle_and_record` and `shuffles::partial_shuffle`
/// are those that follow from the numbers that the generator's words draw in turn, for every
/// generator. So what `shuffles_are_fair` says about lists of words applies to these functions.
///
/// 128 words for each step are enough. A draw that returns an error ends both the choices and the
/// numbers.
pub fn shuffles_draw_in_turn<G: Rng<OUTPUT>, T, const OUTPUT: usize>()
    ensures { ShufflesDrawInTurn T G.requests }
{}

/// A shuffle whose partners are drawn from all indices, as `shuffles::shuffle_full` draws them, is
/// biased for three or more items.
///
/// `shared`: for n of 3 or more, the number n^n of lists of choices is not a multiple of the number
/// n! of orders. `unequal`: so not all orders are made by the same number of lists of choices.
/// `three`: of the 27 lists of choices of three items, five exchange the first two items, and four
/// leave all items in place. `words`: of the lists of n words, the number that draws an order is
/// the number of lists of choices that make it, times the n-th power of floor(2^64 / n). So the
/// bias of the words is that of the choices.
pub fn full_shuffles_prefer_orders()
    ensures shared { OrdersCannotShare }
    ensures unequal { OrdersAreUnequal }
    ensures three { ThreeItemsPreferOrders }
    ensures words { WordsPreferOrders }
{
    numbers_in_turn_are_fair();
}

/// A sample of `samples::sample` prefers no set of numbers. `count` is the size of the population.
///
/// `sets`: each set of k of the numbers below `count` is sampled by the same number of lists of k
/// words, k! times the product of floor(2^64 / size) over the sizes of the draws. `rejections`: any
/// two sets are sampled by the same number of lists of n words, which may contain rejected words.
pub fn sampled_sets_are_fair()
    ensures sets { SampledSetsAreFair }
    ensures rejections { NoSetIsPreferred }
{
    numbers_in_turn_are_fair();
    samples_are_fair();
}

/// The numbers that `samples::sample` writes are those that follow from the numbers that the
/// generator's words draw in turn, for every generator. So what `sampled_sets_are_fair` says about
/// lists of words applies to `samples::sample`.
pub fn samples_draw_in_turn<G: Rng<OUTPUT>, const OUTPUT: usize>()
    ensures { SamplesDrawInTurn G.requests }
{}

/// A sample of `samples::reservoir` prefers no item and no set of items.
///
/// The sample has k of n items, where n is not known in advance. `items`: of the lists of m words
/// that draw a whole sample, rejected words included, exactly the fraction k / n has a given item
/// in the sample. `sets`: each set of k items is sampled by the same number of lists of n - k
/// words, (n - k)! times the product of floor(2^64 / size) over the sizes of the draws.
/// `rejections`: any two sets are sampled by the same number of lists of m words, which may contain
/// rejected words.
pub fn reservoir_words_are_fair()
    ensures items { SampledItemsAreFair }
    ensures sets { SampledItemSetsAreFair }
    ensures rejections { NoItemSetIsPreferred }
{
    numbers_in_turn_are_fair();
    reservoirs_are_fair();
}

/// The items that `samples::reservoir` keeps are those that follow from the numbers that the
/// generator's words draw in turn, for every generator. So what `reservoir_words_are_fair` says
/// about lists of words applies to `samples::reservoir`.
pub fn reservoirs_draw_in_turn<G: Rng<OUTPUT>, const OUTPUT: usize>()
    ensures { ReservoirsDrawInTurn G.requests }
{}
