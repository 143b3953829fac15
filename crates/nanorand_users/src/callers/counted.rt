//! What the laws of whole draws say about a die, tiles, a hand of cards and winners.
ghost use Rattle.std.specs.Prelude.{◌≡◌, ℕ, ◌*◌, ◌<◌, ◌^◌, ◌==◌, Bool, List, [], ◌∷◌, length, is_none, option_map, count_by, OnOk};
ghost use Rattle.std.specs.List.{list_all, list_any, range_with_len};
ghost use Rattle.std.specs.Cmp.Lexicographic.{pointwise};
ghost use Rattle.nanorand_core.specs.values.Draws.{next_word, after_word, words_from};
ghost use Rattle.nanorand_core.specs.values.Fairness.{passes};
ghost use Rattle.nanorand_core.specs.choices.Weighted.{item_at};
ghost use Rattle.nanorand_core.specs.shuffles.Arrangements.{rising};
ghost use Rattle.nanorand_core.specs.shuffles.Shuffles.{arranged};
ghost use Rattle.nanorand_fairness.specs.Lists.{lists_that, number_by_words};
ghost use Rattle.nanorand_fairness.specs.InTurn.{numbers_in_turn, word_lists_that};
ghost use Rattle.nanorand_fairness.specs.Deals.{choices_by, deal_sizes, dealt, IsDeal};
ghost use Rattle.nanorand_fairness.specs.Samples.{sample_by, sample_sizes};
ghost use Rattle.nanorand_fairness.specs.Reservoirs.{later_sizes, reservoir_by};
ghost use Rattle.nanorand.specs.generators.WyRand as wyrand;

use nanorand::laws::{
    fairness_with_rejections, full_shuffles_prefer_orders, partial_shuffles,
    reservoir_words_are_fair, sampled_sets_are_fair, samples_draw_in_turn, shuffles_are_fair,
    shuffles_draw_in_turn, words_of_a_draw, wyrand_words_are_not_equally_frequent,
};
use nanorand::samples::sample;
use nanorand::shuffles::shuffle_and_record;
use nanorand::{RangeError, WyRand};

/// Of the 2^24 lists of three bytes, 64 leave a throw of a die undecided: 4 of the 256 bytes are
/// rejected.
pub fn throws_that_wait()
    ensures { lists_that 8 3 (λ words. is_none (number_by_words 8 6 words)) ≡ 64 }
{
    words_of_a_draw();
}

/// Of tiles with the weights 6, 3 and 1, the first is chosen by twice as many lists of ten words as
/// the second.
pub fn tiles_by_weight()
    ensures { let kind = option_map (item_at (6 ∷ 3 ∷ 1 ∷ [])) in
        let drawn = number_by_words 64 10 in
        lists_that 64 10 (λ words. passes (λ j. j == 0) (kind (drawn words)))
        ≡ 2 * lists_that 64 10 (λ words. passes (λ j. j == 1) (kind (drawn words))) }
{
    fairness_with_rejections();
}

/// Any two hands of five cards of a deck are dealt by the same number of lists of five words.
pub fn hands_are_alike()
    ensures { (hand other : List ℕ) → IsDeal 5 52 hand → IsDeal 5 52 other
        → let deals = word_lists_that 64 5 (deal_sizes 5 52) in
        deals (λ numbers. pointwise ◌==◌ (dealt 5 52 numbers) hand)
        ≡ deals (λ numbers. pointwise ◌==◌ (dealt 5 52 numbers) other) }
{
    shuffles_are_fair();
}

/// Any two cards are in a hand of five cards of a deck for the same number of lists of n words.
pub fn cards_are_alike()
    ensures { (n card other : ℕ) → card < 52 → other < 52
        → let deals = word_lists_that 64 n (deal_sizes 5 52) in
        deals (λ numbers. list_any (λ item. item == card) (dealt 5 52 numbers))
        ≡ deals (λ numbers. list_any (λ item. item == other) (dealt 5 52 numbers)) }
{
    shuffles_are_fair();
}

/// If each of three cards is swapped with any of the three, fewer lists of three words leave the
/// cards in order than swap the first two.
pub fn orders_are_not_alike()
    ensures { let makes = λ (order : List ℕ). word_lists_that 64 3 (3 ∷ 3 ∷ 3 ∷ [])
        (λ choices. pointwise ◌==◌ (arranged choices (rising 3)) order) in
        makes (0 ∷ 1 ∷ 2 ∷ []) < makes (1 ∷ 0 ∷ 2 ∷ []) }
{
    full_shuffles_prefer_orders();
}

/// Any three of ten entrants win by the same number of lists of three words.
pub fn winners_are_alike()
    ensures { (three others : ℕ → Bool)
        → count_by three (range_with_len 0 10) ≡ 3 → count_by others (range_with_len 0 10) ≡ 3
        → let wins = word_lists_that 64 3 (sample_sizes 3 10) in
        wins (λ draws. list_all three (sample_by 7 draws []))
        ≡ wins (λ draws. list_all others (sample_by 7 draws [])) }
{
    sampled_sets_are_fair();
}

/// A reservoir keeps any three of ten lines by the same number of lists of seven words.
pub fn lines_are_alike()
    ensures { (three others : ℕ → Bool)
        → count_by three (range_with_len 0 10) ≡ 3 → count_by others (range_with_len 0 10) ≡ 3
        → let keeps = word_lists_that 64 7 (later_sizes 3 10) in
        keeps (λ slots. list_all three (reservoir_by 3 slots))
        ≡ keeps (λ slots. list_all others (reservoir_by 3 slots)) }
{
    reservoir_words_are_fair();
}

/// Draws three of ten entrants. The winners are determined by the numbers that the next words of
/// the generator draw in turn.
pub fn winners_by_words(rng: &mut WyRand, winners: &mut [usize; 3]) -> Result<(), RangeError>
    ensures { let requests = wyrand.wyrand_requests in
        let words = words_from (next_word requests 64) (after_word requests 64) 384 rng.old in
        OnOk result (winners.new ≡ sample_by 7 (numbers_in_turn 64 (sample_sizes 3 10) words) []) }
{
    samples_draw_in_turn::<WyRand, 8>();
    sample(rng, 10, winners)
}

/// Shuffles five cards and records the choices. The choices are determined by the numbers that the
/// next words of the generator draw in turn.
pub fn choices_by_words(
    rng: &mut WyRand,
    cards: &mut [u8; 5],
    choices: &mut [usize; 5],
) -> Result<(), RangeError>
    ensures { let requests = wyrand.wyrand_requests in
        let words = words_from (next_word requests 64) (after_word requests 64) 640 rng.old in
        OnOk result (choices.new ≡ choices_by 0 (numbers_in_turn 64 (deal_sizes 5 5) words)) }
{
    partial_shuffles::<WyRand, u8, 8>();
    shuffles_draw_in_turn::<WyRand, u8, 8>();
    shuffle_and_record(rng, cards, choices)
}

/// If you wait until a `WyRand` has drawn every 64-bit word, you wait in vain.
pub fn waits_in_vain()
    ensures { (seed : ℕ)
        → ¬ ((w : ℕ) → w < 2 ^ 64 → (n : ℕ) × (wyrand.word (wyrand.seed_after n seed) ≡ w)) }
{
    wyrand_words_are_not_equally_frequent();
}
