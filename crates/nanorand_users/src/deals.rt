//! Card deals: no card may be lost, duplicated or held by two players, and a stored deal can be
//! dealt again.
//!
//! The cards of a deck of n cards are the numbers 0, 1, .., n - 1.
ghost use Rattle.std.specs.Prelude.{◌≡◌, ◌+◌, ◌*◌, ◌≤◌, ◌++◌, ℕ, List, length, drop, OnOk, IfErr};
ghost use Rattle.nanorand_core.specs.shuffles.Arrangements.{rising, IsValid, IsArrangement, HoldsEachOnce};
ghost use Rattle.nanorand_core.specs.shuffles.Shuffles.{arranged, from_itself, shuffled};
ghost use Rattle.nanorand_core.specs.declared.values.range.RangeError.TheVariants.{Exhausted};
ghost use Rattle.nanorand_users.specs.Deals.{HoldsNoneTwice, HandsAreApart, hand_of, hands};

use nanorand::laws::permutations_by_counting;
use nanorand::shuffles::{apply_choices, choices_of, identity, shuffle_and_record};
use nanorand::{RangeError, Rng};

/// Writes the full deck in order, and shuffles it.
///
/// Returns `Exhausted` if 128 words in a row were rejected for one card. The deck is then still a
/// permutation of all cards, shuffled up to that card.
pub fn shuffle_deck<G: Rng<OUTPUT>, const OUTPUT: usize>(
    rng: &mut G,
    deck: &mut [usize],
) -> Result<(), RangeError>
    ensures answer { result ≡ (shuffled G.requests from_itself rng.old deck.old).answer }
    ensures refusal { IfErr result (λ e. e ≡ Exhausted) }
    ensures drawn { let shuffle = shuffled G.requests from_itself rng.old deck.old in
        deck.new ≡ arranged shuffle.choices (rising (length deck.old)) }
    ensures state { rng.new ≡ (shuffled G.requests from_itself rng.old deck.old).state }
    ensures whole { let shuffle = shuffled G.requests from_itself rng.old deck.old in
        OnOk result (length shuffle.choices ≡ length deck.old) }
    ensures valid { let shuffle = shuffled G.requests from_itself rng.old deck.old in
        OnOk result (IsValid shuffle.choices) }
    ensures arrangement { IsArrangement deck.new }
    ensures each_once { HoldsEachOnce (length deck.old) deck.new }
    ensures none_twice { HoldsNoneTwice deck.new }
{
    permutations_by_counting();
    identity(deck);
    rng.shuffle(deck)
}

/// Writes the full deck in order, shuffles it, and stores it as choices: on success, these are the
/// choices that were drawn.
///
/// After an error, the stored choices produce the deck as the failed shuffle left it.
pub fn shuffle_and_store<G: Rng<OUTPUT>, const OUTPUT: usize>(
    rng: &mut G,
    deck: &mut [usize],
    choices: &mut [usize],
) -> Result<(), RangeError>
    requires { length choices.old ≡ length deck.old }
    ensures answer { result ≡ (shuffled G.requests from_itself rng.old deck.old).answer }
    ensures deck { let shuffle = shuffled G.requests from_itself rng.old deck.old in
        deck.new ≡ arranged shuffle.choices (rising (length deck.old)) }
    ensures state { rng.new ≡ (shuffled G.requests from_itself rng.old deck.old).state }
    ensures valid { IsValid choices.new }
    ensures stored { arranged choices.new (rising (length deck.old)) ≡ deck.new }
    ensures drawn { let shuffle = shuffled G.requests from_itself rng.old deck.old in
        OnOk result (choices.new ≡ shuffle.choices) }
{
    identity(deck);
    shuffle_and_record(rng, deck, choices)
}

/// Stores as choices a deck that holds each card once, no matter how it was shuffled.
///
/// `scratch` is working memory; its contents afterwards are unspecified.
pub fn store_deck(deck: &[usize], choices: &mut [usize], scratch: &mut [usize])
    requires choices { length choices.old ≡ length deck.now }
    requires scratch { length scratch.old ≡ length deck.now }
    requires each_once { HoldsEachOnce (length deck.now) deck.now }
    ensures valid { IsValid choices.new }
    ensures stored { arranged choices.new (rising (length deck.now)) ≡ deck.now }
{
    permutations_by_counting();
    // Such a deck is a permutation, so this never returns an error.
    let _ = choices_of(deck, choices, scratch);
}

/// Deals a stored deck again: writes the deck that the choices produce.
pub fn deal_again(choices: &[usize], deck: &mut [usize])
    requires lengths { length choices.now ≡ length deck.old }
    requires valid { IsValid choices.now }
    ensures deck { deck.new ≡ arranged choices.now (rising (length deck.old)) }
    ensures arrangement { IsArrangement deck.new }
{
    identity(deck);
    apply_choices(choices, deck);
}

/// Returns the hand of one player: `size` cards, after those of the players before. Players are
/// counted from 0.
pub fn hand(deck: &[usize], size: usize, player: usize) -> &[usize]
    requires { (player + 1) * size ≤ length deck.now }
    ensures cards { result.now ≡ hand_of size player deck.now }
    ensures size { length result.now ≡ size }
{
    &deck[player * size..][..size]
}

/// Returns the cards that are left after the hands of all players.
pub fn rest(deck: &[usize], size: usize, players: usize) -> &[usize]
    requires { players * size ≤ length deck.now }
    ensures { result.now ≡ drop (players * size) deck.now }
{
    &deck[players * size..]
}

/// The hands, one after another, followed by the rest are the whole deck.
pub fn hands_and_rest_are_the_deck()
    ensures { (size players : ℕ) (deck : List ℕ)
        → hands size players deck ++ drop (players * size) deck ≡ deck }
{}

/// In a deck that holds no card twice, no card is in two hands, and none is twice in one hand.
pub fn hands_are_apart()
    ensures { (size players : ℕ) (deck : List ℕ) → players * size ≤ length deck
        → HoldsNoneTwice deck
        → HandsAreApart size players deck }
{}
