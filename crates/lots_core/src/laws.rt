//! Laws of the draw. Each contract states a law. The functions do nothing; a proof calls one to use
//! its law.
ghost use Rattle.lots_core.specs.Fairness.{AllAreDrawn, DrawsBeginAlike, EntrantsByPlaces, ListsAreDrawnEquallyOften, PlacesAreDifferent, RejectionsPreferNoList, SeedsDrawByWords, SharesAreEqual, WordsAreTheKeyStream};

use nanorand::laws::{
    fresh_delivery, partial_shuffles, permutations_by_counting, shuffles_are_fair,
    shuffles_draw_in_turn, unbroken_delivery,
};
use nanorand::{BufferedRng, ChaCha20};

/// No list of places is preferred, and neither is any place.
///
/// A draw of `count` of n places takes one word of 64 bits for each place, and one more for each
/// rejected word. `lists`: each list of `count` different places is drawn by the same number of
/// sequences of `count` words, which is the product of floor(2^64 / n), floor(2^64 / (n - 1)), ..
/// `rejections`: of all sequences of m words that draw a list, with or without rejected words,
/// exactly one in n (n - 1) .. (n - count + 1) draws a given list of places. `shares`: of the same
/// sequences, exactly `count` in n draw a given place. So any two places are drawn by the same
/// number of sequences.
///
/// The law does not say that all places are drawn by the same number of seeds. A seed yields one
/// sequence of words.
pub fn draws_are_fair()
    ensures lists { ListsAreDrawnEquallyOften }
    ensures rejections { RejectionsPreferNoList }
    ensures shares { SharesAreEqual }
{
    shuffles_are_fair();
}

/// What a seed draws, in terms of its words.
///
/// `words`: the words of a seed are its keystream (ChaCha20 with the SHA-256 of the seed as the
/// key), read as little-endian words of 8 bytes without gaps. `draws`: a seed draws the places that
/// these words draw. So what `draws_are_fair` says about sequences of words holds for the words of
/// a seed.
pub fn seeds_draw_by_words()
    ensures words { WordsAreTheKeyStream }
    ensures draws { SeedsDrawByWords }
{
    unbroken_delivery::<ChaCha20, 64>();
    fresh_delivery::<ChaCha20, 64>();
    shuffles_draw_in_turn::<BufferedRng<ChaCha20, 64>, usize, 64>();
}

/// A draw loses no entrant and draws no entrant twice, for entrants of every type.
///
/// `places`: the entrants drawn are those at the places drawn, which are different by
/// `places_are_different`. `all`: a draw of all entrants is a permutation of them. `begins`: a draw
/// of k entrants is the first k of a draw of all.
pub fn draws_lose_nobody<T>()
    ensures places { EntrantsByPlaces T }
    ensures all { AllAreDrawn T }
    ensures begins { DrawsBeginAlike T }
{
    partial_shuffles::<BufferedRng<ChaCha20, 64>, T, 64>();
}

/// A draw of `count` of n places draws `count` different places, each of them below n.
pub fn places_are_different()
    ensures { PlacesAreDifferent }
{
    partial_shuffles::<BufferedRng<ChaCha20, 64>, usize, 64>();
    permutations_by_counting();
}
