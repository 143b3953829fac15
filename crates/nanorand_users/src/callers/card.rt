//! A user's own value type with an invariant, and its range: a playing card.
ghost use Rattle.std.specs.Prelude.{◌≡◌, ℕ, ◌<◌, ◌*◌, ◌+◌, IfOk};
ghost use Rattle.nanorand_core.specs.values.Draws.{unsigned_outcome};
ghost use Rattle.nanorand_users.specs.Card.{EndsInPack, card_after, card_end, card_value};

use nanorand::{RandomGen, RandomRange, RangeError, Rng};
use std::marker::Model;
use std::ops::Bound;

/// A playing card: four suits of thirteen ranks.
#[derive(Clone, Copy, Drop)]
pub struct Card {
    number: u8,
}

// A card is modelled by its number, from 0 to 51.
impl Model for Card {
    ghost use Rattle.std.specs.Prelude.{ℕ, ◌<◌};

    ghost Value = { ℕ };

    ghost view = { λ card. card.number };

    ghost inverse = { λ number. record { number = number } };

    ghost invariant = { λ card. card.number < 52 };
}

impl Card {
    /// Returns the card of a suit, from 0 to 3, and a rank, from 0 to 12.
    pub fn new(suit: u8, rank: u8) -> Self
        requires suit { suit < 4 }
        requires rank { rank < 13 }
        ensures { result ≡ 13 * suit + rank }
    {
        Card {
            number: 13 * suit + rank,
        }
    }

    /// Returns the suit, from 0 to 3.
    pub fn suit(&self) -> u8
        ensures { result < 4 }
    {
        self.number / 13
    }

    /// Returns the rank, from 0 to 12.
    pub fn rank(&self) -> u8
        ensures { result < 13 }
    {
        self.number % 13
    }
}

/// Draws a card of the pack. A value type cannot return an error: after 128 rejected words, the
/// card is the first one.
impl<G: Rng<OUTPUT>, const OUTPUT: usize> RandomGen<G, OUTPUT> for Card {
    ghost value = { card_value G.requests };

    ghost state_after = { card_after G.requests };

    fn random(rng: &mut G) -> Card {
        match rng.generate_range(Bound::Included(0), Bound::Excluded(52)) {
            Ok(number) => Card { number },
            Err(_) => Card { number: 0 },
        }
    }
}

/// Draws a card whose number is within the numbers of the bounds.
impl<G: Rng<OUTPUT>, const OUTPUT: usize> RandomRange<G, OUTPUT> for Card {
    ghost outcome = { λ g low high. unsigned_outcome G.requests 8 g low (card_end high) };

    fn random_range(rng: &mut G, low: Bound<Card>, high: Bound<Card>) -> Result<Card, RangeError>
        ensures value { result ≡ (unsigned_outcome G.requests 8 rng.old low (card_end high)).0 }
        ensures state { rng.new ≡ (unsigned_outcome G.requests 8 rng.old low (card_end high)).1 }
    {
        let number = rng.generate_range(number_of(low), end_of(high))?;
        Ok(Card { number })
    }
}

// Returns a low bound as a number.
fn number_of(bound: Bound<Card>) -> Bound<u8>
    ensures { result ≡ bound }
{
    match bound {
        Bound::Included(card) => Bound::Included(card.number),
        Bound::Excluded(card) => Bound::Excluded(card.number),
        Bound::Unbounded => Bound::Unbounded,
    }
}

// Returns a high bound as a number. Without a bound, the range ends with the pack.
fn end_of(bound: Bound<Card>) -> Bound<u8>
    ensures value { result ≡ card_end bound }
    ensures pack { EndsInPack result }
{
    match bound {
        Bound::Included(card) => Bound::Included(card.number),
        Bound::Excluded(card) => Bound::Excluded(card.number),
        Bound::Unbounded => Bound::Excluded(52),
    }
}
