//! The draw: the random words that a seed produces, and the entrants that they select.
ghost use Rattle.std.specs.Prelude.{◌≡◌, ◌⊎◌, ◌<◌, ◌≤◌, length, take, IsPermutation, IfErr, OnOk};
ghost use Rattle.nanorand_core.specs.shuffles.Arrangements.{rising, IsArrangement};
ghost use Rattle.nanorand_core.specs.declared.values.range.RangeError.TheVariants as ranges;
ghost use Rattle.lots_core.specs.Draws.{drawing, drawn, places_drawn, start_of};
ghost use Rattle.lots_core.specs.declared.error.LotsError.TheVariants.{TooFew, Exhausted};

use crate::error::LotsError;
use nanorand::shuffles::partial_shuffle;
use nanorand::{BufferedRng, ChaCha20};
use sha2::{Digest, Sha256};

/// Returns the generator of a seed: the keystream of ChaCha20, read as little-endian words (random
/// integers) of 64 bits. The key is the SHA-256 of the seed; the nonce and the counter are 0.
fn words_of(seed: &str) -> BufferedRng<ChaCha20, 64>
    ensures { result ≡ start_of seed.now }
{
    BufferedRng::new(ChaCha20::new_key(Sha256::digest(seed), [0; 8]))
}

/// Draws `count` of the entrants, as the seed determines. The first `count` items are then the
/// entrants drawn, in the order in which they were drawn, and the others follow. Nothing is
/// allocated.
///
/// Returns `TooFew` if and only if there are fewer entrants than `count`; nothing is moved then.
/// Returns `Exhausted` if 128 words in a row were rejected for one place; the items are then a
/// permutation of the entrants, and not a selection.
pub fn draw<T>(seed: &str, entrants: &mut [T], count: usize) -> Result<(), LotsError>
    ensures drawn { OnOk result (take count entrants.new ≡ drawn seed.now count entrants.old) }
    ensures enough { OnOk result (count ≤ length entrants.old) }
    ensures answer { OnOk result ((drawing seed.now count entrants.old).answer ≡ Ok tt) }
    ensures arrangement { IsPermutation entrants.old entrants.new }
    ensures few { length entrants.old < count →
        (result ≡ Err (TooFew (length entrants.old) count)) × (entrants.new ≡ entrants.old) }
    ensures exhausted { result ≡ Err Exhausted →
        (drawing seed.now count entrants.old).answer ≡ Err ranges.Exhausted }
    ensures refusal { IfErr result (λ error. (error ≡ Exhausted)
        ⊎ ((length entrants.old < count) × (error ≡ TooFew (length entrants.old) count))) }
{
    let there = entrants.len();
    if there < count {
        return Err(LotsError::TooFew {
            entrants: there,
            count,
        });
    }
    partial_shuffle(&mut words_of(seed), entrants, count).map_err(|_| LotsError::Exhausted)
}

/// Numbers the places: 0, 1, ..
fn number(places: &mut [usize])
    ensures { places.new ≡ rising (length places.old) }
{
    'places: for (index, place) in places.iter_mut().enumerate() {
        *place = index;
    }
}

/// Draws `count` of the places 0, 1, .., as the seed determines. There are as many places as items.
/// The first `count` items are then the places drawn, in the order in which they were drawn; the
/// old items are ignored.
///
/// Returns the errors of `draw`. The items are then the places in some order, and not a selection.
pub fn draw_places(seed: &str, places: &mut [usize], count: usize) -> Result<(), LotsError>
    ensures drawn { OnOk result
        (take count places.new ≡ places_drawn seed.now count (length places.old)) }
    ensures enough { OnOk result (count ≤ length places.old) }
    ensures answer { OnOk result
        ((drawing seed.now count (rising (length places.old))).answer ≡ Ok tt) }
    ensures arrangement { IsArrangement places.new }
    ensures few { length places.old < count →
        result ≡ Err (TooFew (length places.old) count) }
    ensures exhausted { result ≡ Err Exhausted →
        (drawing seed.now count (rising (length places.old))).answer ≡ Err ranges.Exhausted }
    ensures refusal { IfErr result (λ error. (error ≡ Exhausted)
        ⊎ ((length places.old < count) × (error ≡ TooFew (length places.old) count))) }
{
    number(places);
    draw(seed, places, count)
}
