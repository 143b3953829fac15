//! The draw by lot of `lots_core`, on the caller's memory.
ghost use Rattle.std.specs.Prelude.{◌≡◌, ◌≢◌, ◌⊎◌, ◌↔◌, [], ◌<◌, ◌≤◌, Ok, Err, length, take};
ghost use Rattle.std.specs.Str.{IsUtf8};
ghost use Rattle.sha2.specs.Sha256.{sha256};
ghost use Rattle.nanorand_core.specs.shuffles.Arrangements.{IsArrangement, rising};
ghost use Rattle.nanorand_core.specs.declared.values.range.RangeError.TheVariants.{Exhausted};
ghost use Rattle.lots_core.specs.Draws.{drawing, places_drawn};
ghost use Rattle.lots_core.specs.Lists.{AreFull, IsFirstEmpty, lines_of};

use lots_core::{LotsError, count_entrants, draw_places};
use sha2::{Digest, Sha256};

/// The status of a call of the draw by lot: 0, or the reason why it failed, which is an exit status
/// of the program `lots`.
pub type LotsStatus = u32;

/// Writes the SHA-256 of the text to `digest`.
#[unsafe(no_mangle)]
pub extern "C" fn nanorand_v1_lots_digest(text: &[u8], digest: &mut [u8; 32])
    ensures { digest.new ≡ sha256 text.now }
{
    *digest = Sha256::digest(text);
}

/// Counts the entrants of a list, which has one entrant on each line; the last line may lack its
/// line feed. Returns NANORAND_LOTS_OK and writes the number of entrants to `number`; or returns
/// NANORAND_LOTS_EMPTY_LINE, and writes the number of the first empty line, counted from 1.
#[unsafe(no_mangle)]
pub extern "C" fn nanorand_v1_lots_count(list: &[u8], number: &mut usize) -> LotsStatus
    ensures status { (result ≡ 0) ⊎ (result ≡ 4) }
    ensures number { result ≡ 0 → number.new ≡ length (lines_of list.now) }
    ensures full { result ≡ 0 → AreFull (lines_of list.now) }
    ensures empty { result ≡ 4 → IsFirstEmpty (lines_of list.now) number.new }
{
    match count_entrants(list) {
        Ok(entrants) => {
            *number = entrants;
            0
        }
        Err(LotsError::EmptyLine(line)) => {
            *number = line;
            u32::from(LotsError::EmptyLine(line).status())
        }
        Err(error) => u32::from(error.status()),
    }
}

/// Draws `wanted` of the places 0, 1, .. as the seed determines. There are `population` places,
/// and `places` has an item for each; the old values of the items are ignored. Afterwards, the
/// first `wanted` items are the places drawn, in the order drawn, and the other items are the other
/// places, in some order.
///
/// Returns NANORAND_LOTS_OK; or NANORAND_LOTS_BAD_SEED if the seed is empty or not valid UTF-8; or
/// NANORAND_LOTS_TOO_FEW if more places are wanted than there are; or NANORAND_LOTS_EXHAUSTED if
/// 128 words in a row were rejected for one place. After NANORAND_LOTS_BAD_SEED, the items are
/// unchanged. After the last two, the items are the places in some order, which is not a selection.
#[unsafe(no_mangle)]
pub extern "C" fn nanorand_v1_lots_draw(
    seed: &[u8],
    places: &mut [usize],
    wanted: usize,
) -> LotsStatus
    ensures status { (result ≡ 0) ⊎ (result ≡ 2) ⊎ (result ≡ 3) ⊎ (result ≡ 8) }
    ensures drawn { result ≡ 0 →
        take wanted places.new ≡ places_drawn seed.now wanted (length places.old) }
    ensures enough { result ≡ 0 → wanted ≤ length places.old }
    ensures answer { result ≡ 0 →
        (drawing seed.now wanted (rising (length places.old))).answer ≡ Ok tt }
    ensures usage { (result ≡ 2) ↔ (IsUtf8 seed.now → seed.now ≡ []) }
    ensures stays { result ≡ 2 → places.new ≡ places.old }
    ensures few { IsUtf8 seed.now → seed.now ≢ [] → length places.old < wanted → result ≡ 3 }
    ensures fewer { result ≡ 3 → length places.old < wanted }
    ensures arrangement { result ≢ 2 → IsArrangement places.new }
    ensures exhausted { result ≡ 8 →
        (drawing seed.now wanted (rising (length places.old))).answer ≡ Err Exhausted }
{
    match str::from_utf8(seed) {
        Ok(seed) if !seed.is_empty() => match draw_places(seed, places, wanted) {
            Ok(()) => 0,
            Err(error) => u32::from(error.status()),
        },
        _ => u32::from(LotsError::Usage.status()),
    }
}
