//! The lines that are drawn from a list.
ghost use Rattle.lots_core.specs.Arguments.{Asked};
ghost use Rattle.lots_core.specs.Lists.{lines_of};
ghost use Rattle.lots_core.specs.Selection.{DrawnFrom};

use crate::arguments::Count;
use crate::draws::draw;
use crate::entrants::entrants_of;
use crate::error::LotsError;
use std::alloc::Allocator;

/// Draws from the entrants of a list, as the seed determines. Returns all entrants and how many are
/// drawn: these come first, in the order in which they were drawn.
///
/// Returns the errors of `entrants_of` and `draw`.
pub fn draw_lines<'a, A: Allocator>(
    alloc: A,
    seed: &str,
    count: Count,
    list: &'a [u8],
) -> Result<(Vec<&'a [u8], A>, usize), LotsError>
    ensures { DrawnFrom (record { seed = seed.now; count = count }) (lines_of list.now) result }
{
    let mut entrants = entrants_of(alloc, list)?;
    let drawn = count.among(entrants.len());
    draw(seed, &mut entrants, drawn)?;
    Ok((entrants, drawn))
}
