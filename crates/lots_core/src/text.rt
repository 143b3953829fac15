//! The text of the entrants drawn.
ghost use Rattle.std.specs.Prelude.{◌≡◌, ◌++◌, map, IfOk, OnOk};
ghost use Rattle.lots_core.specs.Text.{text_of};

use std::alloc::{AllocError, Allocator};

/// Returns the text of the lines, each ended by a line feed.
pub fn text_of<A: Allocator>(alloc: A, lines: &[&[u8]]) -> Result<Vec<u8, A>, AllocError>
    ensures { IfOk result (λ text. text.items ≡ text_of (map (λ line. line.now) lines.now)) }
{
    let mut text = Vec::new(alloc);
    'lines: for line in lines {
        text.extend_from_slice(line)?;
        text.push(b'\n')?;
    }
    Ok(text)
}
