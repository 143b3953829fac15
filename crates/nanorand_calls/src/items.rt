//! Items of any type, as the bytes that they are in memory.
ghost use Rattle.std.specs.Prelude.{◌≡◌, ◌<◌, ◌*◌, ◌/◌, drop, length};
ghost use Rattle.std.specs.List.{swap};
ghost use Rattle.nanorand_calls.specs.Items.{items_of};

use nanorand_core::swap::swap;

// Swaps the items of `size` bytes each at two indices, which may be equal.
//
// It is kept out of line: LLVM vectorizes this loop under a test that the two items do not overlap.
// Inlined into the loop of a shuffle, that test is replaced by one for all the items at once, which
// fails, and the bytes are then swapped one by one. For items of 16 bytes and more, that takes two
// to eight times as long.
#[inline(never)]
pub(crate) fn swap_items(bytes: &mut [u8], size: usize, a: usize, b: usize)
    requires first { a < length bytes.old / size }
    requires second { b < length bytes.old / size }
    ensures items { items_of size bytes.new ≡ swap (items_of size bytes.old) a b }
    ensures rest { let whole = length bytes.old / size * size in
        drop whole bytes.new ≡ drop whole bytes.old }
{
    let first = a * size;
    let second = b * size;
    for place in 0..size {
        swap(bytes, first + place, second + place);
    }
}
