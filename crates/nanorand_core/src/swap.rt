//! Swaps two items of a slice without a branch.
ghost use Rattle.std.specs.Prelude.{◌≡◌, ◌<◌, length};
ghost use Rattle.std.specs.List.{swap};

/// Swaps the items at two indices, which may be equal.
///
/// Both items are read and written in any case, without a branch. `swap` of Rattle's std tests
/// whether the indices are equal. In a shuffle they are equal at random, so in short slices that
/// branch is often mispredicted, which costs more than the swap.
///
/// Precondition: both indices are below the length.
pub fn swap<T>(items: &mut [T], a: usize, b: usize)
    requires { (a < length items.old) × (b < length items.old) }
    ensures { items.new ≡ swap items.old a b }
{
    let start = items.as_mut_ptr();
    // SAFETY: both indices are in bounds. Each item is moved out once and in once; if the indices
    // are equal, the same item is read twice and written twice.
    unsafe {
        let first = start.add(a);
        let second = start.add(b);
        let item = first.read();
        first.write(second.read());
        second.write(item);
    }
}
