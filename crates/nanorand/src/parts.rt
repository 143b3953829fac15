//! Parts of a stream, one for each task of a program that runs on many threads or machines.
ghost use Rattle.std.specs.Prelude.{◌≡◌, ◌↔◌, ◌+◌, ◌*◌, ◌≤◌, ℕ, IfOk, IsOk};
ghost use Rattle.nanorand.specs.generators.Parts.{ComesAgain, GoesOnward, NothingTwice, after_draws, part_at};

use nanorand_core::rand::Rng;
use thiserror::Error;

/// The error of `part`: the part would end beyond the period of the generator, after which its
/// draws repeat.
#[derive(Clone, Copy, Debug, PartialEq, Eq, Error)]
#[error("the part ends past the period of the generator")]
pub struct PastPeriod;

/// A generator whose stream can be divided into parts of equal length, one for each task. `OUTPUT`
/// is the number of bytes of its blocks.
///
/// The stream is what the generator draws from now on. It is counted in draws: a draw is what a
/// `u64` takes, which is a word of 64 bits for `WyRand` and `Pcg64`, a block of 64 bytes for
/// `ChaCha`, and eight bytes for a ChaCha stream. Part 0 is the first `draws` draws, part 1 the
/// next `draws` draws, and so on. What a task draws depends only on the stream, the length and the
/// index of its part, so tasks may run in any order, on any machine, and more than once
/// (`laws::parts_in_any_order`, `laws::parts_as_one_loop`).
///
/// Every implementation proves the following:
///
/// - No state occurs twice within the period. So no state occurs in two parts of the same length of
///   one stream (`laws::all_parts_are_apart`).
/// - From some draw on, each state comes again one period later.
/// - After a request (one read of n bytes), the state is one that a whole number of draws leads to,
///   or a further request of fewer than eight bytes leads to such a state. From the state before
///   the request, this number of draws is at most n / 8, rounded up, and at least 1 if n is not 0.
///
/// These statements are about the states after a whole number of draws. The states within a draw
/// are unspecified. Two different states may draw the same numbers. `laws::wyrand_cycle` and
/// `laws::pcg64_cycles` prove that the blocks of `WyRand` and `Pcg64` have no smaller period. For
/// the blocks of ChaCha this is not known.
pub trait Parts<const OUTPUT: usize>: Rng<OUTPUT> {
    // The number of 64-bit draws after which the states repeat, from some draw on. Before that
    // number of draws, no state occurs twice.
    ghost period: { ℕ };

    /// Returns the generator at the beginning of a part, which is `index * draws` draws ahead. This
    /// generator does not change.
    ///
    /// Returns `PastPeriod` if and only if the part ends beyond the period. Nothing stops a task at
    /// the end of its part: if it draws more than `draws` draws, it continues in the next part.
    fn part(&self, index: u64, draws: u64) -> Result<Self, PastPeriod>
        ensures begins { let outset = part_at Self.requests draws index self.now in
            IfOk result (λ part. part ≡ outset) }
        ensures within { IsOk result ↔ ((index + 1) * draws ≤ period) }
        ensures once { IfOk result (λ _. NothingTwice period
            (λ n. after_draws Self.requests n self.now)) }
        ensures again { IfOk result (λ _. ComesAgain period
            (λ n. after_draws Self.requests n self.now)) };

    // A request of any size advances by whole draws, at most one for each eight bytes begun.
    ghost onward: { (g : Self) (n : ℕ) → GoesOnward Self.requests n g };
}

// Returns the number of draws before a part, if the part ends within the period.
#[inline]
pub(crate) fn draws_before(index: u64, draws: u64, period: u128) -> Result<u128, PastPeriod>
    ensures before { IfOk result (λ before. before ≡ index * draws) }
    ensures within { IsOk result ↔ ((index + 1) * draws ≤ period) }
{
    let draws = u128::from(draws);
    let before = u128::from(index) * draws;
    if before + draws <= period {
        Ok(before)
    } else {
        Err(PastPeriod)
    }
}
