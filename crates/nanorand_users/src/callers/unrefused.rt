//! Draws that never return an error, since the number of possible results divides the number of
//! words: for words of each width, and without a line of proof.
ghost use Rattle.std.specs.Prelude.{◌≡◌, ◌≤◌, ◌<◌, ◌^◌, ◌%◌, length, IsOk};

use nanorand::choices::{below, between, choose, choose_mut, ratio};
use nanorand::{RangeError, Rng, WyRand};
use std::ops::Bound;

pub fn bytes(rng: &mut WyRand) -> Result<u8, RangeError>
    ensures { IsOk result }
{
    below(rng, 64)
}

pub fn words_of_16<G: Rng<OUTPUT>, const OUTPUT: usize>(rng: &mut G) -> Result<u16, RangeError>
    ensures { IsOk result }
{
    below(rng, 1024)
}

pub fn words_of_32<G: Rng<OUTPUT>, const OUTPUT: usize>(rng: &mut G) -> Result<u32, RangeError>
    ensures { IsOk result }
{
    below(rng, 1 << 31)
}

pub fn words_of_64<G: Rng<OUTPUT>, const OUTPUT: usize>(rng: &mut G) -> Result<u64, RangeError>
    ensures { IsOk result }
{
    below(rng, 1 << 53)
}

pub fn sizes<G: Rng<OUTPUT>, const OUTPUT: usize>(rng: &mut G) -> Result<usize, RangeError>
    ensures { IsOk result }
{
    below(rng, 4096)
}

pub fn signed_bytes<G: Rng<OUTPUT>, const OUTPUT: usize>(rng: &mut G) -> Result<i8, RangeError>
    ensures { IsOk result }
{
    below(rng, -96)
}

pub fn signed_words<G: Rng<OUTPUT>, const OUTPUT: usize>(rng: &mut G) -> Result<i64, RangeError>
    ensures { IsOk result }
{
    between(rng, -8, 7)
}

pub fn of_a_size<G: Rng<OUTPUT>, const OUTPUT: usize>(
    rng: &mut G,
    n: u64,
) -> Result<u64, RangeError>
    requires some { 0 < n }
    requires divides { 2 ^ 64 % n ≡ 0 }
    ensures { IsOk result }
{
    below(rng, n)
}

pub fn ports<G: Rng<OUTPUT>, const OUTPUT: usize>(rng: &mut G) -> Result<u16, RangeError>
    ensures { IsOk result }
{
    between(rng, 49152, 65535)
}

pub fn hours<G: Rng<OUTPUT>, const OUTPUT: usize>(rng: &mut G) -> Result<u32, RangeError>
    ensures { IsOk result }
{
    rng.generate_range(Bound::Included(8), Bound::Excluded(16))
}

pub fn chances<G: Rng<OUTPUT>, const OUTPUT: usize>(rng: &mut G) -> Result<bool, RangeError>
    ensures { IsOk result }
{
    ratio(rng, 3, 8)
}

pub fn suits<'a, G: Rng<OUTPUT>, const OUTPUT: usize>(
    rng: &mut G,
    suits: &'a [u8; 4],
) -> Result<&'a u8, RangeError>
    ensures { IsOk result }
{
    choose(rng, suits)
}

pub fn counters<'a, G: Rng<OUTPUT>, const OUTPUT: usize>(
    rng: &mut G,
    counters: &'a mut [u32],
) -> Result<&'a mut u32, RangeError>
    requires { length counters.old ≡ 16 }
    ensures { IsOk result }
{
    choose_mut(rng, counters)
}

pub fn range_u8<G: Rng<OUTPUT>, const OUTPUT: usize>(rng: &mut G) -> Result<u8, RangeError>
    ensures { IsOk result }
{
    rng.generate_range(Bound::Included(0), Bound::Excluded(8))
}

pub fn range_u16<G: Rng<OUTPUT>, const OUTPUT: usize>(rng: &mut G) -> Result<u16, RangeError>
    ensures { IsOk result }
{
    rng.generate_range(Bound::Included(100), Bound::Excluded(356))
}

pub fn range_u64<G: Rng<OUTPUT>, const OUTPUT: usize>(rng: &mut G) -> Result<u64, RangeError>
    ensures { IsOk result }
{
    rng.generate_range(Bound::Included(1), Bound::Included(1024))
}

pub fn range_usize<G: Rng<OUTPUT>, const OUTPUT: usize>(rng: &mut G) -> Result<usize, RangeError>
    ensures { IsOk result }
{
    rng.generate_range(Bound::Unbounded, Bound::Excluded(64))
}

pub fn range_i8<G: Rng<OUTPUT>, const OUTPUT: usize>(rng: &mut G) -> Result<i8, RangeError>
    ensures { IsOk result }
{
    rng.generate_range(Bound::Included(-4), Bound::Excluded(4))
}

pub fn range_i16<G: Rng<OUTPUT>, const OUTPUT: usize>(rng: &mut G) -> Result<i16, RangeError>
    ensures { IsOk result }
{
    rng.generate_range(Bound::Included(-400), Bound::Excluded(-144))
}

pub fn range_i32<G: Rng<OUTPUT>, const OUTPUT: usize>(rng: &mut G) -> Result<i32, RangeError>
    ensures { IsOk result }
{
    rng.generate_range(Bound::Included(-8), Bound::Included(7))
}

pub fn range_i64<G: Rng<OUTPUT>, const OUTPUT: usize>(rng: &mut G) -> Result<i64, RangeError>
    ensures { IsOk result }
{
    rng.generate_range(Bound::Included(-8), Bound::Included(7))
}

pub fn range_isize<G: Rng<OUTPUT>, const OUTPUT: usize>(rng: &mut G) -> Result<isize, RangeError>
    ensures { IsOk result }
{
    rng.generate_range(Bound::Included(-8), Bound::Included(7))
}

pub fn between_u8<G: Rng<OUTPUT>, const OUTPUT: usize>(rng: &mut G) -> Result<u8, RangeError>
    ensures { IsOk result }
{
    between(rng, 0, 7)
}

pub fn between_u32<G: Rng<OUTPUT>, const OUTPUT: usize>(rng: &mut G) -> Result<u32, RangeError>
    ensures { IsOk result }
{
    between(rng, 1, 32)
}

pub fn between_u64<G: Rng<OUTPUT>, const OUTPUT: usize>(rng: &mut G) -> Result<u64, RangeError>
    ensures { IsOk result }
{
    between(rng, 1, 32)
}

pub fn between_usize<G: Rng<OUTPUT>, const OUTPUT: usize>(rng: &mut G) -> Result<usize, RangeError>
    ensures { IsOk result }
{
    between(rng, 1, 32)
}

pub fn between_i8<G: Rng<OUTPUT>, const OUTPUT: usize>(rng: &mut G) -> Result<i8, RangeError>
    ensures { IsOk result }
{
    between(rng, -1, 2)
}

pub fn between_i16<G: Rng<OUTPUT>, const OUTPUT: usize>(rng: &mut G) -> Result<i16, RangeError>
    ensures { IsOk result }
{
    between(rng, -1, 2)
}

pub fn between_i32<G: Rng<OUTPUT>, const OUTPUT: usize>(rng: &mut G) -> Result<i32, RangeError>
    ensures { IsOk result }
{
    between(rng, -1, 2)
}

pub fn between_isize<G: Rng<OUTPUT>, const OUTPUT: usize>(rng: &mut G) -> Result<isize, RangeError>
    ensures { IsOk result }
{
    between(rng, -1, 2)
}
