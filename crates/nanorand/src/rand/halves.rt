// 64-bit words from 128-bit numbers.
ghost use Rattle.std.specs.Prelude.{◌≡◌};
ghost use Rattle.nanorand.specs.generators.Halves.{folded};

#[inline]
pub(crate) fn folded(wide: u128) -> u64
    ensures { result ≡ folded wide }
{
    let high = (wide >> 64) as u64;
    let low = (wide & u128::from(u64::MAX)) as u64;
    high ^ low
}
