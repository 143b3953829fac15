//! 128-bit numbers, which C receives as two halves.
ghost use Rattle.std.specs.Prelude.{◌≡◌};
ghost use Rattle.nanorand_calls.specs.WideNumber.{wide_number};

/// A 128-bit number, as its low and its high 64 bits. As the seed of Pcg64, it is the state itself,
/// and is not mixed: generators with neighbouring seeds draw correlated numbers.
#[derive(Clone, Copy)]
#[repr(C)]
pub struct Wide {
    pub low: u64,
    pub high: u64,
}

pub(crate) fn joined(wide: &Wide) -> u128
    ensures { result ≡ wide_number wide.now }
{
    u128::from(wide.low) | u128::from(wide.high) << 64
}

pub(crate) fn split(wide: u128) -> Wide
    ensures { wide_number result ≡ wide }
{
    Wide {
        low: (wide % (1 << 64)) as u64,
        high: (wide >> 64) as u64,
    }
}
