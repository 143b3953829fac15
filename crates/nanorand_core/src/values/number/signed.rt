//! The signed types: rank 0 is the least number, -2^(BITS - 1).
ghost use Rattle.std.specs.Prelude.{int_le, int_lt, refl};
ghost use Rattle.nanorand_core.specs.values.Range.{signed_number, signed_rank, HasSigned};
ghost use Rattle.nanorand_core.specs.support.BoundLemmas.{signed_has_number, signed_has_place, signed_ranked};
ghost use Rattle.nanorand_core.specs.support.NumberOrderLemmas.{width_8, width_16, width_32, width_64, int_le-signed, int_lt-signed};

use super::Number;

impl Number for i8 {
    const BITS: u32 = 8;

    ghost BITS = { 8 };

    ghost number = { signed_number 8 };

    ghost rank = { signed_rank 8 };

    ghost le = { int_le };

    ghost lt = { int_lt };

    ghost has_number = { HasSigned 8 };

    ghost width = { width_8 };

    ghost ranked = { signed_ranked 8 };

    ghost le_rises = { int_le-signed 8 };

    ghost lt_rises = { int_lt-signed 8 };

    ghost has_place = { signed_has_place 8 refl };

    ghost knows_place = { signed_has_number 8 refl };

    #[inline]
    fn place(self) -> u64 {
        (i128::from(self) - i128::from(i8::MIN)) as u64
    }

    #[inline]
    fn at_place(place: u64) -> i8 {
        (i128::from(place) + i128::from(i8::MIN)) as i8
    }
}

impl Number for i16 {
    const BITS: u32 = 16;

    ghost BITS = { 16 };

    ghost number = { signed_number 16 };

    ghost rank = { signed_rank 16 };

    ghost le = { int_le };

    ghost lt = { int_lt };

    ghost has_number = { HasSigned 16 };

    ghost width = { width_16 };

    ghost ranked = { signed_ranked 16 };

    ghost le_rises = { int_le-signed 16 };

    ghost lt_rises = { int_lt-signed 16 };

    ghost has_place = { signed_has_place 16 refl };

    ghost knows_place = { signed_has_number 16 refl };

    #[inline]
    fn place(self) -> u64 {
        (i128::from(self) - i128::from(i16::MIN)) as u64
    }

    #[inline]
    fn at_place(place: u64) -> i16 {
        (i128::from(place) + i128::from(i16::MIN)) as i16
    }
}

impl Number for i32 {
    const BITS: u32 = 32;

    ghost BITS = { 32 };

    ghost number = { signed_number 32 };

    ghost rank = { signed_rank 32 };

    ghost le = { int_le };

    ghost lt = { int_lt };

    ghost has_number = { HasSigned 32 };

    ghost width = { width_32 };

    ghost ranked = { signed_ranked 32 };

    ghost le_rises = { int_le-signed 32 };

    ghost lt_rises = { int_lt-signed 32 };

    ghost has_place = { signed_has_place 32 refl };

    ghost knows_place = { signed_has_number 32 refl };

    #[inline]
    fn place(self) -> u64 {
        (i128::from(self) - i128::from(i32::MIN)) as u64
    }

    #[inline]
    fn at_place(place: u64) -> i32 {
        (i128::from(place) + i128::from(i32::MIN)) as i32
    }
}

impl Number for i64 {
    const BITS: u32 = 64;

    ghost BITS = { 64 };

    ghost number = { signed_number 64 };

    ghost rank = { signed_rank 64 };

    ghost le = { int_le };

    ghost lt = { int_lt };

    ghost has_number = { HasSigned 64 };

    ghost width = { width_64 };

    ghost ranked = { signed_ranked 64 };

    ghost le_rises = { int_le-signed 64 };

    ghost lt_rises = { int_lt-signed 64 };

    ghost has_place = { signed_has_place 64 refl };

    ghost knows_place = { signed_has_number 64 refl };

    #[inline]
    fn place(self) -> u64 {
        (i128::from(self) - i128::from(i64::MIN)) as u64
    }

    #[inline]
    fn at_place(place: u64) -> i64 {
        (i128::from(place) + i128::from(i64::MIN)) as i64
    }
}

impl Number for isize {
    const BITS: u32 = 64;

    ghost BITS = { 64 };

    ghost number = { signed_number 64 };

    ghost rank = { signed_rank 64 };

    ghost le = { int_le };

    ghost lt = { int_lt };

    ghost has_number = { HasSigned 64 };

    ghost width = { width_64 };

    ghost ranked = { signed_ranked 64 };

    ghost le_rises = { int_le-signed 64 };

    ghost lt_rises = { int_lt-signed 64 };

    ghost has_place = { signed_has_place 64 refl };

    ghost knows_place = { signed_has_number 64 refl };

    #[inline]
    fn place(self) -> u64 {
        (self as i128 - isize::MIN as i128) as u64
    }

    #[inline]
    fn at_place(place: u64) -> isize {
        (i128::from(place) + isize::MIN as i128) as isize
    }
}
